ghost use Rattle.std.specs.Prelude.{◌≡◌, [], ◌++◌, IsNone, IsSome};
ghost use Rattle.pv_page.specs.Names.{IsAccount, account_text};
ghost use Rattle.pv_words.specs.Parts.{Exactly};
ghost use Rattle.pv_session.specs.Entries.{key_if};
ghost use Rattle.std.specs.Char.{is_ascii_digit};

use crate::gathered::Gathered;
use pv_account::AccountNo;
use pv_page::ACCOUNT_DIGITS;
use std::marker::Model;

/// Reads the ten digits of an account. Contracts see the digits so far.
#[derive(Clone, Copy, Debug, PartialEq, Eq)]
pub(crate) struct DigitReader {
    digits: Gathered<ACCOUNT_DIGITS>,
}

impl Model for DigitReader {
    ghost use Rattle.std.specs.Prelude.{ℕ, List};
    ghost use Rattle.std.specs.Str.Parse.{AllDigits};

    ghost Value = { List ℕ };

    ghost view = { λ reader. reader.digits };

    ghost invariant = { λ reader. AllDigits 10 reader.digits };

    ghost inverse = { λ digits. record { digits = digits } };
}

impl DigitReader {
    /// A reader that has had no digit.
    pub(crate) fn new() -> DigitReader
        ensures { result ≡ [] }
    {
        DigitReader {
            digits: Gathered::new(),
        }
    }

    /// Takes a byte, and returns the account at the tenth digit. Then it is as new.
    pub(crate) fn take(&mut self, byte: u8) -> Option<AccountNo>
        ensures account { Exactly (λ n. IsAccount n
            × (self.old ++ key_if (is_ascii_digit byte) byte ≡ account_text n)) result }
        ensures waits { IsNone result → self.new ≡ self.old ++ key_if (is_ascii_digit byte) byte }
        ensures new { IsSome result → self.new ≡ [] }
    {
        let digits = self.digits.take(byte, byte.is_ascii_digit())?;
        AccountNo::of_digits(&digits)
    }
}
