ghost use Rattle.std.specs.Prelude.{◌≡◌, ℕ, ◌≤◌, ◌↔◌, IsSome, IfSome, Some};
ghost use Rattle.pv_page.specs.Names.{IsAccount, account_text};

use crate::digits::{are_digits, number_of};
use itoa::write_digits;
use std::marker::Model;

/// The greatest account number: ten nines.
pub const LAST_ACCOUNT: u64 = 9_999_999_999;

/// How many digits an account's text has.
pub const ACCOUNT_DIGITS: usize = 10;

/// The number of an account, 0 to 9,999,999,999.
#[derive(Clone, Copy, Debug, PartialEq, Eq, PartialOrd, Ord, Hash)]
pub struct AccountNo {
    number: u64,
}

impl Model for AccountNo {
    ghost Value = { ℕ };

    ghost view = { λ account. account.number };

    ghost invariant = { λ account. IsAccount account.number };

    ghost inverse = { λ number. record { number = number } };
}

impl AccountNo {
    /// The account of a number. `None` exactly when the number is above [`LAST_ACCOUNT`].
    pub fn of_number(number: u64) -> Option<AccountNo>
        ensures found { IsSome result ↔ IsAccount number }
        ensures value { IfSome result (λ account. account ≡ number) }
    {
        if number <= LAST_ACCOUNT {
            Some(AccountNo { number })
        } else {
            None
        }
    }

    /// The account's number.
    pub fn number(&self) -> u64
        ensures value { result ≡ self.now }
        ensures within { IsAccount self.now }
    {
        self.number
    }

    /// The account that ten decimal digits write, with zeros before its number. `None` exactly when the
    /// text has another length, or a byte that is no digit.
    #[tactic(auto, using(crate::proofs::Decimals::accounts))]
    pub fn of_digits(text: &[u8]) -> Option<AccountNo>
        ensures found { IfSome result (λ account. IsAccount account × (text.now ≡ account_text account)) }
        ensures only { (account : ℕ) → IsAccount account → text.now ≡ account_text account
            → result ≡ Some account }
    {
        if text.len() != ACCOUNT_DIGITS || !are_digits(text) {
            return None;
        }
        Some(AccountNo {
            number: number_of(text),
        })
    }

    /// The account's ten digits, with zeros before its number.
    #[tactic(auto, using(crate::proofs::Decimals::accounts))]
    pub fn digits(&self) -> [u8; ACCOUNT_DIGITS]
        ensures text { result ≡ account_text self.now }
        ensures within { IsAccount self.now }
    {
        let mut digits = [b'0'; ACCOUNT_DIGITS];
        write_digits(self.number, &mut digits, ACCOUNT_DIGITS);
        digits
    }
}
