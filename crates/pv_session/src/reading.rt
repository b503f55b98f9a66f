ghost use Rattle.std.specs.Prelude.{◌≡◌, ◌++◌};
ghost use Rattle.pv_words.specs.Parts.{Exactly};
ghost use Rattle.pv_session.specs.Entries.{is_password_character, mode_keys, leaves_mode, keys_left, IsEntry};
ghost use Rattle.pv_session.specs.Reading.{mode_of, keys_so_far};

use crate::digits::DigitReader;
use crate::entry::Entry;
use crate::field::FieldReader;
use crate::gathered::Gathered;
use pv_account::PASSWORD_BYTES;
use pv_keys::KeyReader;

/// What a caller is asked for, and the keys of it so far.
#[derive(Clone, Copy, Debug, PartialEq, Eq)]
pub(crate) enum Reading {
    /// The number of his account.
    Account(DigitReader),
    /// His password.
    Password(Gathered<PASSWORD_BYTES>),
    /// A command.
    Browse(KeyReader),
    /// What fills a field.
    Fill(FieldReader),
    /// Whether what he filled in is sent.
    Question,
    /// Whether the letter of this number is deleted.
    Letter(u64),
}

impl Reading {
    /// Whether a byte leaves what is asked for, and is the first of a command.
    pub(crate) fn is_left_by(&self, byte: u8) -> bool
        ensures { result ≡ leaves_mode (mode_of self.now) byte }
    {
        match self {
            Reading::Account(_) | Reading::Password(_) | Reading::Browse(_) => false,
            Reading::Fill(_) | Reading::Question => byte == b'*',
            Reading::Letter(_) => byte != b'1',
        }
    }

    /// Takes a byte, and returns the entry that it makes, if it makes one. Then no key is kept.
    pub(crate) fn take(&mut self, byte: u8) -> Option<Entry>
        ensures entry { Exactly (IsEntry (mode_of self.old)
            (keys_so_far self.old ++ mode_keys (mode_of self.old) byte)) result }
        ensures mode { mode_of self.new ≡ mode_of self.old }
        ensures keys { keys_so_far self.new ≡ keys_left (mode_of self.old)
            (keys_so_far self.old ++ mode_keys (mode_of self.old) byte) result }
    {
        match self {
            Reading::Account(digits) => digits.take(byte).map(Entry::Account),
            Reading::Password(characters) => {
                let counts = is_password_character(byte);
                characters.take(byte, counts).map(Entry::Password)
            },
            Reading::Browse(keys) => keys.take(byte).map(Entry::Command),
            Reading::Fill(reader) => reader.take(byte).map(Entry::Field),
            Reading::Question => match byte {
                b'1' => Some(Entry::Send),
                b'2' => Some(Entry::Keep),
                _ => None,
            },
            Reading::Letter(number) => match byte {
                b'1' => Some(Entry::Delete(*number)),
                _ => None,
            },
        }
    }
}

/// Whether a byte can be a character of a password: a printed one that is neither a space nor a
/// key.
fn is_password_character(byte: u8) -> bool
    ensures { result ≡ is_password_character byte }
{
    matches!(byte, b'!'..=b'~') && !matches!(byte, b'*' | b'#' | b'_')
}
