ghost use Rattle.std.specs.Prelude.{◌≡◌, Some, codes};
ghost use Rattle.pv_editor.specs.Words.{are_same};
ghost use Rattle.pv_words.specs.Parts.{Exactly};
ghost use Rattle.pv_tape.specs.Lines.{IsHead, IsHeadAfter, IsFirstNumber};

use pv_account::{AccountNo, PASSWORD_BYTES};
use pv_editor::{AccountText, PasswordText};
use pv_words::{Reader, number_of, split_word, three_as};

/// The last number that a tape's first edit may have.
pub(crate) const LAST_FIRST: u32 = 4_000_000_000;

/// What the first line of a tape says: `TAPE FIRST account password`.
#[derive(Clone, Copy, Debug, PartialEq, Eq)]
pub struct Head {
    /// The number of the first edit among the account's, 1 to 4,000,000,000.
    pub first: u32,
    /// Whose edits these are.
    pub account: AccountNo,
    /// The account's password, as typed.
    pub password: [u8; PASSWORD_BYTES],
}

/// The part that is the number of a tape's first edit.
#[derive(Clone, Copy)]
struct FirstNumber;

impl<'a> Reader<'a> for FirstNumber {
    type Value = u32;

    ghost Writes = { λ _. IsFirstNumber };

    fn read(&self, text: &'a [u8]) -> Option<u32> {
        let number = number_of(text)?;
        if 1 <= number && number <= LAST_FIRST as u64 {
            Some(number as u32)
        } else {
            None
        }
    }
}

/// What the first line of a tape says. `None` exactly when it is no such line.
pub(crate) fn head_of(text: &[u8]) -> Option<Head>
    ensures { Exactly (IsHead text.now) result }
{
    let (first, tail) = split_word(text);
    if is_tape_word(first) {
        return head_after(tail);
    }
    None
}

/// Whether a word is the one that a tape begins with.
fn is_tape_word(word: &[u8]) -> bool
    ensures { result ≡ are_same word.now (codes "TAPE") }
{
    word == b"TAPE".as_slice()
}

/// What the tail of a tape's first line says.
fn head_after(tail: &[u8]) -> Option<Head>
    ensures { Exactly (IsHeadAfter tail.now) result }
{
    three_as(
        &FirstNumber,
        &AccountText,
        &PasswordText,
        tail,
        |(first, account, password)| Head {
            first,
            account,
            password,
        },
    )
}
