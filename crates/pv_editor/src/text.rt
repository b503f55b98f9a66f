ghost use Rattle.std.specs.Prelude.{◌≡◌, ◌+◌, ◌≤◌, [], ◌++◌, length, decimal};

use itoa::Buffer;
use std::marker::Model;

/// How many bytes a text may have.
pub const ROOM: usize = 512;

/// How many digits a number has at most.
pub(crate) const LONGEST_NUMBER: usize = 20;

/// How many bytes the words of a reply have at most.
pub(crate) const LONGEST_WORDS: usize = 20;

/// A text of at most 512 bytes. Contracts see the list of its bytes.
#[derive(Clone, Copy, Debug, PartialEq, Eq)]
pub struct Text {
    length: u16,
    // After the text there are zeros, so that equal texts are equal arrays.
    bytes: [u8; ROOM],
}

impl Model for Text {
    ghost use Rattle.std.specs.Prelude.{ℕ, List, length as length_of};
    ghost use Rattle.pv_editor.specs.Texts.{text_in, IsZeroed, array_of, length-text_in, array_of-text_in};

    ghost Value = { List ℕ };

    ghost view = { λ t. text_in t.length t.bytes };

    ghost invariant = { λ t. IsZeroed t.length t.bytes };

    ghost inverse = { λ text. record { length = length_of text; bytes = array_of text } };

    ghost inverse_ok = { λ t zeroed i. record {
      length = length-text_in t.length t.bytes zeroed i;
      bytes = array_of-text_in t.length t.bytes zeroed i;
    } };
}

impl Text {
    /// The text of no bytes.
    pub(crate) fn new() -> Text
        ensures { result ≡ [] }
    {
        Text {
            length: 0,
            bytes: [0; ROOM],
        }
    }

    /// The text's bytes.
    pub fn bytes(&self) -> &[u8]
        ensures value { result.now ≡ self.now }
        ensures within { length self.now ≤ ROOM }
    {
        &self.bytes[..self.length as usize]
    }

    /// Appends bytes, which fit.
    pub(crate) fn push(&mut self, more: &[u8])
        requires { length self.old + length more.now ≤ ROOM }
        ensures { self.new ≡ self.old ++ more.now }
    {
        let from = self.length as usize;
        let to = from + more.len();
        self.bytes[from..to].copy_from_slice(more);
        self.length = to as u16;
    }

    /// Appends a number in decimal, which fits.
    pub(crate) fn push_number(&mut self, number: u64)
        requires { length self.old + LONGEST_NUMBER ≤ ROOM }
        ensures pushed { self.new ≡ self.old ++ decimal number }
        ensures short { length self.new ≤ length self.old + LONGEST_NUMBER }
    {
        self.push(Buffer::new().format(number).as_bytes());
    }
}
