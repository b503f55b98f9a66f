ghost use Rattle.std.specs.Prelude.{◌≡◌};
ghost use Rattle.pv_words.specs.Parts.{IsPart};

use crate::parts::Reader;
use std::marker::Model;

/// A part of a line, as it stands there. Contracts see the list of its bytes, so that a value that borrows one is
/// determined by them: two parts of the same bytes at two addresses are equal.
#[derive(Debug, Drop)]
pub struct Part<'a> {
    bytes: &'a [u8],
}

impl<'a> Model for Part<'a> {
    ghost use Rattle.std.specs.Prelude.{List, ℕ};

    ghost Value = { List ℕ };

    ghost view = { λ part. part.bytes.now };
}

impl<'a> Part<'a> {
    /// The part of these bytes.
    pub fn new(bytes: &'a [u8]) -> Part<'a>
        ensures { result ≡ bytes.now }
    {
        Part { bytes }
    }

    /// The bytes of the part.
    pub fn bytes(&self) -> &'a [u8]
        ensures { result.now ≡ self.now }
    {
        self.bytes
    }
}

/// The part that is all of the text, whatever it is.
#[derive(Clone, Copy, Debug)]
pub struct AllOf;

impl<'a> Reader<'a> for AllOf {
    type Value = Part<'a>;

    ghost Writes = { λ _. IsPart };

    fn read(&self, text: &'a [u8]) -> Option<Part<'a>> {
        Some(Part::new(text))
    }
}
