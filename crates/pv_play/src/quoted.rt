ghost use Rattle.std.specs.Prelude.{◌≡◌};

use std::fmt;
use std::marker::Model;

/// How many bytes of a word are quoted.
const LONGEST: usize = 40;

/// A word of the command line as a message quotes it: its first bytes between quotes. Bytes that cannot be printed, quotes
/// and backslashes are a backslash and two hexadecimal digits, so that no word moves a terminal's cursor or adds a line.
#[derive(Debug, Drop)]
pub struct Quoted<'a> {
    word: &'a str,
}

impl<'a> Model for Quoted<'a> {
    ghost use Rattle.std.specs.Prelude.{List, ℕ};

    ghost Value = { List ℕ };

    ghost view = { λ quoted. quoted.word.now };
}

impl<'a> Quoted<'a> {
    /// The quotation of a word.
    pub fn new(word: &'a str) -> Quoted<'a>
        ensures { result ≡ word.now }
    {
        Quoted { word }
    }
}

impl<'a> fmt::Display for Quoted<'a> {
    fn fmt<W: fmt::Write>(&self, f: &mut fmt::Formatter<W>) -> fmt::Result {
        let bytes = self.word.as_bytes();
        f.write_str("\"")?;
        for byte in bytes.iter().take(LONGEST) {
            match *byte {
                b'"' | b'\\' => write!(f, "\\{byte:02x}")?,
                b' '..=b'~' => f.write_char(*byte as char)?,
                _ => write!(f, "\\{byte:02x}")?,
            }
        }
        f.write_str(if bytes.len() > LONGEST { "\"..." } else { "\"" })
    }
}
