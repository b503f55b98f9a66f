ghost use Rattle.std.specs.Prelude.{◌≡◌, Some, IfSome};
ghost use Rattle.pv_words.specs.Parts.{Exactly};
ghost use Rattle.pv_script.specs.Storing.{IsStoringText, StoringAsksAs};

use crate::readers::{FrameText, RowText};
use crate::word::{StoringWord, storing_word_of};
use pv_network::{EDITORS, PORTS, Storing};
use pv_words::{AllOf, Below, Number, Reader, split_word, two_as};

/// The part of a line that is a command to store a record, in a play of this many centres.
#[derive(Clone, Copy, Debug)]
pub struct StoringText(pub u8);

impl<'a> Reader<'a> for StoringText {
    type Value = Storing<'a>;

    ghost Writes = { λ centres. IsStoringText centres.0 };

    fn read(&self, text: &'a [u8]) -> Option<Storing<'a>> {
        storing_of(text, self.0)
    }
}

/// The command to store a record that a text is in a play of this many centres. `None` exactly when it is none.
fn storing_of(text: &[u8], centres: u8) -> Option<Storing<'_>>
    ensures found { IfSome result (λ command. IsStoringText centres command text.now) }
    ensures only { (command : Storing) → IsStoringText centres command text.now → result ≡ Some command }
{
    let (first, tail) = split_word(text);
    let word = storing_word_of(first)?;
    asked_storing(word, tail, centres)
}

/// What a word and the tail after it ask a node to store. `None` exactly when they ask for nothing.
fn asked_storing(word: StoringWord, tail: &[u8], centres: u8) -> Option<Storing<'_>>
    ensures { Exactly (StoringAsksAs centres word tail.now) result }
{
    let (centre, port) = (Below(centres), Below(PORTS));
    match word {
        StoringWord::Seed => two_as(
            &FrameText,
            &RowText,
            tail,
            |(name, row)| Storing::Seed { name, row },
        ),
        StoringWord::Edit => two_as(
            &Below(EDITORS),
            &AllOf,
            tail,
            |(port, line)| Storing::Edit { port, line },
        ),
        StoringWord::Store => two_as(
            &centre,
            &port,
            tail,
            |(centre, port)| Storing::Store { centre, port },
        ),
        StoringWord::Deliver => two_as(
            &centre,
            &Number,
            tail,
            |(centre, index)| Storing::Deliver { centre, index },
        ),
        StoringWord::Back => two_as(
            &centre,
            &Number,
            tail,
            |(centre, index)| Storing::Back { centre, index },
        ),
    }
}
