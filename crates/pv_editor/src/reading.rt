ghost use Rattle.std.specs.Prelude.{◌≡◌, Some, IfSome};
ghost use Rattle.pv_words.specs.Parts.{Exactly, Gives};
ghost use Rattle.pv_frame.specs.declared.layout.TheConstants.{TITLE_CELLS};
ghost use Rattle.pv_editor.specs.declared.line.EditLine.{EditLine};
ghost use Rattle.pv_editor.specs.declared.line.EditLine.TheVariants as lines;
ghost use Rattle.pv_editor.specs.declared.change.FrameChange.TheVariants as changes;
ghost use Rattle.pv_editor.specs.Parts.{AreCells};
ghost use Rattle.pv_editor.specs.Lines.{IsLine, IsLineOf, IsLineAfter, IsChangeAfter};

use crate::cells::{FieldText, RowText, cells_after};
use crate::change::FrameChange;
use crate::groups::ProfileText;
use crate::line::EditLine;
use crate::numbers::{Digit, EditNumber, Short};
use crate::parts::{AccountText, KindText, NameText, OrDash, PageText, PasswordText};
use crate::word::{ChangeWord, Word, word_of};
use pv_edits::EditWish;
use pv_frame::TITLE_CELLS;
use pv_words::{Number, none_as, one_as, split_word, three_as, two_as};

/// How many bytes a line may have.
pub const LONGEST_LINE: usize = 512;

/// What a line says. `None` exactly when it is longer than [`LONGEST_LINE`] or none of the lines that
/// [`EditLine`] lists.
pub fn line_of(text: &[u8]) -> Option<EditLine>
    ensures found { IfSome result (IsLine text.now) }
    ensures only { (line : EditLine) → IsLine text.now line → result ≡ Some line }
{
    if text.len() > LONGEST_LINE {
        return None;
    }
    line_of_words(text)
}

/// What a line of any length says.
fn line_of_words(text: &[u8]) -> Option<EditLine>
    ensures found { IfSome result (IsLineOf text.now) }
    ensures only { (line : EditLine) → IsLineOf text.now line → result ≡ Some line }
{
    let (first, tail) = split_word(text);
    let word = word_of(first)?;
    line_after(word, tail)
}

/// What a word and the tail after it say.
fn line_after(word: Word, tail: &[u8]) -> Option<EditLine>
    ensures { Exactly (IsLineAfter word tail.now) result }
{
    match word {
        Word::LogOn => two_as(
            &AccountText,
            &PasswordText,
            tail,
            |(account, password)| EditLine::LogOn { account, password },
        ),
        Word::New => one_as(&NameText, tail, |name| EditLine::New { name }),
        Word::Open => one_as(&NameText, tail, |name| EditLine::Open { name }),
        Word::Store => one_as(&EditNumber, tail, |q| EditLine::Store { q }),
        Word::Drop => two_as(
            &EditNumber,
            &NameText,
            tail,
            |(q, name)| EditLine::Ask {
                q,
                wish: EditWish::Drop { name },
            },
        ),
        Word::Lease => three_as(
            &EditNumber,
            &PageText,
            &AccountText,
            tail,
            |(q, root, account)| EditLine::Ask {
                q,
                wish: EditWish::Lease { root, account },
            },
        ),
        Word::Account => two_as(
            &EditNumber,
            &ProfileText,
            tail,
            |(q, account)| EditLine::Ask {
                q,
                wish: EditWish::Account { account },
            },
        ),
        Word::Last => none_as(tail, EditLine::Last),
        Word::Responses => one_as(&Number, tail, |from| EditLine::Responses { from }),
        Word::Quit => none_as(tail, EditLine::Quit),
        Word::Change(word) => match change_after(word, tail) {
            Some(change) => Some(EditLine::Change { change }),
            None => None,
        },
    }
}

/// The change that a word and the tail after it say.
fn change_after(word: ChangeWord, tail: &[u8]) -> Option<FrameChange>
    ensures { Exactly (IsChangeAfter word tail.now) result }
{
    match word {
        ChangeWord::Title => title_after(tail),
        ChangeWord::Row => one_as(
            &RowText,
            tail,
            |(row, cells)| FrameChange::Row { row, cells },
        ),
        ChangeWord::Kind => one_as(&KindText, tail, |kind| FrameChange::Kind { kind }),
        ChangeWord::Route => two_as(
            &Digit,
            &OrDash { of: PageText },
            tail,
            |(digit, page)| FrameChange::Route { digit, page },
        ),
        ChangeWord::Price => one_as(&Short, tail, |price| FrameChange::Price { price }),
        ChangeWord::Group => one_as(&Short, tail, |group| FrameChange::Group { group }),
        ChangeWord::Field => one_as(
            &OrDash { of: FieldText },
            tail,
            |field| FrameChange::Field { field },
        ),
    }
}

/// The title that a tail says.
fn title_after(tail: &[u8]) -> Option<FrameChange>
    ensures { Exactly (Gives (AreCells TITLE_CELLS) (λ cells. changes.Title cells) tail.now) result }
{
    match cells_after::<TITLE_CELLS>(tail) {
        Some(cells) => Some(FrameChange::Title { cells }),
        None => None,
    }
}
