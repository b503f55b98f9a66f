ghost use Rattle.std.specs.Prelude.{◌≡◌, Some};
ghost use Rattle.pv_words.specs.Parts.{Exactly, Gives, GivesAlone, IsOne};
ghost use Rattle.pv_editor.specs.Parts.{IsNameText};
ghost use Rattle.pv_tape.specs.Lines.{is_comment, IsTapeLine, SaysLine, IsSaidAfter, IsFrameLine, tape_line, tape_word};

use pv_editor::{EditLine, FrameChange, NameText, line_of};
use pv_page::FrameName;
use pv_words::{one_as, split_word};

/// What a line of a tape says, after the first.
#[derive(Clone, Copy, Debug, PartialEq, Eq)]
pub(crate) enum TapeLine {
    /// Nothing: the line is empty, or begins with `;`.
    Comment,
    /// `NEW name`
    New {
        /// The name of the frame to make.
        name: FrameName,
    },
    /// `TITLE`, `ROW`, `KIND`, `ROUTE`, `PRICE`, `GROUP`, `FIELD`, as an editor types them
    Change {
        /// What is to change in the working frame.
        change: FrameChange,
    },
    /// `STORE`
    Store,
    /// `DROP name`
    Drop {
        /// The name that is to have no frame.
        name: FrameName,
    },
}

/// What a line of a tape says. `None` exactly when it is none of the lines that [`TapeLine`] lists.
pub(crate) fn tape_line_of(text: &[u8]) -> Option<TapeLine>
    ensures { Exactly (IsTapeLine text.now) result }
{
    if is_comment(text) {
        return Some(TapeLine::Comment);
    }
    said(text)
}

/// Whether a line does nothing.
fn is_comment(text: &[u8]) -> bool
    ensures { result ≡ is_comment text.now }
{
    match text {
        [] => true,
        [byte, ..] => *byte == b';',
    }
}

/// The first word of a line of a tape.
#[derive(Clone, Copy, Debug, PartialEq, Eq)]
pub(crate) enum TapeWord {
    /// `STORE`
    Store,
    /// `DROP name`
    Drop,
    /// A word of an editor's line, or none.
    Other,
}

/// What a line says that is no comment.
fn said(text: &[u8]) -> Option<TapeLine>
    ensures { Exactly (SaysLine text.now) result }
{
    let (first, tail) = split_word(text);
    said_after(word_of(first), text, tail)
}

/// Which word a line begins with.
fn word_of(first: &[u8]) -> TapeWord
    ensures { result ≡ tape_word first.now }
{
    if first == b"STORE".as_slice() {
        TapeWord::Store
    } else if first == b"DROP".as_slice() {
        TapeWord::Drop
    } else {
        TapeWord::Other
    }
}

/// What a line says by its word and its tail.
fn said_after(word: TapeWord, text: &[u8], tail: &[u8]) -> Option<TapeLine>
    ensures { Exactly (IsSaidAfter word text.now tail.now) result }
{
    match word {
        TapeWord::Store => store_after(tail),
        TapeWord::Drop => drop_after(tail),
        TapeWord::Other => frame_line(text),
    }
}

/// What `STORE` and its tail say.
fn store_after(tail: &[u8]) -> Option<TapeLine>
    ensures { Exactly (GivesAlone TapeLine.Store tail.now) result }
{
    if tail.is_empty() {
        Some(TapeLine::Store)
    } else {
        None
    }
}

/// What `DROP` and its tail say.
fn drop_after(tail: &[u8]) -> Option<TapeLine>
    ensures { Exactly (Gives (IsOne IsNameText) (λ name. TapeLine.Drop name) tail.now) result }
{
    one_as(&NameText, tail, |name| TapeLine::Drop { name })
}

/// What a line of an editor says that makes a frame.
fn frame_line(text: &[u8]) -> Option<TapeLine>
    ensures { Exactly (IsFrameLine text.now) result }
{
    match line_of(text) {
        Some(said) => tape_line(&said),
        None => None,
    }
}

/// What a line of an editor says on a tape, if it makes a frame.
fn tape_line(said: &EditLine) -> Option<TapeLine>
    ensures { result ≡ tape_line said.now }
{
    match said {
        EditLine::New { name } => Some(TapeLine::New { name: *name }),
        EditLine::Change { change } => Some(TapeLine::Change { change: *change }),
        _ => None,
    }
}
