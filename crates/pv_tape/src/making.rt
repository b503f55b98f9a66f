//! The working frame of a tape, line by line.
ghost use Rattle.std.specs.Prelude.{◌≡◌};
ghost use Rattle.pv_tape.specs.Tape.{is_storable, can_do, working_after, wish_on_line};

use crate::line::TapeLine;
use pv_editor::{FrameChange, Working, has_all_fields, make_change};
use pv_edits::EditWish;
use pv_frame::Frame;

/// Whether a line can be done: one that changes a frame or stores it has a working frame, there is no ninth field,
/// and what is stored is valid.
pub(crate) fn can_do(working: &Option<Working>, line: &TapeLine) -> bool
    ensures { result ≡ can_do working.now line.now }
{
    match line {
        TapeLine::Comment | TapeLine::New { .. } | TapeLine::Drop { .. } => true,
        TapeLine::Change { change } => can_change(working, change),
        TapeLine::Store => is_storable(working),
    }
}

/// Whether the working frame can be changed so.
fn can_change(working: &Option<Working>, change: &FrameChange) -> bool
    ensures { result ≡ can_do working.now (TapeLine.Change change.now) }
{
    match (working, change) {
        (None, _) => false,
        (Some(working), FrameChange::Field { field: Some(_) }) => !has_all_fields(&working.frame),
        (Some(_), _) => true,
    }
}

/// Whether there is a working frame that is valid.
fn is_storable(working: &Option<Working>) -> bool
    ensures { result ≡ is_storable working.now }
{
    match working {
        None => false,
        Some(working) => working.frame.check().is_ok(),
    }
}

/// The edit that a line asks for, if it asks for one.
pub(crate) fn wish_on_line(working: &Option<Working>, line: &TapeLine) -> Option<EditWish>
    ensures { result ≡ wish_on_line working.now line.now }
{
    match (line, working) {
        (TapeLine::Drop { name }, _) => Some(EditWish::Drop { name: *name }),
        (TapeLine::Store, Some(working)) => Some(EditWish::Put {
            name: working.name,
            frame: working.frame,
        }),
        _ => None,
    }
}

/// Does a line to the working frame.
pub(crate) fn advance(working: &mut Option<Working>, line: &TapeLine)
    ensures { working.new ≡ working_after working.old line.now }
{
    match line {
        TapeLine::New { name } => {
            *working = Some(Working {
                name: *name,
                frame: Frame::blank(),
            });
        }
        TapeLine::Change { change } => {
            if let Some(working) = working {
                make_change(&mut working.frame, change);
            }
        }
        TapeLine::Comment | TapeLine::Store | TapeLine::Drop { .. } => {}
    }
}
