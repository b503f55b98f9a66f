//! The parts of a line that are cells in notation, and the fields and rows of a frame.

ghost use Rattle.std.specs.Prelude.{◌≡◌, ℕ, List, Some, IfSome};
ghost use Rattle.pv_editor.specs.Parts.{AreCells, IsRowCells, IsFieldText};

use crate::numbers::{Byte, RowNumber};
use crate::parts::FieldKindText;
use crate::row::BodyRow;
use pv_cells::{ROW_LENGTH, cells_of};
use pv_frame::Field;
use pv_words::{Reader, split_word, three};

/// The cells that a tail is the notation of, filled up with blanks. `None` exactly when it is none of
/// cells that fit. No tail, and a space alone, are blank cells.
pub(crate) fn cells_after<const N: usize>(tail: &[u8]) -> Option<[u8; N]>
    ensures found { IfSome result (AreCells N tail.now) }
    ensures only { (cells : List ℕ) → AreCells N tail.now cells → result ≡ Some cells }
{
    match tail.split_first() {
        None => cells_of::<N>(tail).ok(),
        Some((space, text)) => {
            if *space == b' ' {
                cells_of::<N>(text).ok()
            } else {
                None
            }
        }
    }
}

/// The part that is the number of a row, and its cells.
#[derive(Clone, Copy)]
pub(crate) struct RowText;

impl<'a> Reader<'a> for RowText {
    type Value = (BodyRow, [u8; ROW_LENGTH]);

    ghost Writes = { λ _. IsRowCells };

    fn read(&self, text: &'a [u8]) -> Option<(BodyRow, [u8; ROW_LENGTH])> {
        let (word, later) = split_word(text);
        let row = RowNumber.read(word)?;
        let cells = cells_after::<ROW_LENGTH>(later)?;
        Some((row, cells))
    }
}

/// The part that is a field.
#[derive(Clone, Copy)]
pub(crate) struct FieldText;

impl<'a> Reader<'a> for FieldText {
    type Value = Field;

    ghost Writes = { λ _. IsFieldText };

    fn read(&self, text: &'a [u8]) -> Option<Field> {
        let (word, later) = split_word(text);
        let row = Byte.read(word)?;
        let (column, length, kind) = three(&Byte, &Byte, &FieldKindText, later)?;
        Some(Field {
            row,
            column,
            length,
            kind,
        })
    }
}
