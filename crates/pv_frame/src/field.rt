ghost use Rattle.std.specs.Prelude.{◌≡◌};

use crate::layout::{ACCOUNT_DIGITS, FIRST_ROW, LAST_ROW};
use pv_cells::ROW_LENGTH;

/// What a field takes.
#[derive(Clone, Copy, Debug, PartialEq, Eq)]
pub enum FieldKind {
    /// Decimal digits.
    Digits,
    /// Any text.
    Words,
}

/// A field of a frame: cells of one row that a caller fills in.
#[derive(Clone, Copy, Debug, PartialEq, Eq)]
pub struct Field {
    /// The row on the screen, 2 to 23.
    pub row: u8,
    /// The column of its first cell, from 0.
    pub column: u8,
    /// How many cells it has, 1 to 40.
    pub length: u8,
    /// What it takes.
    pub kind: FieldKind,
}

impl Field {
    /// No field: an empty place of a frame, after its last field.
    pub const NONE: Field = Field {
        row: 0,
        column: 0,
        length: 0,
        kind: FieldKind::Digits,
    };
}

impl Field {
    ghost use Rattle.pv_frame.specs.Errors.{column_after, lies_in_body, meets, takes_account, takes_text};

    /// The column after the last cell.
    fn end(&self) -> usize
        ensures { result ≡ column_after self.now }
    {
        usize::from(self.column) + usize::from(self.length)
    }

    /// Whether the field has 1 to 40 cells and lies whole in a row of the body.
    pub(crate) fn lies_in_body(&self) -> bool
        ensures { result ≡ lies_in_body self.now }
    {
        (FIRST_ROW..=LAST_ROW).contains(&self.row)
            && (1..=ROW_LENGTH).contains(&usize::from(self.length))
            && self.end() <= ROW_LENGTH
    }

    /// Whether the fields share a cell.
    pub(crate) fn meets(&self, other: &Field) -> bool
        ensures { result ≡ meets self.now other.now }
    {
        self.row == other.row
            && usize::from(self.column.max(other.column)) < self.end().min(other.end())
    }

    /// Whether the field is for the number of an account.
    pub(crate) fn takes_account(&self) -> bool
        ensures { result ≡ takes_account self.now }
    {
        matches!(self.kind, FieldKind::Digits) && self.length == ACCOUNT_DIGITS
    }

    /// Whether the field is for a text.
    pub(crate) fn takes_text(&self) -> bool
        ensures { result ≡ takes_text self.now }
    {
        matches!(self.kind, FieldKind::Words)
    }
}
