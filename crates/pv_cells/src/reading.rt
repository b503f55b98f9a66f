ghost use Rattle.std.specs.Prelude.{◌≡◌, ℕ, ◌<◌, ◌≤◌, List, replicate, length, Some, None, Ok, IfSome, IfOk, IsNone};
ghost use Rattle.std.specs.Char.{digit_value};
ghost use Rattle.std.specs.List.{All};
ghost use Rattle.std.specs.Option.{SomeIff};
ghost use Rattle.pv_fields.specs.Padded.{padded_list};
ghost use Rattle.pv_fields.specs.Refusals.{first_of};
ghost use Rattle.pv_fields.specs.Reading.{many_at};
ghost use Rattle.pv_cells.specs.Notation.{notation_at};
ghost use Rattle.pv_cells.specs.Row.{IsCell, SpellsCells, cell_at, row_errors, row_of_text};

use crate::error::NotationError;
use crate::writing::{BACKSLASH, is_plain};

/// How many cells a row of the screen has.
pub const ROW_LENGTH: usize = 40;

/// The cell that shows nothing: a space.
pub const BLANK: u8 = 0x20;

/// The highest cell.
pub const LAST_CELL: u8 = 0x7f;

/// Reads a row of forty cells from its notation. A shorter row is filled up with blank cells.
///
/// The first error from the left is returned. A text with more than forty cells is
/// [`TooLong`](NotationError::TooLong) at the place where the 41st begins, whatever is there. A backslash
/// that two hexadecimal digits do not follow, or whose number is over 127, is
/// [`BadEscape`](NotationError::BadEscape), and a byte outside 0x20 to 0x7E is
/// [`BadByte`](NotationError::BadByte).
pub fn row_of(text: &[u8]) -> Result<[u8; ROW_LENGTH], NotationError>
    ensures reads { result ≡ row_of_text ROW_LENGTH text.now }

    // What is read is spelled by the text, and each such row is read.
    ensures found { IfOk result (SpellsCells ROW_LENGTH text.now) }
    ensures only { (row : List ℕ) → SpellsCells ROW_LENGTH text.now row → result ≡ Ok row }
    ensures cells { IfOk result (λ row. All IsCell row) }
{
    cells_of::<ROW_LENGTH>(text)
}

/// Reads a row of `N` cells, as [`row_of`] does one of forty: a title has fewer.
#[tactic(auto, using(crate::proofs::Rows::row_found, crate::proofs::Rows::row_cells))]
pub fn cells_of<const N: usize>(text: &[u8]) -> Result<[u8; N], NotationError>
    ensures reads { result ≡ row_of_text N text.now }

    // What is read is spelled by the text, and each such row is read.
    ensures found { IfOk result (SpellsCells N text.now) }
    ensures only { (row : List ℕ) → SpellsCells N text.now row → result ≡ Ok row }
    ensures cells { IfOk result (λ row. All IsCell row) }
{
    let mut row = [BLANK; N];
    let (count, rest) = fill(&mut row, text);
    match row_error(count == N, text.len().saturating_sub(rest.len()), rest) {
        Some(error) => Err(error),
        None => Ok(row),
    }
}

/// Reads cells into a blank row while it has room: returns their count, and the rest of the text.
#[tactic(auto, using(crate::proofs::Rows::filling))]
fn fill<'a>(row: &mut [u8], text: &'a [u8]) -> (usize, &'a [u8])
    requires { row.old ≡ replicate (length row.old) BLANK }
    ensures row { row.new ≡ padded_list BLANK (length row.old) (many_at cell_at (length row.old) text.now).0 }
    ensures count { result.0 ≡ length (many_at cell_at (length row.old) text.now).0 }
    ensures rest { result.1.now ≡ (many_at cell_at (length row.old) text.now).1 }
{
    let mut rest = text;
    let mut count = 0;
    while count < row.len() {
        let Some((cell, after)) = first_cell(rest) else {
            break;
        };
        row[count] = cell;
        count += 1;
        rest = after;
    }
    (count, rest)
}

/// The error of a text, of which the rest at this place was not read.
fn row_error(is_full: bool, at: usize, rest: &[u8]) -> Option<NotationError>
    ensures { result ≡ first_of (row_errors is_full at rest.now) }
{
    let first = rest.first()?;
    if is_full {
        return Some(NotationError::TooLong);
    }
    if *first == BACKSLASH {
        return Some(NotationError::BadEscape { at });
    }
    Some(NotationError::BadByte { at })
}

/// The cell that a text begins with, and the rest of the text. `None` if it begins with no cell.
fn first_cell(text: &[u8]) -> Option<(u8, &[u8])>
    ensures found { IfSome result (λ cell. cell_at text.now ≡ Some (cell.0, cell.1.now)) }
    ensures missing { IsNone result → cell_at text.now ≡ None }
{
    let (cell, rest) = first_byte(text)?;
    if cell > LAST_CELL {
        return None;
    }
    Some((cell, rest))
}

/// The byte that a text in notation begins with, and the rest of the text: the notation of the bytes
/// after it.
///
/// A byte of 0x20 to 0x7E except the backslash is itself. A backslash and two hexadecimal digits of
/// either case are the byte of that number, 0 to 255. `None` if the text begins with neither.
pub fn first_byte(text: &[u8]) -> Option<(u8, &[u8])>
    ensures found { IfSome result (λ byte. notation_at text.now ≡ Some (byte.0, byte.1.now)) }
    ensures missing { IsNone result → notation_at text.now ≡ None }
{
    let (first, rest) = text.split_first()?;
    if is_plain(*first) {
        return Some((*first, rest));
    }
    if *first != BACKSLASH {
        return None;
    }
    let [high, low, rest @ ..] = rest else {
        return None;
    };
    let high = hexadecimal(*high)?;
    let low = hexadecimal(*low)?;
    Some((16 * high + low, rest))
}

/// The number of a hexadecimal digit.
fn hexadecimal(digit: u8) -> Option<u8>
    ensures { SomeIff result (digit_value digit < 16) (digit_value digit) }
{
    match digit {
        b'0'..=b'9' => Some(digit - b'0'),
        b'a'..=b'f' => Some(digit - b'a' + 10),
        b'A'..=b'F' => Some(digit - b'A' + 10),
        _ => None,
    }
}
