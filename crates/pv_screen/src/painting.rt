ghost use Rattle.std.specs.Prelude.{◌≡◌, ℕ, ◌+◌, ◌-◌, ◌*◌, ◌≤◌, List, ◌++◌, All, IsFalse, length, take, drop, slice_set};
ghost use Rattle.std.specs.List.{flat_map, list_all};
ghost use Rattle.pv_cells.specs.Row.{IsCell};
ghost use Rattle.pv_fields.specs.Out.{Appends, room_of};
ghost use Rattle.pv_screen.specs.Grid.{IsGrid, IsRow};
ghost use Rattle.pv_screen.specs.Terminal.{Display, IsReadyDisplay, terminal_after};
ghost use Rattle.pv_screen.specs.Painting.{painting_of, message_text, cell_bytes, cells_bytes, is_ordinary, is_space, shown_cells, line_bytes};

use crate::codes::{ATTRIBUTES, CLEAR, DOWN, ESCAPE, HOME, RETURN, SPACE, UP};
use crate::grid::{COLUMNS, Grid, ROWS};
use pv_fields::Out;

/// The number of bytes of the caller's buffer.
pub const BUFFER: usize = 2048;

/// The greatest number of bytes that paint a screen: one to clear it, and two for each cell.
pub const LONGEST: usize = 1921;

/// Writes the bytes that show `grid` to the beginning of `into`, and returns their number.
#[tactic(auto, using(crate::proofs::Steps::screen))]
pub fn paint(grid: &Grid, into: &mut [u8; BUFFER]) -> usize
    ensures value { take result into.new ≡ painting_of grid.now }
    ensures count { result ≡ length (painting_of grid.now) }
    ensures within { result ≤ LONGEST }
    ensures rest { drop result into.new ≡ drop result into.old }

    // The terminal that takes these bytes shows the grid, whatever it showed. A new terminal is one of
    // them. It only may not wait for the byte after an escape, and it does not wait for one afterwards.
    ensures shows { (t : Display) → IsFalse t.waiting
        → (terminal_after t (take result into.new)).cells ≡ grid.now }
    ensures ready { (t : Display) → IsFalse t.waiting
        → IsReadyDisplay (terminal_after t (take result into.new)) }
{
    let mut out = Out::new(into);
    put_screen(grid, &mut out);
    out.written()
}

/// Writes the bytes that put `cells` in row 24 to the beginning of `into`, and returns their number.
#[tactic(auto, using(crate::proofs::Steps::text))]
pub fn message(cells: &[u8; COLUMNS], into: &mut [u8; BUFFER]) -> usize
    ensures value { take result into.new ≡ message_text cells.now }
    ensures count { result ≡ length (message_text cells.now) }
    ensures within { result ≤ 2 + 2 * COLUMNS }
    ensures rest { drop result into.new ≡ drop result into.old }

    // The terminal that takes these bytes shows the cells in row 24, and in the other rows what it showed.
    ensures shows { All IsCell cells.now → (t : Display) → IsReadyDisplay t
        → (terminal_after t (take result into.new)).cells ≡ slice_set t.cells (ROWS - 1) cells.now }
    ensures ready { All IsCell cells.now → (t : Display) → IsReadyDisplay t
        → IsReadyDisplay (terminal_after t (take result into.new)) }

    // After any painted screen, they change row 24 of that screen alone.
    ensures after_a_screen { All IsCell cells.now → (grid : List (List ℕ)) → IsGrid grid
        → (t : Display) → IsFalse t.waiting
        → (terminal_after t (painting_of grid ++ take result into.new)).cells
        ≡ slice_set grid (ROWS - 1) cells.now }
{
    let mut out = Out::new(into);
    out.put_run(&[HOME, UP]);
    put_cells(cells, &mut out);
    out.written()
}

/// Appends the bytes that show a screen.
#[tactic(auto, using(crate::proofs::Steps::lines))]
fn put_screen(grid: &Grid, out: &mut Out)
    requires { LONGEST ≤ room_of out.old }
    ensures bytes { Appends out.old out.new (painting_of grid.now) }
    ensures cells { IsGrid grid.now }
{
    out.put_u8(CLEAR);
    let (lines, last) = grid.lines();
    put_lines(lines, out);
    put_shown(shown_cells(last), out);
}

/// Appends rows and their ends.
#[tactic(auto, using(crate::proofs::Steps::lines))]
fn put_lines(rows: &[[u8; COLUMNS]], out: &mut Out)
    requires rows { All IsRow rows.now }
    requires room { 2 * COLUMNS * length rows.now ≤ room_of out.old }
    ensures { Appends out.old out.new (flat_map line_bytes rows.now) }
{
    for row in rows {
        put_line(row, out);
    }
}

/// Appends a row and its end.
#[tactic(auto, using(crate::proofs::Steps::cells))]
fn put_line(row: &[u8; COLUMNS], out: &mut Out)
    requires { 2 * COLUMNS ≤ room_of out.old }
    ensures { Appends out.old out.new (line_bytes row.now) }
{
    let cells = shown_cells(row);
    put_shown(cells, out);
    if cells.len() < COLUMNS {
        out.put_run(&[RETURN, DOWN]);
    }
}

/// Appends the cells of a row that are shown: at once if none of them is an attribute.
#[tactic(auto, using(crate::proofs::Steps::cells))]
fn put_shown(cells: &[u8], out: &mut Out)
    requires { 2 * length cells.now ≤ room_of out.old }
    ensures { Appends out.old out.new (cells_bytes cells.now) }
{
    if cells.is_empty() {
        return;
    }
    if are_ordinary(cells) {
        out.put_run(cells);
    } else {
        put_cells(cells, out);
    }
}

/// A row without the spaces at its end.
fn shown_cells(row: &[u8; COLUMNS]) -> &[u8]
    ensures { result.now ≡ shown_cells row.now }
{
    let mut count = COLUMNS;
    while count >= 8 && are_spaces(&row[count - 8..count]) {
        count -= 8;
    }
    while count > 0 && row[count - 1] == SPACE {
        count -= 1;
    }
    &row[..count]
}

/// Whether all cells are spaces. Without a branch in the loop, eight cells are compared at once.
fn are_spaces(cells: &[u8]) -> bool
    ensures { result ≡ list_all is_space cells.now }
{
    let mut spaces = true;
    for cell in cells {
        spaces &= *cell == SPACE;
    }
    spaces
}

/// Appends cells, eight at a time.
#[tactic(auto, using(crate::proofs::Steps::cells))]
fn put_cells(cells: &[u8], out: &mut Out)
    requires { 2 * length cells.now ≤ room_of out.old }
    ensures { Appends out.old out.new (cells_bytes cells.now) }
{
    let mut at = 0;
    while at + 8 <= cells.len() {
        put_part(&cells[at..at + 8], out);
        at += 8;
    }
    put_each(&cells[at..], out);
}

/// Appends cells: at once if none of them is an attribute, and else one by one.
#[tactic(auto, using(crate::proofs::Steps::cells))]
fn put_part(cells: &[u8], out: &mut Out)
    requires { 2 * length cells.now ≤ room_of out.old }
    ensures { Appends out.old out.new (cells_bytes cells.now) }
{
    if are_ordinary(cells) {
        out.put_run(cells);
    } else {
        put_each(cells, out);
    }
}

/// Appends cells one by one.
#[tactic(auto, using(crate::proofs::Steps::cells))]
fn put_each(cells: &[u8], out: &mut Out)
    requires { 2 * length cells.now ≤ room_of out.old }
    ensures { Appends out.old out.new (cells_bytes cells.now) }
{
    for cell in cells {
        put_cell(*cell, out);
    }
}

/// Appends a cell.
fn put_cell(cell: u8, out: &mut Out)
    requires { 2 ≤ room_of out.old }
    ensures { Appends out.old out.new (cell_bytes cell) }
{
    if cell < SPACE {
        out.put_u8(ESCAPE);
        out.put_u8(cell + ATTRIBUTES);
    } else {
        out.put_u8(cell);
    }
}

/// Whether no cell is an attribute.
fn are_ordinary(cells: &[u8]) -> bool
    ensures { result ≡ list_all is_ordinary cells.now }
{
    let mut ordinary = true;
    for cell in cells {
        ordinary &= *cell >= SPACE;
    }
    ordinary
}
