ghost use Rattle.std.specs.Prelude.{◌≡◌, ◌+◌, ◌-◌, ◌≤◌, [], ◌∷◌, ◌++◌, length, take, drop, slice_index_or, slice_range, All};
ghost use Rattle.std.specs.List.{concat};
ghost use Rattle.pv_fields.specs.Out.{Appends, room_of};
ghost use Rattle.pv_page.specs.Names.{IsName, name_text};
ghost use Rattle.pv_cells.specs.Row.{IsCell};
ghost use Rattle.pv_frame.specs.declared.layout.TheConstants.{LAST_PRICE, TITLE_CELLS};
ghost use Rattle.pv_frame.specs.Errors.{HasRanges};
ghost use Rattle.pv_screen.specs.Composing.{composed_grid, heading, body_rows, price_text, spaces, at_left, at_right};
ghost use Rattle.pv_screen.specs.Grid.{IsGrid, IsRow};

use crate::codes::SPACE;
use crate::grid::{COLUMNS, Grid, ROWS};
use itoa::Buffer;
use pv_fields::Out;
use pv_frame::{BODY_CELLS, Frame, LAST_PRICE, TITLE_CELLS};
use pv_page::FrameName;

/// The column of row 1 at which a frame's name begins, counted from 0.
pub const NAME_COLUMN: usize = 25;

/// The first of the columns of row 1 that a price has. The price ends with the last one.
pub const PRICE_COLUMN: usize = 36;

/// The screen of a frame: its title, its name and its price in row 1, its body in rows 2 to 23, and a blank row 24.
/// The cells of the frame and its price must be in range.
#[tactic(auto, using(crate::proofs::Steps::standing))]
pub fn compose(frame: &Frame, name: FrameName) -> Grid
    requires { HasRanges frame.now }
    ensures value { result ≡ composed_grid frame.now name }
    ensures cells { IsGrid result }

    // Row 1 begins with the title, has the name from its column on, and ends with the price.
    ensures title { take TITLE_CELLS (slice_index_or result 0 []) ≡ frame.now.title }
    ensures name { take (length (name_text name)) (drop NAME_COLUMN (slice_index_or result 0 []))
        ≡ name_text name }
    ensures price { drop (COLUMNS - length (price_text frame.now.price)) (slice_index_or result 0 [])
        ≡ price_text frame.now.price }

    // Rows 2 to 23, one after another, are the body, and row 24 is blank.
    ensures body { concat (slice_range result 1 (ROWS - 1)) ≡ frame.now.body }
    ensures foot { slice_index_or result (ROWS - 1) [] ≡ spaces COLUMNS }
{
    Grid::of_parts(&heading(frame, name), &frame.body)
}

/// Row 1 of a frame's screen.
#[tactic(auto, using(crate::proofs::Steps::grids))]
fn heading(frame: &Frame, name: FrameName) -> [u8; COLUMNS]
    requires { HasRanges frame.now }
    ensures value { result ≡ heading frame.now name }
    ensures row { IsRow result }
{
    let mut row = [SPACE; COLUMNS];
    put_heading(frame, name, &mut row);
    row
}

/// Writes row 1 of a frame's screen.
fn put_heading(frame: &Frame, name: FrameName, row: &mut [u8; COLUMNS])
    requires { HasRanges frame.now }
    ensures value { row.new ≡ heading frame.now name }
    ensures row { IsRow (heading frame.now name) }
{
    let mut out = Out::new(row);
    out.put_run(&frame.title);
    out.put_u8(SPACE);
    put_name(name, &mut out);
    put_price(frame.price, &mut out);
}

/// Appends a frame's name, and then spaces up to the price.
fn put_name(name: FrameName, out: &mut Out)
    requires { PRICE_COLUMN - NAME_COLUMN ≤ room_of out.old }
    ensures bytes { Appends out.old out.new (at_left (PRICE_COLUMN - NAME_COLUMN) (name_text name)) }
    ensures within { IsName name }
{
    let mut text = [0; 10];
    let len = name.text(&mut text);
    out.put_run(&text[..len]);
    put_spaces(PRICE_COLUMN - NAME_COLUMN - len, out);
}

/// Appends a price after spaces, so that it ends with the row.
#[tactic(auto, using(crate::proofs::Steps::price))]
fn put_price(price: u16, out: &mut Out)
    requires price { price ≤ LAST_PRICE }
    requires room { COLUMNS - PRICE_COLUMN ≤ room_of out.old }
    ensures { Appends out.old out.new (at_right (COLUMNS - PRICE_COLUMN) (price_text price)) }
{
    if price == 0 {
        put_spaces(COLUMNS - PRICE_COLUMN, out);
        return;
    }
    let mut buffer = Buffer::new();
    let digits = buffer.format(price).as_bytes();
    put_spaces(COLUMNS - PRICE_COLUMN - digits.len() - 1, out);
    out.put_run(digits);
    out.put_u8(b'p');
}

/// Appends spaces.
fn put_spaces(count: usize, out: &mut Out)
    requires few { count ≤ COLUMNS }
    requires room { count ≤ room_of out.old }
    ensures { Appends out.old out.new (spaces count) }
{
    out.put_run(&[SPACE; COLUMNS][..count]);
}
