ghost use Rattle.std.specs.Prelude.{◌≡◌, ◌≤◌, All, length};
ghost use Rattle.pv_cells.specs.Row.{IsCell};
ghost use Rattle.pv_frame.specs.declared.layout.TheConstants.{BODY_CELLS};

use pv_cells::LAST_CELL;
use pv_frame::{BODY_CELLS, Frame};
use pv_page::FrameName;
use pv_screen::{
    BUFFER, COLUMNS, Grid, Screen, Terminal, any_bytes_leave_a_screen, compose, paint,
    screens_are_shown,
};
use std::process::Abort;
use std::test::Fail;

const SPACE: u8 = b' ';

/// The codes of yellow letters and of what flashes, in a row of cells.
const ALPHA_YELLOW: u8 = 0x03;

const FLASH: u8 = 0x08;

/// What clears a terminal's screen, and what leads an attribute to it.
const CLEAR: u8 = 0x0C;

const ESCAPE: u8 = 0x1B;

/// Twenty-two line ends.
const LINE_ENDS: &[u8; 44] =
    b"\r\n\r\n\r\n\r\n\r\n\r\n\r\n\r\n\r\n\r\n\r\n\r\n\r\n\r\n\r\n\r\n\r\n\r\n\r\n\r\n\r\n\r\n";

/// The bytes that paint a grid, one slice after another, are `parts`.
fn assert_painted(rt: &impl Abort, grid: &Grid, parts: &[&[u8]]) {
    let mut bytes = [0xEE; BUFFER];
    let count = paint(grid, &mut bytes);
    let mut rest = &bytes[..count];
    for part in parts {
        assert!(rt; rest.len() >= part.len());
        assert_eq!(rt; &rest[..part.len()], *part);
        rest = &rest[part.len()..];
    }
    assert!(rt; rest.is_empty());
    for byte in &bytes[count..] {
        assert_eq!(rt; *byte, 0xEE);
    }
}

/// A row that begins with `text`, whose bytes are at most 0x7F.
fn row_of(text: &[u8]) -> [u8; COLUMNS]
    requires { length text.now ≤ COLUMNS }
    ensures { All IsCell result }
{
    let mut row = [SPACE; COLUMNS];
    for (at, byte) in text.iter().enumerate() {
        row[at] = *byte & LAST_CELL;
    }
    row
}

#[test]
fn a_title_and_one_row(rt: HostRuntime) {
    let mut grid = Grid::blank();
    grid.set_row(1, &row_of(b"                         1a"));
    grid.set_row(2, &row_of(b"HELLO"));
    assert_painted(
        &rt,
        &grid,
        &[b"\x0c                         1a\r\nHELLO", LINE_ENDS],
    );
}

#[test]
fn a_blank_screen(rt: HostRuntime) {
    assert_painted(&rt, &Grid::blank(), &[b"\x0c\r\n", LINE_ENDS]);
}

#[test]
fn an_attribute_in_the_last_column(rt: HostRuntime) {
    let mut grid = Grid::blank();
    grid.set_row(1, &row_of(b"AAAAAAAAAAAAAAAAAAAAAAAAAAAAAAAAAAAAAAA\x03"));
    grid.set_row(2, &row_of(b"A\x03"));
    assert_painted(
        &rt,
        &grid,
        &[
            b"\x0cAAAAAAAAAAAAAAAAAAAAAAAAAAAAAAAAAAAAAAA\x1bCA\x1bC",
            LINE_ENDS,
        ],
    );
}

#[test]
fn a_full_last_row(rt: HostRuntime) {
    let mut grid = Grid::blank();
    grid.set_row(24, &[b'Z'; COLUMNS]);
    assert_painted(
        &rt,
        &grid,
        &[
            b"\x0c\r\n",
            LINE_ENDS,
            b"ZZZZZZZZZZZZZZZZZZZZZZZZZZZZZZZZZZZZZZZZ",
        ],
    );
}

#[test]
fn a_screen_of_attributes_is_the_longest(rt: HostRuntime) -> Result<(), Fail> {
    let mut grid = Grid::blank();
    for row in 1..=24 {
        grid.set_row(row, &[FLASH; COLUMNS]);
    }
    let mut bytes = [0; BUFFER];
    let count = Screen::Whole(grid).bytes(&mut bytes);
    assert_eq!(rt; count, 1921);
    assert_eq!(rt; &bytes[..5], b"\x0c\x1bH\x1bH".as_slice());
    assert_eq!(rt; &bytes[1917..1921], b"\x1bH\x1bH".as_slice());
    Ok(())
}

/// Writes cells at the beginning of a body.
fn put_first(cells: &[u8], body: &mut [u8; BODY_CELLS])
    requires { length cells.now ≤ BODY_CELLS }
    ensures { length body.new ≡ BODY_CELLS }
{
    body[..cells.len()].copy_from_slice(cells);
}

/// A frame that is blank except for the cells at the beginning of its body.
fn frame_of(cells: &[u8]) -> Frame
    requires { length cells.now ≤ BODY_CELLS }
{
    let mut frame = Frame::blank();
    put_first(cells, &mut frame.body);
    frame
}

/// The screen of a frame whose name is `text`.
fn composed_screen(frame: &Frame, text: &[u8]) -> Result<Grid, Fail> {
    let name = FrameName::of_text(text).ok_or("a name")?;
    frame.check().ok().ok_or("a frame")?;
    Ok(compose(frame, name))
}

#[test]
fn the_longest_name_stands_beside_a_price(rt: HostRuntime) -> Result<(), Fail> {
    let mut frame = frame_of(b"AAAAAAAAAAAAAAAAAAAAAAAAAAAAAAAAAAAAAAA\x03A\x03");
    frame.title = *b"TWENTY-FOUR CELLS, ALL..";
    frame.price = 99;
    let grid = composed_screen(&frame, b"999999999z")?;
    assert_painted(
        &rt,
        &grid,
        &[
            b"\x0cTWENTY-FOUR CELLS, ALL.. 999999999z  99p",
            b"AAAAAAAAAAAAAAAAAAAAAAAAAAAAAAAAAAAAAAA\x1bCA\x1bC\r\n",
            &LINE_ENDS[..40],
        ],
    );
    Ok(())
}

#[test]
fn a_price_ends_with_its_row(rt: HostRuntime) -> Result<(), Fail> {
    let mut frame = frame_of(b"NEWS");
    let texts: [(u16, &[u8]); 3] = [
        (0, b"\x0c                         1a\r\nNEWS"),
        (5, b"\x0c                         1a           5pNEWS"),
        (99, b"\x0c                         1a          99pNEWS"),
    ];
    for (price, text) in texts {
        frame.price = price;
        let grid = composed_screen(&frame, b"1a")?;
        assert_painted(&rt, &grid, &[text, LINE_ENDS]);
    }
    Ok(())
}

#[test]
fn a_message_sends_its_spaces(rt: HostRuntime) -> Result<(), Fail> {
    let mut cells = [SPACE; COLUMNS];
    cells[0] = ALPHA_YELLOW;
    cells[1] = b'!';
    let mut bytes = [0; BUFFER];
    let count = Screen::Row(cells).bytes(&mut bytes);
    assert_eq!(rt;
        &bytes[..count],
        b"\x1e\x0b\x1bC!                                      ".as_slice()
    );
    Ok(())
}

#[test]
fn rows_are_counted_from_one(rt: HostRuntime) {
    let mut grid = Grid::blank();
    grid.set_row(24, &[b'Z'; COLUMNS]);
    assert_eq!(rt; grid.row(24)[39], b'Z');
    assert_eq!(rt; grid.row(23)[0], SPACE);
    assert_eq!(rt; grid == Grid::blank(), false);
}

/// What a terminal shows at a row, from 1, and a column, from 0.
fn cell_at(rt: &impl Abort, terminal: &Terminal, row: u8, column: usize) -> u8 {
    assert!(rt; row >= 1 && row <= 24 && column < 40);
    terminal.grid().row(row)[column]
}

/// A terminal that shows `AB` in row 1, with its cursor at the third column of row 2.
fn in_the_middle() -> Terminal {
    let mut terminal = Terminal::new();
    for byte in b"AB\n" {
        terminal.take(*byte);
    }
    terminal
}

/// Where the cursor is after a byte from there, if the byte is no cell.
fn place_after(byte: u8) -> (u8, usize) {
    match byte {
        0x08 => (2, 1),
        0x09 => (2, 3),
        0x0A => (3, 2),
        0x0B => (1, 2),
        0x0C | 0x1E => (1, 0),
        0x0D => (2, 0),
        0x20..=0x7F => (2, 3),
        _ => (2, 2),
    }
}

#[test]
fn each_byte_moves_the_cursor(rt: HostRuntime) {
    for byte in 0..=255 {
        if byte != ESCAPE {
            let mut terminal = in_the_middle();
            terminal.take(byte);
            let blank = if byte == CLEAR { SPACE } else { b'A' };
            assert_eq!(rt; cell_at(&rt, &terminal, 1, 0), blank);
            let written = if matches!(byte, 0x20..=0x7F) {
                byte
            } else {
                SPACE
            };
            assert_eq!(rt; cell_at(&rt, &terminal, 2, 2), written);
            let (row, column) = place_after(byte);
            terminal.take(b'X');
            assert_eq!(rt; cell_at(&rt, &terminal, row, column), b'X', "after {byte}");
        }
    }
}

#[test]
fn each_byte_after_an_escape(rt: HostRuntime) {
    for byte in 0..=255 {
        let mut terminal = in_the_middle();
        terminal.take(ESCAPE);
        terminal.take(byte);
        terminal.take(b'X');
        if matches!(byte, 0x40..=0x5F) {
            assert_eq!(rt; cell_at(&rt, &terminal, 2, 2), byte - 0x40);
            assert_eq!(rt; cell_at(&rt, &terminal, 2, 3), b'X', "after {byte}");
        } else {
            assert_eq!(rt; cell_at(&rt, &terminal, 2, 2), b'X', "after {byte}");
            assert_eq!(rt; cell_at(&rt, &terminal, 2, 3), SPACE);
        }
        assert_eq!(rt; cell_at(&rt, &terminal, 1, 0), b'A');
    }
}

#[test]
fn a_painted_screen_and_a_message_are_shown(rt: HostRuntime) {
    let mut grid = Grid::blank();
    grid.set_row(1, &row_of(b"AAAAAAAAAAAAAAAAAAAAAAAAAAAAAAAAAAAAAAA\x03"));
    grid.set_row(2, &row_of(b"A\x03"));
    grid.set_row(24, &row_of(b"\x0dEND"));
    let mut terminal = in_the_middle();
    send(&mut terminal, &Screen::Whole(grid));
    assert_eq!(rt; *terminal.grid(), grid);
    let row = row_of(b"KEY YOUR ACCOUNT NUMBER");
    send(&mut terminal, &Screen::Row(row));
    grid.set_row(24, &row);
    assert_eq!(rt; *terminal.grid(), grid);
    any_bytes_leave_a_screen();
    screens_are_shown();
}

/// Gives the bytes of a screen to a terminal.
fn send(terminal: &mut Terminal, screen: &Screen) {
    let mut bytes = [0; BUFFER];
    let count = screen.bytes(&mut bytes);
    for byte in &bytes[..count] {
        terminal.take(*byte);
    }
}
