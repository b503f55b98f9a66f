ghost use Rattle.std.specs.Prelude.{◌≡◌, ◌≤◌, ◌*◌, length, flat_map, true, All, IfSome};
ghost use Rattle.std.specs.Char.{is_ascii_digit};
ghost use Rattle.std.specs.List.{list_all};
ghost use Rattle.pv_cells.specs.declared.reading.TheConstants.{ROW_LENGTH};
ghost use Rattle.pv_fields.specs.Out.{Appends, room_of};
ghost use Rattle.pv_page.specs.Names.{IsAccount};
ghost use Rattle.pv_post.specs.Item.{is_text_cell, IsFilled};
ghost use Rattle.pv_screen.specs.Composing.{at_left, spaces};
ghost use Rattle.pv_screen.specs.Grid.{IsRow};
ghost use Rattle.pv_screen.specs.Showing.{HasCells};
ghost use Rattle.pv_session.specs.Letters.{account_of_digits, letter_from, letter_text, letter_heading, letter_body, screen_of_letter};

use crate::message::Message;
use pv_cells::ROW_LENGTH;
use pv_charge::LAST_MOMENT;
use pv_fields::Out;
use pv_frame::BODY_CELLS;
use pv_page::{ACCOUNT_DIGITS, AccountNo, FrameName};
use pv_post::{Fields, Filled, Letter, Mail, Reply, TEXT_CELLS};
use pv_screen::codes::SPACE;
use pv_screen::{COLUMNS, Grid, NAME_COLUMN, ROWS, Screen};

/// How many rows the text of a letter has.
pub const LETTER_ROWS: usize = 6;

/// A reply with these fields.
pub(crate) fn reply(account: AccountNo, name: FrameName, moment: u32, filled: &Fields) -> Reply
    requires { moment ≤ LAST_MOMENT }
    ensures { result
        ≡ record { account = account; name = name; moment = moment; fields = filled.now } }
{
    let _ = account.number();
    let _ = filled.as_slice().len();
    name.within();
    Reply {
        account,
        name,
        moment,
        fields: *filled,
    }
}

/// A letter to the account that the first field holds, with the others as its rows. `None` exactly
/// when the first field does not hold ten digits.
pub(crate) fn mail(sender: AccountNo, moment: u32, filled: &Fields) -> Option<Mail>
    requires { moment ≤ LAST_MOMENT }
    ensures { result ≡ letter_from sender moment filled.now }
{
    let _ = sender.number();
    let (first, rows) = filled.as_slice().split_first()?;
    let to = account_of(first.text())?;
    let text = text_of(rows);
    Some(Mail {
        sender,
        to,
        moment,
        text,
    })
}

/// The account whose ten digits these are. `None` exactly when they are not ten digits.
fn account_of(text: &[u8]) -> Option<AccountNo>
    ensures value { result ≡ account_of_digits text.now }
    ensures within { IfSome result IsAccount }
{
    if text.len() == ACCOUNT_DIGITS && are_digits(text) {
        AccountNo::of_digits(text)
    } else {
        None
    }
}

/// Whether each byte is a digit.
fn are_digits(text: &[u8]) -> bool
    ensures { result ≡ list_all is_ascii_digit text.now }
{
    text.iter().all(|byte| byte.is_ascii_digit())
}

/// The text of a letter with these rows, of which six count.
fn text_of(rows: &[Filled]) -> [u8; TEXT_CELLS]
    requires { All IsFilled rows.now }
    ensures value { result ≡ letter_text rows.now }
    ensures shown { list_all is_text_cell result ≡ true }
{
    let mut text = [SPACE; TEXT_CELLS];
    put_text(&rows[..rows.len().min(LETTER_ROWS)], &mut text);
    text
}

/// Writes rows into a blank text.
fn put_text(rows: &[Filled], text: &mut [u8; TEXT_CELLS])
    requires filled { All IsFilled rows.now }
    requires few { length rows.now ≤ LETTER_ROWS }
    requires blank { text.old ≡ spaces TEXT_CELLS }
    ensures shown { list_all is_text_cell text.new ≡ true }
    ensures value { text.new ≡ at_left TEXT_CELLS (flat_map (at_left ROW_LENGTH) rows.now) }
{
    let mut out = Out::new(text);
    put_rows(rows, &mut out);
}

/// Appends rows of 40 cells.
fn put_rows(rows: &[Filled], out: &mut Out)
    requires filled { All IsFilled rows.now }
    requires room { ROW_LENGTH * length rows.now ≤ room_of out.old }
    ensures { Appends out.old out.new (flat_map (at_left ROW_LENGTH) rows.now) }
{
    for row in rows {
        put_row(row, out);
    }
}

/// Appends what was keyed into a row, and spaces after it.
fn put_row(row: &Filled, out: &mut Out)
    requires { ROW_LENGTH ≤ room_of out.old }
    ensures { Appends out.old out.new (at_left ROW_LENGTH row.now) }
{
    let keyed = row.text();
    out.put_run(keyed);
    out.put_run(&[SPACE; ROW_LENGTH][..ROW_LENGTH - keyed.len()]);
}

/// The screen of a letter that waits.
pub(crate) fn letter_screen(letter: &Letter) -> Screen
    ensures value { result ≡ screen_of_letter letter.now }
    ensures cells { HasCells result }
{
    let mut grid = Grid::of_parts(&heading(letter.sender), &body(&letter.text));
    grid.set_row(ROWS as u8, &Message::KeyToDelete.row());
    Screen::Whole(grid)
}

/// Row 1 of a letter: who sent it.
fn heading(sender: AccountNo) -> [u8; COLUMNS]
    ensures value { result ≡ letter_heading sender }
    ensures row { IsRow result }
{
    let mut row = [SPACE; COLUMNS];
    row[..4].copy_from_slice(b"MAIL");
    row[NAME_COLUMN..NAME_COLUMN + ACCOUNT_DIGITS].copy_from_slice(&sender.digits());
    row
}

/// The rows 2 to 23 of a letter: its text from row 3 on.
fn body(text: &[u8; TEXT_CELLS]) -> [u8; BODY_CELLS]
    ensures { result ≡ letter_body text.now }
{
    let mut body = [SPACE; BODY_CELLS];
    body[COLUMNS..COLUMNS + TEXT_CELLS].copy_from_slice(text);
    body
}
