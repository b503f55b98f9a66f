//! The lines of a statement, each spelled into a slice with room for any.
ghost use Rattle.std.specs.Prelude.{◌≡◌, ◌+◌, ◌<◌, ◌≤◌, take, true};
ghost use Rattle.pv_fields.specs.Out.{room_of, Appends};
ghost use Rattle.pv_statement.specs.Months.{is_in_month, day_in_month};
ghost use Rattle.pv_statement.specs.Statement.{two_digits, month_text, date_text, time_text, head_text, statement_line, sum_text};
ghost use Rattle.pv_page.specs.Names.{name_text};

use crate::month::Month;
use itoa::Buffer;
use pv_charge::Line;
use pv_fields::Out;
use pv_page::{AccountNo, FrameName};

/// How many seconds a day has.
pub(crate) const DAY_SECONDS: u32 = 86_400;

/// How many seconds an hour has.
pub(crate) const HOUR_SECONDS: u32 = 3_600;

/// How many seconds a minute has.
pub(crate) const MINUTE_SECONDS: u32 = 60;

/// The base of the digits.
pub(crate) const BASE: u8 = 10;

/// Numbers below this have two digits at most.
pub(crate) const TWO_DIGITS_END: u8 = 100;

/// How many bytes a line of a statement has at most, with its end.
pub(crate) const LINE_ROOM: usize = 64;

/// How many bytes a date has, a month, a time, and two digits.
pub(crate) const DATE_BYTES: usize = 10;

pub(crate) const MONTH_BYTES: usize = 7;

pub(crate) const TIME_BYTES: usize = 8;

pub(crate) const TWO_BYTES: usize = 2;

/// How many bytes a frame's name has at most.
pub(crate) const NAME_BYTES: usize = 10;

/// Spells the first line, and returns how many bytes it has.
#[tactic(auto, using(crate::proofs::Texts::spelled))]
pub(crate) fn spell_head(account: AccountNo, month: &Month, into: &mut [u8; LINE_ROOM]) -> usize
    ensures within { result ≤ LINE_ROOM }
    ensures spelled { take result into.new ≡ head_text account month.now.year month.now.number }
{
    let mut out = Out::new(into);
    out.put_run(b"STATEMENT ");
    out.put_run(&account.digits());
    out.put_run(b" ");
    put_month(&mut out, month);
    out.put_run(b"\n");
    out.written()
}

/// Spells a line of the bill, and returns how many bytes it has. Its date lies in the month.
#[tactic(auto, using(crate::proofs::Texts::spelled))]
pub(crate) fn spell_line(month: &Month, line: &Line, into: &mut [u8; LINE_ROOM]) -> usize
    requires { is_in_month month.now.year month.now.number line.now.moment ≡ true }
    ensures within { result ≤ LINE_ROOM }
    ensures spelled { take result into.new ≡ statement_line month.now.year month.now.number line.now }
{
    line.within();
    let mut out = Out::new(into);
    put_date(&mut out, month, line.moment);
    out.put_run(b" ");
    put_time(&mut out, line.moment);
    out.put_run(b" ");
    put_name(&mut out, &line.name);
    out.put_run(b" ");
    out.put_run(Buffer::new().format(line.price).as_bytes());
    out.put_run(b"\n");
    out.written()
}

/// Spells the last line, and returns how many bytes it has.
#[tactic(auto, using(crate::proofs::Texts::spelled))]
pub(crate) fn spell_sum(pence: u64, into: &mut [u8; LINE_ROOM]) -> usize
    ensures within { result ≤ LINE_ROOM }
    ensures spelled { take result into.new ≡ sum_text pence }
{
    let mut out = Out::new(into);
    out.put_run(b"SUM ");
    out.put_run(Buffer::new().format(pence).as_bytes());
    out.put_run(b"\n");
    out.written()
}

/// Appends the date of a moment that lies in the month.
#[tactic(auto, using(crate::proofs::Texts::spelled))]
fn put_date(out: &mut Out, month: &Month, moment: u32)
    requires room { DATE_BYTES ≤ room_of out.old }
    requires within { is_in_month month.now.year month.now.number moment ≡ true }
    ensures appends { Appends out.old out.new (date_text month.now.year month.now.number
        (day_in_month month.now.year month.now.number moment)) }
    ensures short { room_of out.old ≤ room_of out.new + DATE_BYTES }
{
    put_month(out, month);
    out.put_run(b"-");
    put_two(out, (moment / DAY_SECONDS - month.first + 1) as u8);
}

/// Appends a year and a month.
#[tactic(auto, using(crate::proofs::Texts::spelled))]
fn put_month(out: &mut Out, month: &Month)
    requires { MONTH_BYTES ≤ room_of out.old }
    ensures appends { Appends out.old out.new (month_text month.now.year month.now.number) }
    ensures short { room_of out.old ≤ room_of out.new + MONTH_BYTES }
{
    out.put_run(Buffer::new().format(month.year).as_bytes());
    out.put_run(b"-");
    put_two(out, month.number);
}

/// Appends the time in its day of a moment.
#[tactic(auto, using(crate::proofs::Texts::spelled))]
fn put_time(out: &mut Out, moment: u32)
    requires { TIME_BYTES ≤ room_of out.old }
    ensures appends { Appends out.old out.new (time_text moment) }
    ensures short { room_of out.old ≤ room_of out.new + TIME_BYTES }
{
    put_two(out, (moment % DAY_SECONDS / HOUR_SECONDS) as u8);
    out.put_run(b":");
    put_two(out, (moment % HOUR_SECONDS / MINUTE_SECONDS) as u8);
    out.put_run(b":");
    put_two(out, (moment % MINUTE_SECONDS) as u8);
}

/// Appends a frame's name.
#[tactic(auto, using(crate::proofs::Texts::spelled))]
fn put_name(out: &mut Out, name: &FrameName)
    requires { NAME_BYTES ≤ room_of out.old }
    ensures appends { Appends out.old out.new (name_text name.now) }
    ensures short { room_of out.old ≤ room_of out.new + NAME_BYTES }
{
    let mut text = [0; NAME_BYTES];
    let len = name.text(&mut text);
    out.put_run(&text[..len]);
}

/// Appends a number below 100 in two digits.
#[tactic(auto, using(crate::proofs::Texts::spelled))]
fn put_two(out: &mut Out, number: u8)
    requires below { number < TWO_DIGITS_END }
    requires room { TWO_BYTES ≤ room_of out.old }
    ensures { Appends out.old out.new (two_digits number) }
{
    out.put_run(&[b'0' + number / BASE, b'0' + number % BASE]);
}
