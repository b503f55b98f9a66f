ghost use Rattle.std.specs.Prelude.{◌≡◌, ◌+◌, ◌*◌, ◌≤◌, IfOk, flat_map};
ghost use Rattle.std.specs.List.{range_with_len};
ghost use Rattle.pv_gen.specs.Sequence.{state_at};
ghost use Rattle.pv_gen.specs.Script.{page_lines, page_text, fetch_line, fetch_text, script_of};
ghost use Rattle.pv_gen.specs.Writing.{AppendsOrFails, line_text, lines_text};
ghost use Rattle.pv_gen.specs.declared.writing.TheConstants.{LAST_NUMBER, FETCHES};

use crate::line::{put, put_all};
use crate::sequence::{output, step};
use itoa::Buffer;
use pv_outside::{Failed, Sink};

/// The last number that has a script. The first is 1.
pub const LAST_NUMBER: u32 = 999;

/// The page before the first that a script makes.
pub(crate) const PAGE_BASE: u32 = 1_000;

/// Prices are below this.
pub(crate) const PRICE_END: u32 = 10;

/// How often the caller fetches a page, for each page that there is.
pub(crate) const FETCHES: u32 = 2;

/// The operator logs on, and makes an account.
const OPENING: &[u8] = b"edit 0 LOGON 0000000000 0000\nedit 0 ACCOUNT 1 1000000001 ABCD 0 -\n";

/// The centre gets all that was stored, and the caller dials it and logs on.
const CALL: &[u8] = b"carry 0\ndial 0 0\nkeys 0 0 1000000001ABCD\n";

/// The caller hangs up, both nodes crash, and the bill is asked for.
const CLOSING: &[u8] = b"hang 0 0\ncrash 0\ncrash u\ncarry 0\nbill 1000000001\n";

/// Writes the script of a number, from 1 to [`LAST_NUMBER`]. After a fault a prefix of it was written.
pub fn script<K: Sink>(number: u32, out: &mut K) -> Result<(), Failed>
    requires some { 1 ≤ number }
    requires within { number ≤ LAST_NUMBER }
    ensures { AppendsOrFails (K.written out.old) (K.written out.new) (K.write_faults out.old)
        (K.write_faults out.new) result (script_of number) }
{
    put(out, OPENING)?;
    let state = put_pages(number, out)?;
    put(out, CALL)?;
    put_fetches(number, state, out)?;
    put(out, CLOSING)
}

/// Writes the lines that make the pages, and returns the state of the sequence after them.
fn put_pages<K: Sink>(number: u32, out: &mut K) -> Result<u32, Failed>
    requires within { number ≤ LAST_NUMBER }
    ensures writes { AppendsOrFails (K.written out.old) (K.written out.new) (K.write_faults out.old)
        (K.write_faults out.new) result (flat_map (page_text number) (range_with_len 1 number)) }
    ensures state { IfOk result (λ state. state ≡ state_at number number) }
{
    let mut state = number;
    for made in 0..number {
        state = step(state);
        put_page(made + 1, output(state) % PRICE_END, out)?;
    }
    Ok(state)
}

/// Writes the lines that make one page, with this price.
fn put_page<K: Sink>(place: u32, price: u32, out: &mut K) -> Result<(), Failed>
    requires within { place ≤ LAST_NUMBER }
    ensures { AppendsOrFails (K.written out.old) (K.written out.new) (K.write_faults out.old)
        (K.write_faults out.new) result (lines_text (page_lines place price)) }
{
    put_all(
        out,
        &[
            b"edit 0 NEW ",
            Buffer::new().format(PAGE_BASE + place).as_bytes(),
            b"a\nedit 0 ROW 2 FRAME ",
            Buffer::new().format(place).as_bytes(),
            b"\nedit 0 PRICE ",
            Buffer::new().format(price).as_bytes(),
            b"\nedit 0 STORE ",
            Buffer::new().format(place + 1).as_bytes(),
            b"\n",
        ],
    )
}

/// Writes the lines that fetch pages, from this state of the sequence on.
fn put_fetches<K: Sink>(number: u32, first: u32, out: &mut K) -> Result<(), Failed>
    requires some { 1 ≤ number }
    requires within { number ≤ LAST_NUMBER }
    requires first { first ≡ state_at number number }
    ensures { AppendsOrFails (K.written out.old) (K.written out.new) (K.write_faults out.old)
        (K.write_faults out.new) result (flat_map (fetch_text number) (range_with_len 1 (FETCHES * number))) }
{
    let mut state = first;
    for made in 0..FETCHES * number {
        state = step(state);
        put_fetch(output(state) % number + 1, out)?;
    }
    Ok(())
}

/// Writes the line that fetches the page at a place.
fn put_fetch<K: Sink>(place: u32, out: &mut K) -> Result<(), Failed>
    requires within { place ≤ LAST_NUMBER }
    ensures { AppendsOrFails (K.written out.old) (K.written out.new) (K.write_faults out.old)
        (K.write_faults out.new) result (line_text (fetch_line place)) }
{
    put_all(
        out,
        &[
            b"keys 0 0 *",
            Buffer::new().format(PAGE_BASE + place).as_bytes(),
            b"#\n",
        ],
    )
}
