ghost use Rattle.std.specs.Prelude.{◌≡◌, ◌++◌, ◌∷◌, [], ◌/◌, ◌%◌, ◌<◌, ◌≤◌, ◌↔◌, length, take, IsTrue, IfOk, IsErr, OnOk, OnErr};
ghost use Rattle.std.specs.Char.{digit_char};
ghost use Rattle.std.specs.List.{list_all};
ghost use Rattle.pv_fields.specs.Out.{room_of, Appends};
ghost use Rattle.pv_cells.specs.Notation.{is_plain, notation_of_byte, notation_of};

use pv_fields::{NoRoom, Out};
use std::alloc::AllocError;

/// The byte that begins an escape.
pub const BACKSLASH: u8 = b'\\';

/// The lowest byte that can be printed: the space.
pub const FIRST_PRINTABLE: u8 = b' ';

/// The highest byte that can be printed: the tilde.
pub const LAST_PRINTABLE: u8 = b'~';

/// The hexadecimal digits, in lower case.
const DIGITS: [u8; 16] = *b"0123456789abcdef";

/// Appends the canonical notation of the bytes: each byte of 0x20 to 0x7E except the backslash as
/// itself, each other one as a backslash and its two hexadecimal digits in lower case. [`NoRoom`] exactly
/// when that does not fit; then nothing is appended.
pub fn notation(cells: &[u8], out: &mut Out) -> Result<(), NoRoom>
    ensures ok { OnOk result (Appends out.old out.new (notation_of cells.now)) }
    ensures refused { IsErr result ↔ (room_of out.old < length (notation_of cells.now)) }
    ensures err { OnErr result (out.new ≡ out.old) }
{
    if !fits(cells, out.room()) {
        return Err(NoRoom);
    }
    for cell in cells {
        put_byte(*cell, out);
    }
    Ok(())
}

/// Appends the canonical notation of the bytes to a text, as [`notation`] does to a slice. What the text
/// holds after an error is not specified.
#[tactic(auto, using(crate::proofs::Plain::parts))]
pub fn push_notation(bytes: &[u8], text: &mut Vec<u8>) -> Result<(), AllocError>
    ensures ok { OnOk result (text.new.items ≡ text.old.items ++ notation_of bytes.now) }
{
    let mut at = 0;
    while at < bytes.len() {
        at += push_first(&bytes[at..], text)?;
    }
    Ok(())
}

/// Whether the notation of the bytes fits into the room.
fn fits(bytes: &[u8], room: usize) -> bool
    ensures { IsTrue result ↔ (length (notation_of bytes.now) ≤ room) }
{
    let mut left = room;
    for byte in bytes {
        let needed = notation_length(*byte);
        if left < needed {
            return false;
        }
        left -= needed;
    }
    true
}

/// How many bytes the notation of a byte has.
fn notation_length(byte: u8) -> usize
    ensures { result ≡ length (notation_of_byte byte) }
{
    if is_plain(byte) { 1 } else { 3 }
}

/// Appends the notation of a byte, for which there is room.
fn put_byte(byte: u8, out: &mut Out)
    requires { length (notation_of_byte byte) ≤ room_of out.old }
    ensures { Appends out.old out.new (notation_of_byte byte) }
{
    if is_plain(byte) {
        out.put_u8(byte);
    } else {
        out.put_run(&escape(byte));
    }
}

/// Appends the notation of the first byte to a text, or that of the first eight at once if each of them is
/// written as itself. Returns their number.
#[tactic(auto, using(crate::proofs::Plain::parts))]
fn push_first(bytes: &[u8], text: &mut Vec<u8>) -> Result<usize, AllocError>
    requires { 0 < length bytes.now }
    ensures within { IfOk result (λ count. (0 < count) × (count ≤ length bytes.now)) }
    ensures ok { IfOk result (λ count. text.new.items
        ≡ text.old.items ++ notation_of (take count bytes.now)) }
{
    let first = bytes[0];
    if !is_plain(first) {
        if let [b'\r', b'\n', b'\r', b'\n', b'\r', b'\n', b'\r', b'\n', ..] = bytes {
            text.extend_from_slice(b"\\0d\\0a\\0d\\0a\\0d\\0a\\0d\\0a")?;
            return Ok(8);
        }
        if let [b'\r', b'\n', ..] = bytes {
            text.extend_from_slice(b"\\0d\\0a")?;
            return Ok(2);
        }
        text.extend_from_slice(&escape(first))?;
        return Ok(1);
    }
    if bytes.len() < 8 || !are_plain(&bytes[..8]) {
        text.push(first)?;
        return Ok(1);
    }
    text.extend_from_slice(&bytes[..8])?;
    Ok(8)
}

/// Whether each byte is written as itself. Without a branch in the loop, eight bytes are compared at once.
fn are_plain(bytes: &[u8]) -> bool
    ensures { result ≡ list_all is_plain bytes.now }
{
    let mut plain = true;
    for byte in bytes {
        plain &= is_plain(*byte);
    }
    plain
}

/// Whether the byte is written as itself.
pub(crate) fn is_plain(byte: u8) -> bool
    ensures { result ≡ is_plain byte }
{
    matches!(byte, FIRST_PRINTABLE..=LAST_PRINTABLE) && byte != BACKSLASH
}

/// A backslash and the two hexadecimal digits of a byte.
fn escape(byte: u8) -> [u8; 3]
    ensures { result ≡ BACKSLASH ∷ digit_char (byte / 16) ∷ digit_char (byte % 16) ∷ [] }
{
    [BACKSLASH, digit(byte / 16), digit(byte % 16)]
}

/// The hexadecimal digit of a number, in lower case.
fn digit(n: u8) -> u8
    requires { n < 16 }
    ensures { result ≡ digit_char n }
{
    DIGITS[n as usize]
}
