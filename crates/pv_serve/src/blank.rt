ghost use Rattle.std.specs.Prelude.{◌↔◌, ◌≤◌, length, IfOk, IfSome, IsTrue};
ghost use Rattle.pv_serve.specs.Formatting.{IsBlank};

use pv_journal::MARK;
use pv_outside::Disk;

/// How many bytes an empty journal has: the mark and a gate.
const EMPTY: usize = MARK.len() + 1;

/// Whether nothing is lost if the disk is formatted: it is empty, or holds an empty journal or the beginning of one.
pub fn is_blank<D: Disk>(disk: &mut D) -> Result<bool, D::Failure>
    ensures { IfOk result (λ blank. IfSome (D.reads disk.old) (λ text. IsTrue blank ↔ IsBlank text)) }
{
    let length = disk.len()?;
    if length > EMPTY as u64 {
        return Ok(false);
    }
    let held = length as usize;
    let mut first = [0; EMPTY];
    disk.read(0, &mut first[..held])?;
    Ok(begin_empty(&first[..held]))
}

/// Whether the bytes are the first of an empty journal.
fn begin_empty(bytes: &[u8]) -> bool
    requires { length bytes.now ≤ 9 }
    ensures { IsTrue result ↔ IsBlank bytes.now }
{
    let mut empty = [0; EMPTY];
    empty[..MARK.len()].copy_from_slice(&MARK);
    bytes == &empty[..bytes.len()]
}
