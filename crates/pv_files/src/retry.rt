//! Calls of the system that are made again if they were interrupted.
ghost use Rattle.std.specs.Prelude.{◌≡◌, ◌≤◌, ◌==◌, ◌&&◌, nat_lt, length, IfOk};
ghost use Rattle.std.specs.Io.KnownBytes.{ReadConsumes, WriteAppends};
ghost use Rattle.pv_files.specs.Output.{WritesWhole};

use std::io::{self, ErrorKind, Read, Write};
use std::os::unix::fs::FileExt;

/// Reads once.
pub(crate) fn read_some<R: Read>(reader: &mut R, into: &mut [u8]) -> io::Result<usize>
    ensures within { IfOk result (λ n. n ≤ length into.old) }
    ensures bytes { ReadConsumes (R.remaining reader.old) (R.remaining reader.new) result into.new }
{
    for _ in 0..u64::MAX {
        match reader.read(into) {
            Err(error) if error.kind() == ErrorKind::Interrupted => {}
            answer => return answer,
        }
    }
    Err(ErrorKind::Interrupted.into())
}

/// Writes once.
pub(crate) fn write_some<W: Write>(writer: &mut W, bytes: &[u8]) -> io::Result<usize>
    ensures within { IfOk result (λ n. n ≤ length bytes.now) }
    ensures bytes { WriteAppends (W.contents writer.old) (W.contents writer.new) result bytes.now }
{
    for _ in 0..u64::MAX {
        match writer.write(bytes) {
            Err(error) if error.kind() == ErrorKind::Interrupted => {}
            answer => return answer,
        }
    }
    Err(ErrorKind::Interrupted.into())
}

/// Writes all of the bytes. A write that comes back short goes on, and one that takes nothing is an error.
pub(crate) fn write_whole<W: Write>(writer: &mut W, bytes: &[u8]) -> io::Result<()>
    ensures { WritesWhole (W.contents writer.old) (W.contents writer.new) result bytes.now }
{
    let mut at = 0;
    while at < bytes.len() {
        match write_some(writer, &bytes[at..]) {
            Ok(0) => return Err(ErrorKind::WriteZero.into()),
            Ok(count) => at += count,
            Err(error) => return Err(error),
        }
    }
    Ok(())
}

/// Reads once from this place of a file.
pub(crate) fn read_some_at<F: FileExt>(file: &F, into: &mut [u8], at: u64) -> io::Result<usize>
    ensures { IfOk result (λ n. n ≤ length into.old) }
{
    for _ in 0..u64::MAX {
        match file.read_at(into, at) {
            Err(error) if error.kind() == ErrorKind::Interrupted => {}
            answer => return answer,
        }
    }
    Err(ErrorKind::Interrupted.into())
}

/// Whether a read with room for `room` bytes that returned `count` has met the end.
pub(crate) fn is_end(count: usize, room: usize) -> bool
    ensures { result ≡ (count == 0 && nat_lt 0 room) }
{
    count == 0 && room > 0
}
