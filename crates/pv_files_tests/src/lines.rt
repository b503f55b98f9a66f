//! Lines and doors over a writer and a listener that report what they hold.
ghost use Rattle.std.specs.Prelude.{◌≡◌, [], Some, IfSome};

use pv_files::{Listener, TcpDoor, TcpLine};
use pv_outside::{Door, Sink, Source};
use std::alloc::Global;
use std::io::{self, ErrorKind, Read, Write};
use std::net::OpenStream;
use std::test::Fail;

/// A writer that takes three bytes at a time.
#[derive(Drop)]
struct ByThrees {
    bytes: Vec<u8>,
}

impl ByThrees {
    fn new(alloc: Global) -> ByThrees
        ensures { result.bytes.items ≡ [] }
    {
        ByThrees {
            bytes: Vec::new(alloc),
        }
    }
}

impl Write for ByThrees {
    ghost contents = { λ w. Some w.bytes.items };

    fn write(&mut self, bytes: &[u8]) -> io::Result<usize> {
        let count = bytes.len().min(3);
        match self.bytes.extend_from_slice(&bytes[..count]) {
            Ok(()) => Ok(count),
            Err(_) => Err(ErrorKind::OutOfMemory.into()),
        }
    }

    fn flush(&mut self) -> io::Result<()> {
        Ok(())
    }
}

impl OpenStream for ByThrees {}

#[test]
fn a_line_sends_all_of_a_screen(rt: HostRuntime) -> Result<(), Fail> {
    let keys: &[u8] = b"*1#";
    let mut line = TcpLine::new(keys, ByThrees::new(rt.alloc()));
    let parts: [&[u8]; 3] = [b"WELCOME", b"", b" TO"];
    for part in parts {
        line.write_all(part)?;
    }
    assert_eq!(rt; line.writer().bytes.as_slice(), b"WELCOME TO".as_slice());
    let mut key = [0; 2];
    let read = line.read(&mut key);
    assert_eq!(rt; (read, key), (Ok(2), *b"*1"));
    Ok(())
}

/// A listener whose accepts end in a given order: with a connection, or with an error of this kind.
#[derive(Drop)]
struct Listed<'a> {
    ends: &'a [Option<ErrorKind>],
    alloc: Global,
}

impl<'a> Listener for Listed<'a> {
    type Line = TcpLine<io::Empty, ByThrees>;

    ghost coming = { λ l. Some l.ends.now };

    fn accept(&mut self) -> io::Result<TcpLine<io::Empty, ByThrees>> {
        let Some((end, rest)) = self.ends.split_first() else {
            return Err(ErrorKind::Other.into());
        };
        self.ends = rest;
        match *end {
            Some(kind) => Err(kind.into()),
            None => Ok(TcpLine::new(io::empty(), ByThrees::new(self.alloc))),
        }
    }

    fn close(&self, line: TcpLine<io::Empty, ByThrees>) {
        line.close();
    }
}

/// A peer that gave up, an interruption and a connection; an interruption and a refusal; and a connection.
const ENDS: [Option<ErrorKind>; 6] = [
    Some(ErrorKind::ConnectionAborted),
    Some(ErrorKind::Interrupted),
    None,
    Some(ErrorKind::Interrupted),
    Some(ErrorKind::PermissionDenied),
    None,
];

/// The kind of the error of an accept that fails.
fn refused(door: &mut TcpDoor<Listed>) -> Option<ErrorKind>
    ensures accepted { IfSome result (λ _. door.new.counts.accepted ≡ door.old.counts.accepted) }
    ensures finished { IfSome result (λ _. door.new.counts.finished ≡ door.old.counts.finished) }
{
    if door.accept().is_ok() {
        return None;
    }
    door.error().map(|error| error.kind())
}

#[test]
fn a_peer_that_gave_up_is_no_fault_and_other_errors_are(rt: HostRuntime) -> Result<(), Fail> {
    let mut door = TcpDoor::of(Listed {
        ends: &ENDS,
        alloc: rt.alloc(),
    });
    let line = door.accept()?;
    assert_eq!(rt; door.listener().ends.len(), 3);
    door.finish(line);
    assert_eq!(rt; refused(&mut door), Some(ErrorKind::PermissionDenied));
    let line = door.accept()?;
    door.finish(line);
    Ok(())
}
