//! Sessions at an editor's port.
ghost use Rattle.std.specs.Prelude.{◌≡◌, None, false};
ghost use Rattle.pv_node.specs.Standing.{StandsFor};

use super::nodes::{LIMITS, fresh, line_of};
use pv_edits::Record;
use pv_group::{GroupRun, GroupStart, open_live};
use pv_memory::{MemDisk, MemLine};
use pv_node::{Opened, Rules};
use pv_outside::Reports;
use pv_ports::{EditEnd, EditorPort, MAX_LINES};
use pv_udc::UdcRules;
use std::alloc::Global;
use std::marker::Brand;
use std::process::Abort;
use std::sync::Wait;
use std::test::Fail;

/// How a session ended, without what a fault carries.
#[derive(Clone, Copy, Debug, PartialEq, Eq)]
enum Ended {
    Closed,
    Hung,
    Spent,
    ReadFault,
    WriteFault,
    DiskFault,
    Memory,
}

/// What an editor types, which calls of his line and of the disk fail, and what comes of it: what he is sent, how the
/// session ended, its marks, and how many records the Update Centre has then.
#[derive(Clone, Copy)]
struct Case<'a> {
    typed: &'a [u8],
    reads: &'a [u64],
    writes: &'a [u64],
    disk: &'a [u64],
    sent: &'a [u8],
    end: Ended,
    marks: &'a [u64],
    records: u64,
}

/// Nothing is typed, and nothing fails.
const NONE: Case<'static> = Case {
    typed: b"",
    reads: &[],
    writes: &[],
    disk: &[],
    sent: b"",
    end: Ended::Hung,
    marks: &[],
    records: 0,
};

/// An edit, and what an editor is sent before it is stored.
const EDIT: Case<'static> = Case {
    typed: b"LOGON 0000000000 0000\nNEW 1a\nSTORE 1\nQUIT\n",
    sent: b"OK\nOK\n",
    end: Ended::WriteFault,
    marks: &[0, 0, 0],
    ..NONE
};

/// Sessions in which nothing fails. A line without an end is not taken, and stores nothing. A full node is a reply.
const SESSIONS: [Case<'static>; 6] = [
    NONE,
    Case {
        typed: b"QUIT\n",
        sent: b"BYE\n",
        end: Ended::Closed,
        marks: &[0],
        ..NONE
    },
    Case {
        typed: b"QUIT",
        ..NONE
    },
    Case {
        typed: b"LOGON 0000000000 0000\nNEW 1a\nSTORE 1",
        sent: b"OK\nOK\n",
        marks: &[0, 0],
        ..NONE
    },
    Case {
        typed: b"LAST\r\nQUIT\r\n",
        sent: b"NO 1 LOG ON FIRST\nBYE\n",
        end: Ended::Closed,
        marks: &[0, 0],
        ..NONE
    },
    Case {
        typed: b"LOGON 0000000000 0000\nNEW 1a\nSTORE 1\nSTORE 1\nSTORE 2\nSTORE 3\nSTORE 4\nSTORE 5\nLAST\nQUIT\n",
        sent: b"OK\nOK\nOK 0\nOK 0\nOK 1\nOK 2\nOK 3\nNO 14 FULL 4\nOK 4\nBYE\n",
        end: Ended::Closed,
        marks: &[0, 0, 0, 1, 1, 2, 3, 4, 4, 4],
        records: 4,
        ..NONE
    },
];

/// Sessions on a line of which a read or a write fails. An edit whose reply cannot be written is stored all the same, and
/// the fault of the disk is not hidden by that of the line.
const LINE_FAULTS: [Case<'static>; 5] = [
    Case {
        reads: &[0],
        sent: b"",
        end: Ended::ReadFault,
        marks: &[],
        ..EDIT
    },
    Case {
        writes: &[0],
        sent: b"",
        marks: &[0],
        ..EDIT
    },
    Case {
        writes: &[1],
        sent: b"OK\n",
        marks: &[0, 0],
        ..EDIT
    },
    Case {
        writes: &[2],
        records: 1,
        ..EDIT
    },
    Case {
        writes: &[2],
        disk: &[8],
        end: Ended::DiskFault,
        ..EDIT
    },
];

/// The calls of the disk that store an edit: seven are those of the formatting and the opening.
const STORING: [&[u64]; 4] = [&[7], &[8], &[9], &[10]];

#[test]
fn sessions_end_as_they_should(rt: HostRuntime) -> Result<(), Fail> {
    for case in SESSIONS {
        played(&rt, rt.alloc(), case)?;
    }
    Ok(())
}

#[test]
fn line_that_fails_ends_the_session(rt: HostRuntime) -> Result<(), Fail> {
    for case in LINE_FAULTS {
        played(&rt, rt.alloc(), case)?;
    }
    Ok(())
}

#[test]
fn disk_that_fails_in_an_ask_ends_the_session(rt: HostRuntime) -> Result<(), Fail> {
    for disk in STORING {
        let case = Case {
            disk,
            sent: b"OK\nOK\nNO 15 DISK\n",
            end: Ended::DiskFault,
            ..EDIT
        };
        played(&rt, rt.alloc(), case)?;
    }
    Ok(())
}

#[test]
fn line_that_is_too_long_is_bad(rt: HostRuntime) -> Result<(), Fail> {
    let mut typed = repeated(rt.alloc(), b"A", 513)?;
    typed.extend_from_slice(b"\nQUIT\n")?;
    let case = Case {
        typed: &typed,
        sent: b"NO 11 BAD LINE\nBYE\n",
        end: Ended::Closed,
        marks: &[0, 0],
        ..NONE
    };
    played(&rt, rt.alloc(), case)
}

/// What stands before a byte that makes a line a bad one.
const STARTS: [&[u8]; 4] = [b"", b"QUIT", b"TITLE ", b"LOGON 0000000000 000"];

#[test]
fn line_with_a_byte_over_127_is_bad_and_changes_nothing(rt: HostRuntime) -> Result<(), Fail> {
    bad_lines(&rt, rt.alloc(), &STARTS)
}

/// Serves a session in which a frame is begun, each byte over 127 is typed in a line after each of these starts, and the
/// frame is stored. Sees that each of these lines is bad, and that log-on and frame are still there.
fn bad_lines<R: Wait + Abort>(rt: &R, alloc: Global, starts: &[&[u8]]) -> Result<(), Fail> {
    let mut typed = Vec::from_slice(alloc, b"LOGON 0000000000 0000\nNEW 1a\n")?;
    let mut sent = Vec::from_slice(alloc, b"OK\nOK\n")?;
    let mut marks = Vec::from_slice(alloc, &[0u64; 3])?;
    for start in starts {
        for byte in 128..=u8::MAX {
            typed.extend_from_slice(start)?;
            typed.push(byte)?;
            typed.push(b'\n')?;
            sent.extend_from_slice(b"NO 11 BAD LINE\n")?;
            marks.push(0)?;
        }
    }
    typed.extend_from_slice(b"STORE 1\nQUIT\n")?;
    sent.extend_from_slice(b"OK 0\nBYE\n")?;
    marks.push(1)?;
    let case = Case {
        typed: &typed,
        sent: &sent,
        end: Ended::Closed,
        marks: &marks,
        records: 1,
        ..NONE
    };
    played(rt, alloc, case)
}

/// How many bytes 0 are typed, what is typed after them, what is sent, how the session ends, and its marks.
type Zeros = (usize, &'static [u8], &'static [u8], Ended, &'static [u64]);

/// With its last byte a session is spent: a line that ends with it is answered, and none that goes on after it.
const ZEROS: [Zeros; 4] = [
    (999_999, b"", b"", Ended::Hung, &[]),
    (
        999_999,
        b"\nQUIT\n",
        b"NO 11 BAD LINE\n",
        Ended::Spent,
        &[0],
    ),
    (1_000_000, b"", b"", Ended::Spent, &[]),
    (1_000_000, b"\nQUIT\n", b"", Ended::Spent, &[]),
];

#[test]
fn session_is_spent_after_a_million_bytes(rt: HostRuntime) -> Result<(), Fail> {
    for (count, rest, sent, end, marks) in ZEROS {
        let mut typed = repeated(rt.alloc(), b"\0", count)?;
        typed.extend_from_slice(rest)?;
        let case = Case {
            typed: &typed,
            sent,
            end,
            marks,
            ..NONE
        };
        played(&rt, rt.alloc(), case)?;
    }
    Ok(())
}

#[test]
fn session_is_spent_after_its_last_line(rt: HostRuntime) -> Result<(), Fail> {
    let mut typed = repeated(rt.alloc(), b"LAST\n", MAX_LINES)?;
    typed.extend_from_slice(b"QUIT\n")?;
    let sent = repeated(rt.alloc(), b"NO 1 LOG ON FIRST\n", MAX_LINES)?;
    let mut marks = Vec::with_capacity(rt.alloc(), MAX_LINES)?;
    for _ in 0..MAX_LINES {
        marks.push(0)?;
    }
    let case = Case {
        typed: &typed,
        sent: &sent,
        end: Ended::Spent,
        marks: &marks,
        ..NONE
    };
    played(&rt, rt.alloc(), case)
}

#[test]
fn edit_without_memory_is_stored_and_told(rt: HostRuntime) -> Result<(), Fail> {
    // With ample memory it is published. Its publishing is the one allocation of a session.
    let mut line = line_of(rt.alloc(), EDIT.typed, &[], &[])?;
    let (ended, _, _) = session(&rt, rt.alloc(), &[], &mut line, &[])?;
    let is_published = ended == Ended::Closed && line.sent() == b"OK\nOK\nOK 0\nBYE\n".as_slice();
    let is_kept = ended == Ended::Memory && line.sent() == b"OK\nOK\nNO 16 MEMORY\n".as_slice();
    assert!(rt; is_published || is_kept);
    Ok(())
}

/// These bytes, this many times.
fn repeated(alloc: Global, bytes: &[u8], times: usize) -> Result<Vec<u8>, Fail> {
    let mut all = Vec::new(alloc);
    for _ in 0..times {
        all.extend_from_slice(bytes)?;
    }
    Ok(all)
}

/// Serves the session of a case, and sees what came of it.
fn played<R: Wait + Abort>(rt: &R, alloc: Global, case: Case<'_>) -> Result<(), Fail> {
    let mut line = line_of(alloc, case.typed, case.reads, case.writes)?;
    let came = session(rt, alloc, case.disk, &mut line, case.marks)?;
    assert_eq!(rt; line.sent(), case.sent);
    assert_eq!(rt; came, (case.end, true, case.records));
    Ok(())
}

/// Serves a session on a fresh Update Centre of whose disk these calls fail. Returns how it ended, whether these are its
/// marks, and how many records there are then.
fn session<R: Wait>(
    rt: &R,
    alloc: Global,
    disk: &[u64],
    line: &mut MemLine,
    marks: &[u64],
) -> Result<(Ended, bool, u64), Fail>
    requires { line.old.source.ended ≡ false }
{
    let udc = fresh::<UdcRules>(alloc, LIMITS, disk)?;
    one_session::<Brand, _>(rt, alloc, udc, GroupStart::new(1), line, marks)
}

/// Serves the session at this node, and returns how it ended, whether these are its marks, and how many records there are
/// then.
fn one_session<N: GroupRun<Record> + Send + Sync, R: Wait>(
    rt: &R,
    alloc: Global,
    udc: Opened<UdcRules, MemDisk>,
    start: GroupStart<Record>,
    line: &mut MemLine,
    marks: &[u64],
) -> Result<(Ended, bool, u64), Fail>
    requires stands { StandsFor ⟦<UdcRules as Rules>⟧ ⟦<MemDisk as Reports>⟧ udc.node N.opening }
    requires rest { (udc.node.hand ≡ None) × (udc.node.state.limits ≡ N.limits) × (1 ≡ N.passes) }
    requires start { start ≡ record {
      book = N.book;
      told = N.told;
      failed = N.failed;
      passes = N.passes;
      taken = N.taken;
    } }
    requires line { line.old.source.ended ≡ false }
{
    let (live, mut passes) = open_live::<UdcRules, MemDisk, N, &R>(rt, alloc, udc.node, 1, start)?;
    let mut port = EditorPort::new(alloc, passes.pop().ok_or("a pass")?)?;
    let end = port.serve_editor(rt, &live, line);
    let are_its_marks = port.marks() == marks;
    let records = port.into_pass().length();
    Ok((ended_as(&end), are_its_marks, records))
}

/// The end without what a fault carries.
fn ended_as(end: &EditEnd<MemDisk>) -> Ended {
    match end {
        EditEnd::Closed => Ended::Closed,
        EditEnd::Hung => Ended::Hung,
        EditEnd::Spent => Ended::Spent,
        EditEnd::ReadFault => Ended::ReadFault,
        EditEnd::WriteFault => Ended::WriteFault,
        EditEnd::DiskFault(_) => Ended::DiskFault,
        EditEnd::Memory { .. } => Ended::Memory,
    }
}
