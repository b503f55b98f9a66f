//! Calls at a caller's port.
ghost use Rattle.std.specs.Prelude.{◌≡◌, None, false};
ghost use Rattle.pv_node.specs.Standing.{StandsFor};

use super::nodes::{LIMITS, apply_first, fresh, line_of, name, priced_frame};
use Sent::{Alone, Frame, Row};
use pv_group::{GroupRun, GroupStart, open_live};
use pv_irc::{CentreRecord, IrcRules};
use pv_memory::{MemDisk, MemLine, SetClock};
use pv_node::{Opened, Rules};
use pv_outside::Reports;
use pv_ports::{CallEnd, CallerPort, LogEntry};
use pv_screen::{BUFFER, Grid, ROWS, Screen, compose};
use pv_session::Message;
use std::alloc::Global;
use std::marker::Brand;
use std::process::Abort;
use std::sync::Wait;
use std::test::Fail;

/// How a call ended, without what a fault carries.
#[derive(Clone, Copy, Debug, PartialEq, Eq)]
enum Ended {
    Finished,
    Hung,
    Refused,
    Spent,
    ReadFault,
    WriteFault,
    DiskFault,
    Full(u64),
    Memory,
}

/// A screen that a caller is sent.
#[derive(Clone, Copy)]
enum Sent {
    /// A message on a blank screen.
    Alone(Message),
    /// A message in row 24.
    Row(Message),
    /// The frame of the centre.
    Frame,
}

/// The price of the centre's frame.
const PRICE: u16 = 7;

/// How many records a centre has before a call, what is keyed, which calls of the line and of the disk fail, and what
/// comes of it: what the caller is sent, how the call ended, what it cost, and how many records the centre has then.
#[derive(Clone, Copy)]
struct Case<'a> {
    applied: u8,
    keys: &'a [u8],
    reads: &'a [u64],
    writes: &'a [u64],
    disk: &'a [u64],
    sent: &'a [Sent],
    end: Ended,
    pence: u32,
    records: u64,
}

/// A call of a known caller, in which nothing fails.
const CALL: Case<'static> = Case {
    applied: 1,
    keys: b"1000000001ABCD*90#",
    reads: &[],
    writes: &[],
    disk: &[],
    sent: &[
        Alone(Message::KeyAccount),
        Row(Message::KeyPassword),
        Alone(Message::Welcome),
        Row(Message::CallEnded),
    ],
    end: Ended::Finished,
    pence: 0,
    records: 2,
};

/// A call that ends before he is logged on.
const ASKING: Case<'static> = Case {
    sent: &[Alone(Message::KeyAccount), Row(Message::KeyPassword)],
    records: 1,
    ..CALL
};

/// Calls in which nothing fails. At a centre that has no account his is not known, and then `*` and `#` are ignored and
/// 90 begins an account.
const CALLS: [Case<'static>; 4] = [
    CALL,
    Case {
        applied: 0,
        sent: &[
            Alone(Message::KeyAccount),
            Row(Message::KeyPassword),
            Row(Message::NotKnown),
        ],
        end: Ended::Hung,
        records: 0,
        ..CALL
    },
    Case {
        keys: b"1000000001ABCE1000000001ABCE1000000001ABCE1",
        sent: &[
            Alone(Message::KeyAccount),
            Row(Message::KeyPassword),
            Row(Message::NotKnown),
            Row(Message::KeyPassword),
            Row(Message::NotKnown),
            Row(Message::KeyPassword),
            Row(Message::CallRefused),
        ],
        end: Ended::Refused,
        records: 1,
        ..CALL
    },
    Case {
        applied: 4,
        sent: &[
            Alone(Message::KeyAccount),
            Row(Message::KeyPassword),
            Row(Message::PleaseTryLater),
        ],
        end: Ended::Full(4),
        records: 4,
        ..CALL
    },
];

/// Calls on a line of which a read or a write fails. What is queued is written before the centre is asked, and the last
/// two screens are one write. A log-on is stored also if its screen cannot be written.
const LINE_FAULTS: [Case<'static>; 6] = [
    Case {
        reads: &[0],
        sent: &[Alone(Message::KeyAccount)],
        end: Ended::ReadFault,
        ..ASKING
    },
    Case {
        keys: b"1000000001",
        reads: &[1],
        end: Ended::ReadFault,
        ..ASKING
    },
    Case {
        writes: &[0],
        sent: &[],
        end: Ended::WriteFault,
        ..ASKING
    },
    Case {
        writes: &[1],
        sent: &[Alone(Message::KeyAccount)],
        end: Ended::WriteFault,
        ..ASKING
    },
    Case {
        writes: &[2],
        end: Ended::WriteFault,
        records: 2,
        ..ASKING
    },
    Case {
        writes: &[3],
        ..CALL
    },
];

/// A call that asks for the frame and ends before its charge is stored: the centre has the account, the frame and the
/// log-on.
const CHARGING: Case<'static> = Case {
    applied: 2,
    keys: b"1000000001ABCD*1#*90#",
    sent: &[
        Alone(Message::KeyAccount),
        Row(Message::KeyPassword),
        Alone(Message::Welcome),
    ],
    records: 3,
    ..CALL
};

/// Calls that ask for the frame. It is shown once its charge is stored. At a full centre it is not, and if it cannot be
/// written its charge stands.
const CHARGES: [Case<'static>; 3] = [
    Case {
        sent: &[
            Alone(Message::KeyAccount),
            Row(Message::KeyPassword),
            Alone(Message::Welcome),
            Frame,
            Row(Message::CallEnded),
        ],
        pence: PRICE as u32,
        records: 4,
        ..CHARGING
    },
    Case {
        applied: 3,
        sent: &[
            Alone(Message::KeyAccount),
            Row(Message::KeyPassword),
            Alone(Message::Welcome),
            Row(Message::PleaseTryLater),
        ],
        end: Ended::Full(4),
        records: 4,
        ..CHARGING
    },
    Case {
        writes: &[3],
        end: Ended::WriteFault,
        pence: PRICE as u32,
        records: 4,
        ..CHARGING
    },
];

/// A call at a centre without records, of which nothing is a key. The caller hangs up.
const UNKNOWN: Case<'static> = Case {
    applied: 0,
    sent: &[Alone(Message::KeyAccount)],
    end: Ended::Hung,
    records: 0,
    ..CALL
};

/// A call at a centre without records that has a byte more than a call may have.
const SPENT: Case<'static> = Case {
    sent: &[Alone(Message::KeyAccount), Row(Message::CallEnded)],
    end: Ended::Spent,
    ..UNKNOWN
};

/// A call, and the call of the disk that fails in it. Seven are those of the formatting and the opening, and each record
/// takes four: the account and the log-on; or the account, the frame, the log-on and the charge.
const STORING: [(Case<'static>, &[u64]); 8] = [
    (ASKING, &[11]),
    (ASKING, &[12]),
    (ASKING, &[13]),
    (ASKING, &[14]),
    (CHARGING, &[19]),
    (CHARGING, &[20]),
    (CHARGING, &[21]),
    (CHARGING, &[22]),
];

/// What a known caller keys: his account, his password and a command, each in two parts.
const PARTS: [&[u8]; 6] = [b"10000", b"00001", b"AB", b"CD", b"*9", b"0#"];

#[test]
fn calls_end_as_they_should(rt: HostRuntime) -> Result<(), Fail> {
    for case in CALLS {
        served(&rt, rt.alloc(), case)?;
    }
    Ok(())
}

#[test]
fn line_that_fails_ends_the_call(rt: HostRuntime) -> Result<(), Fail> {
    for case in LINE_FAULTS {
        served(&rt, rt.alloc(), case)?;
    }
    Ok(())
}

#[test]
fn disk_that_fails_in_an_ask_ends_the_call(rt: HostRuntime) -> Result<(), Fail> {
    for (case, disk) in STORING {
        let case = Case {
            disk,
            end: Ended::DiskFault,
            ..case
        };
        served(&rt, rt.alloc(), case)?;
    }
    Ok(())
}

#[test]
fn frame_is_shown_once_its_charge_is_stored(rt: HostRuntime) -> Result<(), Fail> {
    for case in CHARGES {
        served(&rt, rt.alloc(), case)?;
    }
    Ok(())
}

#[test]
fn call_goes_on_for_a_million_bytes(rt: HostRuntime) -> Result<(), Fail> {
    zeros(&rt, rt.alloc(), 1_000_000, UNKNOWN)
}

#[test]
fn call_is_spent_after_a_million_bytes(rt: HostRuntime) -> Result<(), Fail> {
    zeros(&rt, rt.alloc(), 1_000_001, SPENT)
}

#[test]
fn bytes_over_127_are_no_keys(rt: HostRuntime) -> Result<(), Fail> {
    let keys = parted(rt.alloc(), &PARTS)?;
    let case = Case {
        keys: &keys,
        ..CALL
    };
    served(&rt, rt.alloc(), case)
}

/// These parts, with each byte over 127 before each of them.
fn parted(alloc: Global, parts: &[&[u8]]) -> Result<Vec<u8>, Fail> {
    let mut keys = Vec::new(alloc);
    for part in parts {
        for byte in 128..=u8::MAX {
            keys.push(byte)?;
        }
        keys.extend_from_slice(part)?;
    }
    Ok(keys)
}

/// A call of this many bytes that are no keys.
fn zeros<R: Wait + Abort>(
    rt: &R,
    alloc: Global,
    count: usize,
    case: Case<'static>,
) -> Result<(), Fail> {
    let mut keys = Vec::with_capacity(alloc, count)?;
    for _ in 0..count {
        keys.push(0)?;
    }
    let case = Case {
        keys: &keys,
        ..case
    };
    served(rt, alloc, case)
}

/// Serves the call of a case, and sees what came of it.
fn served<R: Wait + Abort>(rt: &R, alloc: Global, case: Case<'_>) -> Result<(), Fail> {
    let centre = fresh::<IrcRules<0>>(alloc, LIMITS, case.disk)?;
    let mut line = line_of(alloc, case.keys, case.reads, case.writes)?;
    let (end, records, logged) = called::<Brand, _>(
        rt,
        alloc,
        centre,
        GroupStart::new(1),
        case.applied,
        &mut line,
    )?;
    assert_eq!(rt;
        (end, records, logged.pence),
        (case.end, case.records, case.pence)
    );
    assert_eq!(rt; logged.end.words(), words_of(case.end));
    assert_eq!(rt; line.sent(), bytes_of(alloc, case.sent)?.as_slice());
    Ok(())
}

/// Serves the call at this node, and returns how it ended, how many records there are then, and what a log may have of it.
fn called<N: GroupRun<CentreRecord> + Send + Sync, R: Wait>(
    rt: &R,
    alloc: Global,
    centre: Opened<IrcRules<0>, MemDisk>,
    start: GroupStart<CentreRecord>,
    applied: u8,
    line: &mut MemLine,
) -> Result<(Ended, u64, LogEntry), Fail>
    requires stands { StandsFor ⟦<IrcRules<0> as Rules>⟧ ⟦<MemDisk as Reports>⟧ centre.node N.opening }
    requires rest { (centre.node.hand ≡ None) × (centre.node.state.limits ≡ N.limits) × (1 ≡ N.passes) }
    requires start { start ≡ record {
      book = N.book;
      told = N.told;
      failed = N.failed;
      passes = N.passes;
      taken = N.taken;
    } }
    requires line { line.old.source.ended ≡ false }
{
    let (live, mut passes) = open_live::<IrcRules<0>, MemDisk, N, &R>(
        rt,
        alloc,
        centre.node,
        1,
        start,
    )?;
    let mut pass = passes.pop().ok_or("a pass")?;
    apply_first(rt, &live, &mut pass, applied, PRICE)?;
    let mut port = CallerPort::new(alloc, pass)?;
    let end = port.serve_call(rt, &live, line, &SetClock::new(7));
    let logged = port.log_entry(&end);
    Ok((ended_as(&end), port.into_pass().length(), logged))
}

/// The bytes of these screens.
fn bytes_of(alloc: Global, sent: &[Sent]) -> Result<Vec<u8>, Fail> {
    let mut all = Vec::new(alloc);
    let mut bytes = [0; BUFFER];
    for screen in sent {
        let count = screen_of(*screen)?.bytes(&mut bytes);
        all.extend_from_slice(&bytes[..count])?;
    }
    Ok(all)
}

/// The screen that was sent.
fn screen_of(sent: Sent) -> Result<Screen, Fail> {
    Ok(match sent {
        Alone(message) => {
            let mut grid = Grid::blank();
            grid.set_row(ROWS as u8, &message.row());
            Screen::Whole(grid)
        }
        Row(message) => Screen::Row(message.row()),
        Frame => Screen::Whole(compose(priced_frame(b'A', PRICE)?.frame(), name()?)),
    })
}

/// The end without what a fault carries.
fn ended_as(end: &CallEnd<MemDisk>) -> Ended {
    match end {
        CallEnd::Finished => Ended::Finished,
        CallEnd::Hung => Ended::Hung,
        CallEnd::Refused => Ended::Refused,
        CallEnd::Spent => Ended::Spent,
        CallEnd::ReadFault => Ended::ReadFault,
        CallEnd::WriteFault => Ended::WriteFault,
        CallEnd::DiskFault(_) => Ended::DiskFault,
        CallEnd::Full { count } => Ended::Full(*count),
        CallEnd::Memory { .. } => Ended::Memory,
    }
}

/// How a log says that a call ended so.
fn words_of(end: Ended) -> &'static str {
    match end {
        Ended::Finished => "finished",
        Ended::Hung => "hung up",
        Ended::Refused => "refused",
        Ended::Spent => "spent",
        Ended::ReadFault => "the line could not be read",
        Ended::WriteFault => "the line could not be written",
        Ended::DiskFault => "the disk failed",
        Ended::Full(_) => "the centre is full",
        Ended::Memory => "out of memory",
    }
}
