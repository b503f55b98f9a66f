use crate::checking::check_tape;
use crate::{TapeEnd, run_tape};
use pv_edits::Record;
use pv_input::LONGEST_TEXT;
use pv_journal::format;
use pv_memory::{MemDisk, MemSource};
use pv_node::Node;
use pv_outside::Limits;
use pv_udc::UdcRules;
use std::alloc::Global;
use std::test::Fail;

/// A tape, and the number of its first bad line, if it has one.
type Row = (&'static [u8], Option<u32>);

/// Of these rows the last has its ninth field at line 11.
const ROWS: [Row; 15] = [
    (TAPE, None),
    (b"TAPE 4000000000 1000000001 ABCD\n\n; nothing\n", None),
    (b"TAPE 1 0000000000 0000", None),
    (b"", Some(1)),
    (b"\nTAPE 1 0000000000 0000\n", Some(1)),
    (b"TAPE 0 0000000000 0000\n", Some(1)),
    (b"TAPE 4000000001 0000000000 0000\n", Some(1)),
    (b"; TAPE 1 0000000000 0000\n", Some(1)),
    (b"TAPE 1 0000000000 0000\nSTORE\n", Some(2)),
    (b"TAPE 1 0000000000 0000\nROW 2 HELLO\n", Some(2)),
    (b"TAPE 1 0000000000 0000\nNEW 1a\nSTORE 1\n", Some(3)),
    (
        b"TAPE 1 0000000000 0000\nNEW 1a\nPRICE 100\nSTORE\n",
        Some(4),
    ),
    (b"TAPE 1 0000000000 0000\nLOGON 0000000000 0000\n", Some(2)),
    (b"TAPE 1 0000000000 0000\nDROP 1 1a\n", Some(2)),
    (NINE_FIELDS, Some(11)),
];

/// A tape that adds nine fields to a frame.
const NINE_FIELDS: &[u8] =
    b"TAPE 1 0000000000 0000\nNEW 1a\nFIELD 3 0 1 D\nFIELD 3 1 1 D\nFIELD 3 2 1 D\nFIELD 3 3 1 D\nFIELD 3 4 1 D\nFIELD 3 5 1 D\nFIELD 3 6 1 D\nFIELD 3 7 1 D\nFIELD 3 8 1 D\n";

#[test]
fn the_first_bad_line_is_found(rt: HostRuntime) -> Result<(), Fail> {
    for (text, bad) in &ROWS {
        if text.len() > LONGEST_TEXT {
            return Err(Fail::from("too long"));
        }
        assert_eq!(rt; check_tape(text).err(), *bad, "at {text:?}");
    }
    Ok(())
}

/// A tape of three edits of the operator.
const TAPE: &[u8] =
    b"TAPE 1 0000000000 0000\nNEW 1a\nROW 2 HELLO\nSTORE\nROW 2 AGAIN\nSTORE\nDROP 1a\n";

/// That tape from the third number on, which is not the operator's next.
const LATER_TAPE: &[u8] =
    b"TAPE 3 0000000000 0000\nNEW 1a\nROW 2 HELLO\nSTORE\nROW 2 AGAIN\nSTORE\nDROP 1a\n";

/// Room for the records of the tape, and two more.
const LIMITS: Limits = Limits {
    frames: 20,
    records: 5,
};

/// Room for two records.
const TWO: Limits = Limits {
    frames: 20,
    records: 2,
};

/// How many bytes a disk of the tests may have.
const ROOM: u64 = 10_000;

type MemNode = Node<UdcRules, MemDisk>;

/// A formatted disk without records.
fn new_disk(alloc: Global) -> Result<MemDisk, Fail> {
    let mut disk = MemDisk::new(alloc, ROOM, &[])?;
    if format(&mut disk).is_err() {
        return Err(Fail::from("not formatted"));
    }
    Ok(disk)
}

/// The node of a disk.
fn open(alloc: Global, disk: MemDisk, limits: Limits) -> Result<MemNode, Fail> {
    match Node::open(alloc, disk, limits) {
        Ok(node) => Ok(node),
        Err(_) => Err(Fail::from("not opened")),
    }
}

/// The end of a run, with what it says in numbers: `Done`, its counts; `Refused`, its line, code and number.
#[derive(Clone, Copy, Debug, PartialEq, Eq)]
enum End {
    Done(u32, u32),
    ReadFault,
    TooLong,
    BadTape(u32),
    NotKnown,
    Refused(u32, u8, u64),
    Full(u64),
    DiskFault,
    Memory,
}

/// The end of a run of a tape, whose reads of these numbers fail.
fn run(alloc: Global, node: &mut MemNode, tape: &[u8], fails: &[u64]) -> Result<End, Fail> {
    let mut source = MemSource::new(alloc, tape, fails)?;
    Ok(match run_tape(alloc, node, &mut source) {
        TapeEnd::Done { stored, skipped } => End::Done(stored, skipped),
        TapeEnd::ReadFault => End::ReadFault,
        TapeEnd::TooLong => End::TooLong,
        TapeEnd::BadTape { line } => End::BadTape(line),
        TapeEnd::NotKnown => End::NotKnown,
        TapeEnd::Refused { line, code, shown } => End::Refused(line, code, shown),
        TapeEnd::Full { count } => End::Full(count),
        TapeEnd::DiskFault(_) => End::DiskFault,
        TapeEnd::Memory => End::Memory,
    })
}

/// The ends of a run at a node with these limits and of one at the node opened again with room, and how many records
/// there are then.
fn run_twice(alloc: Global, tape: &[u8], limits: Limits) -> Result<([End; 2], u64), Fail> {
    let mut node = open(alloc, new_disk(alloc)?, limits)?;
    let first = run(alloc, &mut node, tape, &[])?;
    let mut again = open(alloc, node.into_disk(), LIMITS)?;
    let second = run(alloc, &mut again, tape, &[])?;
    Ok(([first, second], again.count()))
}

#[test]
fn tapes_run_to_these_ends(rt: HostRuntime) -> Result<(), Fail> {
    let cases: [(&[u8], Limits, [End; 2], u64); 3] = [
        (TAPE, LIMITS, [End::Done(3, 0), End::Done(0, 3)], 3),
        (TAPE, TWO, [End::Full(2), End::Done(1, 2)], 3),
        (
            LATER_TAPE,
            LIMITS,
            [End::Refused(4, 3, 1), End::Refused(4, 3, 1)],
            0,
        ),
    ];
    for (tape, limits, ends, records) in cases {
        assert_eq!(rt;
            run_twice(rt.alloc(), tape, limits)?,
            (ends, records),
            "{tape:?}"
        );
    }
    Ok(())
}

/// The end of a run of a tape at a node without records, if the bytes of its disk are as they were.
fn end_without_writing(alloc: Global, tape: &[u8], fails: &[u64]) -> Result<Option<End>, Fail> {
    let mut node = open(alloc, new_disk(alloc)?, LIMITS)?;
    let end = run(alloc, &mut node, tape, fails)?;
    let disk = node.into_disk();
    let same = disk.bytes() == new_disk(alloc)?.bytes();
    Ok(same.then_some(end))
}

#[test]
fn a_tape_that_is_not_run_writes_nothing(rt: HostRuntime) -> Result<(), Fail> {
    let cases: [(&[u8], &[u64], End); 9] = [
        (TAPE, &[0], End::ReadFault),
        (b"", &[], End::BadTape(1)),
        (b"TAPE 1 0000000000 0000\nSTORE\n", &[], End::BadTape(2)),
        (
            b"TAPE 1 0000000000 0000\nNEW 1a\nSTORE\nSTORE 2\n",
            &[],
            End::BadTape(4),
        ),
        (
            b"TAPE 1 0000000000 0000\nNEW 1a\nSTORE\nPRICE 100\nSTORE\n",
            &[],
            End::BadTape(5),
        ),
        (NINE_FIELDS, &[], End::BadTape(11)),
        (
            b"TAPE 1 0000000000 0001\nNEW 1a\nSTORE\n",
            &[],
            End::NotKnown,
        ),
        (
            b"TAPE 1 1000000001 0000\nNEW 1a\nSTORE\n",
            &[],
            End::NotKnown,
        ),
        (LATER_TAPE, &[], End::Refused(4, 3, 1)),
    ];
    for (tape, fails, end) in cases {
        assert_eq!(rt;
            end_without_writing(rt.alloc(), tape, fails)?,
            Some(end),
            "{tape:?}"
        );
    }
    Ok(())
}

#[test]
fn a_long_tape_writes_nothing(rt: HostRuntime) -> Result<(), Fail> {
    let alloc = rt.alloc();
    let tape = vec![in alloc; b'\n'; LONGEST_TEXT + 1]?;
    assert_eq!(rt; end_without_writing(alloc, &tape, &[])?, Some(End::TooLong));
    Ok(())
}

/// The records of a node.
fn records_of(alloc: Global, node: &MemNode) -> Result<Vec<Record>, Fail> {
    let mut records = Vec::new(alloc);
    for place in 0..node.count() {
        if let Some(record) = node.state().rec_at(place) {
            records.push(*record)?;
        }
    }
    Ok(records)
}

/// How many calls of the disk the three edits of the tape make.
const CALLS: u32 = 12;

/// How many images of a disk a crash may leave, each with its number.
const IMAGES: u32 = 256;

/// The records of a node at which the tape was run whole.
fn whole_records(alloc: Global) -> Result<Vec<Record>, Fail> {
    let mut node = open(alloc, new_disk(alloc)?, LIMITS)?;
    run(alloc, &mut node, TAPE, &[])?;
    records_of(alloc, &node)
}

/// The records after a run that was cut after this many calls, a crash that left this image, and a run of the same tape.
fn records_after_cut(alloc: Global, calls: u32, image: u8) -> Result<Vec<Record>, Fail> {
    let mut node = open(alloc, new_disk(alloc)?, LIMITS)?;
    node.fuse(calls);
    if run(alloc, &mut node, TAPE, &[])? != End::DiskFault {
        return Err(Fail::from("not cut"));
    }
    let mut disk = node.into_disk();
    disk.crash(image);
    let mut again = open(alloc, disk, LIMITS)?;
    match run(alloc, &mut again, TAPE, &[])? {
        End::Done(_, _) => records_of(alloc, &again),
        _ => Err(Fail::from("not done")),
    }
}

#[test]
fn a_run_that_was_cut_is_continued(rt: HostRuntime) -> Result<(), Fail> {
    let alloc = rt.alloc();
    let whole = whole_records(alloc)?;
    for calls in 0..CALLS {
        for image in 0..IMAGES {
            assert_eq!(rt;
                records_after_cut(alloc, calls, image as u8)?,
                whole,
                "calls {calls} image {image}"
            );
        }
    }
    Ok(())
}

/// The records after a run that was cut after this many calls, and a run of the same tape at the same node.
fn records_after_fault(alloc: Global, calls: u32) -> Result<Vec<Record>, Fail> {
    let mut node = open(alloc, new_disk(alloc)?, LIMITS)?;
    node.fuse(calls);
    if run(alloc, &mut node, TAPE, &[])? != End::DiskFault {
        return Err(Fail::from("not cut"));
    }
    node.fuse(u32::MAX);
    run(alloc, &mut node, TAPE, &[])?;
    records_of(alloc, &node)
}

#[test]
fn a_run_goes_on_at_the_same_node(rt: HostRuntime) -> Result<(), Fail> {
    let alloc = rt.alloc();
    let whole = whole_records(alloc)?;
    for calls in 0..CALLS {
        assert_eq!(rt; records_after_fault(alloc, calls)?, whole, "{calls}");
    }
    Ok(())
}
