ghost use Rattle.std.specs.Prelude.{◌≡◌, ◌+◌, ◌<◌, length, ◌∷◌, []};
ghost use Rattle.pv_nodes_tests.specs.TestRules.{decision_on, sized, one_meaning, stored, counts_more, has_room_too, judged_alike};
ghost use Rattle.std.proofs.Common.{refl, sym, ap, ◌∙◌};

use pv_fields::{NoRoom, Out};
use pv_journal::format;
use pv_memory::MemDisk;
use pv_node::{AskFault, Decision, Node, NodeFault, Rules};
use pv_outside::{Disk, Failed, Fused, Limits};
use std::alloc::{AllocError, Global};
use std::test::Fail;
use std::thread;

/// Rules that store a byte below 128 while there is room for it, and reply how many there were.
struct Counting;

/// How many bytes were stored, and for how many there is room.
#[derive(Drop)]
struct Count {
    limits: Limits,
    count: u64,
}

impl Rules for Counting {
    type State = Count;

    type Request = u8;

    type Rec = u8;

    type Reply = u64;

    ghost limits_of = { λ state. state.limits };

    ghost stands = { λ state records. state.count ≡ length records };

    ghost count_of = { λ state. state.count };

    ghost after = { λ state rec place. record state { count = state.count + 1 } };

    ghost fits = { λ state rec. state.count < state.limits.frames };

    ghost is_request = { λ request. Unit {0} };

    ghost judgement = { λ state request. decision_on state.limits.frames state.count request };

    ghost is_record = { λ rec. rec < 128 };

    ghost spelling = { λ rec. rec ∷ [] };

    ghost sized = { sized };

    ghost one_meaning = { one_meaning };

    ghost stored = { λ state request rec reply is judged.
        stored state.limits.frames state.count request rec reply judged };

    ghost grows = { λ state records rec stands is room within. counts_more state.count records rec stands };

    ghost same_room = { λ one other records rec stands same limits room.
        has_room_too one.count other.count one.limits.frames other.limits.frames
        (stands ∙ sym same) (ap (λ l. l.frames) limits) room };

    ghost same_judgement = { λ one other records request stands same limits is.
        judged_alike one.count other.count one.limits.frames other.limits.frames request
        (stands ∙ sym same) (ap (λ l. l.frames) limits) };

    ghost counted = { λ state records stands. stands };

    ghost counts_on = { λ state rec place. refl };

    ghost limits_stay = { λ state rec place. refl };

    fn open(_alloc: Global, limits: Limits) -> Result<Count, AllocError> {
        Ok(Count { limits, count: 0 })
    }

    fn copy(_alloc: Global, state: &Count) -> Result<Count, AllocError> {
        Ok(Count {
            limits: state.limits,
            count: state.count,
        })
    }

    fn decide(state: &Count, request: &u8) -> Decision<u8, u64> {
        if *request < 128 && state.count < state.limits.frames as u64 {
            Decision::Store(*request, state.count)
        } else {
            Decision::Answer(state.count)
        }
    }

    fn has_room(state: &Count, _rec: &u8) -> bool {
        state.count < state.limits.frames as u64
    }

    fn absorb(state: &mut Count, _rec: &u8, _place: u64) {
        state.count += 1;
    }

    fn encode(rec: &u8, out: &mut Out) -> Result<(), NoRoom> {
        out.u8(*rec)
    }

    fn decode(bytes: &[u8]) -> Option<u8> {
        match bytes {
            [rec] if *rec < 128 => Some(*rec),
            _ => None,
        }
    }
}

/// Room for three bytes, and for as many records.
const LIMITS: Limits = Limits {
    frames: 3,
    records: 3,
};

/// A journal with the records `A` and `B`.
const TWO: &[u8] = b"PVJOURN1\x01\x00\x01A\x01\x00\x01B\x00";

/// A fault of opening a node over a disk in memory.
type Fault = NodeFault<MemDisk>;

/// A node of these rules.
type Counter = Node<Counting, MemDisk>;

/// A node over such a disk.
fn open(alloc: Global, disk: MemDisk, limits: Limits) -> Result<Counter, Fail> {
    match Node::open(alloc, disk, limits) {
        Ok(node) => Ok(node),
        Err(_) => Err("not opened".into()),
    }
}

/// A disk of these bytes, all of them synced, of which the calls of these numbers fail: the first two
/// were made, and opening a node over it makes four more if it has no records.
fn disk_of(alloc: Global, bytes: &[u8], fails: &[u64]) -> Result<MemDisk, Fail> {
    let mut disk = MemDisk::new(alloc, 10_000, fails)?;
    disk.write(0, bytes)?;
    disk.sync()?;
    Ok(disk)
}

/// A node without records, whose disk is to fail at the calls of these numbers.
fn empty(alloc: Global, limits: Limits, fails: &[u64]) -> Result<Counter, Fail> {
    open(alloc, disk_of(alloc, b"PVJOURN1\x00", fails)?, limits)
}

/// What a node answers.
#[derive(Clone, Copy, Debug, PartialEq, Eq)]
enum Answer {
    /// The reply, and nothing is stored.
    Reply(u64),
    /// The reply, and the place of the record that was stored.
    Stored(u64, u64),
    /// There are this many records, which is the limit.
    Full(u64),
    /// The disk failed.
    Failed,
}

/// Asks a node to store a byte.
fn ask(node: &mut Counter, byte: u8) -> Answer {
    match node.ask(&byte) {
        Ok(told) => match told.number {
            Some(place) => Answer::Stored(told.reply, place),
            None => Answer::Reply(told.reply),
        },
        Err(AskFault::Full { count }) => Answer::Full(count),
        Err(AskFault::Disk(Failed)) => Answer::Failed,
    }
}

/// The first of these bytes that is answered otherwise.
fn first_unlike(node: &mut Counter, asks: &[(u8, Answer)]) -> Option<u8> {
    for (byte, answer) in asks {
        if ask(node, *byte) != *answer {
            return Some(*byte);
        }
    }
    None
}

#[test]
fn a_node_is_handed_to_a_thread(rt: HostRuntime) -> Result<(), Fail> {
    let mut node = empty(rt.alloc(), LIMITS, &[])?;
    let (answer, ()) = thread::join(&rt, move || ask(&mut node, 65), || ());
    assert_eq!(rt; answer, Answer::Stored(0, 0));
    Ok(())
}

/// A node over a disk that was formatted.
fn formatted(alloc: Global) -> Result<Counter, Fail> {
    let mut disk = MemDisk::new(alloc, 10_000, &[])?;
    format(&mut disk)?;
    open(alloc, disk, LIMITS)
}

#[test]
fn what_was_stored_is_there_when_the_disk_is_opened_again(rt: HostRuntime) -> Result<(), Fail> {
    let mut node = formatted(rt.alloc())?;
    let asks = [
        (65, Answer::Stored(0, 0)),
        (200, Answer::Reply(1)),
        (66, Answer::Stored(1, 1)),
    ];
    assert_eq!(rt;
        (first_unlike(&mut node, &asks), node.state().count),
        (None, 2)
    );
    let disk = node.into_disk();
    assert_eq!(rt; disk.bytes(), TWO);
    let node = open(rt.alloc(), disk, LIMITS)?;
    assert_eq!(rt; (node.count(), node.state().count), (2, 2));
    Ok(())
}

#[test]
fn a_node_is_full_at_its_limit_and_not_before(rt: HostRuntime) -> Result<(), Fail> {
    let many = Limits {
        frames: 9,
        records: 2,
    };
    let mut node = empty(rt.alloc(), many, &[])?;
    let asks = [
        (65, Answer::Stored(0, 0)),
        (66, Answer::Stored(1, 1)),
        (67, Answer::Full(2)),
        (200, Answer::Reply(2)),
    ];
    assert_eq!(rt; (first_unlike(&mut node, &asks), node.count()), (None, 2));
    Ok(())
}

/// The fault of opening a disk of these bytes, of which the calls of these numbers fail.
fn fault_of(
    alloc: Global,
    bytes: &[u8],
    limits: Limits,
    fails: &[u64],
) -> Result<Option<Fault>, Fail> {
    let disk = disk_of(alloc, bytes, fails)?;
    match Node::<Counting, MemDisk>::open(alloc, disk, limits) {
        Ok(_) => Ok(None),
        Err((fault, _)) => Ok(Some(fault)),
    }
}

#[test]
fn bytes_that_are_no_records_are_refused_for_what_they_are(rt: HostRuntime) -> Result<(), Fail> {
    let three = b"PVJOURN1\x01\x00\x01A\x01\x00\x01B\x01\x00\x01C\x00";
    let wide = Limits {
        frames: 9,
        records: 2,
    };
    let narrow = Limits {
        frames: 2,
        records: 9,
    };
    let table: [(&[u8], Limits, Fault); 6] = [
        (&[0; 9], LIMITS, Fault::NotFormatted([0; 8])),
        (b"PVJOURN1", LIMITS, Fault::Broken { at: 8 }),
        (
            b"PVJOURN1\x01\x00\x02AB\x00",
            LIMITS,
            Fault::Unreadable { number: 0 },
        ),
        (
            b"PVJOURN1\x01\x00\x01A\x01\x00\x01\x80\x00",
            LIMITS,
            Fault::Unreadable { number: 1 },
        ),
        (three, narrow, Fault::Unreadable { number: 2 }),
        (three, wide, Fault::TooMany { count: 2 }),
    ];
    for (bytes, limits, fault) in table {
        assert_eq!(rt; fault_of(rt.alloc(), bytes, limits, &[])?, Some(fault));
    }
    Ok(())
}

#[test]
fn a_disk_that_fails_while_it_is_read_is_reported(rt: HostRuntime) -> Result<(), Fail> {
    // The calls 2 to 5 are those of the opening.
    for failing in 2..6 {
        let fault = fault_of(rt.alloc(), b"PVJOURN1\x00", LIMITS, &[failing])?;
        assert_eq!(rt; fault, Some(Fault::Disk(Failed)), "call {failing} failed");
    }
    Ok(())
}

/// A node that has the record 65 in hand, since this call of the disk failed.
fn with_one_in_hand(alloc: Global, failing: u64) -> Result<Counter, Fail> {
    let mut node = empty(alloc, LIMITS, &[failing])?;
    if ask(&mut node, 65) != Answer::Failed {
        return Err("the disk did not fail".into());
    }
    Ok(node)
}

/// What two settlings of a node find, and how many records it has then.
fn settled_twice(node: &mut Counter) -> Result<(Option<u8>, Option<u8>, u64), Failed> {
    let first = node.settle()?;
    let second = node.settle()?;
    Ok((first, second, node.count()))
}

#[test]
fn a_record_in_hand_is_settled_before_the_next_judgement(rt: HostRuntime) -> Result<(), Fail> {
    // The calls 6 to 9 are those of the append: two writes, each with its sync.
    for (failing, stored, found) in [(6, 0, None), (7, 0, None), (8, 0, None), (9, 1, Some(65))] {
        let mut node = with_one_in_hand(rt.alloc(), failing)?;
        let count = node.state().count;
        assert_eq!(rt;
            (count, ask(&mut node, 66)),
            (0, Answer::Stored(stored, stored)),
            "call {failing} failed"
        );
        let mut other = with_one_in_hand(rt.alloc(), failing)?;
        assert_eq!(rt; settled_twice(&mut other)?, (found, None, stored));
    }
    Ok(())
}

/// The images that each stop is tried with.
const IMAGES: [u8; 16] = [0, 1, 2, 3, 4, 5, 7, 8, 15, 31, 64, 97, 103, 128, 200, 255];

/// What is stopped: an opening over two records; or at a node without records an ask, a settling of a
/// record in hand, or an ask while a record is in hand.
#[derive(Clone, Copy, Debug, PartialEq, Eq)]
enum Run {
    Open,
    Ask,
    Settle,
    SettleThenAsk,
}

#[test]
fn a_stop_at_each_call_leaves_the_records_before_or_one_more(rt: HostRuntime) -> Result<(), Fail> {
    // How many calls of the disk each makes, and how few and how many records there may be afterwards.
    let table = [
        (Run::Open, 6, 2, 2),
        (Run::Ask, 4, 0, 1),
        (Run::Settle, 2, 0, 1),
        (Run::SettleThenAsk, 6, 0, 2),
    ];
    for (run, calls, least, most) in table {
        for stop in 0..calls + 1 {
            for image in IMAGES {
                let (is_ok, there) = after_stop(rt.alloc(), run, stop, image)?;
                assert_eq!(rt; is_ok, stop == calls, "{run:?} after {stop} calls");
                let least = if is_ok { most } else { least };
                assert!(rt;
                    least <= there && there <= most,
                    "{run:?}, image {image}, {stop} calls"
                );
            }
        }
    }
    Ok(())
}

/// Whether the run succeeded of which `calls` calls of the disk pass, and how many records the image has
/// that a stop leaves then.
fn after_stop(alloc: Global, run: Run, calls: u32, image: u8) -> Result<(bool, u64), Fail> {
    let (is_ok, mut disk) = if run == Run::Open {
        stop_opening(alloc, calls)?
    } else {
        stop_node(alloc, run, calls)?
    };
    disk.crash(image);
    let node = open(alloc, disk, LIMITS)?;
    Ok((is_ok, node.count()))
}

/// Whether an opening over two records succeeded of which `calls` calls of the disk pass, and the disk.
fn stop_opening(alloc: Global, calls: u32) -> Result<(bool, MemDisk), Fail> {
    let mut disk = disk_of(alloc, TWO, &[])?;
    disk.fuse(calls);
    match Node::<Counting, MemDisk>::open(alloc, disk, LIMITS) {
        Ok(node) => Ok((true, node.into_disk())),
        Err((_, disk)) => Ok((false, disk)),
    }
}

/// Whether the run at a node succeeded of which `calls` calls of the disk pass, and its disk.
fn stop_node(alloc: Global, run: Run, calls: u32) -> Result<(bool, MemDisk), Fail> {
    // Call 9 is the last sync of an append: the record is in hand, and its gate is written.
    let mut node = if run == Run::Ask {
        empty(alloc, LIMITS, &[])?
    } else {
        with_one_in_hand(alloc, 9)?
    };
    node.fuse(calls);
    let is_ok = if run == Run::Settle {
        node.settle().is_ok()
    } else {
        matches!(ask(&mut node, 66), Answer::Stored(..) | Answer::Reply(_))
    };
    Ok((is_ok, node.into_disk()))
}
