//! Rounds of a carrier between the Update Centre and a centre.
ghost use Rattle.std.specs.Prelude.{◌≡◌, None, IfSome};
ghost use Rattle.pv_node.specs.Standing.{StandsFor};
ghost use Rattle.pv_post.specs.Spelling.{IsItem};
ghost use Rattle.pv_udc.specs.Requests.{IsRequest};

use super::nodes::{LIMITS, fresh, name, put};
use super::unsteady::Unsteady;
use pv_charge::Line;
use pv_edits::{EditWish, Record};
use pv_fields::Out;
use pv_frame::Frame;
use pv_group::{GroupRun, GroupStart, Live, open_live};
use pv_irc::{CentreRecord, IrcRequest, IrcRules};
use pv_live::Pass;
use pv_memory::{MemDisk, Pipe};
use pv_node::{Opened, Rules};
use pv_outside::{Limits, Link, MAX_PACKET, Reports};
use pv_packet::Packet;
use pv_page::{AccountNo, FrameName};
use pv_ports::{Carrier, RoundEnd};
use pv_post::Item;
use pv_udc::{UdcRequest, UdcRules};
use std::alloc::Global;
use std::marker::Brand;
use std::process::Abort;
use std::sync::Wait;
use std::test::Fail;

/// What came of a round, without what a fault carries.
#[derive(Clone, Copy, Debug, PartialEq, Eq)]
enum Came {
    Moved(u8, u8),
    Idle,
    LinkFault,
    DiskFault,
    Full(u8, u64),
    Memory,
}

use Came::{DiskFault, Full, Idle, LinkFault, Moved};

/// Room for one frame, and no fewer records.
const ONE_FRAME: Limits = Limits {
    frames: 1,
    records: 4,
};

/// How many edits the Update Centre has stored, of one frame and of the other, and how many items the centre has kept
/// before the first round; whether the centre has room for both frames; which calls of the disks fail; what comes of
/// each round; and how many records there are at the Update Centre and at the centre after the last one.
#[derive(Clone, Copy)]
struct Case {
    edits: u32,
    items: u32,
    has_room: bool,
    udc_disk: &'static [u64],
    centre_disk: &'static [u64],
    rounds: &'static [Came],
    records: (u64, u64),
}

/// Nothing is there, and nothing fails.
const NONE: Case = Case {
    edits: 0,
    items: 0,
    has_room: true,
    udc_disk: &[],
    centre_disk: &[],
    rounds: &[Idle],
    records: (0, 0),
};

/// One record goes down.
const RECORD: Case = Case {
    edits: 1,
    rounds: &[Moved(1, 0), Idle],
    records: (1, 1),
    ..NONE
};

/// One item goes up. It is given again until its acknowledgement has come down, and that it was taken up is a record, which
/// goes down too.
const ITEM: Case = Case {
    items: 1,
    rounds: &[Moved(0, 1), Moved(1, 0), Moved(0, 0), Idle],
    records: (1, 2),
    ..NONE
};

/// Rounds over pipes that do not fail.
const ROUNDS: [Case; 5] = [
    NONE,
    RECORD,
    Case {
        edits: 2,
        rounds: &[Moved(1, 0), Moved(1, 0), Idle],
        records: (2, 2),
        ..NONE
    },
    ITEM,
    Case {
        edits: 1,
        items: 1,
        rounds: &[Moved(1, 1), Moved(1, 0), Moved(0, 0), Idle],
        records: (2, 3),
        ..NONE
    },
];

/// A full Update Centre, a full centre, and a centre without room for the second frame. What is not stored is not
/// acknowledged, so it is given again.
const CROWDED: [Case; 3] = [
    Case {
        edits: 4,
        items: 1,
        rounds: &[Full(0, 4), Full(0, 4)],
        records: (4, 3),
        ..NONE
    },
    Case {
        edits: 1,
        items: 4,
        rounds: &[Full(1, 4), Full(1, 4)],
        records: (1, 4),
        ..NONE
    },
    Case {
        edits: 2,
        has_room: false,
        rounds: &[Moved(1, 0), Moved(0, 0), Moved(0, 0)],
        records: (2, 1),
        ..NONE
    },
];

/// Calls of a disk that fail while a record or an item is stored: seven calls are those of the formatting and the
/// opening, and four store it. What was decided stays decided, whichever of them fails: the next round has it stored,
/// and the answer is that it is there.
const STORE_FAULTS: [&[u64]; 4] = [&[7], &[8], &[9], &[10]];

/// What is carried, the calls of the link down and of the link up that fail, and what comes of the rounds. A record takes
/// a give and two takes of each link, since its acknowledgement goes up: each of them fails once. Then the two gives
/// fail that are made for an item alone.
const LINK_FAULTS: [(Case, &[u64], &[u64], &[Came]); 8] = [
    (RECORD, &[0], &[], &[LinkFault, Moved(1, 0), Idle]),
    (RECORD, &[1], &[], &[LinkFault, Moved(1, 0), Idle]),
    (RECORD, &[2], &[], &[LinkFault, Moved(0, 0), Idle]),
    (RECORD, &[], &[0], &[LinkFault, Moved(0, 0), Idle]),
    (RECORD, &[], &[1], &[LinkFault, Moved(0, 0), Idle]),
    (RECORD, &[], &[2], &[LinkFault, Idle]),
    (
        ITEM,
        &[],
        &[0],
        &[LinkFault, Moved(0, 1), Moved(1, 0), Moved(0, 0), Idle],
    ),
    (
        ITEM,
        &[1],
        &[],
        &[LinkFault, Moved(1, 0), Moved(0, 0), Moved(0, 0), Idle],
    ),
];

#[test]
fn rounds_move_what_there_is(rt: HostRuntime) -> Result<(), Fail> {
    for case in ROUNDS {
        piped(&rt, rt.alloc(), case, &[], &[])?;
    }
    Ok(())
}

#[test]
fn node_without_room_is_told(rt: HostRuntime) -> Result<(), Fail> {
    for case in CROWDED {
        piped(&rt, rt.alloc(), case, &[], &[])?;
    }
    Ok(())
}

#[test]
fn disk_that_fails_loses_nothing(rt: HostRuntime) -> Result<(), Fail> {
    for centre_disk in STORE_FAULTS {
        let case = Case {
            centre_disk,
            rounds: &[DiskFault, Moved(0, 0), Idle],
            ..RECORD
        };
        piped(&rt, rt.alloc(), case, &[], &[])?;
    }
    for udc_disk in STORE_FAULTS {
        let case = Case {
            udc_disk,
            rounds: &[DiskFault, Moved(0, 0), Moved(1, 0), Moved(0, 0), Idle],
            ..ITEM
        };
        piped(&rt, rt.alloc(), case, &[], &[])?;
    }
    Ok(())
}

#[test]
fn link_that_fails_loses_nothing(rt: HostRuntime) -> Result<(), Fail> {
    for (case, down, up, rounds) in LINK_FAULTS {
        let case = Case { rounds, ..case };
        piped(&rt, rt.alloc(), case, down, up)?;
    }
    Ok(())
}

#[test]
fn link_may_lose_repeat_and_reorder(rt: HostRuntime) -> Result<(), Fail> {
    let lost = Case {
        rounds: &[Moved(0, 0), Moved(1, 0), Idle],
        ..RECORD
    };
    let repeated = Case {
        rounds: &[Moved(1, 0), Moved(0, 0), Idle],
        ..RECORD
    };
    let reordered = Case {
        edits: 2,
        rounds: &[Moved(0, 0), Moved(1, 0), Moved(1, 0), Idle],
        records: (2, 2),
        ..NONE
    };
    let table: [(Case, &[Option<usize>], &[Option<usize>]); 3] = [
        (lost, &[None, Some(1)], &[None, Some(0)]),
        (
            repeated,
            &[Some(0), Some(0), Some(0)],
            &[Some(0), Some(1), Some(2)],
        ),
        (
            reordered,
            &[None, Some(1), Some(0), Some(2)],
            &[None, Some(1), Some(0), Some(2)],
        ),
    ];
    for (case, down, up) in table {
        let mut down = Unsteady::new(rt.alloc(), down)?;
        let mut up = Unsteady::new(rt.alloc(), up)?;
        carried(&rt, rt.alloc(), case, &mut down, &mut up)?;
    }
    Ok(())
}

#[test]
fn packet_of_nobody_is_dropped(rt: HostRuntime) -> Result<(), Fail> {
    let dropped = Case {
        rounds: &[Moved(0, 0), Idle],
        ..NONE
    };
    let mut down = Pipe::new(rt.alloc(), &[])?;
    let mut up = Pipe::new(rt.alloc(), &[])?;
    down.give(b"no packet")?;
    give_to_another(&mut down)?;
    up.give(b"")?;
    carried(&rt, rt.alloc(), dropped, &mut down, &mut up)
}

/// Gives a link a record that goes down to another centre.
fn give_to_another(link: &mut Pipe) -> Result<(), Fail> {
    let packet = Packet::Down {
        centre: 1,
        number: 0,
        rec: put(1, b'A')?,
    };
    let mut bytes = [0; MAX_PACKET];
    let mut out = Out::new(&mut bytes);
    packet.encode(&mut out)?;
    let count = out.written();
    link.give(&bytes[..count])?;
    Ok(())
}

/// Makes the rounds of a case over pipes of which these calls fail, and sees what comes of them.
fn piped<R: Wait + Abort>(
    rt: &R,
    alloc: Global,
    case: Case,
    down: &[u64],
    up: &[u64],
) -> Result<(), Fail> {
    let mut down = Pipe::new(alloc, down)?;
    let mut up = Pipe::new(alloc, up)?;
    carried(rt, alloc, case, &mut down, &mut up)
}

/// The limits of a centre that has room for both frames, or for one.
fn limits_of(has_room: bool) -> Limits {
    if has_room { LIMITS } else { ONE_FRAME }
}

/// Makes the rounds of a case over these links, and sees what comes of them.
fn carried<L: Link, R: Wait + Abort>(
    rt: &R,
    alloc: Global,
    case: Case,
    down: &mut L,
    up: &mut L,
) -> Result<(), Fail> {
    let udc = fresh::<UdcRules>(alloc, LIMITS, case.udc_disk)?;
    let centre = fresh::<IrcRules<0>>(alloc, limits_of(case.has_room), case.centre_disk)?;
    let (is_as_expected, records) = rounds::<Brand, Brand, L, _>(
        rt,
        alloc,
        udc,
        GroupStart::new(1),
        centre,
        GroupStart::new(1),
        case,
        down,
        up,
    )?;
    assert!(rt; is_as_expected);
    assert_eq!(rt; records, case.records);
    Ok(())
}

/// Makes the rounds between these nodes. Returns whether each came to what was expected, and how many records there are
/// then.
fn rounds<
    U: GroupRun<Record> + Send + Sync,
    N: GroupRun<CentreRecord> + Send + Sync,
    L: Link,
    R: Wait,
>(
    rt: &R,
    alloc: Global,
    udc: Opened<UdcRules, MemDisk>,
    udc_start: GroupStart<Record>,
    centre: Opened<IrcRules<0>, MemDisk>,
    centre_start: GroupStart<CentreRecord>,
    case: Case,
    down: &mut L,
    up: &mut L,
) -> Result<(bool, (u64, u64)), Fail>
    requires udc { StandsFor ⟦<UdcRules as Rules>⟧ ⟦<MemDisk as Reports>⟧ udc.node U.opening }
    requires udc_rest { (udc.node.hand ≡ None) × (udc.node.state.limits ≡ U.limits) × (1 ≡ U.passes) }
    requires udc_start { udc_start ≡ record {
      book = U.book;
      told = U.told;
      failed = U.failed;
      passes = U.passes;
      taken = U.taken;
    } }

    // The centre.
    requires centre { StandsFor ⟦<IrcRules<0> as Rules>⟧ ⟦<MemDisk as Reports>⟧ centre.node N.opening }
    requires centre_rest { (centre.node.hand ≡ None) × (centre.node.state.limits ≡ N.limits) × (1 ≡ N.passes) }
    requires centre_start { centre_start ≡ record {
      book = N.book;
      told = N.told;
      failed = N.failed;
      passes = N.passes;
      taken = N.taken;
    } }
{
    let (udc, mut udc_passes) = open_live::<UdcRules, MemDisk, U, &R>(
        rt, alloc, udc.node, 1, udc_start,
    )?;
    let (centre, mut centre_passes) = open_live::<IrcRules<0>, MemDisk, N, &R>(
        rt,
        alloc,
        centre.node,
        1,
        centre_start,
    )?;
    let mut udc_pass = udc_passes.pop().ok_or("a pass")?;
    let mut centre_pass = centre_passes.pop().ok_or("a pass")?;
    store_edits(rt, &udc, &mut udc_pass, case.edits)?;
    keep_items(rt, &centre, &mut centre_pass, case.items)?;
    let mut carrier = Carrier::new(udc_pass, centre_pass);
    let mut is_as_expected = true;
    for expected in case.rounds {
        let end = carrier.carry_round(rt, &udc, &centre, down, up);
        is_as_expected &= came_as(&end) == *expected;
    }
    let (udc_pass, centre_pass) = carrier.into_passes();
    Ok((is_as_expected, (udc_pass.length(), centre_pass.length())))
}

/// The operator's edit of this number: he puts a blank frame, the first if the number is even, the second if it is odd.
fn edit(q: u32) -> Option<UdcRequest>
    ensures { IfSome result (λ request. IsRequest request) }
{
    let name = if q % 2 == 1 { b"1a" } else { b"1b" };
    Some(UdcRequest::Edit {
        editor: AccountNo::of_number(0)?,
        q,
        wish: EditWish::Put {
            name: FrameName::of_text(name)?,
            frame: Frame::blank(),
        },
    })
}

/// Has the first `count` edits of the operator stored.
fn store_edits<U: GroupRun<Record>, H: Wait + Drop, W: Wait>(
    rt: &W,
    udc: &Live<UdcRules, MemDisk, U, H>,
    pass: &mut Pass<UdcRules, U>,
    count: u32,
) -> Result<(), Fail> {
    for number in 0..count {
        let request = edit(number.saturating_add(1)).ok_or("an edit")?;
        if udc.ask(rt, pass, &request).is_err() {
            return Err("not stored".into());
        }
    }
    Ok(())
}

/// A charge of a caller.
fn charge(number: u32) -> Result<Item, Fail> {
    Ok(Item::Charge(Line {
        serial: 0,
        number,
        account: AccountNo::of_number(1_000_000_001).ok_or("an account")?,
        name: name()?,
        price: 25,
        moment: 9,
    }))
}

/// Has this many charges kept.
fn keep_items<N: GroupRun<CentreRecord>, H: Wait + Drop, W: Wait>(
    rt: &W,
    centre: &Live<IrcRules<0>, MemDisk, N, H>,
    pass: &mut Pass<IrcRules<0>, N>,
    count: u32,
) -> Result<(), Fail> {
    for number in 0..count {
        let item = charge(number)?;
        item.within();
        if centre.ask(rt, pass, &IrcRequest::Keep { item }).is_err() {
            return Err("not kept".into());
        }
    }
    Ok(())
}

/// The end without what a fault carries.
fn came_as(end: &RoundEnd<MemDisk>) -> Came {
    match end {
        RoundEnd::Moved { records, items } => Came::Moved(*records, *items),
        RoundEnd::Idle => Came::Idle,
        RoundEnd::LinkFault => Came::LinkFault,
        RoundEnd::DiskFault(_) => Came::DiskFault,
        RoundEnd::Full { node, count } => Came::Full(*node, *count),
        RoundEnd::Memory { .. } => Came::Memory,
    }
}
