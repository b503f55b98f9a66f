ghost use Rattle.pv_udc.specs.Requests.{IsRequest};

use crate::{RestEnd, apply_records, take_items};
use pv_charge::Line;
use pv_edits::{EditWish, Record, Taken};
use pv_frame::Frame;
use pv_irc::{IrcRequest, IrcRules};
use pv_journal::format;
use pv_memory::MemDisk;
use pv_node::{Node, Rules};
use pv_outside::Limits;
use pv_page::{AccountNo, FrameName};
use pv_post::Item;
use pv_udc::{UdcRequest, UdcRules};
use std::alloc::Global;
use std::test::Fail;

/// The number of the centre.
const CENTRE: u8 = 2;

type Update = Node<UdcRules, MemDisk>;

type Centre = Node<IrcRules<CENTRE>, MemDisk>;

/// Room for more than the tests store.
const LARGE: Limits = Limits {
    frames: 10,
    records: 10,
};

/// Room for two records.
const TWO_RECORDS: Limits = Limits {
    frames: 10,
    records: 2,
};

/// Room for one frame.
const ONE_FRAME: Limits = Limits {
    frames: 1,
    records: 10,
};

/// A node without records.
fn open<R: Rules>(alloc: Global, limits: Limits) -> Result<Node<R, MemDisk>, Fail> {
    let mut disk = MemDisk::new(alloc, 10_000, &[])?;
    format(&mut disk)?;
    opened(alloc, disk, limits)
}

/// The node of a disk.
fn opened<R: Rules>(
    alloc: Global,
    disk: MemDisk,
    limits: Limits,
) -> Result<Node<R, MemDisk>, Fail> {
    match Node::open(alloc, disk, limits) {
        Ok(node) => Ok(node),
        Err(_) => Err("not opened".into()),
    }
}

/// How a bringing ended.
#[derive(Clone, Copy, Debug, PartialEq, Eq)]
enum End {
    Brought,
    Full(u64),
    NoRoom,
    DiskFault,
}

fn end_of(end: RestEnd<MemDisk>) -> End {
    match end {
        RestEnd::Brought => End::Brought,
        RestEnd::Full { count } => End::Full(count),
        RestEnd::NoRoom => End::NoRoom,
        RestEnd::DiskFault(_) => End::DiskFault,
    }
}

/// The operator's account.
fn operator() -> Result<AccountNo, Fail> {
    Ok(AccountNo::of_number(0).ok_or("an account")?)
}

/// A charge line of this number.
fn charge(number: u32) -> Result<Item, Fail> {
    Ok(Item::Charge(Line {
        serial: 0,
        number,
        account: operator()?,
        name: FrameName::of_text(b"1a").ok_or("a name")?,
        price: 5,
        moment: 0,
    }))
}

/// A centre that has kept three items.
fn with_three_items(alloc: Global) -> Result<Centre, Fail> {
    let mut centre = open(alloc, LARGE)?;
    for number in 0..3 {
        let item = charge(number)?;
        item.within();
        if centre.ask(&IrcRequest::Keep { item }).is_err() {
            return Err("not kept".into());
        }
    }
    Ok(centre)
}

/// An Update Centre that has taken up the first item.
fn with_one_taken(alloc: Global, limits: Limits) -> Result<Update, Fail> {
    let mut udc = open(alloc, limits)?;
    let item = charge(0)?;
    item.within();
    let request = UdcRequest::TakeUp {
        centre: CENTRE,
        k: 0,
        item,
    };
    if udc.ask(&request).is_err() {
        return Err("not taken".into());
    }
    Ok(udc)
}

/// The record by which the item of a number is taken up.
fn taken(k: u32) -> Result<Record, Fail> {
    Ok(Record::Taken(Taken {
        centre: CENTRE,
        k: u64::from(k),
        item: charge(k)?,
    }))
}

/// How many of the records of an Update Centre are the items in order, from the first on.
fn items_in_order(udc: &Update) -> Result<u32, Fail> {
    for k in 0..10 {
        if udc.state().rec_at(u64::from(k)) != Some(&taken(k)?) {
            return Ok(k);
        }
    }
    Ok(10)
}

#[test]
fn the_items_that_were_not_taken_are_taken_in_order(rt: HostRuntime) -> Result<(), Fail> {
    let cases = [(LARGE, End::Brought, 3), (TWO_RECORDS, End::Full(2), 2)];
    for (limits, end, count) in cases {
        let centre = with_three_items(rt.alloc())?;
        let mut udc = with_one_taken(rt.alloc(), limits)?;
        assert_eq!(rt; end_of(take_items(&mut udc, &centre)), end);
        assert_eq!(rt;
            (udc.count(), items_in_order(&udc)?),
            (u64::from(count), count)
        );
        // What is brought is not brought again.
        assert_eq!(rt;
            (end_of(take_items(&mut udc, &centre)), udc.count()),
            (end, u64::from(count))
        );
    }
    Ok(())
}

/// How many calls of the disk two items take.
const CALLS: u32 = 8;

#[test]
fn after_a_failure_of_the_disk_the_rest_is_still_brought(rt: HostRuntime) -> Result<(), Fail> {
    let centre = with_three_items(rt.alloc())?;
    for calls in 0..CALLS {
        let mut udc = with_one_taken(rt.alloc(), LARGE)?;
        udc.fuse(calls);
        assert_eq!(rt;
            end_of(take_items(&mut udc, &centre)),
            End::DiskFault,
            "{calls}"
        );
        assert_eq!(rt; udc.count(), 1 + u64::from(calls / 4), "{calls}");
        udc.fuse(u32::MAX);
        assert_eq!(rt;
            end_of(take_items(&mut udc, &centre)),
            End::Brought,
            "{calls}"
        );
        assert_eq!(rt; (udc.count(), items_in_order(&udc)?), (3, 3), "{calls}");
    }
    Ok(())
}

/// The node that is opened after the bringing of two items was cut after this many calls, and a crash left this image.
fn opened_after_crash(alloc: Global, calls: u32, image: u8) -> Result<Update, Fail> {
    let centre = with_three_items(alloc)?;
    let mut udc = with_one_taken(alloc, LARGE)?;
    udc.fuse(calls);
    if end_of(take_items(&mut udc, &centre)) != End::DiskFault {
        return Err("not cut".into());
    }
    let mut disk = udc.into_disk();
    disk.crash(image);
    opened(alloc, disk, LARGE)
}

#[test]
fn a_crash_leaves_a_prefix_of_the_items(rt: HostRuntime) -> Result<(), Fail> {
    for calls in 0..CALLS {
        for image in [0, 1, 31, 97, 128, 255] {
            let udc = opened_after_crash(rt.alloc(), calls, image)?;
            assert_eq!(rt;
                u64::from(items_in_order(&udc)?),
                udc.count(),
                "{calls} {image}"
            );
        }
    }
    Ok(())
}

/// The wish that a name has a blank frame.
fn blank(text: &[u8]) -> Result<EditWish, Fail> {
    Ok(EditWish::Put {
        name: FrameName::of_text(text).ok_or("a name")?,
        frame: Frame::blank(),
    })
}

/// Has an edit of the operator stored under a number.
fn edit(udc: &mut Update, q: u32, text: &[u8]) -> Result<(), Fail> {
    let editor = operator()?;
    let wish = blank(text)?;
    match udc.ask(&UdcRequest::Edit { editor, q, wish }) {
        Ok(_) => Ok(()),
        Err(_) => Err("not stored".into()),
    }
}

/// An Update Centre with two frames.
fn with_two_frames(alloc: Global) -> Result<Update, Fail> {
    let mut udc = open(alloc, LARGE)?;
    edit(&mut udc, 1, b"1a")?;
    edit(&mut udc, 2, b"1b")?;
    Ok(udc)
}

#[test]
fn the_records_that_were_not_applied_are_applied_as_far_as_there_is_room(
    rt: HostRuntime,
) -> Result<(), Fail> {
    let cases = [
        (LARGE, End::Brought, 5),
        (ONE_FRAME, End::NoRoom, 1),
        (TWO_RECORDS, End::Full(2), 2),
    ];
    for (limits, end, applied) in cases {
        let mut udc = with_two_frames(rt.alloc())?;
        let one = with_three_items(rt.alloc())?;
        let _ = take_items(&mut udc, &one);
        let mut centre: Centre = open(rt.alloc(), limits)?;
        assert_eq!(rt; end_of(apply_records(&udc, &mut centre)), end);
        assert_eq!(rt; centre.state().applied(), applied);
    }
    Ok(())
}
