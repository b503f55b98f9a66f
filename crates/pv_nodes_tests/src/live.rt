//! An Update Centre over a disk in memory, which threads share.
ghost use Rattle.std.specs.Prelude.{◌≡◌, None, IfOk, IfSome};
ghost use Rattle.pv_node.specs.Standing.{StandsFor};
ghost use Rattle.pv_edits.specs.Taken.{IsCentre};
ghost use Rattle.pv_udc.specs.Requests.{IsRequest};
ghost use Rattle.pv_live.specs.Opening.{IsPassCount};

use pv_charge::Line;
use pv_edits::{EditWish, Record};
use pv_frame::Frame;
use pv_journal::format;
use pv_live::{Live, LiveFault, Pass, Run, Start, open_live};
use pv_memory::MemDisk;
use pv_node::{Node, Rules};
use pv_outside::{Limits, Reports};
use pv_page::{AccountNo, FrameName};
use pv_post::Item;
use pv_udc::{UdcReply, UdcRequest, UdcRules};
use std::alloc::Global;
use std::marker::Brand;
use std::sync::{Mutex, Wait};
use std::test::Fail;
use std::thread::{Threads, for_each_mut};

/// Room for two frames and a thousand records.
pub(crate) const LIMITS: Limits = Limits {
    frames: 2,
    records: 1_000,
};

pub(crate) type Udc = Node<UdcRules, MemDisk>;

/// A fresh Update Centre, of whose disk the calls of these numbers fail. The first seven are those of the
/// formatting and the opening.
pub(crate) fn fresh(alloc: Global, fails: &[u64]) -> Result<Udc, Fail>
    ensures stands { IfOk result
        (λ node. StandsFor ⟦<UdcRules as Rules>⟧ ⟦<MemDisk as Reports>⟧ node node.state.records) }
    ensures rest { IfOk result (λ node. node.hand ≡ None) }
{
    let mut disk = MemDisk::new(alloc, 2_000_000, fails)?;
    format(&mut disk)?;
    match Node::open(alloc, disk, LIMITS) {
        Ok(node) => Ok(node),
        Err(_) => Err("not opened".into()),
    }
}

/// The frame's name.
fn name() -> Option<FrameName> {
    FrameName::of_text(b"1a")
}

/// The operator's edit of this number: a blank frame.
pub(crate) fn edit(q: u32) -> Option<UdcRequest>
    ensures { IfSome result (λ request. IsRequest request) }
{
    Some(UdcRequest::Edit {
        editor: AccountNo::of_number(0)?,
        q,
        wish: EditWish::Put {
            name: name()?,
            frame: Frame::blank(),
        },
    })
}

/// The item of this number of a centre.
pub(crate) fn item(centre: u8, k: u64) -> Option<UdcRequest>
    requires { IsCentre centre }
    ensures { IfSome result (λ request. IsRequest request) }
{
    let line = Line {
        serial: 0,
        number: 0,
        account: AccountNo::of_number(1_000_000_001)?,
        name: name()?,
        price: 25,
        moment: 9,
    };
    Some(UdcRequest::TakeUp {
        centre,
        k,
        item: Item::Charge(line),
    })
}

/// How many asks for an edit failed, the first reply, and the place of the record that it stored.
pub(crate) type Reply = (u64, UdcReply, Option<u64>);

/// The first reply to an edit, of which a record may be stored at this place alone.
fn first_reply<N: Run<Record>, H: Wait + Drop, R: Wait>(
    rt: &R,
    live: &Live<UdcRules, MemDisk, N, H>,
    pass: &mut Pass<UdcRules, N>,
    request: &UdcRequest,
    place: u64,
) -> Option<Reply>
    requires { IsRequest request.now }
{
    for faults in 0..9 {
        match live.ask(rt, pass, request) {
            Ok(told) => return Some((faults, told.reply, told.number)),
            Err(LiveFault::Memory { stored: Some(at) }) if at != place => return None,
            Err(_) => {}
        }
    }
    None
}

/// The first reply to the first of these edits, if each of the others is stored at the place before its number.
fn store_each<N: Run<Record>, H: Wait + Drop, R: Wait>(
    rt: &R,
    live: &Live<UdcRules, MemDisk, N, H>,
    pass: &mut Pass<UdcRules, N>,
    edits: u32,
) -> Option<Reply> {
    let first = first_reply(rt, live, pass, &edit(1)?, 0)?;
    for number in 1..edits {
        let place = u64::from(number);
        let (_, reply, _) = first_reply(rt, live, pass, &edit(number + 1)?, place)?;
        if reply != UdcReply::Stored(place) && reply != UdcReply::Again(place) {
            return None;
        }
    }
    Some(first)
}

/// How many records a pass sees, and whether it sees the frame.
fn seen<N: Run<Record>>(pass: &mut Pass<UdcRules, N>) -> Option<(u64, bool)> {
    let name = name()?;
    let seen = pass.look(|udc| (udc.front(), udc.base().get(name).is_some()));
    seen.ok()
}

/// The first reply to the first edit, what the pass sees then, how many records were stored, and how many there are.
type Outcome = (Option<Reply>, Option<(u64, bool)>, u64, u64);

/// The first of the passes asks for these edits, each until there is a reply.
fn edit_each<N: Run<Record> + Send + Sync, R: Wait>(
    rt: &R,
    alloc: Global,
    node: Udc,
    start: Start<Record>,
    passes: usize,
    edits: u32,
) -> Result<Outcome, Fail>
    requires stands { StandsFor ⟦<UdcRules as Rules>⟧ ⟦<MemDisk as Reports>⟧ node N.opening }
    requires rest { (node.hand ≡ None) × (node.state.limits ≡ N.limits) }
    requires passes { (passes ≡ N.passes) × IsPassCount passes }
    requires start { start ≡ record { book = N.book; told = N.told; failed = N.failed; passes = N.passes } }
{
    let (live, mut all) = open_live::<UdcRules, MemDisk, N, &R>(rt, alloc, node, passes, start)?;
    let first = store_each(rt, &live, &mut all[0], edits);
    let seen = seen(&mut all[0]);
    let closed = live.close(all);
    Ok((first, seen, closed.asked, closed.node.count()))
}

/// What comes of these edits of one of the passes at a fresh node, of whose disk these calls fail.
fn edited<R: Wait>(
    rt: &R,
    alloc: Global,
    fails: &[u64],
    passes: usize,
    edits: u32,
) -> Result<Outcome, Fail>
    requires { IsPassCount passes }
{
    let node = fresh(alloc, fails)?;
    edit_each::<Brand, _>(rt, alloc, node, Start::new(passes as u64), passes, edits)
}

#[test]
fn edit_is_seen_by_the_next_look(rt: HostRuntime) -> Result<(), Fail> {
    let first = (0, UdcReply::Stored(0), Some(0));
    assert_eq!(rt;
        edited(&rt, rt.alloc(), &[], 2, 1)?,
        (Some(first), Some((1, true)), 1, 1)
    );
    Ok(())
}

#[test]
fn edit_is_stored_once_wherever_the_disk_fails(rt: HostRuntime) -> Result<(), Fail> {
    // The calls 7 to 10 are those of the first append: two writes, each with its sync. The next two are those of
    // a settling: a sync and a read.
    let table: [(&[u64], UdcReply, Option<u64>); 8] = [
        (&[7], UdcReply::Stored(0), Some(0)),
        (&[8], UdcReply::Stored(0), Some(0)),
        (&[9], UdcReply::Stored(0), Some(0)),
        (&[10], UdcReply::Again(0), None),
        (&[9, 10], UdcReply::Stored(0), Some(0)),
        (&[9, 11], UdcReply::Stored(0), Some(0)),
        (&[10, 12], UdcReply::Again(0), None),
        (&[10, 11, 12], UdcReply::Again(0), None),
    ];
    for (fails, reply, number) in table {
        let first = (fails.len() as u64, reply, number);
        assert_eq!(rt;
            edited(&rt, rt.alloc(), fails, 1, 1)?,
            (Some(first), Some((1, true)), 1, 1),
            "calls {fails:?} failed"
        );
    }
    Ok(())
}

#[test]
fn edits_are_stored_once_if_a_publishing_is_refused(rt: HostRuntime) -> Result<(), Fail> {
    // With ample memory none is refused. The second disk fails at the last call of the first append, so that the
    // next ask settles the record and publishes it.
    let table: [(&[u64], Reply); 2] = [
        (&[], (0, UdcReply::Stored(0), Some(0))),
        (&[10], (1, UdcReply::Again(0), None)),
    ];
    for (fails, first) in table {
        assert_eq!(rt;
            edited(&rt, rt.alloc(), fails, 1, 3)?,
            (Some(first), Some((3, true)), 3, 3)
        );
    }
    Ok(())
}

/// Whether each ask of a pass stores a record and returns its place: the operator's edits, or the items of a
/// centre.
fn ask_each<N: Run<Record>, H: Wait + Drop, R: Wait>(
    rt: &R,
    live: &Live<UdcRules, MemDisk, N, H>,
    pass: &mut Pass<UdcRules, N>,
    asker: usize,
    asks: u32,
) -> bool {
    for n in 0..asks {
        let request = match asker {
            0 => edit(n + 1),
            1 => item(1, u64::from(n)),
            2 => item(2, u64::from(n)),
            _ => item(3, u64::from(n)),
        };
        let Some(request) = request else {
            return false;
        };
        let Ok(told) = live.ask(rt, pass, &request) else {
            return false;
        };
        let place = told.number.unwrap_or(u64::MAX);
        if told.reply != UdcReply::Stored(place) || place >= pass.length() {
            return false;
        }
    }
    true
}

/// Whether many looks of a pass each find what the one before found, or more, and are let in.
fn look_often<N: Run<Record>>(pass: &mut Pass<UdcRules, N>) -> bool {
    let mut last = 0;
    for _ in 0..2_000 {
        if let Ok(count) = pass.look(|udc| udc.front()) {
            if count < last || count != pass.length() {
                return false;
            }
            last = count;
        }
    }
    pass.looks() > 0
}

/// The first of the passes ask, each this many times, and the others look. Each has a thread. Returns whether an ask or
/// a look went wrong, and how many records were stored.
fn crowd<N: Run<Record> + Send + Sync, R: Threads + Wait + Sync>(
    rt: &R,
    alloc: Global,
    node: Udc,
    start: Start<Record>,
    passes: usize,
    askers: u32,
    asks: u32,
) -> Result<(bool, u64), Fail>
    requires stands { StandsFor ⟦<UdcRules as Rules>⟧ ⟦<MemDisk as Reports>⟧ node N.opening }
    requires rest { (node.hand ≡ None) × (node.state.limits ≡ N.limits) }
    requires passes { (passes ≡ N.passes) × IsPassCount passes }
    requires start { start ≡ record { book = N.book; told = N.told; failed = N.failed; passes = N.passes } }
{
    let (live, mut all) = open_live::<UdcRules, MemDisk, N, &R>(rt, alloc, node, passes, start)?;
    let failed = Mutex::new(false);
    for_each_mut(
        rt,
        &mut all,
        passes,
        &|number, pass: &mut Pass<UdcRules, N>| {
            let is_right = if number < askers as usize {
                ask_each(rt, &live, pass, number, asks)
            } else {
                look_often(pass)
            };
            if !is_right {
                *failed.lock(rt) = true;
            }
        },
    );
    let closed = live.close(all);
    Ok((failed.into_inner(), closed.asked))
}

/// What comes of asks and looks of the passes of a fresh node.
fn crowded<R: Threads + Wait + Sync>(
    rt: &R,
    alloc: Global,
    passes: usize,
    askers: u32,
    asks: u32,
) -> Result<(bool, u64), Fail>
    requires { IsPassCount passes }
{
    let node = fresh(alloc, &[])?;
    crowd::<Brand, _>(
        rt,
        alloc,
        node,
        Start::new(passes as u64),
        passes,
        askers,
        asks,
    )
}

#[test]
fn two_threads_look_while_a_third_asks(rt: HostRuntime) -> Result<(), Fail> {
    assert_eq!(rt; crowded(&rt, rt.alloc(), 3, 1, 100)?, (false, 100));
    Ok(())
}

#[test]
fn no_look_is_older_than_the_one_before_it(rt: HostRuntime) -> Result<(), Fail> {
    assert_eq!(rt; crowded(&rt, rt.alloc(), 12, 4, 250)?, (false, 1_000));
    Ok(())
}
