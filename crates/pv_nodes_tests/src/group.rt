//! An Update Centre that threads share, whose records are stored in groups.
ghost use Rattle.std.specs.Prelude.{◌≡◌, None, IfSome};
ghost use Rattle.pv_node.specs.Standing.{StandsFor};
ghost use Rattle.pv_udc.specs.Requests.{IsRequest};
ghost use Rattle.pv_live.specs.Opening.{IsPassCount};

use crate::live::{LIMITS, Udc, edit, fresh, item};
use pv_edits::Record;
use pv_group::{GroupRun, GroupStart, Live, open_live};
use pv_live::{Pass, Run, Start};
use pv_memory::MemDisk;
use pv_node::{Node, Rules};
use pv_outside::Reports;
use pv_udc::{UdcReply, UdcRequest, UdcRules};
use std::alloc::Global;
use std::marker::Brand;
use std::sync::Wait;
use std::test::Fail;

/// The reply to an ask, with the place of the record that it stored.
type Reply = Option<(UdcReply, Option<u64>)>;

/// The replies to as many asks.
type Replies = [Reply; 8];

/// The request of this turn: edits and items by turns, and each fourth time the first edit again.
fn request_of(turn: u32) -> Option<UdcRequest>
    ensures { IfSome result (λ request. IsRequest request) }
{
    match turn % 4 {
        0 => edit(turn / 4 + 1),
        1 => item(1, u64::from(turn / 4)),
        2 => item(2, u64::from(turn / 4)),
        _ => edit(1),
    }
}

/// The reply to an ask of the pass at this place.
fn ask<N: GroupRun<Record>, H: Wait + Drop, R: Wait>(
    rt: &R,
    live: &Live<UdcRules, MemDisk, N, H>,
    passes: &mut [Pass<UdcRules, N>],
    at: usize,
    request: &UdcRequest,
) -> Reply
    requires { IsRequest request.now }
{
    let pass = passes.get_mut(at)?;
    let told = live.ask(rt, pass, request).ok()?;
    Some((told.reply, told.number))
}

/// The reply to an ask of the pass at this place, of a node that stores one record at a time.
fn ask_single<N: Run<Record>, H: Wait + Drop, R: Wait>(
    rt: &R,
    live: &pv_live::Live<UdcRules, MemDisk, N, H>,
    passes: &mut [Pass<UdcRules, N>],
    at: usize,
    request: &UdcRequest,
) -> Reply
    requires { IsRequest request.now }
{
    let pass = passes.get_mut(at)?;
    let told = live.ask(rt, pass, request).ok()?;
    Some((told.reply, told.number))
}

/// The replies to three passes that ask one after another.
fn in_turn<N: GroupRun<Record>, R: Wait>(
    rt: &R,
    alloc: Global,
    node: Udc,
    start: GroupStart<Record>,
) -> Result<Replies, Fail>
    requires stands { StandsFor ⟦<UdcRules as Rules>⟧ ⟦<MemDisk as Reports>⟧ node N.opening }
    requires rest { (node.hand ≡ None) × (node.state.limits ≡ N.limits) }
    requires passes { N.passes ≡ 3 }
    requires start { start ≡ record {
      book = N.book;
      told = N.told;
      failed = N.failed;
      passes = N.passes;
      taken = N.taken;
    } }
{
    let (live, mut passes) = open_live::<UdcRules, MemDisk, N, &R>(rt, alloc, node, 3, start)?;
    let mut replies = [None; 8];
    for (turn, reply) in replies.iter_mut().enumerate() {
        if let Some(request) = request_of(turn as u32) {
            *reply = ask(rt, &live, &mut passes, turn % 3, &request);
        }
    }
    Ok(replies)
}

/// The replies to three passes that ask one after another, of a node that stores one record at a time.
fn in_turn_single<N: Run<Record>, R: Wait>(
    rt: &R,
    alloc: Global,
    node: Udc,
    start: Start<Record>,
) -> Result<Replies, Fail>
    requires stands { StandsFor ⟦<UdcRules as Rules>⟧ ⟦<MemDisk as Reports>⟧ node N.opening }
    requires rest { (node.hand ≡ None) × (node.state.limits ≡ N.limits) }
    requires passes { N.passes ≡ 3 }
    requires start { start ≡ record { book = N.book; told = N.told; failed = N.failed; passes = N.passes } }
{
    let (live, mut passes) = pv_live::open_live::<UdcRules, MemDisk, N, &R>(
        rt, alloc, node, 3, start,
    )?;
    let mut replies = [None; 8];
    for (turn, reply) in replies.iter_mut().enumerate() {
        if let Some(request) = request_of(turn as u32) {
            *reply = ask_single(rt, &live, &mut passes, turn % 3, &request);
        }
    }
    Ok(replies)
}

#[test]
fn passes_in_turn_get_the_replies_of_a_live_node(rt: HostRuntime) -> Result<(), Fail> {
    let alloc = rt.alloc();
    let single = in_turn_single::<Brand, _>(&rt, alloc, fresh(alloc, &[])?, Start::new(3))?;
    let group = in_turn::<Brand, _>(&rt, alloc, fresh(alloc, &[])?, GroupStart::new(3))?;
    assert_eq!(rt; group, single);
    assert_eq!(rt; single[3], Some((UdcReply::Again(0), None)));
    Ok(())
}

/// How many asks of the first pass failed, the reply to the last, whether the closing gave the node, and how many
/// records there are then.
type Outcome = (u64, Reply, bool, u64);

/// The first reply to an edit, after this many items of another pass were decided, or as many as the batch has
/// room for.
fn edit_after<N: GroupRun<Record>, H: Wait + Drop, R: Wait>(
    rt: &R,
    live: &Live<UdcRules, MemDisk, N, H>,
    passes: &mut [Pass<UdcRules, N>],
    items: u64,
    asks: u64,
) -> (u64, Reply) {
    let (Some(request), Some(other)) = (edit(1), passes.get_mut(1)) else {
        return (0, None);
    };
    for k in 0..items {
        if let Some(item) = item(1, k) {
            if live.decide(rt, other, &item).is_err() {
                break;
            }
        }
    }
    for faults in 0..asks {
        let reply = ask(rt, live, passes, 0, &request);
        if reply.is_some() {
            return (faults, reply);
        }
    }
    (asks, None)
}

/// Two passes share a node; one asks for an edit, up to this many times, after this many items of the other.
fn edit_at<N: GroupRun<Record>, R: Wait>(
    rt: &R,
    alloc: Global,
    node: Udc,
    start: GroupStart<Record>,
    items: u64,
    asks: u64,
) -> Result<Outcome, Fail>
    requires stands { StandsFor ⟦<UdcRules as Rules>⟧ ⟦<MemDisk as Reports>⟧ node N.opening }
    requires rest { (node.hand ≡ None) × (node.state.limits ≡ N.limits) }
    requires passes { N.passes ≡ 2 }
    requires start { start ≡ record {
      book = N.book;
      told = N.told;
      failed = N.failed;
      passes = N.passes;
      taken = N.taken;
    } }
{
    let (live, mut passes) = open_live::<UdcRules, MemDisk, N, &R>(rt, alloc, node, 2, start)?;
    let (faults, reply) = edit_after(rt, &live, &mut passes, items, asks);
    match live.close(passes) {
        Ok(closed) => Ok((faults, reply, true, closed.node.count())),
        Err(left) if !left.seen_is_stored => Err("a pass has seen more than is stored".into()),
        Err(left) => match Node::<UdcRules, _>::open(alloc, left.disk, LIMITS) {
            Ok(node) => Ok((faults, reply, false, node.count())),
            Err(_) => Err("not opened".into()),
        },
    }
}

/// What comes of it at a fresh node, of whose disk these calls fail.
fn edited<R: Wait>(
    rt: &R,
    alloc: Global,
    fails: &[u64],
    items: u64,
    asks: u64,
) -> Result<Outcome, Fail> {
    let node = fresh(alloc, fails)?;
    edit_at::<Brand, _>(rt, alloc, node, GroupStart::new(2), items, asks)
}

#[test]
fn what_was_decided_is_stored_by_four_calls(rt: HostRuntime) -> Result<(), Fail> {
    // The calls 7 to 10 store the group: the eleventh is that of nobody, unless the batch had no room for all.
    let table: [(u64, &[u64], Outcome); 5] = [
        (0, &[11], (0, Some((UdcReply::Stored(0), Some(0))), true, 1)),
        (
            20,
            &[11],
            (0, Some((UdcReply::Stored(20), Some(20))), true, 21),
        ),
        (20, &[10], (1, None, true, 21)),
        (
            500,
            &[15],
            (0, Some((UdcReply::Stored(91), Some(91))), true, 92),
        ),
        (500, &[14], (1, None, true, 92)),
    ];
    for (items, fails, outcome) in table {
        assert_eq!(rt;
            edited(&rt, rt.alloc(), fails, items, 1)?,
            outcome,
            "{items} items, and calls {fails:?} failed"
        );
    }
    Ok(())
}

#[test]
fn record_is_stored_once_wherever_the_disk_fails(rt: HostRuntime) -> Result<(), Fail> {
    // The second ask settles the group first, and appends it again if it is not stored. The last disk fails at
    // the closing too.
    let table: [(&[u64], u64, Outcome); 6] = [
        (&[7], 9, (1, Some((UdcReply::Again(0), None)), true, 1)),
        (&[8], 9, (1, Some((UdcReply::Again(0), None)), true, 1)),
        (&[9], 9, (1, Some((UdcReply::Again(0), None)), true, 1)),
        (&[10], 9, (1, Some((UdcReply::Again(0), None)), true, 1)),
        (
            &[7, 8, 9],
            9,
            (3, Some((UdcReply::Again(0), None)), true, 1),
        ),
        (&[7, 8], 1, (1, None, false, 0)),
    ];
    for (fails, asks, outcome) in table {
        assert_eq!(rt;
            edited(&rt, rt.alloc(), fails, 0, asks)?,
            outcome,
            "calls {fails:?} failed"
        );
    }
    Ok(())
}
