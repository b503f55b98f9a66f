//! An editors' and a callers' stand at doors in memory, and a carrier between an Update Centre and a centre.
ghost use Rattle.std.specs.Prelude.{◌≡◌, ◌<◌, All, None, IfOk};
ghost use Rattle.pv_memory.specs.Doors.{accepted_of};
ghost use Rattle.pv_node.specs.Standing.{StandsFor};
ghost use Rattle.pv_service.specs.declared.caller_stand.TheConstants.{MAX_ACCEPTED};

use super::nodes::{AtWork, Doors, at_work, doors_of, fresh};
use super::outcome::{Ended, carrier_ended, has, port_ended, sent_at};
use super::rows::{Carrying, Stands, callers_at, carrier_at, editors_at, run_at};
use pv_edits::Record;
use pv_group::{GroupRun, GroupStart, Live};
use pv_irc::{CentreRecord, IrcRules};
use pv_live::{Pass, Run};
use pv_memory::{MemDisk, MemDoor, SetClock};
use pv_node::{Opened, Rules};
use pv_outside::Reports;
use pv_service::{Signals, carry_rounds, run_editors};
use pv_udc::UdcRules;
use std::alloc::{AllocError, Global};
use std::marker::Brand;
use std::sync::Wait;
use std::test::Fail;
use std::thread::Threads;

/// Two editors' lines: an account and a frame are stored on the first one.
const EDITORS: &[&[u8]] = &[
    b"LOGON 0000000000 0000\nACCOUNT 1 1000000001 ABCD 0 -\nNEW 1a\nSTORE 2\nQUIT\n",
    b"LAST\nQUIT\n",
];

/// Two callers' lines: the account looks at the frame, and one that is not there is keyed.
const CALLERS: &[&[u8]] = &[b"1000000001ABCD*1#*90#", b"1000000002ABCD*90#"];

/// How many lines each port serves.
const CALLS: u32 = 2;

/// What fails: calls of the Update Centre's disk, accepts at the callers' door, gives at the link down.
#[derive(Clone, Copy)]
struct Failing<'a> {
    disk: &'a [u64],
    door: &'a [u64],
    link: &'a [u64],
}

/// These fail.
fn fails_at<'a>(disk: &'a [u64], door: &'a [u64], link: &'a [u64]) -> Failing<'a> {
    Failing { disk, door, link }
}

/// What the editors' lines and the callers' lines were sent, and why the stands of editors, callers and the carrier ended
/// early.
#[derive(Drop)]
struct Outcome {
    editors: Vec<u8>,
    callers: Vec<u8>,
    ended: [Option<Ended>; 3],
}

/// The stands at these doors.
fn stands_at<U: Run<Record>, N: Run<CentreRecord>>(
    alloc: Global,
    doors: Doors,
    editing: Pass<UdcRules, U>,
    calling: Pass<IrcRules<0>, N>,
    carrier: Carrying<U, N>,
) -> Result<Stands<U, N, MemDoor>, AllocError>
    requires editors { accepted_of doors.editors.value < MAX_ACCEPTED }
    requires callers { accepted_of doors.callers.value < MAX_ACCEPTED }
    ensures editors { IfOk result
        (λ stands. All (λ s. accepted_of s.door.value < MAX_ACCEPTED) stands.editors.items) }
    ensures callers { IfOk result
        (λ stands. All (λ s. accepted_of s.door.value < MAX_ACCEPTED) stands.callers.items) }
{
    let Doors { editors, callers } = doors;
    let editors = editors_at(alloc, editing, editors, CALLS)?;
    let callers = callers_at(alloc, calling, callers, CALLS)?;
    Ok(Stands {
        editors,
        callers,
        carrier,
    })
}

/// The editors are served, what they stored is carried, and the callers are served with the carrier beside them.
fn run<
    'r,
    U: GroupRun<Record> + Send + Sync,
    N: GroupRun<CentreRecord> + Send + Sync,
    R: Wait + Threads + Sync,
>(
    rt: &R,
    udc: &Live<UdcRules, MemDisk, U, &'r R>,
    centre: &Live<IrcRules<0>, MemDisk, N, &'r R>,
    stands: &mut Stands<U, N, MemDoor>,
)
    requires editors { All (λ s. accepted_of s.door.value < MAX_ACCEPTED) stands.old.editors.items }
    requires callers { All (λ s. accepted_of s.door.value < MAX_ACCEPTED) stands.old.callers.items }
{
    let Stands {
        editors,
        callers,
        carrier,
    } = stands;
    let signals = Signals::new(1);
    run_editors(rt, udc, &signals, editors);
    carry_rounds(rt, udc, centre, &signals, carrier);
    let signals = Signals::new(1);
    let clock = SetClock::new(7);
    run_at(rt, udc, centre, &clock, &signals, callers, carrier);
}

/// What came of these stands.
fn outcome_of<U: Run<Record>, N: Run<CentreRecord>>(
    alloc: Global,
    stands: &Stands<U, N, MemDoor>,
) -> Result<Outcome, Fail> {
    let (Some(editor), Some(caller)) = (stands.editors.first(), stands.callers.first()) else {
        return Err("no stand".into());
    };
    Ok(Outcome {
        editors: sent_at(alloc, &editor.door)?,
        callers: sent_at(alloc, &caller.door)?,
        ended: [
            port_ended(&editor.report.fault),
            port_ended(&caller.report.fault),
            carrier_ended(&stands.carrier.report.fault),
        ],
    })
}

/// What comes of serving these doors at these nodes. The gives of these numbers fail at the link down.
fn serve_named<
    U: GroupRun<Record> + Send + Sync,
    N: GroupRun<CentreRecord> + Send + Sync,
    R: Wait + Threads + Sync,
>(
    rt: &R,
    alloc: Global,
    udc: Opened<UdcRules, MemDisk>,
    udc_start: GroupStart<Record>,
    centre: Opened<IrcRules<0>, MemDisk>,
    centre_start: GroupStart<CentreRecord>,
    doors: Doors,
    link: &[u64],
) -> Result<Outcome, Fail>
    // The Update Centre is at rest, and its run is named by what it starts with.
    requires udc { StandsFor ⟦<UdcRules as Rules>⟧ ⟦<MemDisk as Reports>⟧ udc.node U.opening }
    requires udc_rest { (udc.node.hand ≡ None) × (udc.node.state.limits ≡ U.limits) }
    requires udc_start { udc_start
        ≡ record { book = U.book; told = U.told; failed = U.failed; passes = U.passes; taken = U.taken } }

    // So is the centre.
    requires centre { StandsFor ⟦<IrcRules<0> as Rules>⟧ ⟦<MemDisk as Reports>⟧ centre.node N.opening }
    requires centre_rest { (centre.node.hand ≡ None) × (centre.node.state.limits ≡ N.limits) }
    requires centre_start { centre_start
        ≡ record { book = N.book; told = N.told; failed = N.failed; passes = N.passes; taken = N.taken } }

    // Each node has two passes.
    requires passes { (2 ≡ U.passes) × (2 ≡ N.passes) }
    requires editors { accepted_of doors.editors.value < MAX_ACCEPTED }
    requires callers { accepted_of doors.callers.value < MAX_ACCEPTED }
{
    let udc = at_work::<UdcRules, U, &R>(rt, alloc, udc.node, 2, udc_start)?;
    let centre = at_work::<IrcRules<0>, N, &R>(rt, alloc, centre.node, 2, centre_start)?;
    serve_working(rt, alloc, udc, centre, doors, link)
}

/// What comes of serving these doors at nodes at work.
fn serve_working<
    'r,
    U: GroupRun<Record> + Send + Sync,
    N: GroupRun<CentreRecord> + Send + Sync,
    R: Wait + Threads + Sync,
>(
    rt: &R,
    alloc: Global,
    udc: AtWork<UdcRules, U, &'r R>,
    centre: AtWork<IrcRules<0>, N, &'r R>,
    doors: Doors,
    link: &[u64],
) -> Result<Outcome, Fail>
    requires editors { accepted_of doors.editors.value < MAX_ACCEPTED }
    requires callers { accepted_of doors.callers.value < MAX_ACCEPTED }
{
    let carrier = carrier_at(alloc, udc.carrier, centre.carrier, link)?;
    let mut stands = stands_at(alloc, doors, udc.port, centre.port, carrier)?;
    run(rt, &udc.live, &centre.live, &mut stands);
    outcome_of(alloc, &stands)
}

/// What comes of it at fresh nodes.
fn serve<R: Wait + Threads + Sync>(
    rt: &R,
    alloc: Global,
    failing: Failing<'_>,
) -> Result<Outcome, Fail> {
    let udc = fresh::<UdcRules>(alloc, failing.disk)?;
    let centre = fresh::<IrcRules<0>>(alloc, &[])?;
    let doors = doors_of(alloc, EDITORS, CALLERS, failing.door)?;
    serve_named::<Brand, Brand, _>(
        rt,
        alloc,
        udc,
        GroupStart::new(2),
        centre,
        GroupStart::new(2),
        doors,
        failing.link,
    )
}

#[test]
fn lines_are_served_in_order_and_given_back(rt: HostRuntime) -> Result<(), Fail> {
    let outcome = serve(&rt, rt.alloc(), fails_at(&[], &[], &[]))?;
    let replies: &[u8] = b"OK\nOK 0\nOK\nOK 1\nBYE\n\xffNO 1 LOG ON FIRST\nBYE\n\xff";
    assert_eq!(rt; outcome.editors.as_slice(), replies);
    // The frame was carried down before it was looked at, and the last caller is not known.
    let mut lines = outcome.callers.as_slice().split(|byte| *byte == 0xff);
    let (first, second) = (lines.next(), lines.next());
    assert!(rt; has(first.ok_or("a line")?, b"1a"));
    assert!(rt; has(second.ok_or("a line")?, b"NOT KNOWN"));
    Ok(())
}

#[test]
fn what_fails_is_reported_at_its_stand(rt: HostRuntime) -> Result<(), Fail> {
    let cases = [
        (fails_at(&[], &[], &[]), [None, None, None]),
        // The call 7 is the first one of an append.
        (fails_at(&[7], &[], &[]), [Some(Ended::Disk), None, None]),
        (fails_at(&[], &[1], &[]), [None, Some(Ended::Door), None]),
        // Each time the carrier works, its first give is one of these calls.
        (fails_at(&[], &[], &[0, 1]), [None, None, Some(Ended::Link)]),
    ];
    for (case, ended) in cases {
        let outcome = serve(&rt, rt.alloc(), case)?;
        assert_eq!(rt; outcome.ended, ended);
    }
    Ok(())
}
