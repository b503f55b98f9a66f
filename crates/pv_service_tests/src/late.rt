//! An edit comes down to a centre while its callers are served.
ghost use Rattle.std.specs.Prelude.{◌≡◌, ◌<◌, All, None, IfOk};
ghost use Rattle.pv_memory.specs.Doors.{accepted_of};
ghost use Rattle.pv_node.specs.Standing.{StandsFor};
ghost use Rattle.pv_service.specs.declared.caller_stand.TheConstants.{MAX_ACCEPTED};

use super::nodes::{AtWork, Doors, at_work, doors_of, fresh};
use super::outcome::{has, port_ended, sent_at};
use super::rows::{Carrying, Stands, callers_at, carrier_at, editors_at, run_at};
use pv_edits::Record;
use pv_group::{GroupRun, GroupStart, Live};
use pv_irc::{CentreRecord, IrcRules};
use pv_live::{Pass, Run};
use pv_memory::{MemDisk, MemDoor, MemLine, SetClock};
use pv_node::{Opened, Rules};
use pv_outside::{Door, Failed, Reports};
use pv_ports::LogEntry;
use pv_service::{Log, Signals, run_editors};
use pv_udc::UdcRules;
use std::alloc::{AllocError, Global};
use std::marker::Brand;
use std::sync::Wait;
use std::test::Fail;
use std::thread;
use std::thread::Threads;

/// How often a late door looks at most.
const LOOKS: u32 = 20_000_000;

/// How many records the centre has when the caller comes in.
const RECORDS: u64 = 2;

/// What the editor writes: an account and a frame are stored.
const EDITOR: &[u8] =
    b"LOGON 0000000000 0000\nACCOUNT 1 1000000001 ABCD 0 -\nNEW 1a\nSTORE 2\nQUIT\n";

/// What the caller keys: he looks at the frame.
const CALLER: &[u8] = b"1000000001ABCD*1#*90#";

/// A door at which nobody comes in until the centre has [`RECORDS`] records, by a pass of its own. After [`LOOKS`] looks it
/// waits no longer.
#[derive(Drop)]
struct LateDoor<N: Run<CentreRecord>> {
    pass: Pass<IrcRules<0>, N>,
    door: Box<MemDoor>,
}

/// Waits until a centre has [`RECORDS`] records, or for [`LOOKS`] looks.
fn wait<N: Run<CentreRecord>>(pass: &mut Pass<IrcRules<0>, N>) {
    for _ in 0..LOOKS {
        let _ = pass.look(|_| ());
        if pass.length() >= RECORDS {
            return;
        }
        thread::yield_now();
    }
}

impl<N: Run<CentreRecord>> Log for LateDoor<N> {
    fn log(&self, _entry: &LogEntry) {}
}

impl<N: Run<CentreRecord>> Door for LateDoor<N> {
    ghost use Rattle.std.specs.Prelude.{Some, refl};
    ghost use Rattle.std.proofs.Common.{arith};
    ghost use Rattle.pv_memory.specs.Doors.{accepted_of, finished_of};

    type Line = MemLine;

    ghost faults = { λ d. d.door.value.plan.faults };

    ghost accepted = { λ d. accepted_of d.door.value };

    ghost finished = { λ d. finished_of d.door.value };

    ghost lines = { λ d. Some d.door.value.finished };

    ghost order = { λ _. omega arith };

    ghost counted = { λ _. refl };

    fn accept(&mut self) -> Result<MemLine, Failed> {
        wait(&mut self.pass);
        self.door.accept()
    }

    fn finish(&mut self, line: MemLine) {
        self.door.finish(line);
    }
}

/// The stands at these doors. The door of the callers has a pass of its own.
fn stands_at<U: Run<Record>, N: Run<CentreRecord>>(
    alloc: Global,
    doors: Doors,
    editing: Pass<UdcRules, U>,
    calling: Pass<IrcRules<0>, N>,
    looking: Pass<IrcRules<0>, N>,
    carrier: Carrying<U, N>,
) -> Result<Stands<U, N, LateDoor<N>>, AllocError>
    requires editors { accepted_of doors.editors.value < MAX_ACCEPTED }
    requires callers { accepted_of doors.callers.value < MAX_ACCEPTED }
    ensures editors { IfOk result
        (λ stands. All (λ s. accepted_of s.door.value < MAX_ACCEPTED) stands.editors.items) }
    ensures callers { IfOk result
        (λ stands. All (λ s. accepted_of s.door.value.door.value < MAX_ACCEPTED) stands.callers.items) }
{
    let Doors { editors, callers } = doors;
    let late = LateDoor {
        pass: looking,
        door: callers,
    };
    let editors = editors_at(alloc, editing, editors, 1)?;
    let late = Box::new(alloc, late)?;
    let callers = callers_at(alloc, calling, late, 1)?;
    Ok(Stands {
        editors,
        callers,
        carrier,
    })
}

/// The editor is served, and then the caller, with the carrier beside him. Nothing is carried before that: each row is one
/// of the two ports that are at work.
fn run<
    'r,
    U: GroupRun<Record> + Send + Sync,
    N: GroupRun<CentreRecord> + Send + Sync,
    R: Wait + Threads + Sync,
>(
    rt: &R,
    udc: &Live<UdcRules, MemDisk, U, &'r R>,
    centre: &Live<IrcRules<0>, MemDisk, N, &'r R>,
    stands: &mut Stands<U, N, LateDoor<N>>,
)
    requires editors { All (λ s. accepted_of s.door.value < MAX_ACCEPTED) stands.old.editors.items }
    requires callers { All
        (λ s. accepted_of s.door.value.door.value < MAX_ACCEPTED) stands.old.callers.items }
{
    let Stands {
        editors,
        callers,
        carrier,
    } = stands;
    let signals = Signals::new(2);
    run_editors(rt, udc, &signals, editors);
    let clock = SetClock::new(7);
    run_at(rt, udc, centre, &clock, &signals, callers, carrier);
}

/// What a caller was sent, and whether his stand has served its line.
#[derive(Drop)]
struct Outcome {
    sent: Vec<u8>,
    is_served: bool,
}

/// What came of these stands.
fn outcome_of<U: Run<Record>, N: Run<CentreRecord>>(
    alloc: Global,
    stands: &Stands<U, N, LateDoor<N>>,
) -> Result<Outcome, Fail> {
    let Some(caller) = stands.callers.first() else {
        return Err("no stand".into());
    };
    Ok(Outcome {
        sent: sent_at(alloc, &caller.door.door)?,
        is_served: port_ended(&caller.report.fault).is_none(),
    })
}

/// What comes of serving these doors at these nodes.
fn serve_named<
    U: GroupRun<Record> + Send + Sync,
    N: GroupRun<CentreRecord> + Send + Sync,
    R: Wait + Threads + Sync,
>(
    rt: &R,
    alloc: Global,
    udc: Opened<UdcRules, MemDisk>,
    udc_start: GroupStart<Record>,
    centre: Opened<IrcRules<0>, MemDisk>,
    centre_start: GroupStart<CentreRecord>,
    doors: Doors,
) -> Result<Outcome, Fail>
    // The Update Centre is at rest, and its run is named by what it starts with.
    requires udc { StandsFor ⟦<UdcRules as Rules>⟧ ⟦<MemDisk as Reports>⟧ udc.node U.opening }
    requires udc_rest { (udc.node.hand ≡ None) × (udc.node.state.limits ≡ U.limits) }
    requires udc_start { udc_start
        ≡ record { book = U.book; told = U.told; failed = U.failed; passes = U.passes; taken = U.taken } }

    // So is the centre.
    requires centre { StandsFor ⟦<IrcRules<0> as Rules>⟧ ⟦<MemDisk as Reports>⟧ centre.node N.opening }
    requires centre_rest { (centre.node.hand ≡ None) × (centre.node.state.limits ≡ N.limits) }
    requires centre_start { centre_start
        ≡ record { book = N.book; told = N.told; failed = N.failed; passes = N.passes; taken = N.taken } }

    // The Update Centre has two passes, and the centre a third one for the door.
    requires passes { (2 ≡ U.passes) × (3 ≡ N.passes) }
    requires editors { accepted_of doors.editors.value < MAX_ACCEPTED }
    requires callers { accepted_of doors.callers.value < MAX_ACCEPTED }
{
    let udc = at_work::<UdcRules, U, &R>(rt, alloc, udc.node, 2, udc_start)?;
    let centre = at_work::<IrcRules<0>, N, &R>(rt, alloc, centre.node, 3, centre_start)?;
    serve_working(rt, alloc, udc, centre, doors)
}

/// What comes of serving these doors at nodes at work.
fn serve_working<
    'r,
    U: GroupRun<Record> + Send + Sync,
    N: GroupRun<CentreRecord> + Send + Sync,
    R: Wait + Threads + Sync,
>(
    rt: &R,
    alloc: Global,
    udc: AtWork<UdcRules, U, &'r R>,
    centre: AtWork<IrcRules<0>, N, &'r R>,
    doors: Doors,
) -> Result<Outcome, Fail>
    requires editors { accepted_of doors.editors.value < MAX_ACCEPTED }
    requires callers { accepted_of doors.callers.value < MAX_ACCEPTED }
{
    let mut others = centre.others;
    let looking = others.pop().ok_or("a pass")?;
    let carrier = carrier_at(alloc, udc.carrier, centre.carrier, &[])?;
    let mut stands = stands_at(alloc, doors, udc.port, centre.port, looking, carrier)?;
    run(rt, &udc.live, &centre.live, &mut stands);
    outcome_of(alloc, &stands)
}

/// What comes of it at fresh nodes.
fn serve<R: Wait + Threads + Sync>(rt: &R, alloc: Global) -> Result<Outcome, Fail> {
    let udc = fresh::<UdcRules>(alloc, &[])?;
    let centre = fresh::<IrcRules<0>>(alloc, &[])?;
    let doors = doors_of(alloc, &[EDITOR], &[CALLER], &[])?;
    serve_named::<Brand, Brand, _>(
        rt,
        alloc,
        udc,
        GroupStart::new(2),
        centre,
        GroupStart::new(3),
        doors,
    )
}

#[test]
fn edit_comes_down_while_callers_are_served(rt: HostRuntime) -> Result<(), Fail> {
    let outcome = serve(&rt, rt.alloc())?;
    assert!(rt; outcome.is_served);
    assert!(rt; has(&outcome.sent, b"1a"));
    Ok(())
}
