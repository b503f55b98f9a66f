//! Ports are served at once, and carriers carry while they are served.
ghost use Rattle.std.specs.Prelude.{◌<◌, All, IfOk};
ghost use Rattle.pv_serve_tests.specs.Doors.{accepted_by};
ghost use Rattle.pv_service.specs.declared.caller_stand.TheConstants.{MAX_ACCEPTED};

use super::network::with_account;
use super::parts::{ONE_EACH, Parts, row_of, serve_parts, two_disks};
use super::screens::{NOT_KNOWN, blank_frame, bytes_of};
use super::scripted::{ScriptedLine, Signal, Step};
use super::scripted_door::ScriptedDoor;
use pv_files::ThreadSpawner;
use pv_memory::MemDisk;
use pv_serve::Served;
use std::alloc::Global;
use std::sync::Wait;
use std::sync::atomic::AtomicBool;
use std::test::Fail;
use std::thread::Threads;

/// Words that ask for two callers' ports.
const TWO_PORTS: &str =
    "serve d --centres 1 --ports 2 --editors 1 --calls 1 --port 9000 --editor-port 9100";

/// How often a caller asks for a frame at most.
const ASKED: u32 = 4_000;

/// How a server of scripted lines has ended.
type ServedLines<'a> = Served<MemDisk, ScriptedDoor<'a>, ScriptedDoor<'a>>;

/// A door at which a line of these steps comes in, with its signal if it has one.
fn door_of<'a>(
    alloc: Global,
    steps: Vec<Step<'a>>,
    signal: Option<Signal<'a>>,
) -> Result<ScriptedDoor<'a>, Fail>
    ensures { IfOk result (λ d. accepted_by d.given_back d.out < MAX_ACCEPTED) }
{
    Ok(ScriptedDoor::new(ScriptedLine::new(alloc, steps, signal)?))
}

/// An editor's door: he quits at once.
fn quitting_door<'a>(alloc: Global) -> Result<ScriptedDoor<'a>, Fail>
    ensures { IfOk result (λ d. accepted_by d.given_back d.out < MAX_ACCEPTED) }
{
    let steps = vec![in alloc; Step::Now(b"QUIT\n")]?;
    door_of(alloc, steps, None)
}

/// A caller's door: he keys what is not known once `awaited` is raised.
fn patient_door<'a>(
    alloc: Global,
    awaited: &'a AtomicBool,
    signal: Signal<'a>,
) -> Result<ScriptedDoor<'a>, Fail>
    ensures { IfOk result (λ d. accepted_by d.given_back d.out < MAX_ACCEPTED) }
{
    let steps = vec![in alloc; Step::Once(awaited, b"1000000001ABCD*90#")]?;
    door_of(alloc, steps, Some(signal))
}

/// The doors of two callers, each of whom waits until the other was sent his first screen, which has these bytes.
fn two_patient<'a>(
    alloc: Global,
    first: &'a AtomicBool,
    second: &'a AtomicBool,
    bytes: &'a [u8],
) -> Result<Vec<ScriptedDoor<'a>>, Fail>
    ensures { IfOk result (λ row. All (λ d. accepted_by d.given_back d.out < MAX_ACCEPTED) row.items) }
{
    let flag = first;
    let one = patient_door(alloc, second, Signal { flag, bytes })?;
    let flag = second;
    let other = patient_door(alloc, first, Signal { flag, bytes })?;
    Ok(vec![in alloc; one, other]?)
}

/// Serves these callers at fresh nodes, and an editor who quits at once.
fn serve_callers<'a, R: Wait + Threads + Sync>(
    rt: &R,
    alloc: Global,
    callers: Vec<ScriptedDoor<'a>>,
) -> Result<ServedLines<'a>, Fail>
    requires { All (λ d. accepted_by d.given_back d.out < MAX_ACCEPTED) callers.items }
{
    let disks = two_disks(alloc)?;
    let editors = row_of(alloc, quitting_door(alloc)?)?;
    let parts = Parts {
        disks,
        callers,
        editors,
    };
    serve_parts(rt, alloc, TWO_PORTS, parts, &mut ThreadSpawner::new())
}

#[test]
fn callers_are_served_at_once(rt: HostRuntime) -> Result<(), Fail> {
    let alloc = rt.alloc();
    let dialled = bytes_of(alloc, &NOT_KNOWN[..1])?;
    let screens = bytes_of(alloc, &NOT_KNOWN)?;
    let (first, second) = (AtomicBool::new(false), AtomicBool::new(false));
    let callers = two_patient(alloc, &first, &second, &dialled)?;
    let served = serve_callers(&rt, alloc, callers)?;
    assert_eq!(rt; served.callers.len(), 2);
    for caller in &served.callers {
        assert_eq!(rt; caller.sent(), screens.as_slice());
    }
    Ok(())
}

/// A caller's door: he asks for the frame 1a until it was shown, which raises this flag.
fn asking_door<'a>(
    alloc: Global,
    shown: &'a AtomicBool,
    frame: &'a [u8],
) -> Result<ScriptedDoor<'a>, Fail>
    ensures { IfOk result (λ d. accepted_by d.given_back d.out < MAX_ACCEPTED) }
{
    let mut steps = Vec::new(alloc);
    steps.push(Step::Now(b"1000000001ABCD"))?;
    for _ in 0..ASKED {
        steps.push(Step::Unless(shown, b"*1#"))?;
    }
    steps.push(Step::Now(b"*90#"))?;
    let signal = Signal {
        flag: shown,
        bytes: frame,
    };
    door_of(alloc, steps, Some(signal))
}

/// An editor's door: he stores the frame 1a, and quits once the flag is raised.
fn storing_door<'a>(alloc: Global, shown: &'a AtomicBool) -> Result<ScriptedDoor<'a>, Fail>
    ensures { IfOk result (λ d. accepted_by d.given_back d.out < MAX_ACCEPTED) }
{
    let store = Step::Now(b"LOGON 0000000000 0000\nNEW 1a\nSTORE 2\n");
    let steps = vec![in alloc; store, Step::Once(shown, b"QUIT\n")]?;
    door_of(alloc, steps, None)
}

/// Serves a caller who asks for a frame, and the editor who stores it meanwhile.
fn serve_asking<'a, R: Wait + Threads + Sync>(
    rt: &R,
    alloc: Global,
    shown: &'a AtomicBool,
    frame: &'a [u8],
) -> Result<ServedLines<'a>, Fail> {
    let disks = with_account(rt, alloc)?;
    let callers = row_of(alloc, asking_door(alloc, shown, frame)?)?;
    let editors = row_of(alloc, storing_door(alloc, shown)?)?;
    let parts = Parts {
        disks,
        callers,
        editors,
    };
    serve_parts(rt, alloc, ONE_EACH, parts, &mut ThreadSpawner::new())
}

#[test]
fn frames_come_down_while_ports_are_served(rt: HostRuntime) -> Result<(), Fail> {
    let frame = blank_frame(rt.alloc(), b"1a")?;
    let shown = AtomicBool::new(false);
    let served = serve_asking(&rt, rt.alloc(), &shown, &frame)?;
    let editor = served.editors.first().ok_or("a door")?;
    // He read `QUIT` only since the caller was shown the frame.
    assert_eq!(rt; editor.sent(), b"OK\nOK\nOK 1\nBYE\n".as_slice());
    assert_eq!(rt; served.status.number(), 0);
    Ok(())
}
