//! The stands of a network of one centre: one for editors, one for callers, and one for the carrier.
ghost use Rattle.std.specs.Prelude.{◌≡◌, ◌<◌, All, IfOk};
ghost use Rattle.pv_memory.specs.Doors.{accepted_of};
ghost use Rattle.pv_service.specs.declared.caller_stand.TheConstants.{MAX_ACCEPTED};

use pv_edits::Record;
use pv_group::{GroupRun, Live};
use pv_irc::{CentreRecord, IrcRules};
use pv_live::{Pass, Run};
use pv_memory::{MemDisk, MemDoor, Pipe, SetClock};
use pv_outside::{Clock, Door, Link};
use pv_ports::{CallerPort, Carrier, EditorPort};
use pv_service::{
    CallerStand, CarrierReport, CarrierStand, EditorStand, Log, PortReport, Signals, run_centre,
};
use pv_udc::UdcRules;
use std::alloc::{AllocError, Global};
use std::sync::Wait;
use std::thread::Threads;

/// Stands of editors.
pub type Editors<U> = Vec<EditorStand<U, MemDisk, MemDoor>>;

/// Stands of callers.
pub type Callers<N, O> = Vec<CallerStand<0, N, MemDisk, O>>;

/// The stand of a carrier whose links are in memory.
pub type Carrying<U, N> = CarrierStand<0, U, N, MemDisk, Pipe>;

/// A row of one editors' stand, a row of one callers' stand, and the carrier's stand.
#[derive(Drop)]
pub struct Stands<U: Run<Record>, N: Run<CentreRecord>, O: Door + Drop> {
    /// The editors'.
    pub editors: Editors<U>,
    /// The callers'.
    pub callers: Callers<N, O>,
    /// The carrier's.
    pub carrier: Carrying<U, N>,
}

/// A row of one editors' stand, which is to serve this many lines.
pub fn editors_at<U: Run<Record>>(
    alloc: Global,
    pass: Pass<UdcRules, U>,
    door: Box<MemDoor>,
    calls: u32,
) -> Result<Editors<U>, AllocError>
    requires { accepted_of door.value < MAX_ACCEPTED }
    ensures { IfOk result (λ row. All (λ stand. accepted_of stand.door.value < MAX_ACCEPTED) row.items) }
{
    let port = EditorPort::new(alloc, pass)?;
    let report = PortReport::boxed(alloc)?;
    let mut row = Vec::with_capacity(alloc, 1)?;
    row.push_reserved(EditorStand::new(port, door, calls, report));
    Ok(row)
}

/// A row of one callers' stand, which is to serve this many lines.
pub fn callers_at<N: Run<CentreRecord>, O: Door + Drop>(
    alloc: Global,
    pass: Pass<IrcRules<0>, N>,
    door: Box<O>,
    calls: u32,
) -> Result<Callers<N, O>, AllocError>
    requires { O.accepted door.value < MAX_ACCEPTED }
    ensures { IfOk result (λ row. All (λ stand. O.accepted stand.door.value < MAX_ACCEPTED) row.items) }
{
    let port = CallerPort::new(alloc, pass)?;
    let report = PortReport::boxed(alloc)?;
    let mut row = Vec::with_capacity(alloc, 1)?;
    row.push_reserved(CallerStand::new(port, door, calls, report));
    Ok(row)
}

/// A carrier's stand. The gives of these numbers fail at the link down.
pub fn carrier_at<U: Run<Record>, N: Run<CentreRecord>>(
    alloc: Global,
    udc: Pass<UdcRules, U>,
    centre: Pass<IrcRules<0>, N>,
    fails: &[u64],
) -> Result<Carrying<U, N>, AllocError> {
    let down = Box::new(alloc, Pipe::new(alloc, fails)?)?;
    let up = Box::new(alloc, Pipe::new(alloc, &[])?)?;
    let report = CarrierReport::boxed(alloc)?;
    Ok(CarrierStand::new(Carrier::new(udc, centre), down, up, report))
}

/// Serves callers with their carrier beside them, by any clock and over any links: what may cross to a thread is looked for
/// here without the parts of a clock and a pipe.
fn run_beside<
    U: GroupRun<Record> + Send + Sync,
    N: GroupRun<CentreRecord> + Send + Sync,
    H: Wait + Drop + Send + Sync,
    O: Door + Log + Drop + Send,
    K: Clock + Sync,
    L: Link + Drop + Send,
    R: Wait + Threads + Sync,
>(
    rt: &R,
    udc: &Live<UdcRules, MemDisk, U, H>,
    centre: &Live<IrcRules<0>, MemDisk, N, H>,
    clock: &K,
    signals: &Signals,
    callers: &mut Vec<CallerStand<0, N, MemDisk, O>>,
    carrier: &mut CarrierStand<0, U, N, MemDisk, L>,
)
where
    O::Line: Send,
    requires { All (λ s. O.accepted s.door.value < MAX_ACCEPTED) callers.old.items }
{
    run_centre(rt, udc, centre, clock, signals, callers, carrier);
}

/// Serves callers with their carrier beside them, by a clock that stands and over links in memory.
pub fn run_at<
    U: GroupRun<Record> + Send + Sync,
    N: GroupRun<CentreRecord> + Send + Sync,
    H: Wait + Drop + Send + Sync,
    O: Door + Log + Drop + Send,
    R: Wait + Threads + Sync,
>(
    rt: &R,
    udc: &Live<UdcRules, MemDisk, U, H>,
    centre: &Live<IrcRules<0>, MemDisk, N, H>,
    clock: &SetClock,
    signals: &Signals,
    callers: &mut Vec<CallerStand<0, N, MemDisk, O>>,
    carrier: &mut CarrierStand<0, U, N, MemDisk, Pipe>,
)
where
    O::Line: Send,
    requires { All (λ s. O.accepted s.door.value < MAX_ACCEPTED) callers.old.items }
{
    run_beside(rt, udc, centre, clock, signals, callers, carrier);
}
