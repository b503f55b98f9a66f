ghost use Rattle.std.specs.Prelude.{◌≡◌, ◌||◌, ◌<◌, ◌≤◌, ◌+◌, IfOk, IsErr};
ghost use Rattle.pv_outside.specs.declared.failed.TheConstants.{COUNT_END};
ghost use Rattle.pv_ports.specs.Ends.{line_of};
ghost use Rattle.pv_service.specs.Calls.{ServesNextCall, HasServedCalls, call_failure, call_lacked_memory};
ghost use Rattle.pv_service.specs.Doors.{door_of, LetsNoneIn};
ghost use Rattle.pv_service.specs.declared.caller_stand.TheConstants.{MAX_ACCEPTED};

use crate::log::Log;
use crate::port_report::{PortFault, PortReport};
use crate::signals::Signals;
use pv_group::{GroupRun, Live};
use pv_irc::{CentreRecord, IrcRules};
use pv_live::Run;
use pv_node::Rules;
use pv_outside::{Clock, Disk, Door, Failed, Sink, Source};
use pv_ports::{CallEnd, CallerPort};
use std::sync::Wait;

/// A stand's door has accepted fewer connections than this when the work begins, so that its counts do not come to
/// their end.
pub const MAX_ACCEPTED: u64 = 1 << 63;

/// A caller's port with the door at which its connections come in, how many of them it is to serve, and how that ended.
#[derive(Drop)]
pub struct CallerStand<const C: u8, N: Run<CentreRecord>, D: Disk, O: Door + Drop> {
    /// The port.
    pub port: CallerPort<C, N>,
    /// The door.
    pub door: Box<O>,
    /// How many connections it is to serve.
    pub calls: u32,
    /// How its work has ended.
    pub report: Box<PortReport<D>>,
}

impl<const C: u8, N: Run<CentreRecord>, D: Disk, O: Door + Drop> CallerStand<C, N, D, O> {
    /// A stand that is to serve this many connections, with the report that its work is to fill in.
    pub fn new(
        port: CallerPort<C, N>,
        door: Box<O>,
        calls: u32,
        report: Box<PortReport<D>>,
    ) -> CallerStand<C, N, D, O>
        ensures port { result.port ≡ port }
        ensures door { result.door ≡ door }
        ensures calls { result.calls ≡ calls }
        ensures report { result.report ≡ report }
    {
        CallerStand {
            port,
            door,
            calls,
            report,
        }
    }
}

/// Accepts the next connection, serves it by a call, and gives it back. If the door fails, nothing was served.
fn serve_next<
    const C: u8,
    N: GroupRun<CentreRecord>,
    D: Disk,
    H: Wait + Drop,
    O: Door + Log,
    K: Clock,
    W: Wait,
>(
    rt: &W,
    centre: &Live<IrcRules<C>, D, N, H>,
    clock: &K,
    port: &mut CallerPort<C, N>,
    door: &mut O,
) -> Result<CallEnd<D>, Failed>
    requires room { O.accepted door.old < COUNT_END }
    ensures served { IfOk result (ServesNextCall ⟦<IrcRules<C> as Rules>⟧ N.limits N.opening
        (K.moment clock.now) (line_of ⟦<O::Line as Source>⟧ ⟦<O::Line as Sink>⟧)
        port.old.pass (door_of O.lines O.accepted O.finished O.faults door.old)
        port.new.pass (door_of O.lines O.accepted O.finished O.faults door.new)) }
    ensures refused { IsErr result → (port.new ≡ port.old)
        × LetsNoneIn (door_of O.lines O.accepted O.finished O.faults door.old)
        (door_of O.lines O.accepted O.finished O.faults door.new) }
{
    let mut line = door.accept()?;
    let end = port.serve_call(rt, centre, &mut line, clock);
    door.log(&port.log_entry(&end));
    door.finish(line);
    Ok(end)
}

/// The failure of the disk that ended a call, if one did. If it ended since no memory was found, that is noted.
fn failure_in<D: Disk>(end: CallEnd<D>, memory: &mut bool) -> Option<D::Failure>
    ensures failure { result ≡ call_failure end }
    ensures memory { memory.new ≡ (memory.old || call_lacked_memory end) }
{
    match end {
        CallEnd::DiskFault(failure) => Some(failure),
        CallEnd::Memory { .. } => {
            *memory = true;
            None
        }
        _ => None,
    }
}

/// Serves the connections of a door, one after the other.
fn serve_lines<
    const C: u8,
    N: GroupRun<CentreRecord>,
    D: Disk,
    H: Wait + Drop,
    O: Door + Log,
    K: Clock,
    W: Wait,
>(
    rt: &W,
    centre: &Live<IrcRules<C>, D, N, H>,
    clock: &K,
    signals: &Signals,
    port: &mut CallerPort<C, N>,
    door: &mut O,
    calls: u32,
) -> PortReport<D>
    requires room { O.accepted door.old < MAX_ACCEPTED }
    ensures { HasServedCalls ⟦<IrcRules<C> as Rules>⟧ N.limits N.opening
        (K.moment clock.now) (line_of ⟦<O::Line as Source>⟧ ⟦<O::Line as Sink>⟧) calls
        port.old.pass (door_of O.lines O.accepted O.finished O.faults door.old)
        port.new.pass (door_of O.lines O.accepted O.finished O.faults door.new) result }
{
    let mut memory = false;
    for _ in 0..calls {
        let Ok(end) = serve_next(rt, centre, clock, port, door) else {
            let fault = Some(PortFault::Door);
            return PortReport { memory, fault };
        };
        signals.ring(C);
        if let Some(failure) = failure_in(end, &mut memory) {
            let fault = Some(PortFault::Disk(failure));
            return PortReport { memory, fault };
        }
    }
    PortReport {
        memory,
        fault: None,
    }
}

/// Serves the connections of a stand until there were as many as it is to serve, or until its door or its centre's disk
/// fails. One that was accepted is always given back. A call that finds no memory ends, and the next one is served.
pub fn serve_callers<
    const C: u8,
    N: GroupRun<CentreRecord>,
    D: Disk,
    H: Wait + Drop,
    O: Door + Log + Drop,
    K: Clock,
    W: Wait,
>(
    rt: &W,
    centre: &Live<IrcRules<C>, D, N, H>,
    clock: &K,
    signals: &Signals,
    stand: &mut CallerStand<C, N, D, O>,
)
    requires room { O.accepted stand.old.door.value < MAX_ACCEPTED }
    ensures served { HasServedCalls ⟦<IrcRules<C> as Rules>⟧ N.limits N.opening
        (K.moment clock.now) (line_of ⟦<O::Line as Source>⟧ ⟦<O::Line as Sink>⟧) stand.old.calls
        stand.old.port.pass (door_of O.lines O.accepted O.finished O.faults stand.old.door.value)
        stand.new.port.pass (door_of O.lines O.accepted O.finished O.faults stand.new.door.value) stand.new.report.value }
    ensures calls { stand.new.calls ≡ stand.old.calls }
{
    *stand.report = serve_lines(
        rt,
        centre,
        clock,
        signals,
        &mut stand.port,
        &mut *stand.door,
        stand.calls,
    );
    signals.leave();
}
