ghost use Rattle.std.specs.Prelude.{◌≡◌, ◌||◌, ◌<◌, ◌≤◌, ◌+◌, IfOk, IsErr};
ghost use Rattle.pv_outside.specs.declared.failed.TheConstants.{COUNT_END};
ghost use Rattle.pv_ports.specs.Ends.{line_of};
ghost use Rattle.pv_service.specs.Sessions.{ServesNextSession, HasServedSessions, session_failure, session_lacked_memory};
ghost use Rattle.pv_service.specs.Doors.{door_of, LetsNoneIn};
ghost use Rattle.pv_service.specs.declared.caller_stand.TheConstants.{MAX_ACCEPTED};

use crate::log::Log;
use crate::port_report::{PortFault, PortReport};
use crate::ringing_line::RingingLine;
use crate::signals::Signals;
use pv_edits::Record;
use pv_group::{GroupRun, Live};
use pv_live::Run;
use pv_node::Rules;
use pv_outside::{Disk, Door, Failed, Sink, Source};
use pv_ports::{EditEnd, EditorPort};
use pv_udc::UdcRules;
use std::sync::Wait;

/// An editor's port with the door at which its connections come in, how many of them it is to serve, and how that
/// ended.
#[derive(Drop)]
pub struct EditorStand<N: Run<Record>, D: Disk, O: Door + Drop> {
    /// The port.
    pub port: EditorPort<N>,
    /// The door.
    pub door: Box<O>,
    /// How many connections it is to serve.
    pub calls: u32,
    /// How its work has ended.
    pub report: Box<PortReport<D>>,
}

impl<N: Run<Record>, D: Disk, O: Door + Drop> EditorStand<N, D, O> {
    /// A stand that is to serve this many connections, with the report that its work is to fill in.
    pub fn new(
        port: EditorPort<N>,
        door: Box<O>,
        calls: u32,
        report: Box<PortReport<D>>,
    ) -> EditorStand<N, D, O>
        ensures port { result.port ≡ port }
        ensures door { result.door ≡ door }
        ensures calls { result.calls ≡ calls }
        ensures report { result.report ≡ report }
    {
        EditorStand {
            port,
            door,
            calls,
            report,
        }
    }
}

/// Accepts the next connection, serves it by a session, and gives it back. If the door fails, nothing was served. Each
/// edit that is acknowledged on it wakes the carriers.
fn serve_next<N: GroupRun<Record>, D: Disk, H: Wait + Drop, O: Door + Log, W: Wait>(
    rt: &W,
    udc: &Live<UdcRules, D, N, H>,
    signals: &Signals,
    port: &mut EditorPort<N>,
    door: &mut O,
) -> Result<EditEnd<D>, Failed>
    requires room { O.accepted door.old < COUNT_END }
    ensures served { IfOk result (ServesNextSession ⟦<UdcRules as Rules>⟧ N.limits N.opening
        (line_of ⟦<O::Line as Source>⟧ ⟦<O::Line as Sink>⟧)
        port.old.pass (door_of O.lines O.accepted O.finished O.faults door.old)
        port.new.pass (door_of O.lines O.accepted O.finished O.faults door.new)) }
    ensures refused { IsErr result → (port.new ≡ port.old)
        × LetsNoneIn (door_of O.lines O.accepted O.finished O.faults door.old)
        (door_of O.lines O.accepted O.finished O.faults door.new) }
{
    let accepted = door.accept()?;
    let mut line = RingingLine {
        line: accepted,
        signals,
    };
    let end = port.serve_editor(rt, udc, &mut line);
    let RingingLine { line, signals: _ } = line;
    door.log(&port.log_entry(&end));
    door.finish(line);
    Ok(end)
}

/// The failure of the disk that ended a session, if one did. If it ended since no memory was found, that is noted.
fn failure_in<D: Disk>(end: EditEnd<D>, memory: &mut bool) -> Option<D::Failure>
    ensures failure { result ≡ session_failure end }
    ensures memory { memory.new ≡ (memory.old || session_lacked_memory end) }
{
    match end {
        EditEnd::DiskFault(failure) => Some(failure),
        EditEnd::Memory { .. } => {
            *memory = true;
            None
        }
        _ => None,
    }
}

/// Serves the connections of a door, one after the other.
fn serve_lines<N: GroupRun<Record>, D: Disk, H: Wait + Drop, O: Door + Log, W: Wait>(
    rt: &W,
    udc: &Live<UdcRules, D, N, H>,
    signals: &Signals,
    port: &mut EditorPort<N>,
    door: &mut O,
    calls: u32,
) -> PortReport<D>
    requires room { O.accepted door.old < MAX_ACCEPTED }
    ensures { HasServedSessions ⟦<UdcRules as Rules>⟧ N.limits N.opening
        (line_of ⟦<O::Line as Source>⟧ ⟦<O::Line as Sink>⟧) calls
        port.old.pass (door_of O.lines O.accepted O.finished O.faults door.old)
        port.new.pass (door_of O.lines O.accepted O.finished O.faults door.new) result }
{
    let mut memory = false;
    for _ in 0..calls {
        let Ok(end) = serve_next(rt, udc, signals, port, door) else {
            let fault = Some(PortFault::Door);
            return PortReport { memory, fault };
        };
        signals.ring_all();
        if let Some(failure) = failure_in(end, &mut memory) {
            let fault = Some(PortFault::Disk(failure));
            return PortReport { memory, fault };
        }
    }
    PortReport {
        memory,
        fault: None,
    }
}

/// Serves the connections of a stand until there were as many as it is to serve, or until its door or the Update
/// Centre's disk fails. One that was accepted is always given back. A session that finds no memory ends, and the next
/// one is served.
pub fn serve_editors<N: GroupRun<Record>, D: Disk, H: Wait + Drop, O: Door + Log + Drop, W: Wait>(
    rt: &W,
    udc: &Live<UdcRules, D, N, H>,
    signals: &Signals,
    stand: &mut EditorStand<N, D, O>,
)
    requires room { O.accepted stand.old.door.value < MAX_ACCEPTED }
    ensures served { HasServedSessions ⟦<UdcRules as Rules>⟧ N.limits N.opening
        (line_of ⟦<O::Line as Source>⟧ ⟦<O::Line as Sink>⟧) stand.old.calls
        stand.old.port.pass (door_of O.lines O.accepted O.finished O.faults stand.old.door.value)
        stand.new.port.pass (door_of O.lines O.accepted O.finished O.faults stand.new.door.value) stand.new.report.value }
    ensures calls { stand.new.calls ≡ stand.old.calls }
{
    *stand.report = serve_lines(
        rt,
        udc,
        signals,
        &mut stand.port,
        &mut *stand.door,
        stand.calls,
    );
    signals.leave();
}
