//! Serves the doors of a network: its nodes are opened under names, run by threads, and closed.
ghost use Rattle.std.specs.Prelude.{◌≡◌, ◌+◌, ◌*◌, ◌<◌, All, map, vec_len, IfOk, IfSome};
ghost use Rattle.pv_live.specs.Opening.{IsPassCount};
ghost use Rattle.pv_node.specs.Trail.{trail_records};
ghost use Rattle.pv_ports.specs.Ends.{line_of};
ghost use Rattle.pv_service.specs.Doors.{door_of};
ghost use Rattle.pv_service.specs.declared.caller_stand.TheConstants.{MAX_ACCEPTED};
ghost use Rattle.pv_centres.specs.Carried.{AreQuiet};
ghost use Rattle.pv_centres.specs.Opening.{IsReady, centre_count, port_counts};
ghost use Rattle.pv_centres.specs.Parts.{IfThere};
ghost use Rattle.pv_centres.specs.Served.{CentreServed, ServesEachDoor, ServedRows, UpdateServed};

use crate::closing::{ClosedNetwork, close_network};
use crate::network::{Plan, Starts, open_network};
use crate::running::run_network;
use pv_centres::OpenedNodes;
use pv_edits::Record;
use pv_group::GroupRun;
use pv_irc::{CentreRecord, IrcRules};
use pv_node::Rules;
use pv_outside::{Clock, Disk, Door, Limits, Sink, Source};
use pv_service::{Log, Signals};
use pv_udc::UdcRules;
use std::alloc::{AllocError, Global};
use std::marker::Brand;
use std::sync::Wait;
use std::thread::Threads;

/// Serves the doors of a network: each port as many connections as the plan says. If no memory is found for the work,
/// the disks keep what they held.
///
/// There is a door for each port, those of the first centre first. All nodes have these limits.
pub fn serve_nodes<
    D: Disk + Drop + Send,
    O: Door + Log + Drop + Send,
    E: Door + Log + Drop + Send,
    K: Clock + Sync,
    R: Wait + Threads + Sync,
>(
    rt: &R,
    alloc: Global,
    nodes: OpenedNodes<D>,
    limits: Limits,
    callers: Vec<O>,
    editors: Vec<E>,
    plan: Plan,
    clock: &K,
) -> Result<ClosedNetwork<D, O, E>, AllocError>
where
    O::Line: Send,
    E::Line: Send,
    requires update { IsReady ⟦<UdcRules as Rules>⟧ D.Reports
        (trail_records nodes.update.trail.items) limits nodes.update.node }
    requires first { IfSome nodes.first (λ o. IsReady ⟦<IrcRules<0> as Rules>⟧ D.Reports
        (trail_records o.trail.items) limits o.node) }
    requires second { IfSome nodes.second (λ o. IsReady ⟦<IrcRules<1> as Rules>⟧ D.Reports
        (trail_records o.trail.items) limits o.node) }
    requires third { IfSome nodes.third (λ o. IsReady ⟦<IrcRules<2> as Rules>⟧ D.Reports
        (trail_records o.trail.items) limits o.node) }
    requires fourth { IfSome nodes.fourth (λ o. IsReady ⟦<IrcRules<3> as Rules>⟧ D.Reports
        (trail_records o.trail.items) limits o.node) }

    // There is a pass for each port and each carrier, and the doors have counts to spare.
    requires editors { IsPassCount (vec_len editors + centre_count nodes) }
    requires callers { IsPassCount (plan.ports + 1) × (centre_count nodes * plan.ports ≡ vec_len callers) }
    requires fresh { All (λ d. O.accepted d < MAX_ACCEPTED) callers.items
        × All (λ d. E.accepted d < MAX_ACCEPTED) editors.items }

    // Each node was served from its opening to its closing: its doors by its ports, in order, and it has the records of a run.
    ensures update { IfOk result (λ closed. UpdateServed ⟦<UdcRules as Rules>⟧ D.Reports limits
        (trail_records nodes.update.trail.items)
        (line_of ⟦<E::Line as Source>⟧ ⟦<E::Line as Sink>⟧) plan.calls (AreQuiet closed.carriers_met.items)
        (map (door_of E.lines E.accepted E.finished E.faults) editors.items)
        (map (door_of E.lines E.accepted E.finished E.faults) closed.editors.items) closed.editors_met.items closed.nodes.update) }
    ensures callers { IfOk result (λ closed. (rows : ServedRows (port_counts plan.ports nodes)
        (map (door_of O.lines O.accepted O.finished O.faults) callers.items)
        (map (door_of O.lines O.accepted O.finished O.faults) closed.callers.items) closed.callers_met.items)
        × IfThere (λ o n. CentreServed ⟦<IrcRules<0> as Rules>⟧ D.Reports limits (trail_records o.trail.items)
        (K.moment clock.now) (line_of ⟦<O::Line as Source>⟧ ⟦<O::Line as Sink>⟧) plan.calls (AreQuiet closed.carriers_met.items)
        rows.olds.first rows.news.first rows.met.first n) nodes.first closed.nodes.first
        × IfThere (λ o n. CentreServed ⟦<IrcRules<1> as Rules>⟧ D.Reports limits (trail_records o.trail.items)
        (K.moment clock.now) (line_of ⟦<O::Line as Source>⟧ ⟦<O::Line as Sink>⟧) plan.calls (AreQuiet closed.carriers_met.items)
        rows.olds.second rows.news.second rows.met.second n) nodes.second closed.nodes.second
        × IfThere (λ o n. CentreServed ⟦<IrcRules<2> as Rules>⟧ D.Reports limits (trail_records o.trail.items)
        (K.moment clock.now) (line_of ⟦<O::Line as Source>⟧ ⟦<O::Line as Sink>⟧) plan.calls (AreQuiet closed.carriers_met.items)
        rows.olds.third rows.news.third rows.met.third n) nodes.third closed.nodes.third
        × IfThere (λ o n. CentreServed ⟦<IrcRules<3> as Rules>⟧ D.Reports limits (trail_records o.trail.items)
        (K.moment clock.now) (line_of ⟦<O::Line as Source>⟧ ⟦<O::Line as Sink>⟧) plan.calls (AreQuiet closed.carriers_met.items)
        rows.olds.fourth rows.news.fourth rows.met.fourth n) nodes.fourth closed.nodes.fourth) }

    // Each door has let in and given back as many connections as it was to, unless there was a fault.
    ensures callers_doors { IfOk result (λ closed. ServesEachDoor plan.calls (map
        (door_of O.lines O.accepted O.finished O.faults) callers.items)
        (map (door_of O.lines O.accepted O.finished O.faults) closed.callers.items) closed.callers_met.items) }
    ensures editors_doors { IfOk result (λ closed. ServesEachDoor plan.calls (map
        (door_of E.lines E.accepted E.finished E.faults) editors.items)
        (map (door_of E.lines E.accepted E.finished E.faults) closed.editors.items) closed.editors_met.items) }
{
    let passes = editors.len() + nodes.centres();
    let starts = Starts::new(passes as u64, plan.ports as u64 + 1);
    let closed = serve_named::<Brand, Brand, Brand, Brand, Brand, D, O, E, K, R>(
        rt, alloc, nodes, limits, starts, callers, editors, plan, clock,
    )?;
    Ok(closed)
}

/// Serves the doors of nodes whose runs have these names. The limits are for the names alone.
fn serve_named<
    U: GroupRun<Record> + Send + Sync,
    N0: GroupRun<CentreRecord> + Send + Sync,
    N1: GroupRun<CentreRecord> + Send + Sync,
    N2: GroupRun<CentreRecord> + Send + Sync,
    N3: GroupRun<CentreRecord> + Send + Sync,
    D: Disk + Drop + Send,
    O: Door + Log + Drop + Send,
    E: Door + Log + Drop + Send,
    K: Clock + Sync,
    R: Wait + Threads + Sync,
>(
    rt: &R,
    alloc: Global,
    nodes: OpenedNodes<D>,
    limits: Limits,
    starts: Starts,
    callers: Vec<O>,
    editors: Vec<E>,
    plan: Plan,
    clock: &K,
) -> Result<ClosedNetwork<D, O, E>, AllocError>
where
    O::Line: Send,
    E::Line: Send,
    requires update { IsReady ⟦<UdcRules as Rules>⟧ D.Reports U.opening U.limits nodes.update.node }
    requires first { IfSome nodes.first
        (λ o. IsReady ⟦<IrcRules<0> as Rules>⟧ D.Reports N0.opening N0.limits o.node) }
    requires second { IfSome nodes.second
        (λ o. IsReady ⟦<IrcRules<1> as Rules>⟧ D.Reports N1.opening N1.limits o.node) }
    requires third { IfSome nodes.third
        (λ o. IsReady ⟦<IrcRules<2> as Rules>⟧ D.Reports N2.opening N2.limits o.node) }
    requires fourth { IfSome nodes.fourth
        (λ o. IsReady ⟦<IrcRules<3> as Rules>⟧ D.Reports N3.opening N3.limits o.node) }

    // Each run is named by its start.
    requires update_start { starts.update ≡ record {
      book = U.book;
      told = U.told;
      failed = U.failed;
      passes = U.passes;
      taken = U.taken;
    } }
    requires first_start { starts.first ≡ record {
      book = N0.book;
      told = N0.told;
      failed = N0.failed;
      passes = N0.passes;
      taken = N0.taken;
    } }
    requires second_start { starts.second ≡ record {
      book = N1.book;
      told = N1.told;
      failed = N1.failed;
      passes = N1.passes;
      taken = N1.taken;
    } }
    requires third_start { starts.third ≡ record {
      book = N2.book;
      told = N2.told;
      failed = N2.failed;
      passes = N2.passes;
      taken = N2.taken;
    } }
    requires fourth_start { starts.fourth ≡ record {
      book = N3.book;
      told = N3.told;
      failed = N3.failed;
      passes = N3.passes;
      taken = N3.taken;
    } }

    // There is a pass for each port and each carrier, and the doors have counts to spare.
    requires editors { (vec_len editors + centre_count nodes ≡ U.passes)
        × IsPassCount (vec_len editors + centre_count nodes) }
    requires callers { centre_count nodes * plan.ports ≡ vec_len callers }
    requires passes { IsPassCount (plan.ports + 1) × (plan.ports + 1 ≡ N0.passes)
        × (plan.ports + 1 ≡ N1.passes)
        × (plan.ports + 1 ≡ N2.passes) × (plan.ports + 1 ≡ N3.passes) }
    requires fresh { All (λ d. O.accepted d < MAX_ACCEPTED) callers.items
        × All (λ d. E.accepted d < MAX_ACCEPTED) editors.items }

    // Each node was served from its opening to its closing, and each door by its port.
    ensures update { IfOk result (λ closed. UpdateServed ⟦<UdcRules as Rules>⟧ D.Reports U.limits U.opening
        (line_of ⟦<E::Line as Source>⟧ ⟦<E::Line as Sink>⟧) plan.calls (AreQuiet closed.carriers_met.items)
        (map (door_of E.lines E.accepted E.finished E.faults) editors.items)
        (map (door_of E.lines E.accepted E.finished E.faults) closed.editors.items) closed.editors_met.items closed.nodes.update) }
    ensures callers { IfOk result (λ closed. (rows : ServedRows (port_counts plan.ports nodes)
        (map (door_of O.lines O.accepted O.finished O.faults) callers.items)
        (map (door_of O.lines O.accepted O.finished O.faults) closed.callers.items) closed.callers_met.items)
        × IfThere (λ o n. CentreServed ⟦<IrcRules<0> as Rules>⟧ D.Reports N0.limits N0.opening
        (K.moment clock.now) (line_of ⟦<O::Line as Source>⟧ ⟦<O::Line as Sink>⟧) plan.calls (AreQuiet closed.carriers_met.items)
        rows.olds.first rows.news.first rows.met.first n) nodes.first closed.nodes.first
        × IfThere (λ o n. CentreServed ⟦<IrcRules<1> as Rules>⟧ D.Reports N1.limits N1.opening
        (K.moment clock.now) (line_of ⟦<O::Line as Source>⟧ ⟦<O::Line as Sink>⟧) plan.calls (AreQuiet closed.carriers_met.items)
        rows.olds.second rows.news.second rows.met.second n) nodes.second closed.nodes.second
        × IfThere (λ o n. CentreServed ⟦<IrcRules<2> as Rules>⟧ D.Reports N2.limits N2.opening
        (K.moment clock.now) (line_of ⟦<O::Line as Source>⟧ ⟦<O::Line as Sink>⟧) plan.calls (AreQuiet closed.carriers_met.items)
        rows.olds.third rows.news.third rows.met.third n) nodes.third closed.nodes.third
        × IfThere (λ o n. CentreServed ⟦<IrcRules<3> as Rules>⟧ D.Reports N3.limits N3.opening
        (K.moment clock.now) (line_of ⟦<O::Line as Source>⟧ ⟦<O::Line as Sink>⟧) plan.calls (AreQuiet closed.carriers_met.items)
        rows.olds.fourth rows.news.fourth rows.met.fourth n) nodes.fourth closed.nodes.fourth) }
    ensures callers_doors { IfOk result (λ closed. ServesEachDoor plan.calls (map
        (door_of O.lines O.accepted O.finished O.faults) callers.items)
        (map (door_of O.lines O.accepted O.finished O.faults) closed.callers.items) closed.callers_met.items) }
    ensures editors_doors { IfOk result (λ closed. ServesEachDoor plan.calls (map
        (door_of E.lines E.accepted E.finished E.faults) editors.items)
        (map (door_of E.lines E.accepted E.finished E.faults) closed.editors.items) closed.editors_met.items) }
{
    let _ = limits;
    let ports = editors.len() + callers.len();
    let mut network = open_network::<U, N0, N1, N2, N3, D, O, E, &R>(
        rt, alloc, nodes, starts, callers, editors, plan,
    )?;
    let signals = Signals::new(ports as u64);
    run_network(rt, alloc, clock, &signals, &mut network);
    let closed = close_network(alloc, network)?;
    Ok(closed)
}
