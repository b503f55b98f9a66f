ghost use Rattle.std.specs.Prelude.{◌≡◌, ◌++◌, map, option_to_list, IfOk, OnOk, IfSome};
ghost use Rattle.std.specs.Option.{option_map};
ghost use Rattle.pv_irc.specs.History.{applied_of};
ghost use Rattle.pv_centres.specs.Carried.{AreQuiet, HasStoredNoMore, taken_count};
ghost use Rattle.pv_centres.specs.Parts.{IfThere};
ghost use Rattle.pv_centres.specs.Served.{IsClosedWith};

use crate::network::{Lives, OpenNetwork};
use pv_centres::{
    AllCarriers, AllPorts, ClosedNode, ClosedNodes, Collected, OpenCentre, close_centre,
    close_update,
};
use pv_edits::Record;
use pv_group::GroupRun;
use pv_irc::{CentreRecord, IrcRules};
use pv_node::Rules;
use pv_outside::{Disk, Door};
use pv_service::{CallerStand, CarrierReport, PortReport};
use pv_udc::UdcRules;
use std::alloc::{AllocError, Global};
use std::sync::Wait;

/// A network that was closed.
#[derive(Drop)]
pub struct ClosedNetwork<D: Disk + Drop, O: Door + Drop, E: Door + Drop> {
    /// What has become of its nodes.
    pub nodes: ClosedNodes<D>,
    /// The callers' doors, in order.
    pub callers: Vec<O>,
    /// What their ports have met, in order.
    pub callers_met: Vec<PortReport<D>>,
    /// The editors' doors, in order.
    pub editors: Vec<E>,
    /// What their ports have met, in order.
    pub editors_met: Vec<PortReport<D>>,
    /// What the carriers have met, in order.
    pub carriers_met: Vec<CarrierReport<D>>,
}

/// What has become of the nodes of those centres that a network has.
#[derive(Drop)]
struct ClosedCentres<D: Disk + Drop> {
    first: Option<ClosedNode<IrcRules<0>, D>>,
    second: Option<ClosedNode<IrcRules<1>, D>>,
    third: Option<ClosedNode<IrcRules<2>, D>>,
    fourth: Option<ClosedNode<IrcRules<3>, D>>,
}

/// Closes those centres that a network has, and adds what their stands had to what was collected.
fn close_centres<
    U: GroupRun<Record>,
    N0: GroupRun<CentreRecord>,
    N1: GroupRun<CentreRecord>,
    N2: GroupRun<CentreRecord>,
    N3: GroupRun<CentreRecord>,
    D: Disk + Drop,
    O: Door + Drop,
    H: Wait + Drop,
>(
    alloc: Global,
    centres: Lives<N0, N1, N2, N3, D, H>,
    first: Vec<CallerStand<0, N0, D, O>>,
    second: Vec<CallerStand<1, N1, D, O>>,
    third: Vec<CallerStand<2, N2, D, O>>,
    fourth: Vec<CallerStand<3, N3, D, O>>,
    carriers: AllCarriers<U, N0, N1, N2, N3, D>,
    count: usize,
    collected: &mut Collected<U, D, O>,
) -> Result<ClosedCentres<D>, AllocError>
    requires { (count ≡ N0.passes) × (count ≡ N1.passes) × (count ≡ N2.passes) × (count ≡ N3.passes) }
    ensures first { IfOk result (λ nodes. IfThere (λ live n. IsClosedWith ⟦<IrcRules<0> as Rules>⟧
        D.Reports N0.limits N0.opening applied_of (AreQuiet collected.new.carriers.items)
        (map (λ s. s.port.pass) first.items) n) centres.first nodes.first) }
    ensures second { IfOk result (λ nodes. IfThere (λ live n. IsClosedWith ⟦<IrcRules<1> as Rules>⟧
        D.Reports N1.limits N1.opening applied_of (AreQuiet collected.new.carriers.items)
        (map (λ s. s.port.pass) second.items) n) centres.second nodes.second) }
    ensures third { IfOk result (λ nodes. IfThere (λ live n. IsClosedWith ⟦<IrcRules<2> as Rules>⟧
        D.Reports N2.limits N2.opening applied_of (AreQuiet collected.new.carriers.items)
        (map (λ s. s.port.pass) third.items) n) centres.third nodes.third) }
    ensures fourth { IfOk result (λ nodes. IfThere (λ live n. IsClosedWith ⟦<IrcRules<3> as Rules>⟧
        D.Reports N3.limits N3.opening applied_of (AreQuiet collected.new.carriers.items)
        (map (λ s. s.port.pass) fourth.items) n) centres.fourth nodes.fourth) }

    // The doors, the reports and the passes of the Update Centre are added in order.
    ensures doors { OnOk result (collected.new.doors.items
        ≡ collected.old.doors.items ++ (map (λ s. s.door.value) first.items
        ++ (map (λ s. s.door.value) second.items ++ (map (λ s. s.door.value) third.items ++ map
        (λ s. s.door.value) fourth.items)))) }
    ensures reports { OnOk result (collected.new.reports.items
        ≡ collected.old.reports.items ++ (map (λ s. s.report.value) first.items
        ++ (map (λ s. s.report.value) second.items ++ (map (λ s. s.report.value) third.items ++ map
        (λ s. s.report.value) fourth.items)))) }
    ensures udc { OnOk result (collected.new.passes.items
        ≡ collected.old.passes.items ++ (option_to_list (option_map (λ c. c.udc) carriers.first)
        ++ (option_to_list (option_map (λ c. c.udc) carriers.second)
        ++ (option_to_list (option_map (λ c. c.udc) carriers.third)
        ++ option_to_list (option_map (λ c. c.udc) carriers.fourth))))) }

    // If no carrier has met anything, these have stored what they have brought, and no more.
    ensures quiet { OnOk result (AreQuiet collected.new.carriers.items → AreQuiet collected.old.carriers.items
        × IfSome carriers.first (HasStoredNoMore U.opening N0.opening 0)
        × IfSome carriers.second (HasStoredNoMore U.opening N1.opening 1)
        × IfSome carriers.third (HasStoredNoMore U.opening N2.opening 2)
        × IfSome carriers.fourth (HasStoredNoMore U.opening N3.opening 3)) }
{
    let first = OpenCentre {
        live: centres.first,
        callers: first,
        carrier: carriers.first,
    };
    let second = OpenCentre {
        live: centres.second,
        callers: second,
        carrier: carriers.second,
    };
    let third = OpenCentre {
        live: centres.third,
        callers: third,
        carrier: carriers.third,
    };
    let fourth = OpenCentre {
        live: centres.fourth,
        callers: fourth,
        carrier: carriers.fourth,
    };
    let first = close_centre(alloc, first, count, collected)?;
    let second = close_centre(alloc, second, count, collected)?;
    let third = close_centre(alloc, third, count, collected)?;
    let fourth = close_centre(alloc, fourth, count, collected)?;
    Ok(ClosedCentres {
        first,
        second,
        third,
        fourth,
    })
}

/// Closes the nodes of a network. If no memory is found the disks keep what they held.
pub(crate) fn close_network<
    U: GroupRun<Record>,
    N0: GroupRun<CentreRecord>,
    N1: GroupRun<CentreRecord>,
    N2: GroupRun<CentreRecord>,
    N3: GroupRun<CentreRecord>,
    D: Disk + Drop,
    O: Door + Drop,
    E: Door + Drop,
    H: Wait + Drop,
>(
    alloc: Global,
    network: OpenNetwork<U, N0, N1, N2, N3, D, O, E, H>,
) -> Result<ClosedNetwork<D, O, E>, AllocError>
    requires update { network.update_passes ≡ U.passes }
    requires centres { (network.centre_passes ≡ N0.passes) × (network.centre_passes ≡ N1.passes)
        × (network.centre_passes ≡ N2.passes) × (network.centre_passes ≡ N3.passes) }

    // Each node is closed with the passes of its ports.
    ensures update { IfOk result (λ closed. IsClosedWith ⟦<UdcRules as Rules>⟧ D.Reports U.limits U.opening
        taken_count (AreQuiet closed.carriers_met.items)
        (map (λ s. s.port.pass) network.ports.editors.items) closed.nodes.update) }
    ensures first { IfOk result (λ closed. IfThere (λ live n. IsClosedWith ⟦<IrcRules<0> as Rules>⟧
        D.Reports N0.limits N0.opening applied_of (AreQuiet closed.carriers_met.items)
        (map (λ s. s.port.pass) network.ports.first.items) n) network.centres.first closed.nodes.first) }
    ensures second { IfOk result (λ closed. IfThere (λ live n. IsClosedWith ⟦<IrcRules<1> as Rules>⟧
        D.Reports N1.limits N1.opening applied_of (AreQuiet closed.carriers_met.items)
        (map (λ s. s.port.pass) network.ports.second.items) n) network.centres.second closed.nodes.second) }
    ensures third { IfOk result (λ closed. IfThere (λ live n. IsClosedWith ⟦<IrcRules<2> as Rules>⟧
        D.Reports N2.limits N2.opening applied_of (AreQuiet closed.carriers_met.items)
        (map (λ s. s.port.pass) network.ports.third.items) n) network.centres.third closed.nodes.third) }
    ensures fourth { IfOk result (λ closed. IfThere (λ live n. IsClosedWith ⟦<IrcRules<3> as Rules>⟧
        D.Reports N3.limits N3.opening applied_of (AreQuiet closed.carriers_met.items)
        (map (λ s. s.port.pass) network.ports.fourth.items) n) network.centres.fourth closed.nodes.fourth) }

    // The doors and reports of their stands are handed back in order.
    ensures editors { IfOk result (λ closed. closed.editors.items
        ≡ map (λ s. s.door.value) network.ports.editors.items) }
    ensures editors_met { IfOk result (λ closed. closed.editors_met.items
        ≡ map (λ s. s.report.value) network.ports.editors.items) }
    ensures callers { IfOk result (λ closed. closed.callers.items
        ≡ map (λ s. s.door.value) network.ports.first.items
        ++ (map (λ s. s.door.value) network.ports.second.items ++ (map
        (λ s. s.door.value) network.ports.third.items
        ++ map (λ s. s.door.value) network.ports.fourth.items))) }
    ensures callers_met { IfOk result (λ closed. closed.callers_met.items
        ≡ map (λ s. s.report.value) network.ports.first.items
        ++ (map (λ s. s.report.value) network.ports.second.items ++ (map
        (λ s. s.report.value) network.ports.third.items
        ++ map (λ s. s.report.value) network.ports.fourth.items))) }
{
    let OpenNetwork {
        update,
        centres,
        ports,
        carriers,
        update_passes,
        centre_passes,
    } = network;
    let AllPorts {
        first,
        second,
        third,
        fourth,
        editors,
    } = ports;
    let mut collected = Collected::new(alloc);
    let closed = close_centres(
        alloc,
        centres,
        first,
        second,
        third,
        fourth,
        carriers,
        centre_passes,
        &mut collected,
    )?;
    let update = close_update(alloc, update, editors, collected.passes, update_passes)?;
    Ok(ClosedNetwork {
        nodes: ClosedNodes {
            update: update.node,
            first: closed.first,
            second: closed.second,
            third: closed.third,
            fourth: closed.fourth,
        },
        callers: collected.doors,
        callers_met: collected.reports,
        editors: update.doors,
        editors_met: update.reports,
        carriers_met: collected.carriers,
    })
}
