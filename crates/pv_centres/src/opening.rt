//! Opens the nodes of a network from their disks.
ghost use Rattle.std.specs.Prelude.{◌≡◌, ◌+◌, ◌++◌, ◌≤◌, ◌<◌, [], None, Some, vec_len, vec_capacity, option_to_list, slice_get, IfOk, OnOk, IfErr, IfSome};
ghost use Rattle.pv_node.specs.Opening.{IsOpenFault, FaultShows};
ghost use Rattle.pv_node.specs.Trail.{trail_records};
ghost use Rattle.pv_centres.specs.Opening.{IsReady, IsOpenedOver, AreInOrder, DiskPlaces, KeepsDisk, KeepsDisks, all_disks, disk_at, count_of, centre_count};
ghost use Rattle.pv_centres.specs.Parts.{IfThere};

use crate::nodes::OpenedNodes;
use pv_irc::IrcRules;
use pv_node::{Node, NodeFault, Opened, Rules};
use pv_outside::{Disk, Limits};
use pv_udc::UdcRules;
use std::alloc::Global;

/// Why a network was not opened.
#[derive(Drop)]
pub struct NotOpened<D: Disk> {
    /// Which node was not opened: 0 is the Update Centre, and c + 1 is centre c.
    pub node: u8,
    /// Why not.
    pub fault: NodeFault<D>,
}

/// A node's disk, and then the node that was opened over it. Of a node that there is not it has neither.
#[derive(Drop)]
struct Place<R: Rules, D: Disk + Drop> {
    disk: Option<D>,
    opened: Option<Opened<R, D>>,
}

impl<R: Rules, D: Disk + Drop> Place<R, D> {
    /// A place with the last of these disks, if there are at least this many.
    fn of_last(disks: &mut Vec<D>, least: usize) -> Place<R, D>
        requires { 0 < least }
        ensures there { least ≤ vec_len disks.old → count_of result.disk ≡ 1 }
        ensures lacking { vec_len disks.old < least → result.disk ≡ None }
        ensures unopened { result.opened ≡ None }
        ensures count { vec_len disks.new + count_of result.disk ≡ vec_len disks.old }

        // No disk is lost, and none changes its place.
        ensures disks { disks.old.items ≡ disks.new.items ++ option_to_list result.disk }
        ensures room { vec_capacity disks.new ≡ vec_capacity disks.old }
    {
        let disk = if disks.len() >= least {
            disks.pop()
        } else {
            None
        };
        Place { disk, opened: None }
    }

    /// Opens the node over the disk. An empty place stays empty.
    fn open(&mut self, alloc: Global, node: u8, limits: Limits) -> Result<(), NotOpened<D>>
        requires { self.old.opened ≡ None }
        ensures opened { OnOk result ((self.new.disk ≡ None)
            × (count_of self.new.opened ≡ count_of self.old.disk)) }
        ensures ready { OnOk result (IfSome self.new.opened
            (λ o. IsReady ⟦<R as Rules>⟧ D.Reports (trail_records o.trail.items) limits o.node)) }
        ensures over { OnOk result (IfThere (λ disk o. IsOpenedOver ⟦<R as Rules>⟧ D.Reports disk o.node)
            self.old.disk self.new.opened) }
        ensures kept { IfThere (KeepsDisk D.Reports) self.old.disk (disk_at
            (λ o. o.node.journal.disk) self.new.disk self.new.opened) }

        // If it is not opened, its disk is why.
        ensures fault { IfErr result (λ not. (not.node ≡ node) × IsOpenFault limits not.fault) }
        ensures there { IfErr result (λ not. count_of self.old.disk ≡ 1) }
        ensures shown { IfErr result (λ not. IfSome self.old.disk (λ disk. IfSome (D.reads disk)
            (λ text. FaultShows ⟦<R as Rules>⟧ limits text not.fault))) }
    {
        let Some(disk) = self.disk.take() else {
            return Ok(());
        };
        match Node::open_noted(alloc, disk, limits) {
            Ok(opened) => {
                self.opened = Some(opened);
                Ok(())
            }
            Err((fault, disk)) => {
                self.disk = Some(disk);
                Err(NotOpened { node, fault })
            }
        }
    }

    /// Hands the disk back. An empty place has none.
    fn give_back(self, disks: &mut Vec<D>)
        requires { vec_len disks.old + count_of (disk_at (λ o. o.node.journal.disk) self.disk self.opened)
            ≤ vec_capacity disks.old }
        ensures count { vec_len disks.new ≡ vec_len disks.old + count_of (disk_at
            (λ o. o.node.journal.disk) self.disk self.opened) }
        ensures disks { disks.new.items ≡ disks.old.items ++ option_to_list (disk_at
            (λ o. o.node.journal.disk) self.disk self.opened) }
        ensures room { vec_capacity disks.new ≡ vec_capacity disks.old }
    {
        let Place { disk, opened } = self;
        push_if_there(disks, disk_of(disk, opened));
    }
}

/// A place's disk, if it has one: that of its node, once this is opened.
fn disk_of<R: Rules, D: Disk + Drop>(disk: Option<D>, opened: Option<Opened<R, D>>) -> Option<D>
    ensures { result ≡ disk_at (λ o. o.node.journal.disk) disk opened }
{
    match opened {
        Some(Opened { node, trail: _ }) => Some(node.into_disk()),
        None => disk,
    }
}

/// Appends a disk, or nothing.
fn push_if_there<D: Drop>(disks: &mut Vec<D>, disk: Option<D>)
    requires { vec_len disks.old + count_of disk ≤ vec_capacity disks.old }
    ensures count { vec_len disks.new ≡ vec_len disks.old + count_of disk }
    ensures disks { disks.new.items ≡ disks.old.items ++ option_to_list disk }
    ensures room { vec_capacity disks.new ≡ vec_capacity disks.old }
{
    match disk {
        Some(disk) => disks.push_reserved(disk),
        None => {}
    }
}

/// The places of a network's nodes.
#[derive(Drop)]
struct Places<D: Disk + Drop> {
    update: Place<UdcRules, D>,
    first: Place<IrcRules<0>, D>,
    second: Place<IrcRules<1>, D>,
    third: Place<IrcRules<2>, D>,
    fourth: Place<IrcRules<3>, D>,
}

impl<D: Disk + Drop> Places<D> {
    /// The places of these disks, the Update Centre's first.
    fn of(disks: &mut Vec<D>) -> Places<D>
        requires { (2 ≤ vec_len disks.old) × (vec_len disks.old ≤ 5) }
        ensures update { count_of result.update.disk ≡ 1 }
        ensures unopened { (result.update.opened ≡ None) × (result.first.opened ≡ None)
            × (result.second.opened ≡ None)
            × (result.third.opened ≡ None) × (result.fourth.opened ≡ None) }
        ensures count { count_of result.first.disk + count_of result.second.disk + count_of result.third.disk
            + count_of result.fourth.disk + 1 ≡ vec_len disks.old }
        ensures order { (count_of result.second.disk ≤ count_of result.first.disk)
            × (count_of result.third.disk ≤ count_of result.second.disk)
            × (count_of result.fourth.disk ≤ count_of result.third.disk) }

        // No disk is lost, and none changes its place.
        ensures disks { disks.old.items ≡ option_to_list result.update.disk ++
            (option_to_list result.first.disk ++ (option_to_list result.second.disk ++ (option_to_list result.third.disk ++ (option_to_list result.fourth.disk)))) }
        ensures empty { disks.new.items ≡ [] }
        ensures room { vec_capacity disks.new ≡ vec_capacity disks.old }
    {
        let fourth = Place::of_last(disks, 5);
        let third = Place::of_last(disks, 4);
        let second = Place::of_last(disks, 3);
        let first = Place::of_last(disks, 2);
        let update = Place::of_last(disks, 1);
        Places {
            update,
            first,
            second,
            third,
            fourth,
        }
    }

    /// Opens all nodes, in order, until one is not opened.
    fn open(&mut self, alloc: Global, limits: Limits) -> Result<(), NotOpened<D>>
        requires order { (count_of self.old.second.disk ≤ count_of self.old.first.disk)
            × (count_of self.old.third.disk ≤ count_of self.old.second.disk)
            × (count_of self.old.fourth.disk ≤ count_of self.old.third.disk) }
        requires unopened { (self.old.update.opened ≡ None) × (self.old.first.opened ≡ None)
            × (self.old.second.opened ≡ None)
            × (self.old.third.opened ≡ None) × (self.old.fourth.opened ≡ None) }
        ensures counts { OnOk result ((count_of self.new.update.opened ≡ count_of self.old.update.disk)
            × (count_of self.new.first.opened ≡ count_of self.old.first.disk)
            × (count_of self.new.second.opened ≡ count_of self.old.second.disk)
            × (count_of self.new.third.opened ≡ count_of self.old.third.disk)
            × (count_of self.new.fourth.opened ≡ count_of self.old.fourth.disk)) }
        ensures update { OnOk result (IfSome self.new.update.opened
            (λ o. IsReady ⟦<UdcRules as Rules>⟧ D.Reports (trail_records o.trail.items) limits o.node)) }
        ensures first { OnOk result (IfSome self.new.first.opened
            (λ o. IsReady ⟦<IrcRules<0> as Rules>⟧ D.Reports (trail_records o.trail.items) limits o.node)) }

        // The later centres are ready, too.
        ensures second { OnOk result (IfSome self.new.second.opened
            (λ o. IsReady ⟦<IrcRules<1> as Rules>⟧ D.Reports (trail_records o.trail.items) limits o.node)) }
        ensures third { OnOk result (IfSome self.new.third.opened
            (λ o. IsReady ⟦<IrcRules<2> as Rules>⟧ D.Reports (trail_records o.trail.items) limits o.node)) }
        ensures fourth { OnOk result (IfSome self.new.fourth.opened
            (λ o. IsReady ⟦<IrcRules<3> as Rules>⟧ D.Reports (trail_records o.trail.items) limits o.node)) }
        ensures update_over { OnOk result (IfThere (λ disk o. IsOpenedOver ⟦<UdcRules as Rules>⟧ D.Reports
            disk o.node)
            self.old.update.disk self.new.update.opened) }
        ensures first_over { OnOk result (IfThere (λ disk o. IsOpenedOver ⟦<IrcRules<0> as Rules>⟧
            D.Reports disk o.node)
            self.old.first.disk self.new.first.opened) }

        // Each of the later centres is opened over the disk of its place.
        ensures second_over { OnOk result (IfThere (λ disk o. IsOpenedOver ⟦<IrcRules<1> as Rules>⟧
            D.Reports disk o.node)
            self.old.second.disk self.new.second.opened) }
        ensures third_over { OnOk result (IfThere (λ disk o. IsOpenedOver ⟦<IrcRules<2> as Rules>⟧
            D.Reports disk o.node)
            self.old.third.disk self.new.third.opened) }
        ensures fourth_over { OnOk result (IfThere (λ disk o. IsOpenedOver ⟦<IrcRules<3> as Rules>⟧
            D.Reports disk o.node)
            self.old.fourth.disk self.new.fourth.opened) }
        ensures update_kept { IfThere (KeepsDisk D.Reports) self.old.update.disk (disk_at
            (λ o. o.node.journal.disk) self.new.update.disk self.new.update.opened) }
        ensures first_kept { IfThere (KeepsDisk D.Reports) self.old.first.disk (disk_at
            (λ o. o.node.journal.disk) self.new.first.disk self.new.first.opened) }

        // A crash leaves of the later centres' disks, too, only what it might have left before.
        ensures second_kept { IfThere (KeepsDisk D.Reports) self.old.second.disk (disk_at
            (λ o. o.node.journal.disk) self.new.second.disk self.new.second.opened) }
        ensures third_kept { IfThere (KeepsDisk D.Reports) self.old.third.disk (disk_at
            (λ o. o.node.journal.disk) self.new.third.disk self.new.third.opened) }
        ensures fourth_kept { IfThere (KeepsDisk D.Reports) self.old.fourth.disk (disk_at
            (λ o. o.node.journal.disk) self.new.fourth.disk self.new.fourth.opened) }
        ensures fault { IfErr result (λ not. IsOpenFault limits not.fault) }
        ensures not_node { IfErr result (λ not. not.node ≤ count_of self.old.first.disk + count_of
            self.old.second.disk
            + count_of self.old.third.disk + count_of self.old.fourth.disk) }

        // The bytes of the node that was not opened show the fault.
        ensures update_shown { IfErr result (λ not. not.node ≡ 0
            → IfSome self.old.update.disk (λ disk. IfSome (D.reads disk)
            (λ text. FaultShows ⟦<UdcRules as Rules>⟧ limits text not.fault))) }
        ensures first_shown { IfErr result (λ not. not.node ≡ 1
            → IfSome self.old.first.disk (λ disk. IfSome (D.reads disk)
            (λ text. FaultShows ⟦<IrcRules<0> as Rules>⟧ limits text not.fault))) }
        ensures second_shown { IfErr result (λ not. not.node ≡ 2
            → IfSome self.old.second.disk (λ disk. IfSome (D.reads disk)
            (λ text. FaultShows ⟦<IrcRules<1> as Rules>⟧ limits text not.fault))) }
        ensures third_shown { IfErr result (λ not. not.node ≡ 3
            → IfSome self.old.third.disk (λ disk. IfSome (D.reads disk)
            (λ text. FaultShows ⟦<IrcRules<2> as Rules>⟧ limits text not.fault))) }
        ensures fourth_shown { IfErr result (λ not. not.node ≡ 4
            → IfSome self.old.fourth.disk (λ disk. IfSome (D.reads disk)
            (λ text. FaultShows ⟦<IrcRules<3> as Rules>⟧ limits text not.fault))) }
    {
        self.update.open(alloc, 0, limits)?;
        self.first.open(alloc, 1, limits)?;
        self.second.open(alloc, 2, limits)?;
        self.third.open(alloc, 3, limits)?;
        self.fourth.open(alloc, 4, limits)
    }

    /// Hands all disks back, in order.
    fn give_back(self, disks: &mut Vec<D>)
        requires { vec_len disks.old + count_of (disk_at (λ o. o.node.journal.disk) self.update.disk
            self.update.opened) + count_of (disk_at (λ o. o.node.journal.disk) self.first.disk
            self.first.opened) + count_of (disk_at (λ o. o.node.journal.disk) self.second.disk
            self.second.opened) + count_of (disk_at (λ o. o.node.journal.disk) self.third.disk
            self.third.opened) + count_of (disk_at (λ o. o.node.journal.disk) self.fourth.disk
            self.fourth.opened) ≤ vec_capacity disks.old }
        ensures { disks.new.items ≡ disks.old.items ++ (option_to_list (disk_at
            (λ o. o.node.journal.disk) self.update.disk self.update.opened) ++ (option_to_list (disk_at
            (λ o. o.node.journal.disk) self.first.disk self.first.opened) ++ (option_to_list (disk_at
            (λ o. o.node.journal.disk) self.second.disk self.second.opened) ++ (option_to_list (disk_at
            (λ o. o.node.journal.disk) self.third.disk self.third.opened) ++ (option_to_list (disk_at
            (λ o. o.node.journal.disk) self.fourth.disk self.fourth.opened)))))) }
    {
        self.update.give_back(disks);
        self.first.give_back(disks);
        self.second.give_back(disks);
        self.third.give_back(disks);
        self.fourth.give_back(disks);
    }
}

/// Opens the nodes of a network, the Update Centre's disk first. If one is not opened, all disks are handed back in order.
pub fn open_nodes<D: Disk + Drop>(
    alloc: Global,
    disks: &mut Vec<D>,
    limits: Limits,
) -> Result<OpenedNodes<D>, NotOpened<D>>
    requires { (2 ≤ vec_len disks.old) × (vec_len disks.old ≤ 5) }
    ensures count { IfOk result (λ nodes. centre_count nodes + 1 ≡ vec_len disks.old) }
    ensures order { IfOk result AreInOrder }
    ensures taken { IfOk result (λ nodes. disks.new.items ≡ []) }

    // Each node is opened over the disk of its place, and is ready.
    ensures update { IfOk result (λ nodes. IsReady ⟦<UdcRules as Rules>⟧ D.Reports
        (trail_records nodes.update.trail.items) limits nodes.update.node) }
    ensures first { IfOk result (λ nodes. IfSome nodes.first
        (λ o. IsReady ⟦<IrcRules<0> as Rules>⟧ D.Reports (trail_records o.trail.items) limits o.node)) }
    ensures second { IfOk result (λ nodes. IfSome nodes.second
        (λ o. IsReady ⟦<IrcRules<1> as Rules>⟧ D.Reports (trail_records o.trail.items) limits o.node)) }
    ensures third { IfOk result (λ nodes. IfSome nodes.third
        (λ o. IsReady ⟦<IrcRules<2> as Rules>⟧ D.Reports (trail_records o.trail.items) limits o.node)) }
    ensures fourth { IfOk result (λ nodes. IfSome nodes.fourth
        (λ o. IsReady ⟦<IrcRules<3> as Rules>⟧ D.Reports (trail_records o.trail.items) limits o.node)) }

    // The places are those of the disks, in order.
    ensures over { IfOk result (λ nodes. (at : DiskPlaces D) × (disks.old.items ≡ all_disks at)
        × IfThere (λ disk o. IsOpenedOver ⟦<UdcRules as Rules>⟧ D.Reports disk o.node) at.update
        (Some nodes.update)
        × IfThere (λ disk o. IsOpenedOver ⟦<IrcRules<0> as Rules>⟧ D.Reports disk o.node) at.first nodes.first
        × IfThere (λ disk o. IsOpenedOver ⟦<IrcRules<1> as Rules>⟧ D.Reports disk o.node) at.second
        nodes.second
        × IfThere (λ disk o. IsOpenedOver ⟦<IrcRules<2> as Rules>⟧ D.Reports disk o.node) at.third nodes.third
        × IfThere (λ disk o. IsOpenedOver ⟦<IrcRules<3> as Rules>⟧ D.Reports disk o.node) at.fourth
        nodes.fourth) }

    // If one is not opened, its bytes show why, and all disks are there again, in order.
    ensures fault { IfErr result (λ not. IsOpenFault limits not.fault) }
    ensures not_node { IfErr result (λ not. not.node < vec_len disks.old) }
    ensures update_shown { IfErr result (λ not. not.node ≡ 0
        → IfSome (slice_get disks.old.items 0) (λ disk. IfSome (D.reads disk)
        (λ text. FaultShows ⟦<UdcRules as Rules>⟧ limits text not.fault))) }
    ensures first_shown { IfErr result (λ not. not.node ≡ 1
        → IfSome (slice_get disks.old.items 1) (λ disk. IfSome (D.reads disk)
        (λ text. FaultShows ⟦<IrcRules<0> as Rules>⟧ limits text not.fault))) }
    ensures second_shown { IfErr result (λ not. not.node ≡ 2
        → IfSome (slice_get disks.old.items 2) (λ disk. IfSome (D.reads disk)
        (λ text. FaultShows ⟦<IrcRules<1> as Rules>⟧ limits text not.fault))) }

    // So do the later centres' bytes. All disks are there again.
    ensures third_shown { IfErr result (λ not. not.node ≡ 3
        → IfSome (slice_get disks.old.items 3) (λ disk. IfSome (D.reads disk)
        (λ text. FaultShows ⟦<IrcRules<2> as Rules>⟧ limits text not.fault))) }
    ensures fourth_shown { IfErr result (λ not. not.node ≡ 4
        → IfSome (slice_get disks.old.items 4) (λ disk. IfSome (D.reads disk)
        (λ text. FaultShows ⟦<IrcRules<3> as Rules>⟧ limits text not.fault))) }
    ensures handed_back { IfErr result (λ not. KeepsDisks D.Reports disks.old.items disks.new.items) }
{
    let mut places = Places::of(disks);
    match places.open(alloc, limits) {
        Ok(()) => {
            let Places {
                update,
                first,
                second,
                third,
                fourth,
            } = places;
            Ok(OpenedNodes {
                update: update.opened.unwrap(),
                first: first.opened,
                second: second.opened,
                third: third.opened,
                fourth: fourth.opened,
            })
        }
        Err(not) => {
            places.give_back(disks);
            Err(not)
        }
    }
}
