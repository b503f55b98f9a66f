//! The server over whatever keeps its records and lets its connections in.
ghost use Rattle.std.specs.Prelude.{◌≡◌, ◌⊎◌, ◌<◌, ◌++◌, ℕ, true, false, List, All, IfSome, None, map, string_bytes, vec_len};
ghost use Rattle.pv_outside.specs.Counts.{Rose};
ghost use Rattle.pv_node.specs.Standing.{Stands};
ghost use Rattle.pv_ports.specs.Ends.{line_of};
ghost use Rattle.pv_service.specs.declared.caller_stand.TheConstants.{MAX_ACCEPTED};
ghost use Rattle.pv_centres.specs.Carried.{AreQuiet};
ghost use Rattle.pv_centres.specs.Ends.{SomeDoorEnd};
ghost use Rattle.pv_centres.specs.Served.{SomeDoorRose, GiveBackMore};
ghost use Rattle.pv_service.specs.Doors.{door_of};
ghost use Rattle.pv_serve.specs.Ended.{AreClosed, AreHandedBack, AreLeft, ServerEnded};
ghost use Rattle.pv_serve.specs.Kept.{StoresChargesFirst};
ghost use Rattle.pv_serve.specs.Left.{ServerLeft};
ghost use Rattle.pv_serve.specs.Options.{AskToServe, AskNoServe};
ghost use Rattle.pv_serve.specs.Serving.{ArePartsOf, EndsBy, HandsAllBack, HasServedAll, OnNodeFault, WasBegun, end_by_node, end_by_words, end_by_work, node_limits};
ghost use Rattle.pv_serve.specs.Unopened.{IsUnreadable, IsUnserved};
ghost use Rattle.pv_serve.specs.declared.options.ServeOptions.{ServeOptions};

use crate::options::{OptionFault, serve_options};
use crate::status::ServeStatus;
use pv_centres::{Ends, LeftNodes, Nodes, NotOpened, bring_rest, open_nodes};
use pv_edits::Record;
use pv_irc::{CentreRecord, IrcRules};
use pv_node::{NodeFault, Rules, image_stands_for_one_list};
use pv_outside::{Clock, Disk, Door, Limits, MAX_FRAMES, MAX_RECORDS, Sink, Source, Spawner};
use pv_ports::charges_are_stored_first;
use pv_running::{ClosedNetwork, Plan, serve_nodes};
use pv_service::Log;
use pv_udc::UdcRules;
use std::alloc::{AllocError, Global};
use std::sync::Wait;
use std::thread::Threads;

/// The limits of each node.
fn node_limits() -> Limits
    ensures { result ≡ node_limits }
{
    Limits {
        frames: MAX_FRAMES,
        records: MAX_RECORDS,
    }
}

/// How a server has ended, with what it was handed.
#[derive(Drop)]
pub struct Served<D: Disk + Drop, O: Door + Drop, E: Door + Drop> {
    /// How it ended.
    pub status: ServeStatus<D>,
    /// The disks of the nodes, in order. If memory ran out some may be missing, and so may doors.
    pub disks: Vec<D>,
    /// The callers' doors, in order.
    pub callers: Vec<O>,
    /// The editors' doors, in order.
    pub editors: Vec<E>,
}

/// Serves callers and editors, until each port has served as many connections as the words ask for.
///
/// There is a disk for each node, the Update Centre's first, a door for each port of callers, those of centre 0 first, and
/// one for each port of editors. `spawner` is asked once for leave to start all threads: one for each port and one for each
/// centre's carrier.
pub fn serve<
    D: Disk + Drop + Send,
    O: Door + Log + Drop + Send,
    E: Door + Log + Drop + Send,
    K: Clock + Sync,
    P: Spawner,
    R: Wait + Threads + Sync,
>(
    rt: &R,
    alloc: Global,
    words: &[String],
    disks: Vec<D>,
    callers: Vec<O>,
    editors: Vec<E>,
    clock: &K,
    spawner: &mut P,
) -> Served<D, O, E>
where
    O::Line: Send,
    E::Line: Send,
    // If the words ask for a server, these are its disks and its doors, which have counts to spare.
    requires parts { (options : ServeOptions) → AskToServe (map string_bytes words.now) options
        → ArePartsOf options (vec_len disks) (vec_len callers) (vec_len editors) }
    requires callers { All (λ door. O.accepted door < MAX_ACCEPTED) callers.items }
    requires editors { All (λ door. E.accepted door < MAX_ACCEPTED) editors.items }

    // The words are refused only if they ask for no server, and then everything is handed back as it was.
    ensures usage { result.status ≡ ServeStatus.Usage → AskNoServe (map string_bytes words.now) }
    ensures untouched { result.status ≡ ServeStatus.Usage
        → (result.disks ≡ disks) × (result.callers ≡ callers) × (result.editors ≡ editors) }

    // No thread is started only if leave was refused, and then too everything is handed back as it was.
    ensures no_start { result.status ≡ ServeStatus.NoStart
        → Rose (P.refused spawner.old) (P.refused spawner.new)
        × (result.disks ≡ disks) × (result.callers ≡ callers) × (result.editors ≡ editors) }

    // A node is not opened only if its disk is why. If the disk reports its bytes, they show the fault.
    ensures unopened { OnNodeFault (IsUnreadable D.Reports node_limits disks.items) result.status }

    // A door has failed only if the count of one that is handed back rose.
    ensures door_fault { result.status ≡ ServeStatus.DoorFault
        → SomeDoorRose (map (door_of O.lines O.accepted O.finished O.faults) callers.items) (map
        (door_of O.lines O.accepted O.finished O.faults) result.callers.items)
        ⊎ SomeDoorRose (map (door_of E.lines E.accepted E.finished E.faults) editors.items) (map (door_of E.lines E.accepted E.finished E.faults) result.editors.items) }

    // If it is done, or a node is full, each door has given back as many connections as the words ask for.
    ensures finished { HasServedAll result.status → (options : ServeOptions)
        × AskToServe (map string_bytes words.now) options
        × GiveBackMore options.calls (map (door_of O.lines O.accepted O.finished O.faults) callers.items)
        (map (door_of O.lines O.accepted O.finished O.faults) result.callers.items)
        × GiveBackMore options.calls (map (door_of E.lines E.accepted E.finished E.faults) editors.items)
        (map (door_of E.lines E.accepted E.finished E.faults) result.editors.items) }

    // Unless memory ran out all disks and doors are handed back, in order.
    ensures all { HandsAllBack result.status → (vec_len result.disks ≡ vec_len disks)
        × (vec_len result.callers ≡ vec_len callers) × (vec_len result.editors ≡ vec_len editors) }

    // If a node was not opened nothing has become of them. Else each node was served from its disk on, and each door by its port;
    // the closed list of a centre has each charge of each call, stored before the screen was sent.
    // A node is said to be full exactly if it is the first that is, and if all were served, what the nodes lacked is carried.
    // If a disk has failed as the nodes were closed, the disks are left as they were then.
    ensures ends { EndsBy (IsUnserved D.Reports disks.items result.disks.items callers result.callers
        editors result.editors)
        ((options : ServeOptions) × AskToServe (map string_bytes words.now) options
        × ServerEnded D.Reports node_limits (K.moment clock.now)
        (line_of ⟦<O::Line as Source>⟧ ⟦<O::Line as Sink>⟧)
        (line_of ⟦<E::Line as Source>⟧ ⟦<E::Line as Sink>⟧) options.ports options.calls disks.items result.disks.items
        (map (door_of O.lines O.accepted O.finished O.faults) callers.items) (map (door_of O.lines O.accepted O.finished O.faults) result.callers.items)
        (map (door_of E.lines E.accepted E.finished E.faults) editors.items) (map (door_of E.lines E.accepted E.finished E.faults) result.editors.items)
        result.status)
        ((options : ServeOptions) × AskToServe (map string_bytes words.now) options
        × ServerLeft D.Reports node_limits (K.moment clock.now)
        (line_of ⟦<O::Line as Source>⟧ ⟦<O::Line as Sink>⟧)
        (line_of ⟦<E::Line as Source>⟧ ⟦<E::Line as Sink>⟧) options.ports options.calls disks.items result.disks.items
        (map (door_of O.lines O.accepted O.finished O.faults) callers.items) (map (door_of O.lines O.accepted O.finished O.faults) result.callers.items)
        (map (door_of E.lines E.accepted E.finished E.faults) editors.items) (map (door_of E.lines E.accepted E.finished E.faults) result.editors.items)
        result.status)
        result.status }
{
    let options = match serve_options(alloc, words) {
        Ok(options) => options,
        Err(fault) => return Served::untouched(unasked(fault), disks, callers, editors),
    };
    images_stand_for_one_list::<D>();
    charges_are_stored_first_at_each_centre();
    let threads = callers.len() + editors.len() + options.centres as usize;
    if spawner.start(threads).is_err() {
        return Served::untouched(ServeStatus::NoStart, disks, callers, editors);
    }
    let limits = node_limits();
    let mut disks = disks;
    let nodes = match open_nodes(alloc, &mut disks, limits) {
        Ok(nodes) => nodes,
        Err(not) => return Served::untouched(unopened(not), disks, callers, editors),
    };
    let plan = Plan {
        ports: options.ports as usize,
        calls: options.calls,
    };
    match serve_nodes(rt, alloc, nodes, limits, callers, editors, plan, clock) {
        Ok(closed) => close(closed, disks),
        Err(AllocError) => Served::nothing(alloc, disks),
    }
}

impl<D: Disk + Drop, O: Door + Drop, E: Door + Drop> Served<D, O, E> {
    /// Nobody was served.
    fn untouched(
        status: ServeStatus<D>,
        disks: Vec<D>,
        callers: Vec<O>,
        editors: Vec<E>,
    ) -> Served<D, O, E>
        ensures { result ≡ record {
          status = status;
          disks = disks;
          callers = callers;
          editors = editors;
        } }
    {
        Served {
            status,
            disks,
            callers,
            editors,
        }
    }

    /// Memory ran out, and the nodes and doors are gone.
    fn nothing(alloc: Global, disks: Vec<D>) -> Served<D, O, E>
        ensures { result.status ≡ ServeStatus.Memory }
    {
        Served {
            status: ServeStatus::Memory,
            disks,
            callers: Vec::new(alloc),
            editors: Vec::new(alloc),
        }
    }
}

/// How a server ends whose words were refused.
fn unasked<D: Disk>(fault: OptionFault) -> ServeStatus<D>
    ensures { result ≡ end_by_words fault }
{
    match fault {
        OptionFault::Usage => ServeStatus::Usage,
        OptionFault::Memory => ServeStatus::Memory,
    }
}

/// How a server ends of which a node was not opened.
fn unopened<D: Disk>(not: NotOpened<D>) -> ServeStatus<D>
    ensures { result ≡ end_by_node not.node not.fault }
{
    let NotOpened { node, fault } = not;
    match fault {
        NodeFault::Memory => ServeStatus::Memory,
        NodeFault::Disk(failure) => ServeStatus::DiskFault(failure),
        fault => ServeStatus::Unopened { node, fault },
    }
}

/// Laws: a disk as it reads is one of its images, and an image of a node's disk stands for at most one list of records.
fn images_stand_for_one_list<D: Disk>()
    ensures left { (disk : D) → IfSome (D.reads disk) (D.may_leave disk) }
    ensures update { (image : List ℕ) (one other : List Record) → Stands ⟦<UdcRules as Rules>⟧ image one
        → Stands ⟦<UdcRules as Rules>⟧ image other → one ≡ other }
    ensures first { (image : List ℕ) (one other : List CentreRecord)
        → Stands ⟦<IrcRules<0> as Rules>⟧ image one
        → Stands ⟦<IrcRules<0> as Rules>⟧ image other → one ≡ other }
    ensures second { (image : List ℕ) (one other : List CentreRecord)
        → Stands ⟦<IrcRules<1> as Rules>⟧ image one
        → Stands ⟦<IrcRules<1> as Rules>⟧ image other → one ≡ other }
    ensures third { (image : List ℕ) (one other : List CentreRecord)
        → Stands ⟦<IrcRules<2> as Rules>⟧ image one
        → Stands ⟦<IrcRules<2> as Rules>⟧ image other → one ≡ other }

    // So it is of centre 3.
    ensures fourth { (image : List ℕ) (one other : List CentreRecord)
        → Stands ⟦<IrcRules<3> as Rules>⟧ image one
        → Stands ⟦<IrcRules<3> as Rules>⟧ image other → one ≡ other }
{
    image_stands_for_one_list::<UdcRules>();
    image_stands_for_one_list::<IrcRules<0>>();
    image_stands_for_one_list::<IrcRules<1>>();
    image_stands_for_one_list::<IrcRules<2>>();
    image_stands_for_one_list::<IrcRules<3>>();
}

/// Laws: each charge that a call had stored is among the records that its pass has seen, whichever its centre is.
fn charges_are_stored_first_at_each_centre()
    ensures first { StoresChargesFirst ⟦<IrcRules<0> as Rules>⟧ }
    ensures second { StoresChargesFirst ⟦<IrcRules<1> as Rules>⟧ }
    ensures third { StoresChargesFirst ⟦<IrcRules<2> as Rules>⟧ }
    ensures fourth { StoresChargesFirst ⟦<IrcRules<3> as Rules>⟧ }
{
    charges_are_stored_first::<0>();
    charges_are_stored_first::<1>();
    charges_are_stored_first::<2>();
    charges_are_stored_first::<3>();
}

/// Hands everything back of a network that was closed, once the nodes were brought what they lack of each other. If a disk
/// has failed as they were closed, their disks are handed back as they are left.
fn close<D: Disk + Drop, O: Door + Drop, E: Door + Drop>(
    closed: ClosedNetwork<D, O, E>,
    disks: Vec<D>,
) -> Served<D, O, E>
    ensures doors { (result.callers ≡ closed.callers) × (result.editors ≡ closed.editors) }
    ensures door { result.status ≡ ServeStatus.DoorFault
        → SomeDoorEnd closed.callers_met.items ⊎ SomeDoorEnd closed.editors_met.items }
    ensures quiet { HasServedAll result.status → All (λ report. report.fault ≡ None) closed.callers_met.items
        × All (λ report. report.fault ≡ None) closed.editors_met.items }
    ensures carriers { HasServedAll result.status → AreQuiet closed.carriers_met.items }

    // The server was begun and has ended, with the nodes' disks after those that were there.
    ensures ends { EndsBy ⊥ (AreClosed D.Reports result.status closed.nodes disks.items result.disks.items)
        (AreLeft closed.nodes disks.items result.disks.items) result.status }
    ensures begun { WasBegun result.status }
{
    let ClosedNetwork {
        nodes,
        callers,
        callers_met,
        editors,
        editors_met,
        carriers_met,
    } = closed;
    let ends = Ends::of(callers_met, editors_met, carriers_met);
    match nodes.into_nodes() {
        Ok(nodes) => {
            let (status, disks) = bring(nodes, ends, disks);
            Served {
                status,
                disks,
                callers,
                editors,
            }
        }
        Err(left) => {
            let (status, disks) = leave(left, ends, disks);
            Served {
                status,
                disks,
                callers,
                editors,
            }
        }
    }
}

/// Brings nodes what they lack of each other, and hands their disks back after those that are there. Returns how a server
/// ends whose threads met this.
fn bring<D: Disk + Drop>(nodes: Nodes<D>, ends: Ends<D>, disks: Vec<D>) -> (ServeStatus<D>, Vec<D>)
    ensures door { result.0 ≡ ServeStatus.DoorFault → ends.door ≡ true }
    ensures quiet { HasServedAll result.0 → (ends.memory ≡ false) × (ends.door ≡ false) × (ends.disk ≡ None) }
    ensures back { EndsBy ⊥ (AreHandedBack D.Reports result.0 nodes disks.items result.1.items) ⊥ result.0 }
    ensures begun { WasBegun result.0 }
{
    let mut nodes = nodes;
    let mut ends = ends;
    bring_rest(&mut nodes, &mut ends);
    let full = nodes.full(u64::from(MAX_RECORDS));
    let mut disks = disks;
    match nodes.give_back(&mut disks) {
        Ok(()) => (status_of(ends, full), disks),
        Err(AllocError) => (ServeStatus::Memory, disks),
    }
}

/// Hands disks back after those that are there, of which one has failed as the nodes were closed. Returns how a server ends
/// whose threads met this.
fn leave<D: Disk + Drop>(
    left: LeftNodes<D>,
    ends: Ends<D>,
    disks: Vec<D>,
) -> (ServeStatus<D>, Vec<D>)
    ensures left { EndsBy ⊥ ⊥ ((left.seen_is_stored ≡ true)
        × (result.1.items ≡ disks.items ++ left.disks)) result.0 }
    ensures begun { WasBegun result.0 }
{
    let LeftNodes {
        failure,
        seen_is_stored,
        disks: nodes_disks,
    } = left;
    let mut ends = ends;
    ends.add_left(failure, seen_is_stored);
    let mut disks = disks;
    match nodes_disks.give_back(&mut disks) {
        Ok(()) => (status_of(ends, None), disks),
        Err(AllocError) => (ServeStatus::Memory, disks),
    }
}

/// How a server ends whose threads met this, with the first node that is full.
fn status_of<D: Disk>(ends: Ends<D>, full: Option<u8>) -> ServeStatus<D>
    ensures { result ≡ end_by_work ends.memory ends.door ends.disk full }
{
    if ends.memory {
        return ServeStatus::Memory;
    }
    match ends.disk {
        Some(failure) => ServeStatus::DiskFault(failure),
        None if ends.door => ServeStatus::DoorFault,
        None => match full {
            Some(node) => ServeStatus::Full {
                node,
                count: u64::from(MAX_RECORDS),
            },
            None => ServeStatus::Done,
        },
    }
}
