//! The opening of a network's nodes for its ports and carriers.
//!
//! Where it fails, what is there already is dropped by name. Left to fall out of scope it is dropped field by field, and a
//! proof goes through each of them.
ghost use Rattle.std.specs.Prelude.{◌≡◌, ◌+◌, ◌*◌, ◌++◌, ◌<◌, ◌≤◌, All, length, map, vec_len, IfOk, IfSome, IsSome, None};
ghost use Rattle.std.specs.Vec.Iter.{into_iter_items};
ghost use Rattle.pv_edits.specs.Taken.{IsCentre};
ghost use Rattle.pv_live.specs.Opening.{IsPassCount};
ghost use Rattle.pv_node.specs.Standing.{StandsFor};
ghost use Rattle.pv_service.specs.declared.caller_stand.TheConstants.{MAX_ACCEPTED};
ghost use Rattle.pv_centres.specs.Opening.{IsReady, weigh, count_of, centre_count};
ghost use Rattle.pv_centres.specs.Served.{IsNewPass, IsFreshRow};

use pv_centres::{
    AllCarriers, AllPorts, OpenCentre, OpenedNodes, next_doors, open_centre, row_of_editors,
};
use pv_edits::Record;
use pv_group::{GroupRun, GroupStart, Live, open_live};
use pv_irc::{CentreRecord, IrcRules};
use pv_live::Pass;
use pv_node::{Node, Opened, Rules};
use pv_outside::{Disk, Door};
use pv_service::EditorStand;
use pv_udc::UdcRules;
use std::alloc::{AllocError, Global};
use std::mem;
use std::sync::Wait;
use std::vec::IntoIter;

/// How many ports a network has, and how many connections each serves.
#[derive(Clone, Copy, Debug)]
pub struct Plan {
    /// How many callers' ports each centre has.
    pub ports: usize,
    /// How many connections each port serves.
    pub calls: u32,
}

/// The live nodes of a network's centres. Of a centre that the network does not have there is none.
#[derive(Drop)]
pub(crate) struct Lives<
    N0: GroupRun<CentreRecord>,
    N1: GroupRun<CentreRecord>,
    N2: GroupRun<CentreRecord>,
    N3: GroupRun<CentreRecord>,
    D: Disk + Drop,
    H: Wait + Drop,
> {
    /// Centre 0.
    pub first: Option<Box<Live<IrcRules<0>, D, N0, H>>>,
    /// Centre 1.
    pub second: Option<Box<Live<IrcRules<1>, D, N1, H>>>,
    /// Centre 2.
    pub third: Option<Box<Live<IrcRules<2>, D, N2, H>>>,
    /// Centre 3.
    pub fourth: Option<Box<Live<IrcRules<3>, D, N3, H>>>,
}

/// All nodes of a network at work. Of a centre that the network does not have there is none, and it has no stands.
#[derive(Drop)]
pub(crate) struct OpenNetwork<
    U: GroupRun<Record>,
    N0: GroupRun<CentreRecord>,
    N1: GroupRun<CentreRecord>,
    N2: GroupRun<CentreRecord>,
    N3: GroupRun<CentreRecord>,
    D: Disk + Drop,
    O: Door + Drop,
    E: Door + Drop,
    H: Wait + Drop,
> {
    /// The Update Centre, under a lock.
    pub update: Box<Live<UdcRules, D, U, H>>,
    /// The centres.
    pub centres: Lives<N0, N1, N2, N3, D, H>,
    /// The stands of all ports.
    pub ports: AllPorts<U, N0, N1, N2, N3, D, O, E>,
    /// The stands of all carriers.
    pub carriers: AllCarriers<U, N0, N1, N2, N3, D>,
    /// How many passes the Update Centre has.
    pub update_passes: usize,
    /// How many passes each centre has.
    pub centre_passes: usize,
}

/// What the runs of a network's nodes are named by.
#[derive(Drop)]
pub(crate) struct Starts {
    pub update: GroupStart<Record>,
    pub first: GroupStart<CentreRecord>,
    pub second: GroupStart<CentreRecord>,
    pub third: GroupStart<CentreRecord>,
    pub fourth: GroupStart<CentreRecord>,
}

impl Starts {
    /// What runs of these many passes are named by: of the Update Centre, and of each centre.
    pub fn new(update: u64, centre: u64) -> Starts
        ensures update { result.update.passes ≡ update }
        ensures centres { (result.first.passes ≡ centre) × (result.second.passes ≡ centre)
            × (result.third.passes ≡ centre) × (result.fourth.passes ≡ centre) }
    {
        Starts {
            update: GroupStart::new(update),
            first: GroupStart::new(centre),
            second: GroupStart::new(centre),
            third: GroupStart::new(centre),
            fourth: GroupStart::new(centre),
        }
    }
}

/// Opens a centre for the next doors.
fn open_next<
    const C: u8,
    U: GroupRun<Record>,
    N: GroupRun<CentreRecord>,
    D: Disk + Drop,
    O: Door + Drop,
    H: Wait + Drop,
>(
    rt: H,
    alloc: Global,
    node: Node<IrcRules<C>, D>,
    start: GroupStart<CentreRecord>,
    udc: Pass<UdcRules, U>,
    doors: &mut IntoIter<O>,
    plan: Plan,
) -> Result<OpenCentre<C, U, N, D, O, H>, AllocError>
    requires centre { IsCentre C }
    requires stands { StandsFor ⟦<IrcRules<C> as Rules>⟧ D.Reports node N.opening }
    requires at_rest { node.hand ≡ None }
    requires limits { node.state.limits ≡ N.limits }
    requires doors { plan.ports ≤ length (into_iter_items doors.old) }

    // The doors have counts to spare. The Update Centre's pass is new, and the run is named by its start.
    requires fresh { All (λ d. O.accepted d < MAX_ACCEPTED) (into_iter_items doors.old) }
    requires passes { (plan.ports + 1 ≡ N.passes) × IsPassCount (plan.ports + 1) }
    requires new_udc { IsNewPass udc }
    requires start { start ≡ record {
      book = N.book;
      told = N.told;
      failed = N.failed;
      passes = N.passes;
      taken = N.taken;
    } }

    // It is there, with a stand for each of its doors, and the other doors are left.
    ensures there { IfOk result (λ centre. IsSome centre.live) }
    ensures fresh { IfOk result (λ centre. IsFreshRow O.accepted (λ s. s.port.pass) (λ s. s.door.value)
        (λ s. s.calls) plan.ports plan.calls centre.callers.items) }
    ensures doors { IfOk result (λ centre. into_iter_items doors.old
        ≡ map (λ s. s.door.value) centre.callers.items ++ into_iter_items doors.new) }
    ensures waiting { All (λ d. O.accepted d < MAX_ACCEPTED) (into_iter_items doors.new) }
{
    let next = match next_doors(alloc, doors, plan.ports) {
        Ok(next) => next,
        Err(error) => {
            mem::drop(node);
            mem::drop(start);
            mem::drop(udc);
            mem::drop(rt);
            return Err(error);
        }
    };
    let centre = open_centre(rt, alloc, node, start, udc, next, plan.calls)?;
    Ok(centre)
}

/// Opens a centre, if the network has it, for the next doors.
fn open_if_there<
    const C: u8,
    U: GroupRun<Record>,
    N: GroupRun<CentreRecord>,
    D: Disk + Drop,
    O: Door + Drop,
    H: Wait + Drop,
>(
    rt: H,
    alloc: Global,
    opened: Option<Opened<IrcRules<C>, D>>,
    start: GroupStart<CentreRecord>,
    udc: &mut Vec<Pass<UdcRules, U>>,
    doors: &mut IntoIter<O>,
    plan: Plan,
) -> Result<OpenCentre<C, U, N, D, O, H>, AllocError>
    requires centre { IsCentre C }
    requires ready { IfSome opened
        (λ o. IsReady ⟦<IrcRules<C> as Rules>⟧ D.Reports N.opening N.limits o.node) }
    requires udc { count_of opened ≤ vec_len udc.old }
    requires new_udc { All IsNewPass udc.old.items }
    requires doors { weigh (λ o. plan.ports) opened ≤ length (into_iter_items doors.old) }

    // The doors have counts to spare. Its run has a pass for each port and one for its carrier, and is named by its start.
    requires fresh { All (λ d. O.accepted d < MAX_ACCEPTED) (into_iter_items doors.old) }
    requires passes { (plan.ports + 1 ≡ N.passes) × IsPassCount (plan.ports + 1) }
    requires start { start ≡ record {
      book = N.book;
      told = N.told;
      failed = N.failed;
      passes = N.passes;
      taken = N.taken;
    } }

    // It is open exactly if the network has it, and each of its stands is new.
    ensures there { IfOk result (λ centre. count_of centre.live ≡ count_of opened) }
    ensures fresh { IfOk result (λ centre. IsFreshRow O.accepted (λ s. s.port.pass) (λ s. s.door.value)
        (λ s. s.calls) (weigh (λ o. plan.ports) opened) plan.calls centre.callers.items) }
    ensures udc { IfOk result (λ centre. vec_len udc.new + count_of opened ≡ vec_len udc.old) }
    ensures new_udc { All IsNewPass udc.new.items }
    ensures doors { IfOk result (λ centre. into_iter_items doors.old
        ≡ map (λ s. s.door.value) centre.callers.items ++ into_iter_items doors.new) }

    // The other doors are left.
    ensures left { IfOk result (λ centre. length (into_iter_items doors.new) + weigh (λ o. plan.ports) opened
        ≡ length (into_iter_items doors.old)) }
    ensures waiting { All (λ d. O.accepted d < MAX_ACCEPTED) (into_iter_items doors.new) }
{
    let Some(opened) = opened else {
        return Ok(OpenCentre {
            live: None,
            callers: Vec::new(alloc),
            carrier: None,
        });
    };
    let pass = udc.pop().unwrap();
    let centre = open_next(rt, alloc, opened.node, start, pass, doors, plan)?;
    Ok(centre)
}

/// Two centres at work.
#[derive(Drop)]
struct OpenPair<
    const A: u8,
    const B: u8,
    U: GroupRun<Record>,
    NA: GroupRun<CentreRecord>,
    NB: GroupRun<CentreRecord>,
    D: Disk + Drop,
    O: Door + Drop,
    H: Wait + Drop,
> {
    one: OpenCentre<A, U, NA, D, O, H>,
    other: OpenCentre<B, U, NB, D, O, H>,
}

/// Opens two centres, as far as the network has them, for the next doors.
fn open_pair<
    const A: u8,
    const B: u8,
    U: GroupRun<Record>,
    NA: GroupRun<CentreRecord>,
    NB: GroupRun<CentreRecord>,
    D: Disk + Drop,
    O: Door + Drop,
    H: Wait + Copy + Drop,
>(
    rt: H,
    alloc: Global,
    one: Option<Opened<IrcRules<A>, D>>,
    one_start: GroupStart<CentreRecord>,
    other: Option<Opened<IrcRules<B>, D>>,
    other_start: GroupStart<CentreRecord>,
    udc: &mut Vec<Pass<UdcRules, U>>,
    doors: &mut IntoIter<O>,
    plan: Plan,
) -> Result<OpenPair<A, B, U, NA, NB, D, O, H>, AllocError>
    requires centres { IsCentre A × IsCentre B }
    requires one { IfSome one
        (λ o. IsReady ⟦<IrcRules<A> as Rules>⟧ D.Reports NA.opening NA.limits o.node) }
    requires other { IfSome other
        (λ o. IsReady ⟦<IrcRules<B> as Rules>⟧ D.Reports NB.opening NB.limits o.node) }
    requires one_start { one_start ≡ record {
      book = NA.book;
      told = NA.told;
      failed = NA.failed;
      passes = NA.passes;
      taken = NA.taken;
    } }
    requires other_start { other_start ≡ record {
      book = NB.book;
      told = NB.told;
      failed = NB.failed;
      passes = NB.passes;
      taken = NB.taken;
    } }

    // There are passes and doors enough for both.
    requires passes { IsPassCount (plan.ports + 1) × (plan.ports + 1 ≡ NA.passes)
        × (plan.ports + 1 ≡ NB.passes) }
    requires udc { count_of one + count_of other ≤ vec_len udc.old }
    requires new_udc { All IsNewPass udc.old.items }
    requires doors { weigh (λ o. plan.ports) one + weigh (λ o. plan.ports) other ≤ length
        (into_iter_items doors.old) }
    requires fresh { All (λ d. O.accepted d < MAX_ACCEPTED) (into_iter_items doors.old) }

    // Each is open exactly if the network has it, and each of its stands is new.
    ensures one { IfOk result (λ n. IsFreshRow O.accepted (λ s. s.port.pass) (λ s. s.door.value)
        (λ s. s.calls) (weigh (λ o. plan.ports) one) plan.calls n.one.callers.items) }
    ensures other { IfOk result (λ n. IsFreshRow O.accepted (λ s. s.port.pass) (λ s. s.door.value)
        (λ s. s.calls) (weigh (λ o. plan.ports) other) plan.calls n.other.callers.items) }
    ensures one_there { IfOk result (λ n. count_of n.one.live ≡ count_of one) }
    ensures other_there { IfOk result (λ n. count_of n.other.live ≡ count_of other) }
    ensures udc { IfOk result (λ n. vec_len udc.new + (count_of one + count_of other) ≡ vec_len udc.old) }

    // The other passes and doors are left.
    ensures new_udc { All IsNewPass udc.new.items }
    ensures doors { IfOk result (λ n. into_iter_items doors.old ≡ map (λ s. s.door.value) n.one.callers.items
        ++ (map (λ s. s.door.value) n.other.callers.items ++ into_iter_items doors.new)) }
    ensures left { IfOk result (λ n. length (into_iter_items doors.new)
        + (weigh (λ o. plan.ports) one + weigh (λ o. plan.ports) other)
        ≡ length (into_iter_items doors.old)) }
    ensures waiting { All (λ d. O.accepted d < MAX_ACCEPTED) (into_iter_items doors.new) }
{
    let one = match open_if_there(rt, alloc, one, one_start, udc, doors, plan) {
        Ok(one) => one,
        Err(error) => {
            mem::drop(other);
            mem::drop(other_start);
            return Err(error);
        }
    };
    match open_if_there(rt, alloc, other, other_start, udc, doors, plan) {
        Ok(other) => Ok(OpenPair { one, other }),
        Err(error) => {
            mem::drop(one);
            Err(error)
        }
    }
}

/// The centres of a network at work.
#[derive(Drop)]
struct OpenCentres<
    U: GroupRun<Record>,
    N0: GroupRun<CentreRecord>,
    N1: GroupRun<CentreRecord>,
    N2: GroupRun<CentreRecord>,
    N3: GroupRun<CentreRecord>,
    D: Disk + Drop,
    O: Door + Drop,
    H: Wait + Drop,
> {
    first: OpenCentre<0, U, N0, D, O, H>,
    second: OpenCentre<1, U, N1, D, O, H>,
    third: OpenCentre<2, U, N2, D, O, H>,
    fourth: OpenCentre<3, U, N3, D, O, H>,
}

impl<
    U: GroupRun<Record>,
    N0: GroupRun<CentreRecord>,
    N1: GroupRun<CentreRecord>,
    N2: GroupRun<CentreRecord>,
    N3: GroupRun<CentreRecord>,
    D: Disk + Drop,
    O: Door + Drop,
    H: Wait + Drop,
> OpenCentres<U, N0, N1, N2, N3, D, O, H> {
    /// The network of these centres and the Update Centre, with its editors' stands. So many passes has each node.
    fn with_update<E: Door + Drop>(
        self,
        update: Box<Live<UdcRules, D, U, H>>,
        editors: Vec<EditorStand<U, D, E>>,
        update_passes: usize,
        centre_passes: usize,
    ) -> OpenNetwork<U, N0, N1, N2, N3, D, O, E, H>
        ensures { result ≡ record {
          update = update;
          centres = record {
            first = self.first.live;
            second = self.second.live;
            third = self.third.live;
            fourth = self.fourth.live;
          };
          ports = record {
            first = self.first.callers;
            second = self.second.callers;
            third = self.third.callers;
            fourth = self.fourth.callers;
            editors = editors;
          };
          carriers = record {
            first = self.first.carrier;
            second = self.second.carrier;
            third = self.third.carrier;
            fourth = self.fourth.carrier;
          };
          update_passes = update_passes;
          centre_passes = centre_passes;
        } }
    {
        let OpenCentres {
            first,
            second,
            third,
            fourth,
        } = self;
        OpenNetwork {
            update,
            centres: Lives {
                first: first.live,
                second: second.live,
                third: third.live,
                fourth: fourth.live,
            },
            ports: AllPorts {
                first: first.callers,
                second: second.callers,
                third: third.callers,
                fourth: fourth.callers,
                editors,
            },
            carriers: AllCarriers {
                first: first.carrier,
                second: second.carrier,
                third: third.carrier,
                fourth: fourth.carrier,
            },
            update_passes,
            centre_passes,
        }
    }
}

/// Opens those centres that the network has, each with its part of the doors and a pass of the Update Centre.
fn open_centres<
    U: GroupRun<Record>,
    N0: GroupRun<CentreRecord>,
    N1: GroupRun<CentreRecord>,
    N2: GroupRun<CentreRecord>,
    N3: GroupRun<CentreRecord>,
    D: Disk + Drop,
    O: Door + Drop,
    H: Wait + Copy + Drop,
>(
    rt: H,
    alloc: Global,
    first: Option<Opened<IrcRules<0>, D>>,
    first_start: GroupStart<CentreRecord>,
    second: Option<Opened<IrcRules<1>, D>>,
    second_start: GroupStart<CentreRecord>,
    third: Option<Opened<IrcRules<2>, D>>,
    third_start: GroupStart<CentreRecord>,
    fourth: Option<Opened<IrcRules<3>, D>>,
    fourth_start: GroupStart<CentreRecord>,
    udc: &mut Vec<Pass<UdcRules, U>>,
    doors: Vec<O>,
    plan: Plan,
) -> Result<OpenCentres<U, N0, N1, N2, N3, D, O, H>, AllocError>
    requires first { IfSome first
        (λ o. IsReady ⟦<IrcRules<0> as Rules>⟧ D.Reports N0.opening N0.limits o.node) }
    requires second { IfSome second
        (λ o. IsReady ⟦<IrcRules<1> as Rules>⟧ D.Reports N1.opening N1.limits o.node) }
    requires third { IfSome third
        (λ o. IsReady ⟦<IrcRules<2> as Rules>⟧ D.Reports N2.opening N2.limits o.node) }
    requires fourth { IfSome fourth
        (λ o. IsReady ⟦<IrcRules<3> as Rules>⟧ D.Reports N3.opening N3.limits o.node) }
    requires first_start { first_start ≡ record {
      book = N0.book;
      told = N0.told;
      failed = N0.failed;
      passes = N0.passes;
      taken = N0.taken;
    } }

    // The runs of the other centres are named by their starts, too.
    requires second_start { second_start ≡ record {
      book = N1.book;
      told = N1.told;
      failed = N1.failed;
      passes = N1.passes;
      taken = N1.taken;
    } }
    requires third_start { third_start ≡ record {
      book = N2.book;
      told = N2.told;
      failed = N2.failed;
      passes = N2.passes;
      taken = N2.taken;
    } }
    requires fourth_start { fourth_start ≡ record {
      book = N3.book;
      told = N3.told;
      failed = N3.failed;
      passes = N3.passes;
      taken = N3.taken;
    } }
    requires passes { IsPassCount (plan.ports + 1) × (plan.ports + 1 ≡ N0.passes)
        × (plan.ports + 1 ≡ N1.passes)
        × (plan.ports + 1 ≡ N2.passes) × (plan.ports + 1 ≡ N3.passes) }
    requires udc { count_of first + count_of second + count_of third + count_of fourth ≤ vec_len udc.old }

    // The passes are new, and the doors are those of all centres.
    requires new_udc { All IsNewPass udc.old.items }
    requires doors { weigh (λ o. plan.ports) first + weigh (λ o. plan.ports) second + weigh
        (λ o. plan.ports) third
        + weigh (λ o. plan.ports) fourth ≡ vec_len doors }
    requires fresh { All (λ d. O.accepted d < MAX_ACCEPTED) doors.items }

    // The stands of each centre are new.
    ensures first { IfOk result (λ n. IsFreshRow O.accepted (λ s. s.port.pass) (λ s. s.door.value)
        (λ s. s.calls) (weigh (λ o. plan.ports) first) plan.calls n.first.callers.items) }
    ensures second { IfOk result (λ n. IsFreshRow O.accepted (λ s. s.port.pass) (λ s. s.door.value)
        (λ s. s.calls) (weigh (λ o. plan.ports) second) plan.calls n.second.callers.items) }
    ensures third { IfOk result (λ n. IsFreshRow O.accepted (λ s. s.port.pass) (λ s. s.door.value)
        (λ s. s.calls) (weigh (λ o. plan.ports) third) plan.calls n.third.callers.items) }
    ensures fourth { IfOk result (λ n. IsFreshRow O.accepted (λ s. s.port.pass) (λ s. s.door.value)
        (λ s. s.calls) (weigh (λ o. plan.ports) fourth) plan.calls n.fourth.callers.items) }
    ensures first_there { IfOk result (λ n. count_of n.first.live ≡ count_of first) }

    // Each other centre is open exactly if the network has it.
    ensures second_there { IfOk result (λ n. count_of n.second.live ≡ count_of second) }
    ensures third_there { IfOk result (λ n. count_of n.third.live ≡ count_of third) }
    ensures fourth_there { IfOk result (λ n. count_of n.fourth.live ≡ count_of fourth) }
    ensures udc { IfOk result (λ n. vec_len udc.new + (count_of first + count_of second + count_of third +
        count_of fourth)
        ≡ vec_len udc.old) }
    ensures new_udc { All IsNewPass udc.new.items }

    // All doors were handed out, in order.
    ensures doors { IfOk result (λ n. map (λ s. s.door.value) n.first.callers.items ++ (map
        (λ s. s.door.value) n.second.callers.items
        ++ (map (λ s. s.door.value) n.third.callers.items ++ map
        (λ s. s.door.value) n.fourth.callers.items)) ≡ doors.items) }
{
    let mut doors = doors.into_iter();
    let (first, second) = match open_pair(
        rt,
        alloc,
        first,
        first_start,
        second,
        second_start,
        udc,
        &mut doors,
        plan,
    ) {
        Ok(OpenPair { one, other }) => (one, other),
        Err(error) => {
            mem::drop(third);
            mem::drop(third_start);
            mem::drop(fourth);
            mem::drop(fourth_start);
            return Err(error);
        }
    };
    match open_pair(
        rt,
        alloc,
        third,
        third_start,
        fourth,
        fourth_start,
        udc,
        &mut doors,
        plan,
    ) {
        Ok(OpenPair { one, other }) => Ok(OpenCentres {
            first,
            second,
            third: one,
            fourth: other,
        }),
        Err(error) => {
            mem::drop(first);
            mem::drop(second);
            Err(error)
        }
    }
}

/// A row of new stands for editors: one for each door, with a pass that was used for nothing.
fn fresh_editors<U: GroupRun<Record>, D: Disk, E: Door + Drop>(
    alloc: Global,
    passes: Vec<Pass<UdcRules, U>>,
    doors: Vec<E>,
    calls: u32,
) -> Result<Vec<EditorStand<U, D, E>>, AllocError>
    requires count { vec_len passes ≡ vec_len doors }
    requires new { All IsNewPass passes.items }
    requires fresh { All (λ d. E.accepted d < MAX_ACCEPTED) doors.items }

    // Each stand is new, and they have the doors in order.
    ensures fresh { IfOk result (λ stands. IsFreshRow E.accepted (λ s. s.port.pass) (λ s. s.door.value)
        (λ s. s.calls)
        (vec_len doors) calls stands.items) }
    ensures doors { IfOk result (λ stands. map (λ s. s.door.value) stands.items ≡ doors.items) }
{
    let stands = row_of_editors(alloc, passes, doors, calls)?;
    Ok(stands)
}

/// Opens the Update Centre, with as many new passes as it is to have.
fn open_update<U: GroupRun<Record>, D: Disk + Drop, H: Wait + Drop>(
    rt: H,
    alloc: Global,
    node: Node<UdcRules, D>,
    passes: usize,
    start: GroupStart<Record>,
) -> Result<(Box<Live<UdcRules, D, U, H>>, Vec<Pass<UdcRules, U>>), AllocError>
    requires ready { IsReady ⟦<UdcRules as Rules>⟧ D.Reports U.opening U.limits node }
    requires passes { (passes ≡ U.passes) × IsPassCount passes }
    requires start { start ≡ record {
      book = U.book;
      told = U.told;
      failed = U.failed;
      passes = U.passes;
      taken = U.taken;
    } }
    ensures new { IfOk result (λ r. All IsNewPass r.1.items) }
    ensures count { IfOk result (λ r. vec_len r.1 ≡ passes) }
{
    let (live, passes) = open_live::<UdcRules, D, U, H>(rt, alloc, node, passes, start)?;
    let live = Box::new(alloc, live)?;
    Ok((live, passes))
}

/// Opens the nodes of a network for their editors and callers, under the names of their runs.
pub(crate) fn open_network<
    U: GroupRun<Record>,
    N0: GroupRun<CentreRecord>,
    N1: GroupRun<CentreRecord>,
    N2: GroupRun<CentreRecord>,
    N3: GroupRun<CentreRecord>,
    D: Disk + Drop,
    O: Door + Drop,
    E: Door + Drop,
    H: Wait + Copy + Drop,
>(
    rt: H,
    alloc: Global,
    nodes: OpenedNodes<D>,
    starts: Starts,
    callers: Vec<O>,
    editors: Vec<E>,
    plan: Plan,
) -> Result<OpenNetwork<U, N0, N1, N2, N3, D, O, E, H>, AllocError>
    requires update { IsReady ⟦<UdcRules as Rules>⟧ D.Reports U.opening U.limits nodes.update.node }
    requires first { IfSome nodes.first
        (λ o. IsReady ⟦<IrcRules<0> as Rules>⟧ D.Reports N0.opening N0.limits o.node) }
    requires second { IfSome nodes.second
        (λ o. IsReady ⟦<IrcRules<1> as Rules>⟧ D.Reports N1.opening N1.limits o.node) }
    requires third { IfSome nodes.third
        (λ o. IsReady ⟦<IrcRules<2> as Rules>⟧ D.Reports N2.opening N2.limits o.node) }
    requires fourth { IfSome nodes.fourth
        (λ o. IsReady ⟦<IrcRules<3> as Rules>⟧ D.Reports N3.opening N3.limits o.node) }

    // Each run is named by its start.
    requires update_start { starts.update ≡ record {
      book = U.book;
      told = U.told;
      failed = U.failed;
      passes = U.passes;
      taken = U.taken;
    } }
    requires first_start { starts.first ≡ record {
      book = N0.book;
      told = N0.told;
      failed = N0.failed;
      passes = N0.passes;
      taken = N0.taken;
    } }
    requires second_start { starts.second ≡ record {
      book = N1.book;
      told = N1.told;
      failed = N1.failed;
      passes = N1.passes;
      taken = N1.taken;
    } }
    requires third_start { starts.third ≡ record {
      book = N2.book;
      told = N2.told;
      failed = N2.failed;
      passes = N2.passes;
      taken = N2.taken;
    } }
    requires fourth_start { starts.fourth ≡ record {
      book = N3.book;
      told = N3.told;
      failed = N3.failed;
      passes = N3.passes;
      taken = N3.taken;
    } }

    // There is a pass for each port, and for each carrier one at both of its ends.
    requires editors { (vec_len editors + centre_count nodes ≡ U.passes)
        × IsPassCount (vec_len editors + centre_count nodes) }
    requires callers { centre_count nodes * plan.ports ≡ vec_len callers }
    requires passes { IsPassCount (plan.ports + 1) × (plan.ports + 1 ≡ N0.passes)
        × (plan.ports + 1 ≡ N1.passes)
        × (plan.ports + 1 ≡ N2.passes) × (plan.ports + 1 ≡ N3.passes) }
    requires fresh { All (λ d. O.accepted d < MAX_ACCEPTED) callers.items
        × All (λ d. E.accepted d < MAX_ACCEPTED) editors.items }

    // Each stand is new, and they have the doors in order.
    ensures editors { IfOk result (λ n. IsFreshRow E.accepted (λ s. s.port.pass) (λ s. s.door.value)
        (λ s. s.calls)
        (vec_len editors) plan.calls n.ports.editors.items) }
    ensures editors_doors { IfOk result (λ n. map (λ s. s.door.value) n.ports.editors.items ≡ editors.items) }
    ensures first { IfOk result (λ n. IsFreshRow O.accepted (λ s. s.port.pass) (λ s. s.door.value)
        (λ s. s.calls) (weigh (λ o. plan.ports) nodes.first) plan.calls n.ports.first.items) }
    ensures second { IfOk result (λ n. IsFreshRow O.accepted (λ s. s.port.pass) (λ s. s.door.value)
        (λ s. s.calls) (weigh (λ o. plan.ports) nodes.second) plan.calls n.ports.second.items) }
    ensures third { IfOk result (λ n. IsFreshRow O.accepted (λ s. s.port.pass) (λ s. s.door.value)
        (λ s. s.calls) (weigh (λ o. plan.ports) nodes.third) plan.calls n.ports.third.items) }

    // A centre is open exactly if the network has it.
    ensures fourth { IfOk result (λ n. IsFreshRow O.accepted (λ s. s.port.pass) (λ s. s.door.value)
        (λ s. s.calls) (weigh (λ o. plan.ports) nodes.fourth) plan.calls n.ports.fourth.items) }
    ensures first_there { IfOk result (λ n. count_of n.centres.first ≡ count_of nodes.first) }
    ensures second_there { IfOk result (λ n. count_of n.centres.second ≡ count_of nodes.second) }
    ensures third_there { IfOk result (λ n. count_of n.centres.third ≡ count_of nodes.third) }
    ensures fourth_there { IfOk result (λ n. count_of n.centres.fourth ≡ count_of nodes.fourth) }

    // The counts of passes are kept, and the callers' doors are in order.
    ensures passes { IfOk result (λ n. (n.update_passes ≡ U.passes) × (n.centre_passes ≡ plan.ports + 1)) }
    ensures callers { IfOk result (λ n. map (λ s. s.door.value) n.ports.first.items ++ (map
        (λ s. s.door.value) n.ports.second.items
        ++ (map (λ s. s.door.value) n.ports.third.items ++ map (λ s. s.door.value) n.ports.fourth.items))
        ≡ callers.items) }
{
    let passes_of_update = editors.len() + nodes.centres();
    let OpenedNodes {
        update,
        first,
        second,
        third,
        fourth,
    } = nodes;
    let Starts {
        update: start,
        first: first_start,
        second: second_start,
        third: third_start,
        fourth: fourth_start,
    } = starts;
    let (update, mut passes) = match open_update::<U, D, H>(
        rt,
        alloc,
        update.node,
        passes_of_update,
        start,
    ) {
        Ok((update, passes)) => (update, passes),
        Err(error) => {
            mem::drop(first);
            mem::drop(first_start);
            mem::drop(second);
            mem::drop(second_start);
            mem::drop(third);
            mem::drop(third_start);
            mem::drop(fourth);
            mem::drop(fourth_start);
            mem::drop(callers);
            mem::drop(editors);
            return Err(error);
        }
    };
    let centres = match open_centres(
        rt,
        alloc,
        first,
        first_start,
        second,
        second_start,
        third,
        third_start,
        fourth,
        fourth_start,
        &mut passes,
        callers,
        plan,
    ) {
        Ok(
            OpenCentres {
                first,
                second,
                third,
                fourth,
            },
        ) => OpenCentres {
            first,
            second,
            third,
            fourth,
        },
        Err(error) => {
            mem::drop(update);
            mem::drop(passes);
            mem::drop(editors);
            return Err(error);
        }
    };
    match fresh_editors(alloc, passes, editors, plan.calls) {
        Ok(editors) => Ok(centres.with_update(update, editors, passes_of_update, plan.ports + 1)),
        Err(error) => {
            mem::drop(update);
            mem::drop(centres);
            Err(error)
        }
    }
}
