ghost use Rattle.std.specs.Prelude.{◌≡◌, ◌+◌, ◌++◌, ◌<◌, None, All, map, vec_len, option_to_list, IfOk, OnOk, IfSome, IsSome};
ghost use Rattle.std.specs.Option.{option_map};
ghost use Rattle.pv_edits.specs.Taken.{IsCentre};
ghost use Rattle.pv_node.specs.Standing.{StandsFor};
ghost use Rattle.pv_live.specs.Opening.{IsPassCount};
ghost use Rattle.pv_irc.specs.History.{applied_of};
ghost use Rattle.pv_centres.specs.Carried.{AreQuiet, HasStoredNoMore};
ghost use Rattle.pv_centres.specs.Parts.{IfThere};
ghost use Rattle.pv_service.specs.declared.caller_stand.TheConstants.{MAX_ACCEPTED};
ghost use Rattle.pv_centres.specs.Served.{IsClosedWith, IsFreshRow, IsNewPass};

use crate::callers_row::{callers_row, take_callers};
use crate::centre_carrier::CentreCarrier;
use crate::closed::{ClosedNode, close_live};
use crate::collected::Collected;
use pv_edits::Record;
use pv_group::{GroupRun, GroupStart, Live, open_live};
use pv_irc::{CentreRecord, IrcRules};
use pv_live::Pass;
use pv_node::{Node, Rules};
use pv_outside::{Disk, Door};
use pv_service::CallerStand;
use pv_udc::UdcRules;
use std::alloc::{AllocError, Global};
use std::sync::Wait;

/// A retrieval centre at work: its live node, its callers' ports with their doors, and its carrier. A centre that the network
/// does not have has none of these.
#[derive(Drop)]
pub struct OpenCentre<
    const C: u8,
    U: GroupRun<Record>,
    N: GroupRun<CentreRecord>,
    D: Disk + Drop,
    O: Door + Drop,
    H: Wait + Drop,
> {
    /// Its node, under a lock.
    pub live: Option<Box<Live<IrcRules<C>, D, N, H>>>,
    /// Its callers' ports with their doors.
    pub callers: Vec<CallerStand<C, N, D, O>>,
    /// What brings it its records, and takes its items up.
    pub carrier: Option<CentreCarrier<C, U, N, D>>,
}

/// Opens a centre for callers: one port for each door. If no memory is found, its disk keeps what it held.
pub fn open_centre<
    const C: u8,
    U: GroupRun<Record>,
    N: GroupRun<CentreRecord>,
    D: Disk + Drop,
    O: Door + Drop,
    H: Wait + Drop,
>(
    rt: H,
    alloc: Global,
    node: Node<IrcRules<C>, D>,
    start: GroupStart<CentreRecord>,
    udc: Pass<UdcRules, U>,
    doors: Vec<O>,
    calls: u32,
) -> Result<OpenCentre<C, U, N, D, O, H>, AllocError>
    requires centre { IsCentre C }
    requires stands { StandsFor ⟦<IrcRules<C> as Rules>⟧ D.Reports node N.opening }
    requires at_rest { node.hand ≡ None }
    requires limits { node.state.limits ≡ N.limits }
    requires fresh { All (λ d. O.accepted d < MAX_ACCEPTED) doors.items }

    // There is a pass for each door and one for the carrier, the Update Centre's is new, and the run is named by its start.
    requires new_udc { IsNewPass udc }
    requires passes { (vec_len doors + 1 ≡ N.passes) × IsPassCount (vec_len doors + 1) }
    requires start { start ≡ record {
      book = N.book;
      told = N.told;
      failed = N.failed;
      passes = N.passes;
      taken = N.taken;
    } }

    // Each stand is new, and they have the doors in order.
    ensures doors { IfOk result (λ centre. map (λ s. s.door.value) centre.callers.items ≡ doors.items) }
    ensures fresh { IfOk result (λ centre. IsFreshRow O.accepted (λ s. s.port.pass) (λ s. s.door.value)
        (λ s. s.calls)
        (vec_len doors) calls centre.callers.items) }
    ensures there { IfOk result (λ centre. IsSome centre.live × IsSome centre.carrier) }
{
    let count = doors.len() + 1;
    let (live, mut passes) = open_live::<IrcRules<C>, D, N, H>(rt, alloc, node, count, start)?;
    let own = passes.pop().unwrap();
    let callers = callers_row(alloc, passes, doors, calls)?;
    let carrier = CentreCarrier::new(alloc, udc, own)?;
    Ok(OpenCentre {
        live: Some(Box::new(alloc, live)?),
        callers,
        carrier: Some(carrier),
    })
}

/// Closes a centre, if the network has it, and adds what its stands had to what was collected. If no memory is found its disk
/// keeps what it held.
///
/// `count` is how many passes its node has. That its stands have as many is looked at again, since no clause follows its
/// carrier through the threads. `AllocError` comes if they have not, too.
pub fn close_centre<
    const C: u8,
    U: GroupRun<Record>,
    N: GroupRun<CentreRecord>,
    D: Disk + Drop,
    O: Door + Drop,
    H: Wait + Drop,
>(
    alloc: Global,
    centre: OpenCentre<C, U, N, D, O, H>,
    count: usize,
    collected: &mut Collected<U, D, O>,
) -> Result<Option<ClosedNode<IrcRules<C>, D>>, AllocError>
    requires { count ≡ N.passes }
    ensures closed { IfOk result (λ node. IfThere (λ live n. IsClosedWith ⟦<IrcRules<C> as Rules>⟧ D.Reports
        N.limits N.opening applied_of (AreQuiet collected.new.carriers.items)
        (map (λ s. s.port.pass) centre.callers.items) n) centre.live node) }
    ensures doors { OnOk result (collected.new.doors.items
        ≡ collected.old.doors.items ++ map (λ s. s.door.value) centre.callers.items) }
    ensures reports { OnOk result (collected.new.reports.items
        ≡ collected.old.reports.items ++ map (λ s. s.report.value) centre.callers.items) }
    ensures udc { OnOk result (collected.new.passes.items
        ≡ collected.old.passes.items ++ option_to_list (option_map (λ c. c.udc) centre.carrier)) }

    // If no carrier has met anything, its own has stored what it has brought, and no more.
    ensures quiet { OnOk result (AreQuiet collected.new.carriers.items → AreQuiet collected.old.carriers.items
        × IfSome centre.carrier (HasStoredNoMore U.opening N.opening C)) }
{
    let OpenCentre {
        live,
        callers,
        carrier,
    } = centre;
    let mut passes = Vec::new(alloc);
    take_callers(
        callers,
        &mut passes,
        &mut collected.doors,
        &mut collected.reports,
    )?;
    collected.take_carrier(carrier, &mut passes)?;
    match live {
        Some(live) if passes.len() == count => {
            Ok(Some(close_live(Box::into_inner(live), passes)))
        }
        Some(_) => Err(AllocError),
        None => Ok(None),
    }
}
