ghost use Rattle.std.specs.Prelude.{◌≡◌, ◌+◌, ◌++◌, map, IfOk};
ghost use Rattle.pv_centres.specs.Served.{IsGivenBack};

use crate::closed::{ClosedNode, close_live};
use crate::editors_row::take_editors;
use pv_edits::Record;
use pv_group::{GroupRun, Live};
use pv_live::Pass;
use pv_node::Rules;
use pv_outside::{Disk, Door};
use pv_service::{EditorStand, PortReport};
use pv_udc::UdcRules;
use std::alloc::{AllocError, Global};
use std::sync::Wait;

/// What was handed back of the Update Centre: its node or its disk, and the doors and reports of its editors' ports, in order.
#[derive(Drop)]
pub struct ClosedUpdate<D: Disk + Drop, E: Door + Drop> {
    pub node: ClosedNode<UdcRules, D>,
    pub doors: Vec<E>,
    pub reports: Vec<PortReport<D>>,
}

/// Closes the Update Centre, of which carriers had these passes. If no memory is found its disk keeps what it held.
///
/// `count` is how many passes it has, which is looked at again. `AllocError` comes if it is another, too.
pub fn close_update<U: GroupRun<Record>, D: Disk + Drop, E: Door + Drop, H: Wait + Drop>(
    alloc: Global,
    live: Box<Live<UdcRules, D, U, H>>,
    stands: Vec<EditorStand<U, D, E>>,
    carriers: Vec<Pass<UdcRules, U>>,
    count: usize,
) -> Result<ClosedUpdate<D, E>, AllocError>
    requires { count ≡ U.passes }
    ensures closed { IfOk result (λ c. IsGivenBack ⟦<UdcRules as Rules>⟧ D.Reports U.limits U.opening
        (map (λ s. s.port.pass) stands.items ++ carriers.items) c.node) }
    ensures doors { IfOk result (λ c. c.doors.items ≡ map (λ s. s.door.value) stands.items) }
    ensures reports { IfOk result (λ c. c.reports.items ≡ map (λ s. s.report.value) stands.items) }
{
    let mut passes = Vec::new(alloc);
    let mut doors = Vec::new(alloc);
    let mut reports = Vec::new(alloc);
    take_editors(stands, &mut passes, &mut doors, &mut reports)?;
    let mut carriers = carriers;
    passes.append(&mut carriers)?;
    if passes.len() != count {
        return Err(AllocError);
    }
    let node = close_live(Box::into_inner(live), passes);
    Ok(ClosedUpdate {
        node,
        doors,
        reports,
    })
}
