//! A row of editors' stands, made of passes and doors, and taken apart again.
ghost use Rattle.std.specs.Prelude.{◌≡◌, ◌<◌, ◌++◌, All, map, vec_len, IfOk, OnOk};
ghost use Rattle.pv_service.specs.declared.caller_stand.TheConstants.{MAX_ACCEPTED};

use crate::doors::put;
use pv_edits::Record;
use pv_group::GroupRun;
use pv_live::Pass;
use pv_outside::{Disk, Door};
use pv_ports::EditorPort;
use pv_service::{EditorStand, PortReport};
use pv_udc::UdcRules;
use std::alloc::{AllocError, Global};

/// A stand of a port of this pass, with its door.
fn stand_of<N: GroupRun<Record>, D: Disk, O: Door + Drop>(
    alloc: Global,
    pass: Pass<UdcRules, N>,
    door: O,
    calls: u32,
) -> Result<EditorStand<N, D, O>, AllocError>
    ensures pass { IfOk result (λ stand. stand.port.pass ≡ pass) }
    ensures door { IfOk result (λ stand. stand.door.value ≡ door) }
    ensures calls { IfOk result (λ stand. stand.calls ≡ calls) }
{
    let port = EditorPort::new(alloc, pass)?;
    let door = Box::new(alloc, door)?;
    Ok(EditorStand::new(port, door, calls, PortReport::boxed(alloc)?))
}

/// A row of stands: one for each door, each with a pass of its own.
pub fn row_of_editors<N: GroupRun<Record>, D: Disk, O: Door + Drop>(
    alloc: Global,
    passes: Vec<Pass<UdcRules, N>>,
    doors: Vec<O>,
    calls: u32,
) -> Result<Vec<EditorStand<N, D, O>>, AllocError>
    requires count { vec_len passes ≡ vec_len doors }
    requires fresh { All (λ d. O.accepted d < MAX_ACCEPTED) doors.items }
    ensures passes { IfOk result (λ stands. map (λ s. s.port.pass) stands.items ≡ passes.items) }
    ensures doors { IfOk result (λ stands. map (λ s. s.door.value) stands.items ≡ doors.items) }
    ensures calls { IfOk result (λ stands. All (λ s. s.calls ≡ calls) stands.items) }

    // The counts of the doors are not at their end.
    ensures fresh { IfOk result (λ stands. All (λ s. O.accepted s.door.value < MAX_ACCEPTED) stands.items) }
    ensures count { IfOk result (λ stands. vec_len stands ≡ vec_len doors) }
{
    let mut stands = Vec::with_capacity(alloc, doors.len())?;
    let mut doors = doors.into_iter();
    for pass in passes {
        let Some(door) = doors.next() else {
            unreachable!()
        };
        stands.push(stand_of(alloc, pass, door, calls)?)?;
    }
    Ok(stands)
}

/// Takes a row apart: the passes, the doors and the reports, in order.
pub fn take_editors<N: GroupRun<Record>, D: Disk, O: Door + Drop>(
    stands: Vec<EditorStand<N, D, O>>,
    passes: &mut Vec<Pass<UdcRules, N>>,
    doors: &mut Vec<O>,
    reports: &mut Vec<PortReport<D>>,
) -> Result<(), AllocError>
    ensures passes { OnOk result (passes.new.items ≡ passes.old.items ++ map
        (λ s. s.port.pass) stands.items) }
    ensures doors { OnOk result (doors.new.items ≡ doors.old.items ++ map (λ s. s.door.value) stands.items) }
    ensures reports { OnOk result (reports.new.items ≡ reports.old.items ++ map
        (λ s. s.report.value) stands.items) }
{
    for stand in stands {
        let EditorStand {
            port,
            door,
            calls: _,
            report,
        } = stand;
        put(passes, port.into_pass())?;
        put(doors, Box::into_inner(door))?;
        put(reports, Box::into_inner(report))?;
    }
    Ok(())
}
