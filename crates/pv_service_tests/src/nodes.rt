//! Nodes at work, doors and a carrier, all in memory.
ghost use Rattle.std.specs.Prelude.{◌≡◌, ◌<◌, All, None, IfOk};
ghost use Rattle.pv_live.specs.Opening.{IsPassCount};
ghost use Rattle.pv_memory.specs.Doors.{IsNewLine, accepted_of};
ghost use Rattle.pv_node.specs.Standing.{StandsFor};
ghost use Rattle.pv_node.specs.Trail.{trail_records};
ghost use Rattle.pv_service.specs.declared.caller_stand.TheConstants.{MAX_ACCEPTED};

use pv_group::{GroupRun, GroupStart, Live, open_live};
use pv_journal::format;
use pv_live::Pass;
use pv_memory::{MemDisk, MemDoor, MemLine, MemSink, MemSource};
use pv_node::{Node, Opened, Rules};
use pv_outside::{Limits, Reports};
use std::alloc::{AllocError, Global};
use std::sync::Wait;
use std::test::Fail;

/// Room for four frames and a hundred records.
const LIMITS: Limits = Limits {
    frames: 4,
    records: 100,
};

/// Room for what a line is sent.
const ROOM: usize = 100_000;

/// A fresh node of these rules, over a disk in memory of which these calls fail. The first seven are those of the
/// formatting and the opening.
pub fn fresh<R: Rules>(alloc: Global, fails: &[u64]) -> Result<Opened<R, MemDisk>, Fail>
    ensures stands { IfOk result
        (λ o. StandsFor ⟦<R as Rules>⟧ ⟦<MemDisk as Reports>⟧ o.node (trail_records o.trail.items)) }
    ensures rest { IfOk result (λ o. o.node.hand ≡ None) }
{
    let mut disk = MemDisk::new(alloc, 2_000_000, fails)?;
    format(&mut disk)?;
    match Node::open_noted(alloc, disk, LIMITS) {
        Ok(opened) => Ok(opened),
        Err(_) => Err("not opened".into()),
    }
}

/// A node at work: its pass for a port, its pass for its carrier, and the others.
#[derive(Drop)]
pub struct AtWork<R: Rules, N: GroupRun<R::Rec>, H: Wait + Drop> {
    /// The node.
    pub live: Live<R, MemDisk, N, H>,
    /// The pass for a port.
    pub port: Pass<R, N>,
    /// The pass for a carrier.
    pub carrier: Pass<R, N>,
    /// The other passes.
    pub others: Vec<Pass<R, N>>,
}

/// Sets a node to work, with this many passes.
pub fn at_work<R: Rules, N: GroupRun<R::Rec>, H: Wait + Drop>(
    rt: H,
    alloc: Global,
    node: Node<R, MemDisk>,
    passes: usize,
    start: GroupStart<R::Rec>,
) -> Result<AtWork<R, N, H>, Fail>
    requires stands { StandsFor ⟦<R as Rules>⟧ ⟦<MemDisk as Reports>⟧ node N.opening }
    requires rest { (node.hand ≡ None) × (R.limits_of node.state ≡ N.limits) }
    requires passes { (passes ≡ N.passes) × IsPassCount passes }
    requires start { start ≡ record {
      book = N.book;
      told = N.told;
      failed = N.failed;
      passes = N.passes;
      taken = N.taken;
    } }
{
    let (live, mut others) = open_live::<R, MemDisk, N, H>(rt, alloc, node, passes, start)?;
    match (others.pop(), others.pop()) {
        (Some(port), Some(carrier)) => Ok(AtWork {
            live,
            port,
            carrier,
            others,
        }),
        _ => Err("no pass".into()),
    }
}

/// A line that gives these bytes.
fn line_of(alloc: Global, bytes: &[u8]) -> Result<MemLine, AllocError>
    ensures { IfOk result IsNewLine }
{
    let source = MemSource::new(alloc, bytes, &[])?;
    let sink = MemSink::new(alloc, ROOM, &[])?;
    Ok(MemLine::new(source, sink))
}

/// A door at which lines with these bytes come in, of which these accepts fail.
fn door_of(alloc: Global, lines: &[&[u8]], fails: &[u64]) -> Result<Box<MemDoor>, AllocError>
    ensures { IfOk result (λ door. accepted_of door.value < MAX_ACCEPTED) }
{
    let mut coming = Vec::new(alloc);
    for bytes in lines {
        coming.push(line_of(alloc, bytes)?)?;
    }
    let door = MemDoor::new(alloc, coming, fails)?;
    Ok(Box::new(alloc, door)?)
}

/// The doors of editors and of callers.
#[derive(Drop)]
pub struct Doors {
    /// The editors'.
    pub editors: Box<MemDoor>,
    /// The callers'.
    pub callers: Box<MemDoor>,
}

/// Doors at which lines with these bytes come in. These accepts of the callers' fail.
pub fn doors_of(
    alloc: Global,
    editors: &[&[u8]],
    callers: &[&[u8]],
    fails: &[u64],
) -> Result<Doors, AllocError>
    ensures editors { IfOk result (λ doors. accepted_of doors.editors.value < MAX_ACCEPTED) }
    ensures callers { IfOk result (λ doors. accepted_of doors.callers.value < MAX_ACCEPTED) }
{
    let editors = door_of(alloc, editors, &[])?;
    let callers = door_of(alloc, callers, fails)?;
    Ok(Doors { editors, callers })
}
