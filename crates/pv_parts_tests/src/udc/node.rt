//! A node of these rules over a disk in memory.
ghost use Rattle.pv_udc.specs.Requests.{IsRequest};

use super::{Ask, LARGE, account_no, name, wish};
use pv_edits::Record;
use pv_journal::format;
use pv_memory::MemDisk;
use pv_node::{AskFault, Node};
use pv_outside::Limits;
use pv_udc::{UdcReply, UdcRequest, UdcRules};
use std::alloc::Global;
use std::test::Fail;

type Udc = Node<UdcRules, MemDisk>;

/// A node of these limits over a disk that was formatted.
fn open(disk: MemDisk, alloc: Global, limits: Limits) -> Result<Udc, Fail> {
    match Node::open(alloc, disk, limits) {
        Ok(node) => Ok(node),
        Err(_) => Err("not opened".into()),
    }
}

/// The reply to an edit, and the place of the record that it stored.
type Told = (UdcReply, Option<u64>);

/// The answer to the operator's edit under a number. `None` if the disk failed.
fn answer(node: &mut Udc, q: u32, asked: Ask) -> Result<Option<Told>, Fail> {
    let editor = account_no(0)?;
    let wish = wish(asked)?;
    match node.ask(&UdcRequest::Edit { editor, q, wish }) {
        Ok(answered) => Ok(Some((answered.reply, answered.number))),
        Err(AskFault::Full { .. }) => Err("full".into()),
        Err(AskFault::Disk(_)) => Ok(None),
    }
}

/// Its answer, over a disk that does not fail.
fn edit(node: &mut Udc, q: u32, asked: Ask) -> Result<Told, Fail> {
    Ok(answer(node, q, asked)?.ok_or("the disk failed")?)
}

/// A number of the operator's, what he asks, the reply, and the place of the record that it stored.
type Asked = (u32, Ask, UdcReply, Option<u64>);

/// The index of the first edit that has another reply, or stores at another place.
fn first_unlike(node: &mut Udc, edits: &[Asked]) -> Result<Option<usize>, Fail> {
    for (i, (q, asked, reply, place)) in edits.iter().enumerate() {
        if edit(node, *q, *asked)? != (*reply, *place) {
            return Ok(Some(i));
        }
    }
    Ok(None)
}

const BEFORE: [Asked; 3] = [
    (1, Ask::Put(b"1a"), UdcReply::Stored(0), Some(0)),
    (1, Ask::Put(b"1a"), UdcReply::Again(0), None),
    (2, Ask::Drop(b"1a"), UdcReply::Stored(1), Some(1)),
];

const AFTER: [Asked; 1] = [(2, Ask::Drop(b"1a"), UdcReply::Again(1), None)];

/// A node's disk after these edits, and the index of the first that went wrong.
fn edited(disk: MemDisk, alloc: Global, edits: &[Asked]) -> Result<(MemDisk, Option<usize>), Fail> {
    let mut node = open(disk, alloc, LARGE)?;
    let amiss = first_unlike(&mut node, edits)?;
    Ok((node.into_disk(), amiss))
}

/// Whether a node has two records, of which the last is the drop.
fn has_the_drop(node: &Udc) -> Result<bool, Fail> {
    let drop = Record::Drop {
        editor: account_no(0)?,
        q: 2,
        name: name(b"1a")?,
    };
    Ok(node.count() == 2 && node.state().rec_at(1) == Some(&drop))
}

#[test]
fn stored_edits_are_there_after_a_crash(rt: HostRuntime) -> Result<(), Fail> {
    let mut disk = MemDisk::new(rt.alloc(), 10_000, &[])?;
    format(&mut disk)?;
    let (mut disk, amiss) = edited(disk, rt.alloc(), &BEFORE)?;
    assert_eq!(rt; amiss, None);
    disk.crash(97);
    let node = open(disk, rt.alloc(), LARGE)?;
    assert!(rt; has_the_drop(&node)?);
    let (_, amiss) = edited(node.into_disk(), rt.alloc(), &AFTER)?;
    assert_eq!(rt; amiss, None);
    Ok(())
}

/// A fresh node, of whose disk this call fails.
fn failing_at(alloc: Global, call: u64) -> Result<Udc, Fail> {
    let mut disk = MemDisk::new(alloc, 10_000, &[call])?;
    format(&mut disk)?;
    open(disk, alloc, LARGE)
}

/// The first edit, asked twice: its answer each time, and how many records there are at the node and in its state.
fn asked_twice(node: &mut Udc) -> Result<([Option<Told>; 2], u64, u64), Fail> {
    let first = answer(node, 1, Ask::Put(b"1a"))?;
    let second = answer(node, 1, Ask::Put(b"1a"))?;
    Ok(([first, second], node.count(), node.state().front()))
}

/// The call of the disk that fails in the first ask, and the answer of the second. Seven calls are those of the formatting
/// and the opening; then the block is written and synced, and then its gate.
const FAULTS: [(u64, Told); 4] = [
    (7, (UdcReply::Stored(0), Some(0))),
    (8, (UdcReply::Stored(0), Some(0))),
    (9, (UdcReply::Stored(0), Some(0))),
    (10, (UdcReply::Again(0), None)),
];

#[test]
fn an_edit_is_stored_once_wherever_the_disk_fails(rt: HostRuntime) -> Result<(), Fail> {
    for (call, answer) in FAULTS {
        let mut node = failing_at(rt.alloc(), call)?;
        assert_eq!(rt;
            asked_twice(&mut node)?,
            ([None, Some(answer)], 1, 1),
            "call {call} failed"
        );
    }
    Ok(())
}
