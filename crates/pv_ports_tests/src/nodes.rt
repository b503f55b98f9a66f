//! Nodes and lines in memory.
ghost use Rattle.std.specs.Prelude.{◌≡◌, None, IfOk, false};
ghost use Rattle.pv_node.specs.Standing.{StandsFor};
ghost use Rattle.pv_node.specs.Trail.{trail_records};

use pv_account::{Account, Groups, digest};
use pv_edits::{DownRecord, Record};
use pv_frame::{CheckedFrame, Frame};
use pv_group::{GroupRun, Live};
use pv_irc::{CentreRecord, IrcRequest, IrcRules};
use pv_journal::format;
use pv_live::Pass;
use pv_memory::{MemDisk, MemLine, MemSink, MemSource};
use pv_node::{Node, Opened, Rules};
use pv_outside::{Limits, Reports};
use pv_page::{AccountNo, FrameName};
use std::alloc::Global;
use std::sync::Wait;
use std::test::Fail;

/// Room for two frames and four records.
pub const LIMITS: Limits = Limits {
    frames: 2,
    records: 4,
};

/// A fresh node of these rules, over a disk in memory of which these calls fail. The first seven are those of the
/// formatting and the opening.
pub fn fresh<R: Rules>(
    alloc: Global,
    limits: Limits,
    fails: &[u64],
) -> Result<Opened<R, MemDisk>, Fail>
    ensures stands { IfOk result
        (λ o. StandsFor ⟦<R as Rules>⟧ ⟦<MemDisk as Reports>⟧ o.node (trail_records o.trail.items)) }
    ensures rest { IfOk result (λ o. o.node.hand ≡ None) }
{
    let mut disk = MemDisk::new(alloc, 200_000, fails)?;
    format(&mut disk)?;
    match Node::open_noted(alloc, disk, limits) {
        Ok(opened) => Ok(opened),
        Err(_) => Err("not opened".into()),
    }
}

/// A line on which these bytes come in, and of whose reads and writes these fail.
pub fn line_of(alloc: Global, bytes: &[u8], reads: &[u64], writes: &[u64]) -> Result<MemLine, Fail>
    ensures { IfOk result (λ line. line.source.ended ≡ false) }
{
    let source = MemSource::new(alloc, bytes, reads)?;
    let sink = MemSink::new(alloc, 80_000, writes)?;
    Ok(MemLine::new(source, sink))
}

/// The operator's account.
pub fn operator() -> Result<AccountNo, Fail> {
    Ok(AccountNo::of_number(0).ok_or("an account")?)
}

/// The name of the one frame.
pub fn name() -> Result<FrameName, Fail> {
    Ok(FrameName::of_text(b"1a").ok_or("a name")?)
}

/// A frame with this letter in its first column, at this price.
pub fn priced_frame(letter: u8, price: u16) -> Result<CheckedFrame, Fail> {
    let mut frame = Frame::blank();
    frame.body[0] = letter;
    frame.price = price;
    Ok(CheckedFrame::of(frame)?)
}

/// A free frame with this letter in its first column.
pub fn frame_with(letter: u8) -> Result<CheckedFrame, Fail> {
    priced_frame(letter, 0)
}

/// The record that puts a frame.
fn put_frame(q: u32, frame: CheckedFrame) -> Result<DownRecord, Fail> {
    Ok(DownRecord::Whole(Record::Put {
        editor: operator()?,
        q,
        name: name()?,
        frame,
    }))
}

/// The record that puts the free frame with this letter.
pub fn put(q: u32, letter: u8) -> Result<DownRecord, Fail> {
    put_frame(q, frame_with(letter)?)
}

/// The caller's account.
fn account() -> Option<Account> {
    let number = AccountNo::of_number(1_000_000_001)?;
    Some(Account {
        number,
        digest: digest(number, b"ABCD"),
        home: 0,
        groups: Groups::of_list(&[])?,
    })
}

/// The record that makes it.
fn made() -> Result<DownRecord, Fail> {
    let account = account().ok_or("an account")?;
    Ok(DownRecord::Whole(Record::Account {
        editor: operator()?,
        q: 1,
        account,
    }))
}

/// Has a record applied at a centre, and returns whether it was stored.
pub fn apply<N: GroupRun<CentreRecord>, H: Wait + Drop, W: Wait>(
    rt: &W,
    centre: &Live<IrcRules<0>, MemDisk, N, H>,
    pass: &mut Pass<IrcRules<0>, N>,
    n: u64,
    rec: DownRecord,
) -> bool {
    rec.within();
    match centre.ask(rt, pass, &IrcRequest::Apply { n, rec }) {
        Ok(told) => told.number.is_some(),
        Err(_) => false,
    }
}

/// The record of this number: the caller's account, and then frames of one name, at this price.
fn record_at(n: u8, price: u16) -> Result<DownRecord, Fail> {
    if n == 0 {
        made()
    } else {
        put_frame(u32::from(n) + 1, priced_frame(b'A', price)?)
    }
}

/// Has this many of the records applied, from the first on. The frames are at this price.
pub fn apply_first<N: GroupRun<CentreRecord>, H: Wait + Drop, W: Wait>(
    rt: &W,
    centre: &Live<IrcRules<0>, MemDisk, N, H>,
    pass: &mut Pass<IrcRules<0>, N>,
    count: u8,
    price: u16,
) -> Result<(), Fail> {
    for n in 0..count {
        if !apply(rt, centre, pass, u64::from(n), record_at(n, price)?) {
            return Err("not applied".into());
        }
    }
    Ok(())
}
