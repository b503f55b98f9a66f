ghost use Rattle.std.specs.Prelude.{◌≡◌, length, vec_len, [], None, IfOk, IfErr, OnOk};
ghost use mathlib.Core.List.{IsPrefix};
ghost use Rattle.pv_node.specs.Standing.{StandsFor};
ghost use Rattle.left_right.specs.Handles.{published, pending};
ghost use Rattle.pv_live.specs.Opening.{IsPassCount};
ghost use Rattle.pv_live.specs.Pass.{new_passes, told_count, failed_count};
ghost use Rattle.pv_live.specs.Asking.{HasAsked, HasFailed};
ghost use Rattle.pv_live.specs.Closing.{IsClosed};

use crate::copies::{Change, Published};
use crate::desk::{Closed, Desk};
use crate::entry::Entry;
use crate::fault::LiveFault;
use crate::known::Known;
use crate::pass::Pass;
use crate::run::{FailedLedger, Run, ToldLedger};
use left_right::{Absorb, WriteHandle};
use pv_history::NewHistory;
use pv_node::{Node, Rules, Told};
use pv_outside::{Disk, MAX_RECORDS};
use std::alloc::{AllocError, Global};
use std::marker::Model;
use std::sync::ledger::{Blank, Share};
use std::sync::{Mutex, Wait};

/// How many passes a node can have.
pub const MAX_PASSES: usize = 64;

/// A node under a lock. [`Live`] says what the last two parameters are.
#[derive(Drop)]
pub struct LiveNode<
    R: Rules,
    D: Disk,
    N: Run<R::Rec>,
    H: Wait + Drop,
    T: Absorb<O, State = [Entry<R::Rec>; 0]> + Drop,
    O: Drop,
> {
    desk: Mutex<Desk<R, D, N, H, T, O>>,
}

/// A node of these rules over this disk, in the run of this name, that threads share. `H` is the runtime
/// that its writer waits by.
pub type Live<R, D, N, H> = LiveNode<R, D, N, H, Published<R, N>, Change<R, N>>;

/// What a run is named by: its empty history and its two ledgers. It takes no memory.
#[derive(Drop)]
pub struct Start<T> {
    history: NewHistory<Entry<T>>,
    told: Blank,
    failed: Blank,
}

impl<T> Model for Start<T> {
    ghost use Rattle.std.specs.Prelude.{◌≡◌};
    ghost use Rattle.pv_live.specs.Opening.{RunName};

    ghost Value = { RunName };

    ghost view = { λ s. record {
      book = s.history;
      told = s.told.name;
      failed = s.failed.name;
      passes = s.told.parts;
    } };

    ghost invariant = { λ s. s.failed.parts ≡ s.told.parts };
}

impl<T> Start<T> {
    /// What a run of this many passes is named by.
    pub fn new(passes: u64) -> Start<T>
        ensures { result.passes ≡ passes }
    {
        Start {
            history: NewHistory::new(),
            told: Blank::new(passes),
            failed: Blank::new(passes),
        }
    }

    /// The empty history, and the ledgers of what asks reported as stored and of those that failed.
    pub fn into_parts(self) -> (NewHistory<Entry<T>>, Blank, Blank)
        ensures is { self ≡ record {
          book = result.0;
          told = result.1.name;
          failed = result.2.name;
          passes = result.1.parts;
        } }
        ensures parts { result.2.parts ≡ result.1.parts }
    {
        let Start {
            history,
            told,
            failed,
        } = self;
        (history, told, failed)
    }
}

/// Makes the passes, which know the opening.
pub fn make_passes<R: Rules, N: Run<R::Rec>, H: Wait + Drop>(
    alloc: Global,
    writer: &WriteHandle<Published<R, N>, Change<R, N>, H>,
    known: &Known<R::Rec, N>,
    told: &mut Share<ToldLedger<R::Rec, N>>,
    failed: &mut Share<FailedLedger<R::Rec, N>>,
    passes: usize,
) -> Result<Vec<Pass<R, N>>, AllocError>
    requires known { known.now ≡ [] }
    requires told { (told.old.parts ≡ passes) × (told.old.amount ≡ 0) }
    requires failed { (failed.old.parts ≡ passes) × (failed.old.amount ≡ 0) }
    ensures passes { IfOk result (λ all. all.items ≡ new_passes passes) }
    ensures count { IfOk result (λ all. vec_len all ≡ passes) }
{
    let mut all = Vec::with_capacity(alloc, passes)?;
    for number in 0..passes {
        let reader = writer.handle()?;
        all.push(Pass {
            reader,
            number: number as u64,
            known: known.copy(),
            told: told.split_off(1, 0),
            failed: failed.split_off(1, 0),
            looks: 0,
        })?;
    }
    Ok(all)
}

/// Publishes two copies of the node's state, with room for this many readers.
pub fn publish_state<R: Rules, D: Disk, N: Run<R::Rec>, H: Wait + Drop>(
    rt: H,
    alloc: Global,
    node: &Node<R, D>,
    known: &Known<R::Rec, N>,
    readers: usize,
) -> Result<WriteHandle<Published<R, N>, Change<R, N>, H>, AllocError>
    requires stands { StandsFor ⟦<R as Rules>⟧ D.Reports node.now N.opening }
    requires limits { R.limits_of node.now.state ≡ N.limits }
    requires known { known.now ≡ [] }
    requires readers { IsPassCount readers }
    ensures { IfOk result (λ writer. (published writer ≡ []) × (pending writer ≡ [])) }
{
    let first = Published::new(R::copy(alloc, node.state())?, known.copy());
    let second = Published::new(R::copy(alloc, node.state())?, known.copy());
    WriteHandle::new(alloc, rt, first, second, readers)
}

/// Shares a node, of which no record is in hand, among this many passes. The run is named by what it starts
/// with. If no memory is found the node is dropped, and its disk keeps what it held.
pub fn open_live<R: Rules, D: Disk + Drop, N: Run<R::Rec>, H: Wait + Drop>(
    rt: H,
    alloc: Global,
    node: Node<R, D>,
    passes: usize,
    start: Start<R::Rec>,
) -> Result<(Live<R, D, N, H>, Vec<Pass<R, N>>), AllocError>
    requires stands { StandsFor ⟦<R as Rules>⟧ D.Reports node N.opening }
    requires at_rest { node.hand ≡ None }
    requires limits { R.limits_of node.state ≡ N.limits }
    requires passes { (passes ≡ N.passes) × IsPassCount passes }

    // The name is that of what it starts with.
    requires start { start ≡ record {
      book = N.book;
      told = N.told;
      failed = N.failed;
      passes = N.passes;
    } }
    ensures passes { IfOk result (λ r. r.1.items ≡ new_passes passes) }
    ensures count { IfOk result (λ r. vec_len r.1 ≡ passes) }

    // No ask has been answered: if it were closed now, the node would have the records of its opening.
    ensures unasked { IfOk result (λ r. (told_count r.1.items ≡ 0) × (failed_count r.1.items ≡ 0)) }
{
    let Start {
        history,
        told,
        failed,
    } = start;
    let (appender, entries) = history.named::<N>(alloc, MAX_RECORDS)?;
    let known = Known::opening(entries, node.count());
    let writer = publish_state::<R, D, N, H>(rt, alloc, &node, &known, passes)?;
    let (told, mut told_count) = told.open::<ToldLedger<R::Rec, N>>();
    let (failed, mut failed_count) = failed.open::<FailedLedger<R::Rec, N>>();
    let no_told = told_count.empty();
    let no_failed = failed_count.empty();
    let all = make_passes(
        alloc,
        &writer,
        &known,
        &mut told_count,
        &mut failed_count,
        passes,
    )?;
    let desk = Desk {
        node,
        appender,
        known,
        writer,
        kept: None,
        maker: 0,
        told,
        failed,
        no_told,
        no_failed,
    };
    let live = LiveNode {
        desk: Mutex::new(desk),
    };
    Ok((live, all))
}

impl<R: Rules, D: Disk, N: Run<R::Rec>, H: Wait + Drop> LiveNode<
    R,
    D,
    N,
    H,
    Published<R, N>,
    Change<R, N>,
> {
    /// Answers a request of a pass of this node. One thread at a time asks, the others wait. On success the
    /// pass has seen all records that the reply stands on.
    pub fn ask<W: Wait>(
        &self,
        rt: &W,
        pass: &mut Pass<R, N>,
        request: &R::Request,
    ) -> Result<Told<R::Reply>, LiveFault<D>>
        requires valid { R.is_request request.now }

        // The reply is what is decided at the records that the pass has seen, or, if one was stored, before the last.
        ensures told { IfOk result (λ told. HasAsked ⟦<R as Rules>⟧ N.limits N.opening request.now
            pass.old pass.new told) }
        ensures seen { IsPrefix pass.old.seen pass.new.seen }
        ensures same { pass.new ≡ record pass.old {
          seen = pass.new.seen;
          told = pass.new.told;
          failed = pass.new.failed;
        } }
        ensures not_failed { OnOk result (pass.new.failed ≡ pass.old.failed) }

        // Each fault has its cause.
        ensures failed { IfErr result (λ fault. HasFailed ⟦<R as Rules>⟧ N.limits N.opening request.now
            pass.old pass.new fault) }
    {
        self.desk.lock(rt).ask(pass, request)
    }

    /// Gives the node back. These are all its passes.
    pub fn close(self, passes: Vec<Pass<R, N>>) -> Closed<R, D>
        requires { vec_len passes ≡ N.passes }
        ensures { IsClosed ⟦<R as Rules>⟧ D.Reports N.limits N.opening passes.items result.node result.asked }
    {
        let LiveNode { desk } = self;
        desk.into_inner().close(passes)
    }
}
