ghost use Rattle.std.specs.Prelude.{◌≡◌, ◌+◌, ◌<◌, ◌≤◌, length, vec_len, None, Err, IfOk, IfErr, OnErr};
ghost use mathlib.Core.List.{IsPrefix};
ghost use Rattle.pv_node.specs.Standing.{StandsFor};
ghost use Rattle.pv_group.specs.declared.outcome.NotDecided.TheVariants.{NoRoom};
ghost use Rattle.pv_live.specs.Opening.{IsPassCount};
ghost use Rattle.pv_live.specs.Pass.{new_passes, told_count, failed_count};
ghost use Rattle.pv_group.specs.Answers.{IsOutcome, AnswersAsk, AskEnds, stored_by};
ghost use Rattle.pv_live.specs.Closing.{IsClosed};
ghost use Rattle.pv_group.specs.Closing.{IsDiskLeft};

use crate::desk::Desk;
use crate::outcome::{Decided, LeftDisk, NotDecided, Outcome};
use crate::run::{GroupRun, GroupStart, TakenLedger};
use crate::vault::Vault;
use left_right::Absorb;
use pv_journal::{Batch, MAX_BODY};
use pv_live::{
    Change, Closed, Entry, FailedLedger, Known, LiveFault, Pass, Published, ToldLedger,
    make_passes, publish_state,
};
use pv_node::{Node, Rules, Told};
use pv_outside::{Disk, MAX_RECORDS};
use std::alloc::{AllocError, Global};
use std::collections::VecDeque;
use std::sync::{Mutex, Wait};

/// A node under two locks: that of its desk, and that of its vault, which is taken first by who needs both.
/// [`Live`] says what the last two parameters are.
#[derive(Drop)]
pub struct LiveNode<
    R: Rules,
    D: Disk,
    N: GroupRun<R::Rec>,
    H: Wait + Drop,
    T: Absorb<O, State = [Entry<R::Rec>; 0]> + Drop,
    O: Drop,
> {
    desk: Mutex<Desk<R, N, H, T, O>>,
    vault: Mutex<Vault<R, D, N>>,
}

/// A node of these rules over this disk, in the run of this name, that threads share. `H` is the runtime
/// that the writer of its copies waits by.
pub type Live<R, D, N, H> = LiveNode<R, D, N, H, Published<R, N>, Change<R, N>>;

/// Shares a node, of which no record is in hand, among this many passes. The run is named by what it starts
/// with. If no memory is found the node is dropped, and its disk keeps what it held.
pub fn open_live<R: Rules, D: Disk + Drop, N: GroupRun<R::Rec>, H: Wait + Drop>(
    rt: H,
    alloc: Global,
    node: Node<R, D>,
    passes: usize,
    start: GroupStart<R::Rec>,
) -> Result<(Live<R, D, N, H>, Vec<Pass<R, N>>), AllocError>
    requires stands { StandsFor ⟦<R as Rules>⟧ D.Reports node N.opening }
    requires at_rest { node.hand ≡ None }
    requires limits { R.limits_of node.state ≡ N.limits }
    requires passes { (passes ≡ N.passes) × IsPassCount passes }

    // The name is that of what it starts with.
    requires start { start ≡ record {
      book = N.book;
      told = N.told;
      failed = N.failed;
      passes = N.passes;
      taken = N.taken;
    } }
    ensures passes { IfOk result (λ r. r.1.items ≡ new_passes passes) }
    ensures count { IfOk result (λ r. vec_len r.1 ≡ passes) }

    // No ask has been answered: if it were closed now, the node would have the records of its opening.
    ensures unasked { IfOk result (λ r. (told_count r.1.items ≡ 0) × (failed_count r.1.items ≡ 0)) }
{
    let (start, taken) = start.into_parts();
    let (history, told, failed) = start.into_parts();
    let (appender, entries) = history.named::<N>(alloc, MAX_RECORDS)?;
    let known = Known::opening(entries, node.count());
    let writer = publish_state::<R, D, N, H>(rt, alloc, &node, &known, passes)?;
    let (told, mut told_count) = told.open::<ToldLedger<R::Rec, N>>();
    let (failed, mut failed_count) = failed.open::<FailedLedger<R::Rec, N>>();
    let (taken, share) = taken.open::<TakenLedger<R::Rec, N>>();
    let no_told = told_count.empty();
    let no_failed = failed_count.empty();
    let all = make_passes(
        alloc,
        &writer,
        &known,
        &mut told_count,
        &mut failed_count,
        passes,
    )?;
    let (state, journal) = node.into_parts();
    let limit = journal.limit();
    let vault = Vault::new(journal, &known, share);
    let desk = Desk {
        state,
        appender,
        known,
        limit,
        staged: Batch::new(),
        body: [0; MAX_BODY],
        writer,
        changes: VecDeque::new(alloc),
        told,
        failed,
        taken,
        no_told,
        no_failed,
    };
    let live = LiveNode {
        desk: Mutex::new(desk),
        vault: Mutex::new(vault),
    };
    Ok((live, all))
}

impl<R: Rules, D: Disk, N: GroupRun<R::Rec>, H: Wait + Drop> LiveNode<
    R,
    D,
    N,
    H,
    Published<R, N>,
    Change<R, N>,
> {
    /// Decides on a request of a pass, ahead of the disk. What it stores is counted as stored, and waits to be
    /// stored with what else waits, by the next ask that stores anything or by the closing.
    pub fn decide<W: Wait>(
        &self,
        rt: &W,
        pass: &mut Pass<R, N>,
        request: &R::Request,
    ) -> Result<Decided<R, N>, NotDecided>
        requires valid { R.is_request request.now }

        // It is what the rules decide at all that was decided before, which is no less than the pass has seen.
        ensures decided { IfOk result (λ d. IsOutcome ⟦<R as Rules>⟧ N.limits N.opening request.now pass.old
            (record pass.new { seen = d.upto }) d.outcome) }
        ensures seen { IfOk result (λ d. IsPrefix pass.old.seen d.upto) }
        ensures within { IfOk result (λ d. length N.opening + length d.upto ≤ N.limits.records) }
        ensures same { pass.new ≡ record pass.old { told = pass.new.told } }
        ensures refused { OnErr result (pass.new ≡ pass.old) }

        // If the batch has no room, there is room for a record more.
        ensures no_room { result ≡ Err NoRoom → length N.opening + length pass.old.seen < N.limits.records }
    {
        self.desk.lock(rt).decide(pass, request)
    }

    /// Gives a pass what was decided for it, once all that it stands on is stored: the first who stores takes with
    /// him what all others have decided. If a call of the disk failed, a record of it may be stored or not.
    pub fn give<W: Wait>(
        &self,
        rt: &W,
        pass: &mut Pass<R, N>,
        decided: Decided<R, N>,
    ) -> Result<Told<R::Reply>, LiveFault<D>>
        requires counted { stored_by decided.outcome ≤ pass.old.told }
        ensures answered { AnswersAsk decided.outcome decided.upto pass.old pass.new result }
    {
        self.vault.lock(rt).give(rt, &self.desk, pass, decided)
    }

    /// Answers a request of a pass of this node. It is decided at once, and answered when all is stored that it
    /// stands on: the first who stores takes with him what all others have decided. On success the pass
    /// has seen all records that the reply stands on.
    pub fn ask<W: Wait>(
        &self,
        rt: &W,
        pass: &mut Pass<R, N>,
        request: &R::Request,
    ) -> Result<Told<R::Reply>, LiveFault<D>>
        requires valid { R.is_request request.now }

        // The reply is what is decided at the records that the pass has seen, or, if one was stored, before the last.
        // Each fault has its cause.
        ensures { AskEnds ⟦<R as Rules>⟧ N.limits N.opening request.now pass.old pass.new result }
    {
        match self.decide(rt, pass, request) {
            Ok(decided) if decided.upto.length() == pass.length() => {
                // All that it stands on was shown to the pass, so it is stored.
                let Decided { upto: _, outcome } = decided;
                match outcome {
                    Outcome::Replied(told) => Ok(told),
                    Outcome::Full { count } => Err(LiveFault::Full { count }),
                }
            }
            Ok(decided) => self.give(rt, pass, decided),
            Err(NotDecided::Memory) => Err(LiveFault::Memory { stored: None }),
            Err(NotDecided::NoRoom) => self.vault.lock(rt).ask(rt, &self.desk, pass, request),
        }
    }

    /// Gives the node back, once all that was decided is stored. These are all its passes. If a call of the disk
    /// failed, the disk is given back with the failure.
    pub fn close(self, passes: Vec<Pass<R, N>>) -> Result<Closed<R, D>, LeftDisk<D>>
        requires { vec_len passes ≡ N.passes }
        ensures closed { IfOk result (λ closed. IsClosed ⟦<R as Rules>⟧ D.Reports N.limits N.opening
            passes.items closed.node closed.asked) }
        ensures left { IfErr result (λ left. IsDiskLeft ⟦<R as Rules>⟧ D.Reports N.limits N.opening
            passes.items left) }
    {
        let LiveNode { desk, vault } = self;
        let (mut desk, mut vault) = (desk.into_inner(), vault.into_inner());
        match vault.store_all(&mut desk) {
            Ok(()) => Ok(desk.close(vault.into_journal(), passes)),
            Err(failure) => Err(vault.leave(desk, passes, failure)),
        }
    }
}
