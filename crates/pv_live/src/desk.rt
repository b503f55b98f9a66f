//! What lies under the lock: the node, its history, and the writer of the two copies.
ghost use Rattle.std.specs.Prelude.{◌≡◌, ◌≢◌, ◌⊎◌, ℕ, List, ◌+◌, ◌<◌, ◌≤◌, ◌++◌, ◌∷◌, [], length, true, false, None, Some, IfOk, IfErr, IfSome, OnOk, OnErr, IsErr, vec_len};
ghost use mathlib.Core.List.{IsPrefix};
ghost use Rattle.left_right.specs.Handles.{published, pending};
ghost use Rattle.pv_journal.specs.Journal.{Spends};
ghost use Rattle.pv_node.specs.Standing.{StandsFor};
ghost use Rattle.pv_node.specs.Asking.{to_store};
ghost use Rattle.pv_node.specs.declared.decision.Decision.TheVariants.{Store};
ghost use Rattle.pv_live.specs.declared.entry.Entry.{Entry};
ghost use Rattle.pv_live.specs.Entries.{with_opening};
ghost use Rattle.pv_live.specs.Run.{Judges, IsMade, IsRun};
ghost use Rattle.pv_live.specs.Pass.{Standing, told_count, failed_count, EachHasSeenPrefix};
ghost use Rattle.pv_live.specs.Board.{waiting_changes, IsSupplied};
ghost use Rattle.pv_live.specs.Asking.{EndsInDiskFault, IsUnkept, Waits, IfKept, HasSeenAll, Settles, stored_place, Grows, HasAsked, HasFailed};
ghost use Rattle.pv_live.specs.Closing.{IsClosed};

use crate::copies::{Change, Published};
use crate::entry::Entry;
use crate::fault::LiveFault;
use crate::known::Known;
use crate::pass::Pass;
use crate::run::{FailedLedger, Run, ToldLedger};
use left_right::{Absorb, WriteHandle};
use pv_history::Appender;
use pv_node::{AskFault, Decision, Node, Rules, Told};
use pv_outside::Disk;
use std::marker::Model;
use std::sync::Wait;
use std::sync::ledger::{Book, Share};

/// A node that was closed, and how many records it has stored since it was opened.
#[derive(Drop)]
pub struct Closed<R: Rules, D: Disk> {
    /// The node.
    pub node: Node<R, D>,
    /// How many records were stored.
    pub asked: u64,
}

/// A node, its history and the writer of its copies: what one thread at a time has, under the lock. The
/// last two parameters are always [`Published`] and [`Change`].
#[derive(Drop)]
pub struct Desk<
    R: Rules,
    D: Disk,
    N: Run<R::Rec>,
    H: Wait + Drop,
    T: Absorb<O, State = [Entry<R::Rec>; 0]> + Drop,
    O: Drop,
> {
    pub(crate) node: Node<R, D>,
    pub(crate) appender: Appender<Entry<R::Rec>, N>,
    pub(crate) known: Known<R::Rec, N>,
    pub(crate) writer: WriteHandle<T, O, H>,
    /// A change that the writer had no memory for.
    pub(crate) kept: Option<O>,
    /// The number of the pass whose record is in hand.
    pub(crate) maker: u64,
    pub(crate) told: Book<ToldLedger<R::Rec, N>>,
    pub(crate) failed: Book<FailedLedger<R::Rec, N>>,
    /// Shares without parts, to which the closing adds those of the passes.
    pub(crate) no_told: Share<ToldLedger<R::Rec, N>>,
    pub(crate) no_failed: Share<FailedLedger<R::Rec, N>>,
}

impl<
    R: Rules,
    D: Disk,
    N: Run<R::Rec>,
    H: Wait + Drop,
    T: Absorb<O, State = [Entry<R::Rec>; 0]> + Drop,
    O: Drop,
> Model for Desk<R, D, N, H, T, O> {
    ghost use Rattle.std.specs.Prelude.{◌≡◌, length, fold};
    ghost use Rattle.left_right.specs.Handles.{published as shown, pending};
    ghost use Rattle.pv_live.specs.Board.{Board, IsDesk, IsSupplied, waiting_changes};

    ghost Value = { Board D R.State R.Rec };

    ghost view = { λ d. record {
      node = d.node;
      log = d.known;
      published = T.state (shown d.writer);
      waiting = length (waiting_changes (pending d.writer) d.kept);
      maker = d.maker;
    } };

    ghost invariant = { λ d. IsDesk R.Rules D.Reports N.limits N.opening d.node d.known d.told.total
        d.failed.total
        × (fold T.applied (T.state (shown d.writer)) (waiting_changes (pending d.writer) d.kept) ≡ d.known)
        × (d.no_told.parts ≡ 0) × (d.no_told.amount ≡ 0)
        × (d.no_failed.parts ≡ 0) × (d.no_failed.amount ≡ 0) × IsSupplied d.appender d.known };
}

/// Hands the kept change to the writer, and returns whether there is none now.
fn hand_over<T: Absorb<O> + Drop, O: Drop, H: Wait + Drop>(
    writer: &mut WriteHandle<T, O, H>,
    kept: &mut Option<O>,
) -> bool
    ensures published { published writer.new ≡ published writer.old }
    ensures waiting { waiting_changes (pending writer.new) kept.new
        ≡ waiting_changes (pending writer.old) kept.old }
    ensures none { result ≡ true → kept.new ≡ None }
{
    let Some(change) = kept.take() else {
        return true;
    };
    match writer.append(change) {
        Ok(()) => true,
        Err(change) => {
            *kept = Some(change);
            false
        }
    }
}

/// Adds a record to the history, all of which is known. `count` is how many records there are then. Returns
/// the change that is to be published.
fn take_in<R: Rules, N: Run<R::Rec>>(
    appender: &mut Appender<Entry<R::Rec>, N>,
    known: &mut Known<R::Rec, N>,
    entry: Entry<R::Rec>,
    count: u64,
) -> Change<R, N>
    requires counted { count ≡ length N.opening + length known.old + 1 }
    requires made { IsMade ⟦<R as Rules>⟧ N.limits (with_opening N.opening known.old) entry.rec }
    requires supplied { IsSupplied appender.old known.old }

    // The record is known, and the change has it.
    ensures supplied { IsSupplied appender.new known.new }
    ensures known { known.new ≡ known.old ++ entry ∷ [] }
    ensures change { result ≡ known.new }
{
    known.append(appender, &entry, count);
    Change::new(entry, known.copy())
}

/// Adds the shares of these passes. None has seen more than is known.
pub fn gather<R: Rules, N: Run<R::Rec>>(
    appender: &mut Appender<Entry<R::Rec>, N>,
    known: &Known<R::Rec, N>,
    told: &mut Share<ToldLedger<R::Rec, N>>,
    failed: &mut Share<FailedLedger<R::Rec, N>>,
    passes: Vec<Pass<R, N>>,
)
    requires whole { appender.old.count ≡ length known.now }
    ensures parts { (told.new.parts ≡ told.old.parts + vec_len passes)
        × (failed.new.parts ≡ failed.old.parts + vec_len passes) }
    ensures amounts { (told.new.amount ≡ told.old.amount + told_count passes.items)
        × (failed.new.amount ≡ failed.old.amount + failed_count passes.items) }
    ensures seen { EachHasSeenPrefix known.now passes.items }
{
    let mut passes = passes;
    while let Some(pass) = passes.pop() {
        let Pass {
            reader: _,
            number: _,
            known: mut seen,
            told: its_told,
            failed: its_failed,
            looks: _,
        } = pass;
        seen.catch_up(appender, known);
        told.merge(its_told);
        failed.merge(its_failed);
    }
}

impl<R: Rules, D: Disk, N: Run<R::Rec>, H: Wait + Drop> Desk<
    R,
    D,
    N,
    H,
    Published<R, N>,
    Change<R, N>,
> {
    /// The node. It stands for the records of the opening and for all that were stored since, which are a
    /// run.
    pub fn node(&self) -> &Node<R, D>
        ensures node { result.now ≡ self.now.node }
        ensures stands { StandsFor ⟦<R as Rules>⟧ D.Reports result.now (with_opening N.opening self.now.log) }
        ensures run { IsRun ⟦<R as Rules>⟧ N.limits N.opening self.now.log }
    {
        &self.node
    }

    /// Publishes what waits.
    fn flush(&mut self) -> bool
        ensures same { self.new ≡ record self.old {
          published = self.new.published;
          waiting = self.new.waiting;
        } }
        ensures done { result ≡ true → (self.new.waiting ≡ 0) × (self.new.published ≡ self.new.log) }
        ensures out_of_memory { result ≡ false → self.new.waiting ≡ self.old.waiting }
    {
        hand_over(&mut self.writer, &mut self.kept) && self.writer.publish().is_ok()
    }

    /// Publishes what waits. The pass has seen it then. Returns false if no memory was found, and then
    /// nothing has changed.
    fn publish(&mut self, pass: &mut Pass<R, N>) -> bool
        ensures same { self.new ≡ record self.old {
          published = self.new.published;
          waiting = self.new.waiting;
        } }
        ensures done { result ≡ true → HasSeenAll pass.old pass.new self.new }
        ensures out_of_memory { result ≡ false
            → (pass.new ≡ pass.old) × (self.new.waiting ≡ self.old.waiting) }
    {
        if !self.flush() {
            return false;
        }
        pass.known.catch_up(&mut self.appender, &self.known);
        true
    }

    /// Finds out whether the record in hand is stored. If it is, it waits to be published.
    fn settle(&mut self, pass: &mut Pass<R, N>) -> Result<(), D::Failure>
        requires published { self.old.waiting ≡ 0 }
        requires seen { pass.old.seen ≡ self.old.log }

        ensures grows { Settles self.old self.new }
        ensures settled { OnOk result ((self.new.node.hand ≡ None) × (pass.new ≡ pass.old)) }
        ensures unsettled { OnErr result ((self.new.log ≡ self.old.log)
            × (pass.new ≡ record pass.old { failed = pass.old.failed + 1 })
            × (length N.opening + length self.new.log < N.limits.records)) }
        ensures spends { Spends D.Reports 2 (IsErr result)
            self.old.node.journal.disk self.new.node.journal.disk }
    {
        match self.node.settle() {
            Err(failure) => {
                self.failed.add(&mut pass.failed, 1);
                Err(failure)
            }
            Ok(None) => Ok(()),
            Ok(Some(rec)) => {
                let entry = Entry {
                    rec,
                    pass: self.maker,
                };
                let count = self.node.count();
                self.kept = Some(take_in(&mut self.appender, &mut self.known, entry, count));
                Ok(())
            }
        }
    }

    /// Lets the node answer a request, at which this record is to be stored. It waits to be published then.
    fn store(
        &mut self,
        pass: &mut Pass<R, N>,
        request: &R::Request,
        rec: R::Rec,
    ) -> Result<Told<R::Reply>, LiveFault<D>>
        requires valid { R.is_request request.now }
        requires judged { to_store (R.judgement self.old.node.state request.now) ≡ Some rec }
        requires published { self.old.waiting ≡ 0 }
        requires settled { self.old.node.hand ≡ None }
        requires seen { pass.old.seen ≡ self.old.log }

        ensures told { IfOk result (λ told. HasAsked ⟦<R as Rules>⟧ N.limits N.opening request.now pass.old
            (record pass.new { seen = self.new.log }) told) }
        ensures waits { OnOk result (self.new.waiting ≡ 1) }

        // Each fault has its cause, and none is of publishing.
        ensures failed { IfErr result (λ fault. HasFailed ⟦<R as Rules>⟧ N.limits N.opening request.now
            pass.old pass.new fault) }
        ensures unkept { IfErr result IsUnkept }

        // What it does to the pass, to the history and to the disk.
        ensures same { pass.new ≡ record pass.old { told = pass.new.told; failed = pass.new.failed } }
        ensures not_failed { OnOk result (pass.new.failed ≡ pass.old.failed) }
        ensures grows { Grows ⟦<R as Rules>⟧ N.limits N.opening request.now pass.old.number
            (stored_place result) self.old self.new }
        ensures spends { Spends D.Reports 6 (EndsInDiskFault result)
            self.old.node.journal.disk self.new.node.journal.disk }
    {
        match self.node.ask(request) {
            Ok(told) => {
                let entry = Entry {
                    rec,
                    pass: pass.number,
                };
                let count = self.node.count();
                self.kept = Some(take_in(&mut self.appender, &mut self.known, entry, count));
                self.told.add(&mut pass.told, 1);
                Ok(told)
            }
            Err(AskFault::Disk(failure)) => {
                self.failed.add(&mut pass.failed, 1);
                self.maker = pass.number;
                Err(LiveFault::Disk(failure))
            }
            Err(AskFault::Full { count }) => Err(LiveFault::Full { count }),
        }
    }

    /// Decides on the request at the node's state, and stores what is to be stored.
    fn decide(
        &mut self,
        pass: &mut Pass<R, N>,
        request: &R::Request,
    ) -> Result<Told<R::Reply>, LiveFault<D>>
        requires valid { R.is_request request.now }
        requires published { self.old.waiting ≡ 0 }
        requires settled { self.old.node.hand ≡ None }
        requires seen { pass.old.seen ≡ self.old.log }

        ensures told { IfOk result (λ told. HasAsked ⟦<R as Rules>⟧ N.limits N.opening request.now pass.old
            (record pass.new { seen = self.new.log }) told) }
        ensures waits { IfOk result (λ told. IfSome told.number (λ place. self.new.waiting ≡ 1)) }

        // Each fault has its cause, and none is of publishing.
        ensures failed { IfErr result (λ fault. HasFailed ⟦<R as Rules>⟧ N.limits N.opening request.now
            pass.old pass.new fault) }
        ensures unkept { IfErr result IsUnkept }

        // What it does to the pass, to the history and to the disk.
        ensures same { pass.new ≡ record pass.old { told = pass.new.told; failed = pass.new.failed } }
        ensures not_failed { OnOk result (pass.new.failed ≡ pass.old.failed) }
        ensures grows { Grows ⟦<R as Rules>⟧ N.limits N.opening request.now pass.old.number
            (stored_place result) self.old self.new }
        ensures spends { Spends D.Reports 6 (EndsInDiskFault result)
            self.old.node.journal.disk self.new.node.journal.disk }
    {
        match self.decision(request) {
            Decision::Answer(reply) => Ok(Told {
                reply,
                number: None,
            }),
            Decision::Store(rec, reply) => {
                drop(reply);
                self.store(pass, request, rec)
            }
        }
    }

    /// What is decided on the request at the node's state.
    fn decision(&self, request: &R::Request) -> Decision<R::Rec, R::Reply>
        requires { R.is_request request.now }
        ensures value { result ≡ R.judgement self.now.node.state request.now }
        ensures judged { Judges ⟦<R as Rules>⟧ N.limits (with_opening N.opening self.now.log) request.now
            result }
    {
        R::decide(self.node.state(), request)
    }

    /// Answers a request of a pass. It publishes what an earlier ask has kept, settles what is in hand and
    /// publishes that, decides and stores, and publishes what was stored. After each of these the pass has
    /// seen all records.
    pub fn ask(
        &mut self,
        pass: &mut Pass<R, N>,
        request: &R::Request,
    ) -> Result<Told<R::Reply>, LiveFault<D>>
        requires valid { R.is_request request.now }

        // The pass has seen all records, and nothing waits to be published.
        ensures whole { OnOk result ((pass.new.seen ≡ self.new.log) × (self.new.published ≡ self.new.log)
            × (self.new.waiting ≡ 0)) }
        ensures told { IfOk result (λ told. HasAsked ⟦<R as Rules>⟧ N.limits N.opening request.now
            pass.old pass.new told) }
        ensures seen { IsPrefix pass.old.seen pass.new.seen }
        ensures same { pass.new ≡ record pass.old {
          seen = pass.new.seen;
          told = pass.new.told;
          failed = pass.new.failed;
        } }
        ensures not_failed { OnOk result (pass.new.failed ≡ pass.old.failed) }

        // Each fault has its cause. A record that was stored, but not published, waits.
        ensures failed { IfErr result (λ fault. HasFailed ⟦<R as Rules>⟧ N.limits N.opening request.now
            pass.old pass.new fault) }
        ensures kept { IfErr result (λ fault. IfKept fault (Waits N.opening pass.old self.new)) }

        // A failure of the disk is one of its count of faults. The history grows by the record that was in hand, for
        // the pass whose ask made it, and by the one that is stored for this pass.
        ensures spends { Spends D.Reports 8 (EndsInDiskFault result)
            self.old.node.journal.disk self.new.node.journal.disk }
        ensures grows { Grows ⟦<R as Rules>⟧ N.limits N.opening request.now pass.old.number
            (stored_place result) self.old self.new }
    {
        if !self.publish(pass) {
            return Err(LiveFault::Memory { stored: None });
        }
        if let Err(failure) = self.settle(pass) {
            return Err(LiveFault::Disk(failure));
        }
        if !self.publish(pass) {
            return Err(LiveFault::Memory { stored: None });
        }
        let told = match self.decide(pass, request) {
            Ok(told) => told,
            Err(fault) => return Err(fault),
        };
        if !self.publish(pass) {
            return Err(LiveFault::Memory {
                stored: told.number,
            });
        }
        Ok(told)
    }

    /// Gives the node back. These are all its passes.
    pub(crate) fn close(self, passes: Vec<Pass<R, N>>) -> Closed<R, D>
        requires { vec_len passes ≡ N.passes }
        ensures { IsClosed ⟦<R as Rules>⟧ D.Reports N.limits N.opening passes.items result.node result.asked }
    {
        let Self {
            node,
            mut appender,
            known,
            writer,
            kept: _,
            maker: _,
            mut told,
            mut failed,
            no_told,
            no_failed,
        } = self;
        let mut told_count = no_told;
        let mut failed_count = no_failed;
        gather(
            &mut appender,
            &known,
            &mut told_count,
            &mut failed_count,
            passes,
        );
        told.audit(&mut told_count);
        failed.audit(&mut failed_count);
        writer.take();
        Closed {
            node,
            asked: known.count(),
        }
    }
}
