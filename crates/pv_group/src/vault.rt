//! What lies under the lock of those who store: the journal, and what was taken from the desk.
ghost use Rattle.std.specs.Prelude.{◌≡◌, ◌⊎◌, ℕ, ◌+◌, ◌<◌, ◌≤◌, nat_le, List, ◌++◌, ◌∷◌, [], length, vec_len, IfOk, IfErr, OnOk, OnErr, IsErr};
ghost use Rattle.std.specs.List.{list_all};
ghost use mathlib.Core.List.{IsPrefix};
ghost use Rattle.pv_journal.specs.Journal.{Holds, Spends, HasMade};
ghost use Rattle.pv_journal.specs.Log.{IsAtRest};
ghost use Rattle.pv_live.specs.declared.entry.Entry.{Entry};
ghost use Rattle.pv_live.specs.Asking.{EndsInDiskFault};
ghost use Rattle.pv_group.specs.Closing.{IsDiskLeft};
ghost use Rattle.pv_group.specs.Vault.{all_bodies, LeavesGroups};
ghost use Rattle.pv_group.specs.Answers.{IsOutcome, AnswersAsk, EndsBeforeDeciding, AskEnds, stored_by};

use crate::desk::Desk;
use crate::outcome::{Decided, LeftDisk, NotDecided};
use crate::run::{GroupRun, TakenLedger};
use left_right::Absorb;
use pv_journal::{AppendFault, Batch, Journal};
use pv_live::{Change, Entry, Known, LiveFault, Pass, Published};
use pv_node::{Rules, Told};
use pv_outside::Disk;
use std::marker::Model;
use std::mem;
use std::sync::ledger::Share;
use std::sync::{Mutex, Wait};

/// What stores: the journal, and the group of records that was taken from the desk.
#[derive(Drop)]
pub struct Vault<R: Rules, D: Disk, N: GroupRun<R::Rec>> {
    pub(crate) journal: Journal<D>,
    /// The bodies that were taken and are not known to be stored.
    batch: Batch,
    /// All records that are stored.
    pub(crate) stored: Known<R::Rec, N>,
    /// All records that were taken to be stored.
    taken: Known<R::Rec, N>,
    share: Share<TakenLedger<R::Rec, N>>,
}

impl<R: Rules, D: Disk, N: GroupRun<R::Rec>> Model for Vault<R, D, N> {
    ghost use Rattle.std.specs.Prelude.{◌≡◌, length};
    ghost use Rattle.pv_group.specs.Vault.{Shelf, IsShelf};

    ghost Value = { Shelf D R.Rec };

    ghost view = { λ v. record { journal = v.journal; batch = v.batch; stored = v.stored; taken = v.taken } };

    ghost invariant = { λ v. IsShelf R.Rules D.Reports N.opening N.limits
        (record { journal = v.journal; batch = v.batch; stored = v.stored; taken = v.taken })
        × (v.share.parts ≡ 1) × (v.share.amount ≡ length v.taken) };
}

impl<R: Rules, D: Disk, N: GroupRun<R::Rec>> Vault<R, D, N> {
    /// A vault over a journal at rest, which holds the records of the opening.
    pub(crate) fn new(
        journal: Journal<D>,
        known: &Known<R::Rec, N>,
        share: Share<TakenLedger<R::Rec, N>>,
    ) -> Vault<R, D, N>
        requires opening { known.now ≡ [] }
        requires holds { Holds D.Reports journal (all_bodies ⟦<R as Rules>⟧ N.opening []) }
        requires limit { journal.limit ≡ N.limits.records }
        requires share { (share.parts ≡ 1) × (share.amount ≡ 0) }
    {
        Vault {
            journal,
            batch: Batch::new(),
            stored: known.copy(),
            taken: known.copy(),
            share,
        }
    }

    /// Takes what waits at the desk, to be stored. All that was taken before is stored.
    pub(crate) fn take<H: Wait + Drop, T: Absorb<O, State = [Entry<R::Rec>; 0]> + Drop, O: Drop>(
        &mut self,
        desk: &mut Desk<R, N, H, T, O>,
        upto: &Known<R::Rec, N>,
    )
        requires none_left { self.old.taken ≡ self.old.stored }

        // All that was decided is taken, and so these records are.
        ensures taken { self.new.taken ≡ desk.old.log }
        ensures upto { IsPrefix upto.now self.new.taken }
        ensures same { self.new ≡ record self.old { batch = self.new.batch; taken = self.new.taken } }

        // Nothing waits at the desk any more.
        ensures none_staged { desk.new.staged.count ≡ 0 }
        ensures desk { desk.new ≡ record desk.old { taken = length desk.old.log; staged = desk.new.staged } }
    {
        let mut all = upto.copy();
        all.catch_up(&mut desk.appender, &desk.known);
        desk.taken.audit(&mut self.share);
        let before = self.taken.count();
        self.taken.catch_up(&mut desk.appender, &desk.known);
        desk.taken.add(&mut self.share, self.taken.count() - before);
        mem::swap(&mut desk.staged, &mut self.batch);
    }

    /// Appends the group that was taken, by four calls of the disk. After a failure it is in hand.
    fn append(&mut self) -> Result<(), D::Failure>
        requires at_rest { IsAtRest self.old.journal }
        requires some { 0 < self.old.batch.count }
        ensures stored { OnOk result (self.new.stored ≡ self.old.taken) }
        ensures at_rest { OnOk result (IsAtRest self.new.journal) }
        ensures all_four { OnOk result (HasMade D.Reports 4 self.old.journal.disk self.new.journal.disk) }

        // After a failure nothing more is.
        ensures not_stored { OnErr result (self.new.stored ≡ self.old.stored) }
        ensures taken { self.new.taken ≡ self.old.taken }

        // A crash at any moment leaves what was stored, or that with the whole group.
        ensures moments { LeavesGroups ⟦<R as Rules>⟧ D.Reports N.opening self.old self.new }
        ensures spends { Spends D.Reports 4 (IsErr result)
            self.old.journal.disk self.new.journal.disk }
    {
        match self.journal.append_all(&self.batch) {
            Ok(_) => {
                self.batch.clear();
                self.stored = self.taken.copy();
                Ok(())
            }
            Err(AppendFault::Disk(failure)) => Err(failure),
            Err(AppendFault::Full { .. }) => unreachable!(),
        }
    }

    /// Finds out whether a group in hand is stored. Afterwards none is in hand; if it is not stored it may be
    /// appended again.
    fn settle(&mut self) -> Result<(), D::Failure>
        ensures at_rest { OnOk result (IsAtRest self.new.journal) }
        ensures stored { (self.new.stored ≡ self.old.stored) ⊎ (self.new.stored ≡ self.old.taken) }
        ensures taken { self.new.taken ≡ self.old.taken }
        ensures moments { LeavesGroups ⟦<R as Rules>⟧ D.Reports N.opening self.old self.new }
        ensures spends { Spends D.Reports 2 (IsErr result)
            self.old.journal.disk self.new.journal.disk }
    {
        match self.journal.settle() {
            Err(failure) => Err(failure),
            Ok(Some(true)) => {
                self.batch.clear();
                self.stored = self.taken.copy();
                Ok(())
            }
            Ok(Some(false)) => Ok(()),
            Ok(None) => Ok(()),
        }
    }

    /// Stores all that was taken. What an earlier call had in hand is settled first, and appended again if it is
    /// not stored.
    pub fn store(&mut self) -> Result<(), D::Failure>
        ensures all { OnOk result (self.new.stored ≡ self.old.taken) }
        ensures at_rest { OnOk result (IsAtRest self.new.journal) }
        ensures stored { (self.new.stored ≡ self.old.stored) ⊎ (self.new.stored ≡ self.old.taken) }
        ensures taken { self.new.taken ≡ self.old.taken }

        // A crash at any moment of it leaves each group whole, or nothing of it.
        ensures moments { LeavesGroups ⟦<R as Rules>⟧ D.Reports N.opening self.old self.new }
        ensures spends { Spends D.Reports 6 (IsErr result)
            self.old.journal.disk self.new.journal.disk }
    {
        if let Err(failure) = self.settle() {
            return Err(failure);
        }
        if self.batch.count() == 0 {
            return Ok(());
        }
        self.append()
    }

    /// Stores these records, and all that were decided before they are taken from the desk.
    fn store_upto<
        W: Wait,
        H: Wait + Drop,
        T: Absorb<O, State = [Entry<R::Rec>; 0]> + Drop,
        O: Drop,
    >(
        &mut self,
        rt: &W,
        desk: &Mutex<Desk<R, N, H, T, O>>,
        upto: &Known<R::Rec, N>,
    ) -> Result<(), D::Failure>
        ensures stored { OnOk result (IsPrefix upto.now self.new.stored) }
        ensures moments { LeavesGroups ⟦<R as Rules>⟧ D.Reports N.opening self.old self.new }
        ensures spends { Spends D.Reports 12 (IsErr result)
            self.old.journal.disk self.new.journal.disk }
    {
        if upto.is_prefix_of(&self.stored) {
            return Ok(());
        }
        if let Err(failure) = self.store() {
            return Err(failure);
        }
        if upto.is_prefix_of(&self.stored) {
            return Ok(());
        }
        self.take(&mut desk.lock(rt), upto);
        self.store()
    }

    /// Gives a pass what was decided, once all that it stands on is stored. If a call of the disk failed, the
    /// record of this ask may be stored or not, and is not counted as stored.
    pub fn give<W: Wait, H: Wait + Drop>(
        &mut self,
        rt: &W,
        desk: &Mutex<Desk<R, N, H, Published<R, N>, Change<R, N>>>,
        pass: &mut Pass<R, N>,
        decided: Decided<R, N>,
    ) -> Result<Told<R::Reply>, LiveFault<D>>
        requires counted { stored_by decided.outcome ≤ pass.old.told }
        ensures answered { AnswersAsk decided.outcome decided.upto pass.old pass.new result }
        ensures stored { OnOk result (IsPrefix decided.upto self.new.stored) }

        // A crash at any moment of it leaves each group whole, or nothing of it.
        ensures moments { LeavesGroups ⟦<R as Rules>⟧ D.Reports N.opening self.old self.new }
        ensures spends { Spends D.Reports 12 (EndsInDiskFault result)
            self.old.journal.disk self.new.journal.disk }
    {
        match self.store_upto(rt, desk, &decided.upto) {
            Ok(()) => desk.lock(rt).give(pass, decided, self),
            Err(failure) => {
                desk.lock(rt).take_back(pass, &decided.outcome);
                Err(LiveFault::Disk(failure))
            }
        }
    }

    /// Decides on a request that the desk has no room for: what waits there is taken first.
    fn decide<W: Wait, H: Wait + Drop>(
        &mut self,
        rt: &W,
        desk: &Mutex<Desk<R, N, H, Published<R, N>, Change<R, N>>>,
        pass: &mut Pass<R, N>,
        request: &R::Request,
    ) -> Result<Decided<R, N>, LiveFault<D>>
        requires valid { R.is_request request.now }
        requires room { length N.opening + length pass.old.seen < N.limits.records }

        // It is decided as at the desk.
        ensures decided { IfOk result (λ d. IsOutcome ⟦<R as Rules>⟧ N.limits N.opening request.now pass.old
            (record pass.new { seen = d.upto }) d.outcome) }
        ensures seen { IfOk result (λ d. IsPrefix pass.old.seen d.upto) }
        ensures within { IfOk result (λ d. length N.opening + length d.upto ≤ N.limits.records) }
        ensures same { OnOk result (pass.new ≡ record pass.old { told = pass.new.told }) }

        // Or memory or the disk failed before that.
        ensures undecided { IfErr result (EndsBeforeDeciding pass.old pass.new) }
        ensures spends { Spends D.Reports 6 (EndsInDiskFault result)
            self.old.journal.disk self.new.journal.disk }
    {
        if let Err(failure) = self.store() {
            desk.lock(rt).count_failed(pass);
            return Err(LiveFault::Disk(failure));
        }
        let mut desk = desk.lock(rt);
        self.take(&mut desk, pass.seen());
        match desk.decide(pass, request) {
            Ok(decided) => Ok(decided),
            Err(NotDecided::Memory) => Err(LiveFault::Memory { stored: None }),
            Err(NotDecided::NoRoom) => unreachable!(),
        }
    }

    /// Answers a request that the desk has no room for.
    pub(crate) fn ask<W: Wait, H: Wait + Drop>(
        &mut self,
        rt: &W,
        desk: &Mutex<Desk<R, N, H, Published<R, N>, Change<R, N>>>,
        pass: &mut Pass<R, N>,
        request: &R::Request,
    ) -> Result<Told<R::Reply>, LiveFault<D>>
        requires valid { R.is_request request.now }
        requires room { length N.opening + length pass.old.seen < N.limits.records }
        ensures { AskEnds ⟦<R as Rules>⟧ N.limits N.opening request.now pass.old pass.new result }
    {
        match self.decide(rt, desk, pass, request) {
            Ok(decided) => self.give(rt, desk, pass, decided),
            Err(fault) => Err(fault),
        }
    }

    /// Stores all that waits at a desk that nobody else has, and all that was taken from it.
    pub(crate) fn store_all<
        H: Wait + Drop,
        T: Absorb<O, State = [Entry<R::Rec>; 0]> + Drop,
        O: Drop,
    >(&mut self, desk: &mut Desk<R, N, H, T, O>) -> Result<(), D::Failure>
        ensures all { OnOk result (self.new.stored ≡ desk.new.log) }
        ensures at_rest { OnOk result (IsAtRest self.new.journal) }
        ensures spends { Spends D.Reports 12 (IsErr result)
            self.old.journal.disk self.new.journal.disk }
    {
        self.store()?;
        let stored = self.stored.copy();
        self.take(desk, &stored);
        self.store()
    }

    /// The journal. At rest it holds all that is stored.
    pub(crate) fn into_journal(self) -> Journal<D>
        ensures journal { result ≡ self.journal }
        ensures limit { result.limit ≡ N.limits.records }
        ensures holds { IsAtRest result
            → Holds D.Reports result (all_bodies ⟦<R as Rules>⟧ N.opening self.stored) }
    {
        self.journal
    }

    /// Gives the disk back, of which a call failed with this. These are all passes of the node, and its desk.
    pub(crate) fn leave<H: Wait + Drop>(
        self,
        desk: Desk<R, N, H, Published<R, N>, Change<R, N>>,
        passes: Vec<Pass<R, N>>,
        failure: D::Failure,
    ) -> LeftDisk<D>
        requires passes { vec_len passes ≡ N.passes }
        requires failed { 0 < D.faults self.journal.disk }
        ensures { IsDiskLeft ⟦<R as Rules>⟧ D.Reports N.limits N.opening passes.items result }
    {
        let Vault {
            journal,
            batch: _,
            stored,
            mut taken,
            share: _,
        } = self;
        let mut desk = desk;
        taken.catch_up(&mut desk.appender, &desk.known);
        let seen_is_stored = have_seen_at_most(&passes, stored.length());
        desk.count_up(passes);
        LeftDisk {
            failure,
            disk: journal.into_disk(),
            seen_is_stored,
        }
    }
}

/// Whether each of these passes has seen at most this many records.
fn have_seen_at_most<R: Rules, N: GroupRun<R::Rec>>(passes: &[Pass<R, N>], most: u64) -> bool
    ensures { result ≡ list_all (λ pass. nat_le (length N.opening + length pass.seen) most) passes.now }
{
    passes.iter().all(|pass| pass.length() <= most)
}
