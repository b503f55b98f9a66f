//! What lies under the lock of those who decide: the state that runs ahead of the disk, and what waits to be
//! stored and to be shown.
ghost use Rattle.std.specs.Prelude.{◌≡◌, ℕ, ◌+◌, ◌<◌, ◌≤◌, List, ◌++◌, ◌∷◌, [], length, vec_len, fold, true, false, Err, IfOk, OnOk, OnErr, IfErr};
ghost use mathlib.Core.List.{IsPrefix};
ghost use Rattle.pv_group.specs.declared.outcome.NotDecided.TheVariants.{NoRoom};
ghost use Rattle.left_right.specs.Handles.{published, pending};
ghost use Rattle.pv_journal.specs.Batch.{Pack};
ghost use Rattle.pv_live.specs.Entries.{with_opening};
ghost use Rattle.pv_journal.specs.Journal.{Holds};
ghost use Rattle.pv_live.specs.Run.{IsMade};
ghost use Rattle.pv_live.specs.Pass.{told_count, failed_count, EachHasSeenPrefix};
ghost use Rattle.pv_live.specs.Closing.{IsClosed};
ghost use Rattle.pv_group.specs.Vault.{all_bodies};
ghost use Rattle.pv_group.specs.Desk.{ShowsOnly, IsAhead};
ghost use Rattle.pv_group.specs.Answers.{IsOutcome, GivesOutcome, IsTakenBack, stored_by};

use crate::outcome::{Decided, NotDecided, Outcome};
use crate::run::{GroupRun, TakenLedger};
use crate::vault::Vault;
use left_right::{Absorb, WriteHandle};
use pv_history::Appender;
use pv_journal::{Batch, Journal, MAX_BODY};
use pv_live::{
    Change, Closed, Entry, FailedLedger, Known, LiveFault, Pass, Published, ToldLedger, gather,
};
use pv_node::{Decision, Node, Rules, Told, spell};
use pv_outside::Disk;
use std::collections::VecDeque;
use std::marker::Model;
use std::sync::Wait;
use std::sync::ledger::{Book, Share};

/// Where requests are decided: what one thread at a time has, under a lock that no call of the disk is made
/// under. The last two parameters are always [`Published`] and [`Change`].
#[derive(Drop)]
pub struct Desk<
    R: Rules,
    N: GroupRun<R::Rec>,
    H: Wait + Drop,
    T: Absorb<O, State = [Entry<R::Rec>; 0]> + Drop,
    O: Drop,
> {
    /// The state of all that was decided.
    pub(crate) state: R::State,
    pub(crate) appender: Appender<Entry<R::Rec>, N>,
    /// All that was decided.
    pub(crate) known: Known<R::Rec, N>,
    /// How many records there may be.
    pub(crate) limit: u32,
    /// The bodies that wait to be stored.
    pub(crate) staged: Batch,
    pub(crate) body: [u8; MAX_BODY],
    pub(crate) writer: WriteHandle<T, O, H>,
    /// The changes that the writer does not have yet, oldest first.
    pub(crate) changes: VecDeque<O>,
    pub(crate) told: Book<ToldLedger<R::Rec, N>>,
    pub(crate) failed: Book<FailedLedger<R::Rec, N>>,
    pub(crate) taken: Book<TakenLedger<R::Rec, N>>,
    /// Shares without parts, to which the closing adds those of the passes.
    pub(crate) no_told: Share<ToldLedger<R::Rec, N>>,
    pub(crate) no_failed: Share<FailedLedger<R::Rec, N>>,
}

impl<
    R: Rules,
    N: GroupRun<R::Rec>,
    H: Wait + Drop,
    T: Absorb<O, State = [Entry<R::Rec>; 0]> + Drop,
    O: Drop,
> Model for Desk<R, N, H, T, O> {
    ghost use Rattle.std.specs.Prelude.{◌≡◌, ◌++◌, length};
    ghost use Rattle.left_right.specs.Handles.{published as shown, pending};
    ghost use Rattle.pv_live.specs.Board.{IsSupplied};
    ghost use Rattle.pv_group.specs.Desk.{DeskView, AddsUpTo, IsAhead, IsStaged};

    ghost Value = { DeskView R.State R.Rec };

    ghost view = { λ d. record {
      state = d.state;
      log = d.known;
      taken = d.taken.total;
      staged = d.staged;
      published = T.state (shown d.writer);
      waiting = length d.changes.items;
    } };

    ghost invariant = { λ d. IsAhead R.Rules N.limits N.opening d.state d.known d.told.total d.failed.total
        × IsStaged R.Rules d.known d.taken.total d.staged
        × AddsUpTo T.applied (T.state (shown d.writer)) (pending d.writer ++ d.changes.items) d.known
        × (d.limit ≡ N.limits.records) × IsSupplied d.appender d.known
        × (d.no_told.parts ≡ 0) × (d.no_told.amount ≡ 0)
        × (d.no_failed.parts ≡ 0) × (d.no_failed.amount ≡ 0) };
}

/// Hands the change that has waited longest to the writer. Returns false if no memory was found, and then
/// nothing has changed.
fn hand_over<T: Absorb<O> + Drop, O: Drop, H: Wait + Drop>(
    writer: &mut WriteHandle<T, O, H>,
    changes: &mut VecDeque<O>,
) -> bool
    requires some { 0 < length changes.old.items }
    ensures published { published writer.new ≡ published writer.old }
    ensures waiting { pending writer.new ++ changes.new.items ≡ pending writer.old ++ changes.old.items }
    ensures one_less { result ≡ true → length changes.new.items + 1 ≡ length changes.old.items }
    ensures none_less { result ≡ false → changes.new.items ≡ changes.old.items }
{
    let Some(change) = changes.pop_front() else {
        return false;
    };
    match writer.append(change) {
        Ok(()) => true,
        Err(change) => {
            changes.push_front_reserved(change);
            false
        }
    }
}

/// Publishes the `count` changes that have waited longest, after those that the writer has. Returns false if no
/// memory was found, and then readers take what they took.
fn publish_first<T: Absorb<O> + Drop, O: Drop, H: Wait + Drop>(
    writer: &mut WriteHandle<T, O, H>,
    changes: &mut VecDeque<O>,
    count: usize,
) -> bool
    requires count { count ≤ length changes.old.items }
    ensures done { result ≡ true → (shown : List O)
        × (pending writer.old ++ changes.old.items ≡ shown ++ changes.new.items)
        × (pending writer.new ≡ [])
        × (T.state (published writer.new) ≡ fold T.applied (T.state (published writer.old)) shown)
        × (length changes.new.items + count ≡ length changes.old.items) }
    ensures out_of_memory { result ≡ false → (published writer.new ≡ published writer.old)
        × (pending writer.new ++ changes.new.items ≡ pending writer.old ++ changes.old.items)
        × (length changes.old.items ≤ length changes.new.items + count) }
{
    for _ in 0..count {
        if !hand_over(writer, changes) {
            return false;
        }
    }
    writer.publish().is_ok()
}

/// Takes a record into the state that the next request is judged at, and returns the place of the next record.
fn take_in<R: Rules>(state: &mut R::State, rec: &R::Rec, place: u64) -> u64
    requires spelled { R.is_record rec.now }
    requires room { R.fits state.old rec.now }
    requires next { place ≡ R.count_of state.old }
    requires within { place < (R.limits_of state.old).records }

    // What is judged next is judged after it.
    ensures state { state.new ≡ R.after state.old rec.now place }
    ensures next { result ≡ place + 1 }
{
    R::absorb(state, rec, place);
    place + 1
}

impl<R: Rules, N: GroupRun<R::Rec>, H: Wait + Drop> Desk<R, N, H, Published<R, N>, Change<R, N>> {
    /// Decides on a request of a pass, at all that was decided before. If it stores a record, that is staged, and
    /// counted as stored.
    pub fn decide(
        &mut self,
        pass: &mut Pass<R, N>,
        request: &R::Request,
    ) -> Result<Decided<R, N>, NotDecided>
        requires valid { R.is_request request.now }

        // It is what the rules decide at all that was decided before, which is no less than the pass has seen.
        ensures decided { IfOk result (λ d. IsOutcome ⟦<R as Rules>⟧ N.limits N.opening request.now pass.old
            (record pass.new { seen = d.upto }) d.outcome) }
        ensures seen { IfOk result (λ d. IsPrefix pass.old.seen d.upto) }
        ensures within { IfOk result (λ d. length N.opening + length d.upto ≤ N.limits.records) }
        ensures all { IfOk result (λ d. d.upto ≡ self.new.log) }

        // Nothing is shown by it, and nothing taken to be stored.
        ensures shown { self.new.published ≡ self.old.published }
        ensures taken { self.new.taken ≡ self.old.taken }
        ensures same { pass.new ≡ record pass.old { told = pass.new.told } }
        ensures refused { OnErr result ((pass.new ≡ pass.old) × (self.new ≡ self.old)) }

        // A batch that has no room has some bodies, and there is room for a record more.
        ensures no_room { result ≡ Err NoRoom → (0 < self.old.staged.count)
            × (length N.opening + length pass.old.seen < N.limits.records) }
    {
        let mut upto = pass.seen().copy();
        upto.catch_up(&mut self.appender, &self.known);
        match R::decide(&self.state, request) {
            Decision::Answer(reply) => {
                let number = None;
                let outcome = Outcome::Replied(Told { reply, number });
                Ok(Decided { upto, outcome })
            }
            Decision::Store(rec, reply) => {
                let count = upto.length();
                if count == self.limit as u64 {
                    let outcome = Outcome::Full { count };
                    return Ok(Decided { upto, outcome });
                }
                if let Err(why) = self.stage(pass, &rec) {
                    return Err(why);
                }
                let number = Some(count);
                let outcome = Outcome::Replied(Told { reply, number });
                upto = self.known.copy();
                Ok(Decided { upto, outcome })
            }
        }
    }

    /// Takes a record into the state, for a pass. It waits to be stored and to be shown from then on.
    fn stage(&mut self, pass: &mut Pass<R, N>, rec: &R::Rec) -> Result<(), NotDecided>
        requires made { IsMade ⟦<R as Rules>⟧ N.limits (with_opening N.opening self.old.log) rec.now }

        ensures log { OnOk result (self.new.log ≡ self.old.log
            ++ record { rec = rec.now; pass = pass.old.number } ∷ []) }
        ensures told { OnOk result (pass.new ≡ record pass.old { told = pass.old.told + 1 }) }

        // Nothing is shown by it, and nothing taken to be stored. Without room or memory nothing changes.
        ensures shown { self.new.published ≡ self.old.published }
        ensures taken { self.new.taken ≡ self.old.taken }
        ensures refused { OnErr result ((pass.new ≡ pass.old) × (self.new ≡ self.old)) }
        ensures no_room { result ≡ Err NoRoom → 0 < self.old.staged.count }
    {
        if self.changes.reserve(1).is_err() {
            return Err(NotDecided::Memory);
        }
        let size = spell::<R>(rec, &mut self.body);
        if !self.staged.push(&self.body[..size]) {
            return Err(NotDecided::NoRoom);
        }
        let place = self.known.length();
        let next = take_in::<R>(&mut self.state, rec, place);
        let entry = Entry {
            rec: *rec,
            pass: pass.number(),
        };
        self.known.append(&mut self.appender, &entry, next);
        self.changes
            .push_back_reserved(Change::new(entry, self.known.copy()));
        pass.count_told(&mut self.told);
        Ok(())
    }

    /// Shows readers all of these records, which are stored, and no others. Returns false if no memory was found,
    /// and then they take what they took.
    fn show(&mut self, stored: &Known<R::Rec, N>) -> bool
        ensures same { self.new ≡ record self.old {
          published = self.new.published;
          waiting = self.new.waiting;
        } }
        ensures done { result ≡ true → IsPrefix stored.now self.new.published }
        ensures none_other { ShowsOnly self.old stored.now → ShowsOnly self.new stored.now }
        ensures out_of_memory { result ≡ false → self.new.published ≡ self.old.published }
    {
        let mut all = stored.copy();
        all.catch_up(&mut self.appender, &self.known);
        let left = (self.known.length() - stored.length()) as usize;
        let count = self.changes.len().saturating_sub(left);
        if !publish_first(&mut self.writer, &mut self.changes, count) {
            return false;
        }
        true
    }

    /// Gives a pass what was decided, which stands on records that this vault has stored. They are shown first, and the pass
    /// has seen them then.
    pub fn give<D: Disk>(
        &mut self,
        pass: &mut Pass<R, N>,
        decided: Decided<R, N>,
        vault: &Vault<R, D, N>,
    ) -> Result<Told<R::Reply>, LiveFault<D>>
        requires stored { IsPrefix decided.upto vault.now.stored }
        ensures told { GivesOutcome decided.outcome decided.upto pass.old pass.new result }
        ensures shown { OnOk result (IsPrefix decided.upto self.new.published) }
        ensures none_other { ShowsOnly self.old vault.now.stored → ShowsOnly self.new vault.now.stored }
        ensures same { self.new ≡ record self.old {
          published = self.new.published;
          waiting = self.new.waiting;
        } }
    {
        let Decided { upto, outcome } = decided;
        if !self.show(&vault.stored) {
            return Err(LiveFault::Memory {
                stored: outcome.place(),
            });
        }
        pass.see(upto);
        match outcome {
            Outcome::Replied(told) => Ok(told),
            Outcome::Full { count } => Err(LiveFault::Full { count }),
        }
    }

    /// Counts an ask of a pass that failed on the disk.
    pub(crate) fn count_failed(&mut self, pass: &mut Pass<R, N>)
        ensures counted { pass.new ≡ record pass.old { failed = pass.old.failed + 1 } }
        ensures same { self.new ≡ self.old }
    {
        pass.count_failed(&mut self.failed);
    }

    /// Counts an ask of a pass that failed on the disk after this was decided. A record that it was to store is no
    /// longer counted: it may be stored or not.
    pub(crate) fn take_back(&mut self, pass: &mut Pass<R, N>, outcome: &Outcome<R::Reply>)
        requires { stored_by outcome.now ≤ pass.old.told }
        ensures counted { IsTakenBack outcome.now pass.old pass.new }
        ensures same { self.new ≡ self.old }
    {
        pass.count_failed(&mut self.failed);
        if outcome.place().is_some() {
            pass.count_untold(&mut self.told);
        }
    }

    /// Ends the run. These are all its passes. Returns the state of all that was decided, and how many records
    /// that are after the opening.
    pub(crate) fn count_up(self, passes: Vec<Pass<R, N>>) -> (R::State, u64)
        requires passes { vec_len passes ≡ N.passes }
        ensures ahead { IsAhead ⟦<R as Rules>⟧ N.limits N.opening result.0 self.log
            (told_count passes.items) (failed_count passes.items) }
        ensures seen { EachHasSeenPrefix self.log passes.items }
        ensures count { result.1 ≡ length self.log }
    {
        let Self {
            state,
            mut appender,
            known,
            limit: _,
            staged: _,
            body: _,
            writer,
            changes: _,
            mut told,
            mut failed,
            taken: _,
            no_told,
            no_failed,
        } = self;
        let mut told_count = no_told;
        let mut failed_count = no_failed;
        gather(
            &mut appender,
            &known,
            &mut told_count,
            &mut failed_count,
            passes,
        );
        told.audit(&mut told_count);
        failed.audit(&mut failed_count);
        writer.take();
        (state, known.count())
    }

    /// Gives the node back, over a journal that holds all that was decided. These are all its passes.
    pub(crate) fn close<D: Disk>(self, journal: Journal<D>, passes: Vec<Pass<R, N>>) -> Closed<R, D>
        requires passes { vec_len passes ≡ N.passes }
        requires limit { journal.limit ≡ N.limits.records }
        requires holds { Holds D.Reports journal (all_bodies ⟦<R as Rules>⟧ N.opening self.log) }
        ensures { IsClosed ⟦<R as Rules>⟧ D.Reports N.limits N.opening passes.items result.node result.asked }
    {
        let (state, asked) = self.count_up(passes);
        Closed {
            node: Node::from_parts(state, journal),
            asked,
        }
    }
}
