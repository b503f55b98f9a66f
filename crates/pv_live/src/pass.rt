ghost use Rattle.std.specs.Prelude.{◌≡◌, ◌+◌, ◌-◌, ◌^◌, ◌<◌, min, length as count, IfOk, OnOk, OnErr, IfSome, None};
ghost use Rattle.std.specs.Fn.{FnOnceReturnsAt};
ghost use mathlib.Core.List.{IsPrefix};
ghost use Rattle.pv_live.specs.Entries.{with_opening};
ghost use Rattle.pv_live.specs.Run.{IsStateOf};

use crate::copies::Published;
use crate::known::Known;
use crate::run::{FailedLedger, Run, ToldLedger};
use crate::viewer::Viewer;
use left_right::ReadHandle;
use pv_node::Rules;
use std::marker::Model;
use std::sync::ledger::{Book, Share};

/// A look was not let in by `left_right`. Nothing has changed, and it may be made again.
#[derive(Debug, Drop)]
pub struct NotEntered;

/// One thread's right to look at a node, and to ask it. Contracts see its number, what it has seen, and its
/// counts.
#[derive(Drop)]
pub struct Pass<R: Rules, N: Run<R::Rec>> {
    pub(crate) reader: ReadHandle<Published<R, N>>,
    pub(crate) number: u64,
    pub(crate) known: Known<R::Rec, N>,
    pub(crate) told: Share<ToldLedger<R::Rec, N>>,
    pub(crate) failed: Share<FailedLedger<R::Rec, N>>,
    pub(crate) looks: u64,
}

impl<R: Rules, N: Run<R::Rec>> Model for Pass<R, N> {
    ghost use Rattle.std.specs.Prelude.{◌≡◌};
    ghost use Rattle.pv_live.specs.Pass.{Standing};

    ghost Value = { Standing R.Rec };

    ghost view = { λ p. record {
      number = p.number;
      seen = p.known;
      told = p.told.amount;
      failed = p.failed.amount;
      looks = p.looks;
    } };

    ghost invariant = { λ p. (p.told.parts ≡ 1) × (p.failed.parts ≡ 1) };
}

/// What f returns on the copy, and the records that this stands for; `None` exactly if it stands for fewer
/// than are known.
fn read_copy<R: Rules, N: Run<R::Rec>, T, F: FnOnce(&R::State) -> T>(
    copy: &Published<R, N>,
    known: &Known<R::Rec, N>,
    f: F,
) -> Option<(T, Known<R::Rec, N>)>
    requires { F.IsAlwaysCallable f }
    ensures later { IfSome result (λ r. IsPrefix known.now r.1) }
    ensures answer { IfSome result (λ r. (state : R.State)
        × IsStateOf ⟦<R as Rules>⟧ N.limits state (with_opening N.opening r.1)
        × FnOnceReturnsAt F.FnOnce f state r.0) }
{
    let now = copy.known.copy();
    if !known.is_prefix_of(&now) {
        return None;
    }
    Some((f(&copy.state), now))
}

/// What `f` answers on the state of the copy that is published, unless `left_right` or that copy refuses.
fn read_published<R: Rules, N: Run<R::Rec>, T, F: FnOnce(&R::State) -> T>(
    reader: &mut ReadHandle<Published<R, N>>,
    known: &Known<R::Rec, N>,
    f: F,
) -> Option<(T, Known<R::Rec, N>)>
    requires { F.IsAlwaysCallable f }
    ensures later { IfSome result (λ r. IsPrefix known.now r.1) }
    ensures answer { IfSome result (λ r. (state : R.State)
        × IsStateOf ⟦<R as Rules>⟧ N.limits state (with_opening N.opening r.1)
        × FnOnceReturnsAt F.FnOnce f state r.0) }
{
    let guard = reader.enter()?;
    read_copy(&guard, known, f)
}

/// Lets a viewer look at the copy, and returns the records that this stands for. If it stands for fewer than are
/// known, the viewer does not look, and this returns `None`.
fn show_copy<R: Rules, N: Run<R::Rec>, V: Viewer<R::State>>(
    copy: &Published<R, N>,
    known: &Known<R::Rec, N>,
    viewer: &mut V,
) -> Option<Known<R::Rec, N>>
    ensures later { IfSome result (λ k. IsPrefix known.now k) }
    ensures viewed { IfSome result (λ k. (state : R.State)
        × IsStateOf ⟦<R as Rules>⟧ N.limits state (with_opening N.opening k)
        × V.may_become viewer.old state viewer.new) }
    ensures refused { result ≡ None → viewer.new ≡ viewer.old }
{
    let now = copy.known.copy();
    if !known.is_prefix_of(&now) {
        return None;
    }
    viewer.view(&copy.state);
    Some(now)
}

/// Shows a viewer the state of the copy that is published, unless `left_right` or that copy refuses.
fn show_published<R: Rules, N: Run<R::Rec>, V: Viewer<R::State>>(
    reader: &mut ReadHandle<Published<R, N>>,
    known: &Known<R::Rec, N>,
    viewer: &mut V,
) -> Option<Known<R::Rec, N>>
    ensures later { IfSome result (λ k. IsPrefix known.now k) }
    ensures viewed { IfSome result (λ k. (state : R.State)
        × IsStateOf ⟦<R as Rules>⟧ N.limits state (with_opening N.opening k)
        × V.may_become viewer.old state viewer.new) }
    ensures refused { result ≡ None → viewer.new ≡ viewer.old }
{
    let guard = reader.enter()?;
    show_copy(&guard, known, viewer)
}

impl<R: Rules, N: Run<R::Rec>> Pass<R, N> {
    /// How many records it has seen, with those of the opening.
    pub fn length(&self) -> u64
        ensures { result ≡ count N.opening + count self.now.seen }
    {
        self.known.length()
    }

    /// Its number.
    pub fn number(&self) -> u64
        ensures { result ≡ self.now.number }
    {
        self.number
    }

    /// The records that it has seen.
    pub fn seen(&self) -> &Known<R::Rec, N>
        ensures { result.now ≡ self.now.seen }
    {
        &self.known
    }

    /// Has seen these records from now on.
    pub fn see(&mut self, known: Known<R::Rec, N>)
        ensures { self.new ≡ record self.old { seen = known } }
    {
        self.known = known;
    }

    /// Counts a record that an ask reported as stored.
    pub fn count_told(&mut self, told: &mut Book<ToldLedger<R::Rec, N>>)
        ensures total { told.new.total ≡ told.old.total + 1 }
        ensures count { self.new ≡ record self.old { told = self.old.told + 1 } }
    {
        told.add(&mut self.told, 1);
    }

    /// Takes such a count back.
    pub fn count_untold(&mut self, told: &mut Book<ToldLedger<R::Rec, N>>)
        requires { 0 < self.old.told }
        ensures total { told.new.total + 1 ≡ told.old.total }
        ensures count { self.new.told + 1 ≡ self.old.told }
        ensures same { self.new ≡ record self.old { told = self.new.told } }
    {
        told.sub(&mut self.told, 1);
    }

    /// Counts an ask that failed on the disk.
    pub fn count_failed(&mut self, failed: &mut Book<FailedLedger<R::Rec, N>>)
        ensures total { failed.new.total ≡ failed.old.total + 1 }
        ensures count { self.new ≡ record self.old { failed = self.old.failed + 1 } }
    {
        failed.add(&mut self.failed, 1);
    }

    /// How many of its looks were answered. At the end of its type the count stands still.
    pub fn looks(&self) -> u64
        ensures { result ≡ self.now.looks }
    {
        self.looks
    }

    /// What f returns on a published state, which is no older than what this pass has seen or was told. It is
    /// handed no runtime, so it takes no lock and never waits.
    pub fn look<T, F: FnOnce(&R::State) -> T>(&mut self, f: F) -> Result<T, NotEntered>
        requires { F.IsAlwaysCallable f }

        // f was called on a state of all that the pass has seen now, which is what it had seen and perhaps more.
        ensures seen { IsPrefix self.old.seen self.new.seen }
        ensures answer { IfOk result (λ t. (state : R.State)
            × IsStateOf ⟦<R as Rules>⟧ N.limits state (with_opening N.opening self.new.seen)
            × FnOnceReturnsAt F.FnOnce f state t) }
        ensures looks { OnOk result (self.new ≡ record self.old {
          seen = self.new.seen;
          looks = min (self.old.looks + 1) (2 ^ 64 - 1);
        }) }
        ensures refused { OnErr result (self.new ≡ self.old) }
    {
        match read_published(&mut self.reader, &self.known, f) {
            None => Err(NotEntered),
            Some((answer, now)) => {
                self.known = now;
                self.looks = self.looks.saturating_add(1);
                Ok(answer)
            }
        }
    }

    /// Lets a viewer look at a published state, as [`Pass::look`] lets f. The viewer changes in place, so no
    /// answer is moved. If the look is not let in, the viewer is as it was.
    pub fn show<V: Viewer<R::State>>(&mut self, viewer: &mut V) -> Result<(), NotEntered>

        // The viewer has looked at a state of all that the pass has seen now, which is what it had seen and perhaps
        // more.
        ensures seen { IsPrefix self.old.seen self.new.seen }
        ensures viewed { OnOk result ((state : R.State)
            × IsStateOf ⟦<R as Rules>⟧ N.limits state (with_opening N.opening self.new.seen)
            × V.may_become viewer.old state viewer.new) }
        ensures looks { OnOk result (self.new ≡ record self.old {
          seen = self.new.seen;
          looks = min (self.old.looks + 1) (2 ^ 64 - 1);
        }) }
        ensures refused { OnErr result ((self.new ≡ self.old) × (viewer.new ≡ viewer.old)) }
    {
        match show_published(&mut self.reader, &self.known, viewer) {
            None => Err(NotEntered),
            Some(now) => {
                self.known = now;
                self.looks = self.looks.saturating_add(1);
                Ok(())
            }
        }
    }
}
