ghost use Rattle.std.specs.Prelude.{◌≡◌, ◌+◌, ◌-◌, ◌<◌, ◌≤◌, ◌↔◌, ◌++◌, ◌∷◌, [], length, true, IsTrue};
ghost use mathlib.Core.List.{IsPrefix};

use crate::history::{Appender, SeenLog};
use crate::name::HistoryName;
use std::marker::{Model, PhantomData};

/// A prefix of the history of this name that was seen. Contracts see it as its entries. At run time it is
/// how many there are.
#[derive(Drop)]
pub struct Prefix<E, N: HistoryName> {
    count: u64,
    seen: SeenLog<E>,
    of: PhantomData<N>,
}

impl<E, N: HistoryName> Model for Prefix<E, N> {
    ghost use Rattle.std.specs.Prelude.{◌≡◌, List, length, map, Some};
    ghost use Rattle.pv_history.specs.History.{entries_of};

    ghost Value = { List E };

    ghost view = { λ p. entries_of p.seen.log };

    ghost invariant = { λ p. (p.seen.log ≡ map Some (entries_of p.seen.log)) × (p.count ≡ length p.seen.log)
        × (p.seen.book ≡ N.book) };
}

impl<E, N: HistoryName> Prefix<E, N> {
    /// The prefix without entries.
    pub(crate) fn empty(seen: SeenLog<E>) -> Prefix<E, N>
        requires { (seen.log ≡ []) × (seen.book ≡ N.book) }
        ensures { result ≡ [] }
    {
        Prefix {
            count: 0,
            seen,
            of: PhantomData,
        }
    }

    /// How many entries it has.
    pub fn len(&self) -> u64
        ensures { result ≡ length self.now }
    {
        self.count
    }

    /// Whether it has no entries.
    pub fn is_empty(&self) -> bool
        ensures { IsTrue result ↔ (self.now ≡ []) }
    {
        self.count == 0
    }

    /// A copy.
    pub fn copy(&self) -> Prefix<E, N>
        ensures { result ≡ self.now }
    {
        Prefix {
            count: self.count,
            seen: self.seen.again(),
            of: PhantomData,
        }
    }

    /// Whether it is a prefix of the other one: exactly when it has no more entries.
    pub fn is_prefix_of(&self, other: &Prefix<E, N>) -> bool
        ensures yes { result ≡ true → IsPrefix self.now other.now }
        ensures value { IsTrue result ↔ (length self.now ≤ length other.now) }
    {
        let mut both = self.seen.again();
        both.learn(&other.seen);
        self.count <= other.count
    }

    /// Becomes the whole history.
    pub fn catch_up(&mut self, appender: &mut Appender<E, N>, whole: &Prefix<E, N>)
        requires { appender.old.count ≡ length whole.now }
        ensures value { self.new ≡ whole.now }
        ensures prefix { IsPrefix self.old self.new }
        ensures same { appender.new ≡ appender.old }
    {
        if !self.is_prefix_of(whole) {
            appender.has_all(&self.seen);
            unreachable!()
        }
        *self = whole.copy();
    }

    /// Adds an entry to the history, of which this is the whole.
    pub fn append(&mut self, appender: &mut Appender<E, N>, entry: &E)
        requires whole { appender.old.count ≡ length self.old }
        requires room { 0 < appender.old.left }
        ensures added { self.new ≡ self.old ++ entry.now ∷ [] }
        ensures used { appender.new
            ≡ record { count = appender.old.count + 1; left = appender.old.left - 1 } }
    {
        appender.add(&mut self.seen, entry);
        self.count += 1;
    }
}
