ghost use Rattle.std.specs.Prelude.{◌≡◌, ◌+◌, ◌<◌, ◌≤◌, ◌↔◌, ◌++◌, ◌∷◌, [], length as count, true, IsTrue};
ghost use mathlib.Core.List.{IsPrefix};
ghost use Rattle.pv_outside.specs.declared.limits.TheConstants.{MAX_RECORDS};
ghost use Rattle.pv_live.specs.declared.entry.Entry.{Entry};
ghost use Rattle.pv_live.specs.Board.{IsSupplied};

use crate::entry::Entry;
use crate::run::Run;
use pv_history::{Appender, Prefix};
use std::marker::Model;

/// Records that are known to be stored: those of the opening, and then a prefix of the history. Contracts see
/// the entries of the history. At run time it is two counts.
#[derive(Drop)]
pub struct Known<T, N: Run<T>> {
    entries: Prefix<Entry<T>, N>,
    length: u64,
}

impl<T, N: Run<T>> Model for Known<T, N> {
    ghost use Rattle.std.specs.Prelude.{◌≡◌, ◌+◌, List, length as count};
    ghost use Rattle.pv_live.specs.declared.entry.Entry.{Entry};

    ghost Value = { List (Entry T) };

    ghost view = { λ k. k.entries };

    ghost invariant = { λ k. k.length ≡ count N.opening + count k.entries };
}

impl<T, N: Run<T>> Known<T, N> {
    /// The records of the opening.
    pub fn opening(entries: Prefix<Entry<T>, N>, length: u64) -> Known<T, N>
        requires none { entries ≡ [] }
        requires length { length ≡ count N.opening }
        ensures { result ≡ [] }
    {
        Known { entries, length }
    }

    /// How many records there are, with those of the opening.
    pub fn length(&self) -> u64
        ensures { result ≡ count N.opening + count self.now }
    {
        self.length
    }

    /// How many there are after the opening.
    pub fn count(&self) -> u64
        ensures { result ≡ count self.now }
    {
        self.entries.len()
    }

    /// A copy.
    pub fn copy(&self) -> Known<T, N>
        ensures { result ≡ self.now }
    {
        Known {
            entries: self.entries.copy(),
            length: self.length,
        }
    }

    /// Whether they are a prefix of the others: exactly when there are no more of them.
    pub fn is_prefix_of(&self, other: &Known<T, N>) -> bool
        ensures yes { result ≡ true → IsPrefix self.now other.now }
        ensures value { IsTrue result ↔ (count self.now ≤ count other.now) }
    {
        self.entries.is_prefix_of(&other.entries)
    }

    /// Becomes all records.
    pub fn catch_up(&mut self, appender: &mut Appender<Entry<T>, N>, all: &Known<T, N>)
        requires { appender.old.count ≡ count all.now }
        ensures value { self.new ≡ all.now }
        ensures prefix { IsPrefix self.old self.new }
        ensures same { appender.new ≡ appender.old }
    {
        self.entries.catch_up(appender, &all.entries);
        self.length = all.length;
    }

    /// Adds an entry to the history, all of which is known. `length` is how many records there are then.
    pub fn append(&mut self, appender: &mut Appender<Entry<T>, N>, entry: &Entry<T>, length: u64)
        requires supplied { IsSupplied appender.old self.old }
        requires room { count self.old < MAX_RECORDS }
        requires length { length ≡ count N.opening + count self.old + 1 }
        ensures added { self.new ≡ self.old ++ entry.now ∷ [] }
        ensures supplied { IsSupplied appender.new self.new }
    {
        self.entries.append(appender, entry);
        self.length = length;
    }
}
