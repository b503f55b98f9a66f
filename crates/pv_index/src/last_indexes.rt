ghost use Rattle.std.specs.Prelude.{◌≡◌, ◌⊎◌, ◌==◌, ◌+◌, ◌<◌, ◌≤◌, ℕ, Some, length, IfOk, IsTrue, if◌then◌else◌};
ghost use Rattle.pv_index.specs.Indexes.{no_indexes, index_under, has_key};

use indexmap::IndexMap;
use std::alloc::{AllocError, Global};
use std::marker::Model;

/// The index of the last record under each key. All room is reserved by `open`.
#[derive(Debug)]
pub struct LastIndexes {
    indexes: IndexMap<u64, usize>,
    room: usize,
}

impl Model for LastIndexes {
    ghost use Rattle.std.specs.Prelude.{◌+◌, ◌≤◌};
    ghost use Rattle.indexmap.specs.IndexMap.{index_map_len, spare};
    ghost use Rattle.pv_index.specs.Indexes.{KeyIndexes};

    ghost Value = { KeyIndexes };

    ghost view = { λ last. record { room = last.room; pairs = last.indexes.entries } };

    ghost invariant = { λ last. last.room ≤ index_map_len last.indexes + spare last.indexes };
}

impl Drop for LastIndexes {
    /// One call in place of a drop for each part: the proof of whoever holds it stays short.
    fn drop(self) {
        let LastIndexes {
            indexes: _,
            room: _,
        } = self;
    }
}

impl LastIndexes {
    /// No key has an index. There is room for this many keys.
    pub fn open(alloc: Global, room: usize) -> Result<LastIndexes, AllocError>
        ensures { IfOk result (λ last. last ≡ no_indexes room) }
    {
        Ok(LastIndexes {
            indexes: IndexMap::with_capacity(alloc, room)?,
            room,
        })
    }

    /// A copy, with as much room.
    pub fn copy(&self) -> Result<LastIndexes, AllocError>
        ensures { IfOk result (λ copy. copy ≡ self.now) }
    {
        let mut indexes = self.indexes.clone()?;
        indexes.reserve(self.room.saturating_sub(indexes.len()))?;
        Ok(LastIndexes {
            indexes,
            room: self.room,
        })
    }

    /// The index of a key. `None` exactly when the key was never set.
    pub fn get(&self, key: u64) -> Option<usize>
        ensures { result ≡ index_under self.now.pairs key }
    {
        self.indexes.get(&key).copied()
    }

    /// Gives a key this index. The key is there, or there is room for one more.
    pub fn set(&mut self, key: u64, index: usize)
        requires room { IsTrue (has_key self.old.pairs key) ⊎ (length self.old.pairs < self.old.room) }
        ensures indexes { (other : ℕ) → index_under self.new.pairs other
            ≡ (if key == other then Some index else index_under self.old.pairs other) }
        ensures within { length self.new.pairs ≤ length self.old.pairs + 1 }
        ensures room { self.new.room ≡ self.old.room }
    {
        match self.indexes.get_mut(&key) {
            Some(known) => *known = index,
            None => {
                self.indexes.insert(key, index).unwrap();
            }
        }
    }
}
