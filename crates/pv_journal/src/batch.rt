ghost use Rattle.std.specs.Prelude.{◌≡◌, ℕ, ◌+◌, ◌<◌, List, [], ◌∷◌, ◌++◌, length, take, false, IsTrue};
ghost use Rattle.pv_journal.specs.Text.{IsBody, block};
ghost use Rattle.pv_journal.specs.Batch.{HasPacked, HasNoRoomFor};

use crate::block::{HEAD_SIZE, MAX_WRITE};
use crate::storing::spell;
use std::marker::Model;

/// How many bytes the blocks of a batch and a closed gate have at most.
pub(crate) const BATCH_SIZE: usize = MAX_WRITE + 1;

/// Bodies that [`Journal::append_all`](crate::Journal::append_all) appends at once. Their blocks, each three
/// bytes longer than its body, have at most [`MAX_WRITE`](crate::MAX_WRITE) bytes.
#[derive(Drop)]
pub struct Batch {
    // The blocks of the bodies, and then a closed gate.
    pub(crate) bytes: [u8; BATCH_SIZE],
    pub(crate) size: usize,
    pub(crate) count: u64,
}

impl Model for Batch {
    ghost use Rattle.pv_journal.specs.Batch.{Pack, IsPack};

    ghost Value = { Pack };

    ghost view = { λ b. record { bytes = b.bytes; size = b.size; count = b.count } };

    ghost invariant = { λ b. IsPack (record { bytes = b.bytes; size = b.size; count = b.count }) };
}

impl Batch {
    /// A batch without bodies.
    pub fn new() -> Batch
        ensures { HasPacked result [] }
    {
        Batch {
            bytes: [0; BATCH_SIZE],
            size: 0,
            count: 0,
        }
    }

    /// Takes all bodies out.
    pub fn clear(&mut self)
        ensures { HasPacked self.new [] }
    {
        self.bytes[0] = 0;
        self.size = 0;
        self.count = 0;
    }

    /// Adds a body of 1 to 2,048 bytes. It returns false if there is no room for its block, and then nothing
    /// has changed.
    pub fn push(&mut self, body: &[u8]) -> bool
        requires size { IsBody body.now }
        ensures pushed { IsTrue result → (bodies : List (List ℕ)) → HasPacked self.old bodies
            → HasPacked self.new (bodies ++ body.now ∷ []) }
        ensures one_more { IsTrue result → self.new.count ≡ self.old.count + 1 }
        ensures full { result ≡ false → (self.new ≡ self.old) × HasNoRoomFor self.old body.now }
        ensures room { HasNoRoomFor self.old body.now → result ≡ false }
    {
        let size = body.len() + HEAD_SIZE;
        if self.size + size > MAX_WRITE {
            return false;
        }
        self.bytes[self.size] = 1;
        spell(body, &mut self.bytes[self.size + 1..]);
        self.size += size;
        self.count += 1;
        true
    }

    /// How many bodies it has.
    pub fn count(&self) -> u64
        ensures { result ≡ self.now.count }
    {
        self.count
    }
}
