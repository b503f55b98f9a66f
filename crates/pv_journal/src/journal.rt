//! What a journal may do next, and the call that makes each transition.
//!
//! ```text
//!                             start                 a disk becomes a journal that is reading.
//!   reading    -> reading     next                  a body, or a fault.
//!   reading    -> at rest     next                  no further body.
//!   at rest    -> at rest     next                  None.
//!   in hand    -> in hand     next                  None.
//!   at rest    -> at rest     append, append_all    Ok, or Full.
//!   at rest    -> in hand     append, append_all    a call of the disk failed.
//!   in hand    -> in hand     settle                a call of the disk failed.
//!   in hand    -> at rest     settle                whether the bodies in hand are stored.
//! ```
ghost use Rattle.std.specs.Prelude.{◌≡◌, ◌⊎◌, ◌↔◌, ℕ, ◌+◌, List, [], ◌∷◌, ◌++◌, length, take, Option, Some, None, Ok, true, false, ◌<◌, ◌≤◌, IfOk, IfErr, IfSome, OnOk, OnErr, IsErr};
ghost use Rattle.pv_outside.specs.Disk.{HasCalls};
ghost use Rattle.pv_outside.specs.Calls.{IsFused};
ghost use Rattle.pv_journal.specs.Text.{IsBody, text_of, Spells, SpellsEither};
ghost use Rattle.pv_journal.specs.Log.{longest, most, IsAtRest, IsNoneInHand, IsAllRead, IsStillReading, KeepsCount};
ghost use Rattle.pv_journal.specs.Journal.{DiskSpells, HasLeft, LeavesOnly, HasMade, Spends, ReadsOnly, IsReading, Holds, HoldsInHand};
ghost use Rattle.pv_journal.specs.Faults.{IsDiskFault, ReadFailsOnDisk, IsStartFault, StartFaultShows, IsNext, NextShows, NextSpells, IsAppendDiskFault, FailsOnDisk};
ghost use Rattle.pv_journal.specs.Appending.{IsAppended, IsNotAppended, AreAppended, AreNotAppended};
ghost use Rattle.pv_journal.specs.Batch.{HasPacked};
ghost use Rattle.pv_journal.specs.declared.storing.TheConstants.{APPEND_CALLS, GATE_CALLS};

use crate::batch::Batch;
use crate::block::{Block, HEAD_SIZE, MARK_SIZE, MAX_BLOCK, MAX_BODY, first_block};
use crate::fault::{AppendFault, OpenFault};
use crate::opening::{length_after_mark, read_block};
use crate::storing::{spell, store};
use pv_outside::{Disk, Fused, Limits};
use std::marker::Model;

/// What a journal may do next.
#[derive(Clone, Copy, Debug, PartialEq, Eq)]
enum Phase {
    /// The bodies are being read, from a disk of `end` bytes.
    Reading { end: u64 },
    /// All bodies are read, and a further one can be appended.
    Resting,
    /// One or more `bodies` were being appended when a call of the disk failed. From the first one on they and
    /// what is between them have `size` bytes.
    InHand { size: u64, bodies: u64 },
}

/// A list of bodies on a disk.
#[derive(Drop)]
pub struct Journal<D: Disk> {
    disk: D,
    limit: u32,
    count: u64,
    gate: u64,
    phase: Phase,
    // The block that is being read or written.
    block: [u8; MAX_BLOCK],
}

impl<D: Disk> Model for Journal<D> {
    ghost use Rattle.pv_journal.specs.Log.{Log, IsPlaced};

    ghost Value = { Log D };

    ghost view = { λ j. record {
      disk = j.disk;
      limit = j.limit;
      count = j.count;
      gate = j.gate;
      phase = j.phase;
    } };

    ghost invariant = { λ j. IsPlaced D.reads
        (record { disk = j.disk; limit = j.limit; count = j.count; gate = j.gate; phase = j.phase }) };
}

impl<D: Disk> Journal<D> {
    /// Begins to read a formatted disk, of at most `limits.records` bodies. It makes three calls of the
    /// disk, of which the first is a sync. A disk that is refused is handed back.
    pub fn start(mut disk: D, limits: Limits) -> Result<Journal<D>, (OpenFault<D>, D)>
        ensures reading { IfOk result (λ journal. IsReading D.Reports journal []) }
        ensures limit { IfOk result (λ journal. journal.limit ≡ limits.records) }

        // It makes exactly three calls, and a crash at any moment of them leaves what it might have left before.
        ensures reads_only { IfOk result (λ journal. ReadsOnly D.Reports 3 ⊥ disk journal.disk) }
        ensures made { IfOk result (λ journal. HasMade D.Reports 3 disk journal.disk) }
        ensures steady { IfOk result (λ journal. D.faults journal.disk ≡ D.faults disk) }
        ensures moments { IfOk result (λ journal. LeavesOnly D.Reports disk journal.disk (D.may_leave disk)) }

        // A disk is refused if a call of it failed, or if it does not begin with the mark.
        ensures refused { IfErr result (λ e. IsStartFault e.0) }
        ensures shown { IfErr result (λ e. IfSome (D.reads disk) (λ text. StartFaultShows text e.0)) }
        ensures handed_back { IfErr result (λ e. ReadsOnly D.Reports 3 (IsDiskFault e.0) disk e.1) }
        ensures moments_refused { IfErr result (λ e. LeavesOnly D.Reports disk e.1 (D.may_leave disk)) }
    {
        match length_after_mark(&mut disk) {
            Ok(end) => Ok(Journal {
                disk,
                limit: limits.records,
                count: 0,
                gate: MARK_SIZE as u64,
                phase: Phase::Reading { end },
                block: [0; MAX_BLOCK],
            }),
            Err(fault) => Err((fault, disk)),
        }
    }

    /// Reads the next body into the beginning of `into` and returns its size, or None after the last one.
    /// From then on the journal can append. It makes one call of the disk. Once all bodies were read it
    /// returns None without a call and changes nothing, also while bodies are in hand.
    pub fn next(&mut self, into: &mut [u8; MAX_BODY]) -> Result<Option<usize>, OpenFault<D>>
        // Each body joins those that were read, and after the last one these are all.
        ensures found { IfOk result (λ answer. IfSome answer (λ n. (bodies : List (List ℕ))
            → IsReading D.Reports self.old bodies
            → IsReading D.Reports self.new (bodies ++ take n into.new ∷ []))) }
        ensures goes_on { IfOk result (λ answer. IfSome answer (λ n. IsStillReading self.new)) }
        ensures ended { result ≡ Ok None → (bodies : List (List ℕ))
            → IsReading D.Reports self.old bodies → Holds D.Reports self.new bodies }
        ensures at_rest { result ≡ Ok None → IsNoneInHand self.old → IsAtRest self.new }

        // What it counts stays within the limit.
        ensures counts { self.old.count ≤ self.new.count }
        ensures within { self.new.count ≤ self.new.limit }
        ensures limit { self.new.limit ≡ self.old.limit }

        // Once all are read nothing changes, and after an error only the disk.
        ensures rests { IsAllRead self.old → result ≡ Ok None }
        ensures unchanged { IsAllRead self.old → self.new ≡ self.old }
        ensures kept { OnErr result (self.new ≡ record self.old { disk = self.new.disk }) }
        ensures err { OnErr result ((bodies : List (List ℕ))
            → IsReading D.Reports self.old bodies → IsReading D.Reports self.new bodies) }

        // What it takes of the disk, and what a crash at any moment of it leaves.
        ensures reads_only { ReadsOnly D.Reports 1 (ReadFailsOnDisk result) self.old.disk self.new.disk }
        ensures made { OnOk result (IsStillReading self.old
            → HasMade D.Reports 1 self.old.disk self.new.disk) }
        ensures steady { OnOk result (D.faults self.new.disk ≡ D.faults self.old.disk) }
        ensures moments { LeavesOnly D.Reports self.old.disk self.new.disk (D.may_leave self.old.disk) }

        // Each answer has its cause, and on a disk that reports its bytes these show which it is.
        ensures answer { IsNext self.old result }
        ensures shown { (bodies : List (List ℕ)) → IsReading D.Reports self.old bodies
            → IfSome (D.reads self.old.disk)
            (λ text. NextShows text (length (text_of bodies)) into.new result) }
        ensures spelled { (bodies more : List (List ℕ)) → IsReading D.Reports self.old bodies
            → DiskSpells D.Reports self.old.disk (bodies ++ more) → NextSpells more into.new result }
    {
        let Phase::Reading { end } = self.phase else {
            return Ok(None);
        };
        let held = match read_block(&mut self.disk, self.gate, end, &mut self.block) {
            Ok(held) => held,
            Err(failure) => return Err(OpenFault::Disk(failure)),
        };
        let bytes = &self.block[..held];
        match first_block(bytes) {
            Block::Closed => {
                self.phase = Phase::Resting;
                Ok(None)
            }
            Block::Broken => Err(OpenFault::Broken { at: self.gate }),
            Block::Whole { .. } if self.count == self.limit as u64 => {
                Err(OpenFault::TooMany { count: self.count })
            }
            Block::Whole { size } => {
                into[..size].copy_from_slice(&bytes[HEAD_SIZE..HEAD_SIZE + size]);
                self.count += 1;
                self.gate += (size + HEAD_SIZE) as u64;
                Ok(Some(size))
            }
        }
    }

    /// Appends a body of 1 to 2,048 bytes and returns its place, from 0. After a failure of the disk the
    /// body is in hand. At most [`APPEND_CALLS`](crate::APPEND_CALLS) calls of the disk succeed in it.
    pub fn append(&mut self, body: &[u8]) -> Result<u64, AppendFault<D>>
        requires at_rest { IsAtRest self.old }
        requires size { IsBody body.now }

        // The body is stored; or a call of the disk failed and it is in hand; or the journal is full.
        ensures appended { IfOk result (IsAppended D.Reports self.old self.new body.now) }
        ensures refused { IfErr result (IsNotAppended D.Reports self.old self.new body.now) }
        ensures limit { self.new.limit ≡ self.old.limit }

        // A crash at any moment of the call leaves an image that spells the list without the body or with it.
        // It is without it until the calls before the gate have succeeded, so also if fewer were left.
        ensures moments { (bodies : List (List ℕ)) → Holds D.Reports self.old bodies
            → LeavesOnly D.Reports self.old.disk self.new.disk (SpellsEither bodies (body.now ∷ [])) }
        ensures early { (bodies : List (List ℕ)) → Holds D.Reports self.old bodies
            → HasMade D.Reports GATE_CALLS self.old.disk self.new.disk
            ⊎ LeavesOnly D.Reports self.old.disk self.new.disk (λ image. Spells image bodies) }
        ensures few { (bodies : List (List ℕ)) (n : ℕ) → Holds D.Reports self.old bodies
            → HasLeft n (D.budget self.old.disk) → n < GATE_CALLS
            → LeavesOnly D.Reports self.old.disk self.new.disk (λ image. Spells image bodies) }

        // What it takes of the disk. With all its calls and room for all bodies the disk does not fail.
        ensures spends { Spends D.Reports APPEND_CALLS (FailsOnDisk result) self.old.disk self.new.disk }
        ensures all_four { OnOk result (HasMade D.Reports APPEND_CALLS self.old.disk self.new.disk) }

        // A place is returned only if no call failed on the way: none was tried again.
        ensures steady { OnOk result (D.faults self.new.disk ≡ D.faults self.old.disk) }
        ensures passes { IfErr result (λ fault. (bodies : List (List ℕ)) → Holds D.Reports self.old bodies
            → HasCalls APPEND_CALLS (longest self.old.limit) (D.budget self.old.disk)
            → IsAppendDiskFault fault → ⊥) }
    {
        let place = self.count;
        if place == self.limit as u64 {
            return Err(AppendFault::Full { count: place });
        }
        let size = body.len();
        self.phase = Phase::InHand {
            size: size as u64,
            bodies: 1,
        };
        let length = spell(body, &mut self.block[..]);
        if let Err(failure) = store(&mut self.disk, self.gate, &self.block[..length]) {
            return Err(AppendFault::Disk(failure));
        }
        self.count += 1;
        self.gate += (size + HEAD_SIZE) as u64;
        self.phase = Phase::Resting;
        Ok(place)
    }

    /// Appends the bodies of a batch that has any, and returns the place of the first. After a failure of the
    /// disk all are in hand. At most [`APPEND_CALLS`](crate::APPEND_CALLS) calls of the disk succeed in it.
    pub fn append_all(&mut self, batch: &Batch) -> Result<u64, AppendFault<D>>
        requires at_rest { IsAtRest self.old }
        requires some { 0 < batch.now.count }

        // The bodies are stored; or a call of the disk failed and they are in hand; or there is no room for all.
        ensures appended { IfOk result (λ place. (first : List ℕ) (others : List (List ℕ))
            → HasPacked batch.now (first ∷ others)
            → AreAppended D.Reports self.old self.new (first ∷ others) place) }
        ensures refused { IfErr result (λ fault. (first : List ℕ) (others : List (List ℕ))
            → HasPacked batch.now (first ∷ others)
            → AreNotAppended D.Reports self.old self.new (first ∷ others) fault) }
        ensures limit { self.new.limit ≡ self.old.limit }

        // A crash at any moment of the call leaves an image that spells the list without the bodies or with all.
        // It is without them until the calls before the gate have succeeded, so also if fewer were left.
        ensures moments { (bodies : List (List ℕ)) (first : List ℕ) (others : List (List ℕ))
            → HasPacked batch.now (first ∷ others) → Holds D.Reports self.old bodies
            → LeavesOnly D.Reports self.old.disk self.new.disk (SpellsEither bodies (first ∷ others)) }
        ensures early { (bodies : List (List ℕ)) → Holds D.Reports self.old bodies
            → HasMade D.Reports GATE_CALLS self.old.disk self.new.disk
            ⊎ LeavesOnly D.Reports self.old.disk self.new.disk (λ image. Spells image bodies) }
        ensures few { (bodies : List (List ℕ)) (n : ℕ) → Holds D.Reports self.old bodies
            → HasLeft n (D.budget self.old.disk) → n < GATE_CALLS
            → LeavesOnly D.Reports self.old.disk self.new.disk (λ image. Spells image bodies) }

        // What it takes of the disk. With all its calls and room for all bodies the disk does not fail.
        ensures spends { Spends D.Reports APPEND_CALLS (FailsOnDisk result) self.old.disk self.new.disk }
        ensures all_four { OnOk result (HasMade D.Reports APPEND_CALLS self.old.disk self.new.disk) }

        // A place is returned only if no call failed on the way: none was tried again.
        ensures steady { OnOk result (D.faults self.new.disk ≡ D.faults self.old.disk) }
        ensures passes { IfErr result (λ fault. (bodies : List (List ℕ)) → Holds D.Reports self.old bodies
            → HasCalls APPEND_CALLS (longest self.old.limit) (D.budget self.old.disk)
            → IsAppendDiskFault fault → ⊥) }
    {
        let place = self.count;
        if batch.count > self.limit as u64 - place {
            return Err(AppendFault::Full { count: place });
        }
        self.phase = Phase::InHand {
            size: (batch.size - HEAD_SIZE) as u64,
            bodies: batch.count,
        };
        let bytes = &batch.bytes[1..batch.size + 1];
        if let Err(failure) = store(&mut self.disk, self.gate, bytes) {
            return Err(AppendFault::Disk(failure));
        }
        self.count += batch.count;
        self.gate += batch.size as u64;
        self.phase = Phase::Resting;
        Ok(place)
    }

    /// Finds out whether the bodies in hand are stored, by a sync and a read of the gate before them. Afterwards
    /// nothing is in hand. It returns None if nothing was, and then the disk is not called.
    pub fn settle(&mut self) -> Result<Option<bool>, D::Failure>
        ensures none { (result ≡ Ok None) ↔ IsNoneInHand self.old }
        ensures unchanged { IsNoneInHand self.old → self.new ≡ self.old }

        // The bodies that were in hand join the list, or none of them does.
        ensures at_rest { IfOk result (λ answer. IfSome answer (λ stored. IsAtRest self.new)) }
        ensures stored { result ≡ Ok (Some true)
            → (bodies : List (List ℕ)) (first : List ℕ) (others : List (List ℕ))
            → HoldsInHand D.Reports self.old bodies (first ∷ others)
            → Holds D.Reports self.new (bodies ++ first ∷ others) }
        ensures more { result ≡ Ok (Some true) → self.new.count ≡ most self.old }
        ensures dropped { result ≡ Ok (Some false)
            → (bodies : List (List ℕ)) (first : List ℕ) (others : List (List ℕ))
            → HoldsInHand D.Reports self.old bodies (first ∷ others) → Holds D.Reports self.new bodies }
        ensures put_down { result ≡ Ok (Some false) → KeepsCount self.old self.new }

        // What the disk reads as spells that list too.
        ensures reads_stored { result ≡ Ok (Some true)
            → (bodies : List (List ℕ)) (first : List ℕ) (others : List (List ℕ))
            → HoldsInHand D.Reports self.old bodies (first ∷ others)
            → IfSome (D.reads self.new.disk) (λ text. Spells text (bodies ++ first ∷ others)) }
        ensures reads_dropped { result ≡ Ok (Some false)
            → (bodies : List (List ℕ)) (first : List ℕ) (others : List (List ℕ))
            → HoldsInHand D.Reports self.old bodies (first ∷ others)
            → IfSome (D.reads self.new.disk) (λ text. Spells text bodies) }

        // After a failure of the disk they are in hand still.
        ensures kept { OnErr result (self.new ≡ record self.old { disk = self.new.disk }) }
        ensures in_hand { OnErr result ((bodies hand : List (List ℕ))
            → HoldsInHand D.Reports self.old bodies hand → HoldsInHand D.Reports self.new bodies hand) }
        ensures limit { self.new.limit ≡ self.old.limit }

        // What it takes of the disk, and what a crash at any moment of it leaves.
        ensures both_calls { OnOk result ((IsNoneInHand self.old → ⊥)
            → HasMade D.Reports 2 self.old.disk self.new.disk) }
        ensures steady { OnOk result (D.faults self.new.disk ≡ D.faults self.old.disk) }
        ensures moments { (bodies hand : List (List ℕ)) → HoldsInHand D.Reports self.old bodies hand
            → LeavesOnly D.Reports self.old.disk self.new.disk (SpellsEither bodies hand) }
        ensures reads_only { ReadsOnly D.Reports 2 (IsErr result) self.old.disk self.new.disk }
    {
        let Phase::InHand { size, bodies } = self.phase else {
            return Ok(None);
        };
        self.disk.sync()?;
        let mut gate = [0];
        self.disk.read(self.gate, &mut gate)?;
        self.phase = Phase::Resting;
        if gate[0] != 1 {
            return Ok(Some(false));
        }
        self.count += bodies;
        self.gate += size + HEAD_SIZE as u64;
        Ok(Some(true))
    }

    /// How many bodies were read, or there are. With those in hand they are within the limit.
    pub fn count(&self) -> u64
        ensures count { result ≡ self.now.count }
        ensures within { most self.now ≤ self.now.limit }
    {
        self.count
    }

    /// How many bodies it may have.
    pub fn limit(&self) -> u32
        ensures { result ≡ self.now.limit }
    {
        self.limit
    }

    /// The disk, to look at.
    pub fn disk(&self) -> &D
        ensures { result.now ≡ self.now.disk }
    {
        &self.disk
    }

    /// The disk.
    pub fn into_disk(self) -> D
        ensures { result ≡ self.disk }
    {
        self.disk
    }
}

impl<D: Fused> Journal<D> {
    /// Lets this many further calls of the disk pass, and then none. Nothing else changes.
    pub fn fuse(&mut self, calls: u32)
        ensures disk { IsFused D.Reports calls self.old.disk self.new.disk }
        ensures same { self.new ≡ record self.old { disk = self.new.disk } }

        // It holds what it held.
        ensures reading { (bodies : List (List ℕ)) → IsReading D.Reports self.old bodies
            → IsReading D.Reports self.new bodies }
        ensures holds { (bodies : List (List ℕ)) → Holds D.Reports self.old bodies
            → Holds D.Reports self.new bodies }
        ensures in_hand { (bodies hand : List (List ℕ))
            → HoldsInHand D.Reports self.old bodies hand → HoldsInHand D.Reports self.new bodies hand }
    {
        self.disk.fuse(calls);
    }
}
