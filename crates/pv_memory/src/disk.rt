ghost use Rattle.std.specs.Prelude.{◌≡◌, ◌↔◌, ◌+◌, ◌≤◌, [], Option, Some, None, false, length, IfOk, IsOk, IsErr, IfSome, OnOk, OnErr, is_ok, ◌&&◌, not, List, slice_range, ℕ};
ghost use Rattle.std.specs.Option.{option_map, ForSome};
ghost use Rattle.pv_outside.specs.Counts.{Rose};
ghost use Rattle.pv_outside.specs.declared.failed.TheConstants.{COUNT_END};
ghost use Rattle.pv_outside.specs.Disk.{budget_after_call, budget_after_sync};
ghost use Rattle.pv_outside.specs.Calls.{WritesNothing, WritesAt, IsFused};
ghost use Rattle.pv_memory.specs.Medium.{Medium, moment_of, IsImage, IsTooFarBack, LeftSince, budget_of, can_pass, accepts_write, image_of, disk_after_count, disk_after_failure, disk_after_read, disk_after_write, disk_after_sync};
ghost use Rattle.pv_memory.specs.MediumLaws.{now_counts, only_now, now_is_known, new_disk};
ghost use Rattle.std.specs.Prelude.{refl};
ghost use Rattle.std.proofs.Common.{inl};

use crate::bytes::{catch_up, overwrite, restore};
use crate::faults::Faults;
use crate::past::{Past, Range};
use pv_outside::{Disk, Failed, Fused, MAX_UNSYNCED, Reports};
use std::alloc::{AllocError, Global};
use std::marker::Model;

/// The range of a call that writes nothing.
const NOTHING: Range = Range { at: 0, size: 0 };

/// A disk in memory, which reports all of itself and can be made to crash.
#[derive(Debug, Drop)]
pub struct MemDisk {
    text: Vec<u8>,
    synced: Vec<u8>,
    pending: Vec<Range>,
    past: Past,
    room: usize,
    left: Option<u64>,
    clock: u64,
    faults: Faults,
}

impl Model for MemDisk {
    ghost use Rattle.pv_memory.specs.Medium.{Medium};

    ghost Value = { Medium };

    ghost use Rattle.pv_memory.specs.Inside.{medium_of, IsMemDisk};

    ghost view = { medium_of };

    ghost invariant = { IsMemDisk };
}

impl MemDisk {
    /// An empty disk with room for `room` bytes, of which the calls of these numbers fail, counted from 0.
    /// All memory is taken here.
    pub fn new(alloc: Global, room: u64, fails: &[u64]) -> Result<MemDisk, AllocError>
        ensures { IfOk result (λ disk. disk ≡ new_disk room fails.now) }
    {
        let room = room as usize;
        Ok(MemDisk {
            text: Vec::with_capacity(alloc, room)?,
            synced: Vec::with_capacity(alloc, room)?,
            pending: Vec::with_capacity(alloc, MAX_UNSYNCED as usize)?,
            past: Past::new(alloc)?,
            room,
            left: None,
            clock: 0,
            faults: Faults::new(alloc, fails)?,
        })
    }

    /// The disk as it reads.
    pub fn bytes(&self) -> &[u8]
        ensures { result.now ≡ self.now.text }
    {
        &self.text
    }

    /// Makes the disk the image of this number that a crash now may leave. 0 is the disk at the last
    /// sync, 1 the disk as it reads, and the others have a pattern over each range that was written
    /// since the last sync. Nothing is pending afterwards, and there is no end to the calls that pass.
    pub fn crash(&mut self, image: u8)
        ensures image { self.new.text ≡ image_of self.old image }
        ensures left { IsImage (moment_of self.old) self.new.text }
        ensures same { self.new ≡ record self.old {
          text = self.new.text;
          synced = self.new.text;
          pending = [];
          past = [];
          left = None;
        } }
    {
        restore(&mut self.text, &mut self.synced, &self.pending, image);
        self.pending.clear();
        self.past.forget();
        self.left = None;
    }

    /// A new disk of the same room that holds the image of this number, as [`MemDisk::crash`] would leave it,
    /// and of which no call fails. This disk stays as it is. All memory is taken here.
    pub fn image(&self, alloc: Global, image: u8) -> Result<MemDisk, AllocError>
        ensures image { IfOk result (λ disk. disk.text ≡ image_of self.now image) }
        ensures left { IfOk result (λ disk. IsImage (moment_of self.now) disk.text) }
        ensures fresh { IfOk result (λ disk. disk ≡ record (new_disk self.now.room []) {
          text = disk.text;
          synced = disk.text;
        }) }
    {
        let mut disk = MemDisk::new(alloc, self.room as u64, &[])?;
        disk.text.extend_from_slice(&self.text).unwrap();
        disk.synced.extend_from_slice(&self.synced).unwrap();
        disk.pending.extend_from_slice(&self.pending).unwrap();
        disk.crash(image);
        Ok(disk)
    }

    /// Counts a call, which fails if it is named to, if it is refused, or if no further one passes.
    fn begin(&mut self, is_refused: bool) -> Result<(), Failed>
        ensures ok { OnOk result (self.new ≡ disk_after_count self.old) }
        ensures not_refused { OnOk result (is_refused ≡ false) }
        ensures err { OnErr result (self.new ≡ disk_after_failure self.old) }

        // The counts of calls and of faults.
        ensures counted { self.old.plan.faults ≤ self.new.plan.faults }
        ensures failed { IsErr result → Rose self.old.plan.faults self.new.plan.faults }
        ensures exact { is_ok result ≡ (can_pass self.old && not is_refused) }
        ensures ends { self.old.clock ≤ COUNT_END }
    {
        if self.faults.next_fails() {
            return Err(Failed);
        }
        if is_refused || self.left == Some(0) {
            self.faults.count_fault();
            return Err(Failed);
        }
        self.clock = self.clock.saturating_add(1);
        self.left = self.left.map(|left| left - 1);
        Ok(())
    }

    /// Begins a call that writes nothing.
    fn begin_read(&mut self) -> Result<(), Failed>
        ensures ok { OnOk result (self.new ≡ disk_after_read self.old) }
        ensures err { OnErr result (self.new ≡ disk_after_failure self.old) }

        // The counts of calls and of faults.
        ensures counted { self.old.plan.faults ≤ self.new.plan.faults }
        ensures failed { IsErr result → Rose self.old.plan.faults self.new.plan.faults }
        ensures exact { is_ok result ≡ can_pass self.old }
        ensures ends { self.old.clock ≤ COUNT_END }
    {
        self.begin(false)?;
        self.past
            .note(NOTHING, &self.text, &self.pending, self.synced.len());
        Ok(())
    }
}

impl Reports for MemDisk {
    ghost reads = { λ m. Some m.text };

    ghost may_leave = { λ m. IsImage (moment_of m) };

    ghost clock = { λ m. m.clock };

    ghost left_since = { LeftSince };

    ghost has_forgotten = { IsTooFarBack };

    ghost budget = { budget_of };

    ghost faults = { λ m. m.plan.faults };
}

impl Disk for MemDisk {
    type Failure = Failed;

    ghost reads_is_left = { λ m. inl refl };

    ghost now_counts = { now_counts };

    ghost only_now = { only_now };

    ghost now_is_known = { now_is_known };

    ghost any_if_forgotten = { λ m t image forgotten. inl forgotten };

    fn len(&mut self) -> Result<u64, Failed>
        ensures len { IfOk result (λ n. IfSome (Some self.old.text) (λ text. n ≡ length text)) }
        ensures keeps { WritesNothing ⟦<MemDisk as Reports>⟧ budget_after_call self.old self.new result }

        // It fails exactly if it is named to or no further call passes, and then it changes nothing.
        ensures exact { is_ok result ≡ can_pass self.old }
        ensures done { OnOk result (self.new ≡ disk_after_read self.old) }
        ensures err { OnErr result (self.new ≡ disk_after_failure self.old) }
    {
        self.begin_read()?;
        Ok(self.text.len() as u64)
    }

    fn read(&mut self, at: u64, into: &mut [u8]) -> Result<(), Failed>
        requires within { ForSome (Some self.old.text) (λ text. at + length into.old ≤ length text) }
        ensures bytes { OnOk result (IfSome (Some self.old.text) (λ text.
            into.new ≡ slice_range text at (at + length into.old))) }
        ensures keeps { WritesNothing ⟦<MemDisk as Reports>⟧ budget_after_call self.old self.new result }

        // It fails exactly if it is named to or no further call passes, and then it changes nothing.
        ensures exact { is_ok result ≡ can_pass self.old }
        ensures done { OnOk result (self.new ≡ disk_after_read self.old) }
        ensures err { OnErr result (self.new ≡ disk_after_failure self.old) }
        ensures kept { OnErr result (into.new ≡ into.old) }
    {
        self.begin_read()?;
        let at = at as usize;
        into.copy_from_slice(&self.text[at..at + into.len()]);
        Ok(())
    }

    fn write(&mut self, at: u64, bytes: &[u8]) -> Result<(), Failed>
        requires within { ForSome (Some self.old.text) (λ text. at ≤ length text) }
        ensures writes { WritesAt ⟦<MemDisk as Reports>⟧ at bytes.now self.old self.new result }

        // It fails exactly if it is named to, no further call passes or it has no room, and then it changes
        // nothing.
        ensures exact { is_ok result ≡ (can_pass self.old && accepts_write self.old (at + length bytes.now)) }
        ensures done { OnOk result (self.new ≡ disk_after_write at bytes.now self.old) }
        ensures err { OnErr result (self.new ≡ disk_after_failure self.old) }
    {
        let range = Range {
            at: at as usize,
            size: bytes.len(),
        };
        let is_full = self.pending.len() == MAX_UNSYNCED as usize;
        let is_refused = is_full || range.size > self.room - range.at;
        self.begin(is_refused)?;
        self.past
            .note(range, &self.text, &self.pending, self.synced.len());
        overwrite(&mut self.text, range.at, bytes);
        self.pending.push(range).unwrap();
        Ok(())
    }

    fn sync(&mut self) -> Result<(), Failed>
        ensures durable { OnOk result (IfSome (Some self.new.text) (λ text.
            (image : List ℕ) → IsImage (moment_of self.new) image → image ≡ text)) }
        ensures keeps { WritesNothing ⟦<MemDisk as Reports>⟧ budget_after_sync self.old self.new result }

        // It fails exactly if it is named to or no further call passes, and then it changes nothing.
        ensures exact { is_ok result ≡ can_pass self.old }
        ensures done { OnOk result (self.new ≡ disk_after_sync self.old) }
        ensures err { OnErr result (self.new ≡ disk_after_failure self.old) }
    {
        self.begin_read()?;
        catch_up(&mut self.synced, &self.text, &self.pending);
        self.pending.clear();
        Ok(())
    }
}

impl Fused for MemDisk {
    fn fuse(&mut self, calls: u32)
        ensures fused { IsFused ⟦<MemDisk as Reports>⟧ calls self.old self.new }

        // This many further calls pass, also of a disk that does not report its budget.
        ensures exact { self.new ≡ record self.old { left = Some calls } }
    {
        self.left = Some(calls as u64);
    }
}
