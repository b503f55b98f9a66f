//! A disk that may stop at any moment.
//!
//! What a crash may do. Take two syncs that succeed, one after the other, and the end that the disk had
//! at the first. Between them, after a crash, each range that a write was called on may hold any bytes.
//! So may everything past that end, and the disk may end anywhere past it. Writes may therefore be
//! lost, torn or reordered, in part or whole, also one that failed. A byte below that end and in no
//! such range is kept. After a sync that succeeded a crash leaves what a read gives. The disk as it
//! reads is one of the images that a crash may leave.
//!
//! A disk may report all this, as one in memory does, or nothing, as a file does. One that reports
//! nothing has `None` for what it reads and for its budget. It lets a crash leave any image, has
//! forgotten each time, and its clock is at its end. Then each clause below says nothing of it.
ghost use Rattle.std.specs.Prelude.{◌≡◌, ◌⊎◌, ℕ, ◌+◌, ◌≤◌, List, length, slice_range, IfOk, OnOk, IfSome};
ghost use Rattle.std.specs.Option.{ForSome};
ghost use Rattle.pv_outside.specs.declared.failed.TheConstants.{COUNT_END};
ghost use Rattle.pv_outside.specs.Disk.{budget_after_call, budget_after_sync};
ghost use Rattle.pv_outside.specs.Calls.{WritesNothing, WritesAt, IsFused};

use crate::reports::Reports;

/// How many calls back a disk that reports its images still knows them.
pub const KEPT_CALLS: u64 = 8;

/// The longest write, in bytes, after which a disk that reports its images still knows those from
/// before it.
pub const KEPT_BYTES: u64 = 4096;

/// How many writes a disk that reports its budget takes between two syncs.
pub const MAX_UNSYNCED: u64 = 8;

/// A disk, which may stop at any moment. The head of this file says what a crash may do.
pub trait Disk: Reports {
    /// What a call that fails returns. Generic code gets one from a call that failed, and nowhere else.
    type Failure: Drop + Send;

    /// How many bytes it has.
    fn len(&mut self) -> Result<u64, Self::Failure>
        ensures len { IfOk result (λ n. IfSome (Self.reads self.old) (λ text. n ≡ length text)) }
        ensures keeps { WritesNothing Self.Reports budget_after_call self.old self.new result };

    /// Reads as many bytes as the slice takes, from this place on. The disk must have them.
    fn read(&mut self, at: u64, into: &mut [u8]) -> Result<(), Self::Failure>
        requires within { ForSome (Self.reads self.old) (λ text. at + length into.old ≤ length text) }
        ensures bytes { OnOk result (IfSome (Self.reads self.old) (λ text.
            into.new ≡ slice_range text at (at + length into.old))) }
        ensures keeps { WritesNothing Self.Reports budget_after_call self.old self.new result };

    /// Writes the bytes from this place on, over what is there and past the end. The place is at most
    /// the end. After a failure the range may hold any bytes.
    fn write(&mut self, at: u64, bytes: &[u8]) -> Result<(), Self::Failure>
        requires within { ForSome (Self.reads self.old) (λ text. at ≤ length text) }
        ensures writes { WritesAt Self.Reports at bytes.now self.old self.new result };

    /// Puts what was written on the disk: after it a crash leaves what a read gives.
    fn sync(&mut self) -> Result<(), Self::Failure>
        ensures durable { OnOk result (IfSome (Self.reads self.new) (λ text.
            (image : List ℕ) → Self.may_leave self.new image → image ≡ text)) }
        ensures keeps { WritesNothing Self.Reports budget_after_sync self.old self.new result };

    /// The disk as it reads is one of its images.
    ghost reads_is_left: { (disk : Self) → IfSome (Self.reads disk) (Self.may_leave disk) };

    /// This moment is one of those since an earlier one.
    ghost now_counts: { (disk : Self) (t : ℕ) (image : List ℕ)
        → t ≤ Self.clock disk → Self.may_leave disk image → Self.left_since disk t image };

    /// Since this moment there is no other, unless it is forgotten.
    ghost only_now: { (disk : Self) (image : List ℕ) → Self.left_since disk (Self.clock disk) image
        → Self.may_leave disk image ⊎ Self.has_forgotten disk (Self.clock disk) };

    /// This moment is not forgotten, unless the clock is at its end.
    ghost now_is_known: { (disk : Self)
        → Self.has_forgotten disk (Self.clock disk) → COUNT_END ≤ Self.clock disk };

    /// Since a time that is forgotten any image might have been left.
    ghost any_if_forgotten: { (disk : Self) (t : ℕ) (image : List ℕ)
        → Self.has_forgotten disk t → Self.left_since disk t image };
}

/// A disk that can be made to stop after a number of further calls.
pub trait Fused: Disk {
    /// This many further calls pass, and then each fails. Nothing else changes.
    fn fuse(&mut self, calls: u32)
        ensures { IsFused Self.Reports calls self.old self.new };
}
