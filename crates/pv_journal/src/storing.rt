ghost use Rattle.std.specs.Prelude.{◌≡◌, ◌⊎◌, ℕ, ◌+◌, ◌^◌, ◌<◌, ◌≤◌, List, [], ◌∷◌, ◌++◌, length, take, slice_index, All, ◌-◌, IfSome, IsErr, IsOk, OnOk, OnErr};
ghost use Rattle.std.specs.Option.{ForSome, option_map};
ghost use Rattle.pv_outside.specs.Disk.{Torn, Turns, HasCalls, budget_after_sync, budget_after_write, text_after_write};
ghost use Rattle.pv_outside.specs.declared.disk.TheConstants.{KEPT_BYTES};
ghost use Rattle.pv_journal.specs.declared.block.TheConstants.{HEAD_SIZE};
ghost use Rattle.pv_journal.specs.declared.storing.TheConstants.{APPEND_CALLS, GATE_CALLS};
ghost use Rattle.pv_journal.specs.Text.{IsBody, text_of, Spells, SpellsEither, bytes_after_gate, bytes_behind, HasClosedGate, MayHaveBody};
ghost use Rattle.pv_journal.specs.Journal.{EachImage, IsDurable, IsSynced, IsTornOf, LeavesOnly, HasMade, Spends};

use crate::block::HEAD_SIZE;
use pv_outside::Disk;

/// How many calls of the disk an append makes: once they have succeeded its bodies are stored.
pub const APPEND_CALLS: u8 = 4;

/// How many of them put the bodies on the disk, before the gate is opened. Until they have succeeded none of
/// the bodies is stored.
pub const GATE_CALLS: u8 = 2;

/// Writes bodies after the gate and puts them on the disk; then opens the gate, and puts that there too.
/// The gates between the bodies are open already: they count only once the first one does. The bytes are those
/// of `bytes_behind`.
pub(crate) fn store<D: Disk>(disk: &mut D, gate: u64, bytes: &[u8]) -> Result<(), D::Failure>
    requires size { HEAD_SIZE < length bytes.now }
    requires little { length bytes.now ≤ KEPT_BYTES }
    requires ends { slice_index bytes.now (length bytes.now - 1) ≡ 0 }
    requires place { gate < 2 ^ 63 }
    requires closed { ForSome (D.reads disk.old) (HasClosedGate gate) }

    // Say each image spelled a list whose gate this is. Then a crash at any moment of the call leaves one that
    // spells it without the bodies or with all of them. After an Ok each spells it with all.
    ensures moments { (bodies : List (List ℕ)) (first : List ℕ) (others : List (List ℕ))
        → gate ≡ length (text_of bodies) → bytes.now ≡ bytes_behind (first ∷ others)
        → All IsBody (first ∷ others) → EachImage D.Reports disk.old (λ image. Spells image bodies)
        → LeavesOnly D.Reports disk.old disk.new (SpellsEither bodies (first ∷ others)) }
    ensures stored { OnOk result ((bodies : List (List ℕ)) (first : List ℕ) (others : List (List ℕ))
        → gate ≡ length (text_of bodies) → bytes.now ≡ bytes_behind (first ∷ others)
        → All IsBody (first ∷ others) → EachImage D.Reports disk.old (λ image. Spells image bodies)
        → EachImage D.Reports disk.new (λ image. Spells image (bodies ++ first ∷ others))) }

    // Until the calls before the gate have succeeded, it leaves one that spells the list without them.
    ensures early { (bodies : List (List ℕ)) → gate ≡ length (text_of bodies)
        → EachImage D.Reports disk.old (λ image. Spells image bodies)
        → HasMade D.Reports GATE_CALLS disk.old disk.new
        ⊎ LeavesOnly D.Reports disk.old disk.new (λ image. Spells image bodies) }

    // After an Ok an open gate and these bytes were written, and no other byte.
    ensures written { OnOk result (D.reads disk.new
        ≡ option_map (text_after_write gate (1 ∷ bytes.now)) (D.reads disk.old)) }
    ensures next_gate { OnOk result
        (IfSome (D.reads disk.new) (HasClosedGate (gate + length bytes.now))) }
    ensures same_gate { OnErr result ((size : ℕ) → length bytes.now ≡ size + HEAD_SIZE
        → IfSome (D.reads disk.new) (MayHaveBody gate size)) }

    // What it takes of the disk.
    ensures synced { OnOk result (IsSynced D.Reports disk.new) }
    ensures passes { HasCalls APPEND_CALLS (gate + length bytes.now + 1) (D.budget disk.old)
        → IsSynced D.Reports disk.old → IsOk result }
    ensures all_four { OnOk result (HasMade D.Reports APPEND_CALLS disk.old disk.new) }
    ensures spends { Spends D.Reports APPEND_CALLS (IsErr result) disk.old disk.new }
    ensures steady { OnOk result (D.faults disk.new ≡ D.faults disk.old) }
{
    // The bodies have to be on the disk first: after a gate that is open, whatever is there counts.
    put(disk, gate + 1, bytes)?;
    put(disk, gate, &[1])
}

/// Writes bytes at a place, and puts them on the disk.
pub(crate) fn put<D: Disk>(disk: &mut D, at: u64, bytes: &[u8]) -> Result<(), D::Failure>
    requires within { ForSome (D.reads disk.old) (λ text. at ≤ length text) }
    requires little { length bytes.now ≤ KEPT_BYTES }

    // After an Ok the bytes are there, and a crash leaves what the disk reads as. A failure leaves any in their range.
    ensures written { OnOk result (D.reads disk.new
        ≡ option_map (text_after_write at bytes.now) (D.reads disk.old)) }
    ensures durable { OnOk result (IsDurable D.Reports disk.new) }
    ensures torn { OnErr result
        (Turns (Torn at (length bytes.now)) (D.reads disk.old) (D.reads disk.new)) }
    ensures moments { LeavesOnly D.Reports disk.old disk.new
        (IsTornOf D.Reports disk.old at (length bytes.now)) }

    // What it takes of the disk.
    ensures paid { OnOk result (D.budget disk.new
        ≡ option_map (λ b. budget_after_sync (budget_after_write b)) (D.budget disk.old)) }
    ensures passes { HasCalls 2 (at + length bytes.now) (D.budget disk.old)
        → IsSynced D.Reports disk.old → IsOk result }
    ensures both { OnOk result (HasMade D.Reports 2 disk.old disk.new) }
    ensures spends { Spends D.Reports 2 (IsErr result) disk.old disk.new }
    ensures steady { OnOk result (D.faults disk.new ≡ D.faults disk.old) }
{
    disk.write(at, bytes)?;
    disk.sync()
}

/// Puts into the beginning what comes after the gate of a body: its length, the body and a closed gate.
/// Returns how many bytes these are.
pub(crate) fn spell(body: &[u8], into: &mut [u8]) -> usize
    requires size { IsBody body.now }
    requires room { length body.now + HEAD_SIZE ≤ length into.old }
    ensures length { result ≡ length body.now + HEAD_SIZE }
    ensures bytes { take result into.new ≡ bytes_after_gate body.now }
    ensures ends { slice_index into.new (result - 1) ≡ 0 }
{
    let size = body.len();
    into[..2].copy_from_slice(&(size as u16).to_be_bytes());
    into[2..2 + size].copy_from_slice(body);
    into[2 + size] = 0;
    size + HEAD_SIZE
}
