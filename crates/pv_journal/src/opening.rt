ghost use Rattle.std.specs.Prelude.{◌≡◌, ◌↔◌, ◌+◌, ◌<◌, ◌≤◌, ℕ, ◌++◌, length, take, drop, slice_index, IfOk, IfErr, OnOk, IsErr, IfSome, IsTrue};
ghost use Rattle.pv_journal.specs.Text.{first_eight};
ghost use Rattle.pv_journal.specs.Journal.{ReadsOnly, HasMade, IsSynced, IsDurable};
ghost use Rattle.pv_journal.specs.Faults.{ReadFailsOnDisk, IsStartFault, StartFaultShows};
ghost use Rattle.pv_journal.specs.declared.block.TheConstants.{MARK_SIZE};

use crate::block::{MARK, MARK_SIZE, MAX_BLOCK};
use crate::fault::OpenFault;
use pv_outside::Disk;

/// Syncs the disk, and returns how many bytes it has, if these begin with the mark.
pub(crate) fn length_after_mark<D: Disk>(disk: &mut D) -> Result<u64, OpenFault<D>>
    ensures reads_only { ReadsOnly D.Reports 3 (ReadFailsOnDisk result) disk.old disk.new }
    ensures length { IfOk result (λ end. MARK_SIZE ≤ end) }
    ensures marked { IfOk result (λ end. IfSome (D.reads disk.old) (λ text. (length text ≡ end)
        × (text ≡ MARK ++ drop MARK_SIZE text))) }
    ensures durable { OnOk result (IsDurable D.Reports disk.new) }
    ensures synced { OnOk result (IsSynced D.Reports disk.new) }

    // All three calls were made. Or one failed, or the disk does not begin with the mark.
    ensures made { OnOk result (HasMade D.Reports 3 disk.old disk.new) }
    ensures steady { OnOk result (D.faults disk.new ≡ D.faults disk.old) }
    ensures refused { IfErr result IsStartFault }
    ensures shown { IfErr result (λ fault. IfSome (D.reads disk.old) (λ text. StartFaultShows text fault)) }
{
    let mut first = [0; MARK_SIZE];
    match first_bytes(disk, &mut first) {
        Ok(end) if is_mark(&first) => Ok(end),
        Ok(_) => Err(OpenFault::NotFormatted(first)),
        Err(failure) => Err(OpenFault::Disk(failure)),
    }
}

/// Syncs the disk, reads the first eight bytes, filled up with 0, and returns how many bytes there are.
fn first_bytes<D: Disk>(disk: &mut D, into: &mut [u8; MARK_SIZE]) -> Result<u64, D::Failure>
    ensures reads_only { ReadsOnly D.Reports 3 (IsErr result) disk.old disk.new }
    ensures length { IfOk result (λ end. IfSome (D.reads disk.old) (λ text. length text ≡ end)) }
    ensures bytes { OnOk result (IfSome (D.reads disk.old) (λ text. into.new ≡ first_eight text)) }
    ensures filled { IfOk result (λ end. end < MARK_SIZE → slice_index into.new 7 ≡ 0) }

    // All three calls were made, and after them a crash leaves what the disk reads as.
    ensures made { OnOk result (HasMade D.Reports 3 disk.old disk.new) }
    ensures steady { OnOk result (D.faults disk.new ≡ D.faults disk.old) }
    ensures durable { OnOk result (IsDurable D.Reports disk.new) }
    ensures synced { OnOk result (IsSynced D.Reports disk.new) }
{
    disk.sync()?;
    let end = disk.len()?;
    *into = [0; MARK_SIZE];
    let held = end.min(MARK_SIZE as u64) as usize;
    disk.read(0, &mut into[..held])?;
    Ok(end)
}

/// The bytes are the mark.
fn is_mark(first: &[u8; MARK_SIZE]) -> bool
    ensures { IsTrue result ↔ (first.now ≡ MARK) }
{
    *first == MARK
}

/// Reads as much of a longest block as there is at this place of a disk of `end` bytes, and returns how
/// much.
pub(crate) fn read_block<D: Disk>(
    disk: &mut D,
    gate: u64,
    end: u64,
    into: &mut [u8; MAX_BLOCK],
) -> Result<usize, D::Failure>
    requires within { gate ≤ end }
    requires long { IfSome (D.reads disk.old) (λ text. length text ≡ end) }

    ensures reads_only { ReadsOnly D.Reports 1 (IsErr result) disk.old disk.new }
    ensures made { OnOk result (HasMade D.Reports 1 disk.old disk.new) }
    ensures steady { OnOk result (D.faults disk.new ≡ D.faults disk.old) }
    ensures held { IfOk result (λ held. (held ≤ MAX_BLOCK) × (gate + held ≤ end)) }
    ensures bytes { IfOk result (λ held. IfSome (D.reads disk.old) (λ text. take held into.new
        ≡ take MAX_BLOCK (drop gate text))) }

    // Reading leaves a disk as durable as it was.
    ensures durable { IsDurable D.Reports disk.old → IsDurable D.Reports disk.new }
    ensures synced { IsSynced D.Reports disk.old → IsSynced D.Reports disk.new }
{
    let held = (end - gate).min(MAX_BLOCK as u64) as usize;
    disk.read(gate, &mut into[..held])?;
    Ok(held)
}
