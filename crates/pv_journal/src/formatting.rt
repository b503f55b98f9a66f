ghost use Rattle.std.specs.Prelude.{◌≡◌, ℕ, ◌+◌, ◌≤◌, [], ◌∷◌, ◌++◌, OnOk, IsOk, IsErr};
ghost use Rattle.std.specs.Option.{option_map};
ghost use Rattle.pv_outside.specs.Disk.{text_after_write, IsLaterBy, HasCalls, IsEndless};
ghost use Rattle.pv_journal.specs.Text.{Spells};
ghost use Rattle.pv_journal.specs.Journal.{EachImage, IsDurable, IsSynced, LeavesOnly, IsTornOf, Spends};
ghost use Rattle.pv_journal.specs.declared.block.TheConstants.{MARK, EMPTY_SIZE};

use crate::block::EMPTY_SIZE;
use crate::storing::put;
use pv_outside::Disk;

/// A journal without bodies: the mark and a closed gate.
const EMPTY: [u8; EMPTY_SIZE] = [b'P', b'V', b'J', b'O', b'U', b'R', b'N', b'1', 0];

/// Makes the disk a journal without bodies, by three calls of the disk. It stops at the first that fails:
/// then the disk need not be a journal, and `format` is to be called again.
pub fn format<D: Disk>(disk: &mut D) -> Result<(), D::Failure>
    ensures empty { OnOk result (EachImage D.Reports disk.new (λ image. Spells image [])) }
    ensures written { OnOk result (D.reads disk.new
        ≡ option_map (text_after_write 0 (MARK ++ 0 ∷ [])) (D.reads disk.old)) }
    ensures durable { OnOk result (IsDurable D.Reports disk.new) }
    ensures synced { OnOk result (IsSynced D.Reports disk.new) }
    ensures all_three { OnOk result (IsLaterBy 3 (D.clock disk.old) (D.clock disk.new)) }

    // What it takes of the disk, and what a crash at any moment of it leaves: an image that might have been left
    // before, with any bytes in place of the first ones and past its end.
    ensures spends { Spends D.Reports 3 (IsErr result) disk.old disk.new }
    ensures steady { OnOk result (D.faults disk.new ≡ D.faults disk.old) }
    ensures passes { HasCalls 3 EMPTY_SIZE (D.budget disk.old) → IsOk result }
    ensures moments { LeavesOnly D.Reports disk.old disk.new (IsTornOf D.Reports disk.old 0 EMPTY_SIZE) }
{
    disk.sync()?;
    put(disk, 0, &EMPTY)
}
