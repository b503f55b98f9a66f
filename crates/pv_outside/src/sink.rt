ghost use Rattle.std.specs.Prelude.{◌≡◌, ℕ, ◌≤◌, List, Option, IsErr};
ghost use Rattle.pv_outside.specs.Counts.{Rose, successes_after};
ghost use Rattle.pv_outside.specs.Sink.{Writes};

use crate::failed::Failed;

/// Where bytes go to: memory, a terminal, a line.
pub trait Sink {
    /// How often a write has failed.
    ghost write_faults: { Self → ℕ };

    /// The bytes that were written so far, if the sink can report them.
    ghost written: { Self → Option (List ℕ) };

    /// How many writes have succeeded. A sink that does not count them is at the end of the count.
    ghost writes: { Self → ℕ };

    /// Appends the bytes. After a fault a prefix of them was appended, perhaps none or all.
    fn write_all(&mut self, bytes: &[u8]) -> Result<(), Failed>
        ensures written { Writes (written self.old) (written self.new) result bytes.now }
        ensures writes { writes self.new ≡ successes_after result (writes self.old) }

        // The count of faults never falls, and a fault is returned only if it rose.
        ensures counted { write_faults self.old ≤ write_faults self.new }
        ensures failed { IsErr result → Rose (write_faults self.old) (write_faults self.new) };
}
