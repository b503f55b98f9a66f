ghost use Rattle.std.specs.Prelude.{◌≡◌, ℕ, ◌<◌, ◌≤◌, Bool, List, length, Option, IfOk, IsErr};
ghost use Rattle.std.specs.Io.KnownBytes.{IsAtEnd};
ghost use Rattle.pv_outside.specs.Counts.{Rose};
ghost use Rattle.pv_outside.specs.Source.{MarksEnd, Takes, Leaves};

use crate::failed::Failed;

/// Where bytes come from: a text in memory, a terminal, a line.
pub trait Source {
    /// How often a read has failed.
    ghost read_faults: { Self → ℕ };

    /// Whether a read has met the end of the input.
    ghost ended: { Self → Bool };

    /// The bytes that were read so far, if the source can report them.
    ghost taken: { Self → Option (List ℕ) };

    /// The bytes that are still to come, if the source can report them.
    ghost left: { Self → Option (List ℕ) };

    /// Reads bytes into the beginning of a slice and returns how many. With a slice that is not empty
    /// it returns 0 exactly at the end of the input. A fault reads nothing.
    fn read(&mut self, into: &mut [u8]) -> Result<usize, Failed>
        ensures within { IfOk result (λ n. n ≤ length into.old) }
        ensures taken { Takes (taken self.old) (taken self.new) result into.new }
        ensures left { Leaves (left self.old) (left self.new) result into.new }

        // A read with room returns 0 only at the end, and then the end is known.
        ensures end { MarksEnd (ended self.old) (ended self.new) result (length into.old) }
        ensures only_at_end { result ≡ Ok 0 → 0 < length into.old → IsAtEnd (left self.old) }

        // The count of faults never falls, and a fault is returned only if it rose.
        ensures counted { read_faults self.old ≤ read_faults self.new }
        ensures failed { IsErr result → Rose (read_faults self.old) (read_faults self.new) };
}
