ghost use Rattle.std.specs.Prelude.{◌≡◌, ◌<◌, ◌≤◌, length, IfOk, IsErr};
ghost use Rattle.std.specs.Io.KnownBytes.{IsAtEnd};
ghost use Rattle.pv_outside.specs.Counts.{Rose, successes_after};
ghost use Rattle.pv_outside.specs.Sink.{Writes};
ghost use Rattle.pv_outside.specs.Source.{MarksEnd, Takes, Leaves};

use crate::failed::Failed;
use crate::sink::Sink;
use crate::source::Source;

/// A line to a caller or an editor: bytes come in by it, and bytes go out by it. Its reads and its writes
/// have a count of faults each.
///
/// Its own two calls do what a source's and a sink's do. They also leave the other direction as it was, so
/// that who only reads knows what was written, and the other way round.
pub trait Line: Source + Sink {
    /// Reads bytes into the beginning of a slice and returns how many, as [`Source::read`] does. A fault
    /// reads nothing.
    fn hear(&mut self, into: &mut [u8]) -> Result<usize, Failed>
        ensures within { IfOk result (λ n. n ≤ length into.old) }
        ensures taken { Takes (Self.taken self.old) (Self.taken self.new) result into.new }
        ensures left { Leaves (Self.left self.old) (Self.left self.new) result into.new }

        // A read with room returns 0 only at the end, and then the end is known.
        ensures end { MarksEnd (Self.ended self.old) (Self.ended self.new) result (length into.old) }
        ensures only_at_end { result ≡ Ok 0 → 0 < length into.old → IsAtEnd (Self.left self.old) }

        // The count of faults never falls, and a fault is returned only if it rose.
        ensures counted { Self.read_faults self.old ≤ Self.read_faults self.new }
        ensures failed { IsErr result → Rose (Self.read_faults self.old) (Self.read_faults self.new) }

        // Nothing is written by this.
        ensures written { Self.written self.new ≡ Self.written self.old }
        ensures writes { Self.writes self.new ≡ Self.writes self.old }
        ensures write_faults { Self.write_faults self.old ≤ Self.write_faults self.new };

    /// Appends the bytes to what was written, as [`Sink::write_all`] does. After a fault a prefix of them was
    /// appended, perhaps none or all.
    fn say(&mut self, bytes: &[u8]) -> Result<(), Failed>
        ensures written { Writes (Self.written self.old) (Self.written self.new) result bytes.now }
        ensures writes { Self.writes self.new ≡ successes_after result (Self.writes self.old) }

        // The count of faults never falls, and a fault is returned only if it rose.
        ensures counted { Self.write_faults self.old ≤ Self.write_faults self.new }
        ensures failed { IsErr result → Rose (Self.write_faults self.old) (Self.write_faults self.new) }

        // Nothing is read by this.
        ensures taken { Self.taken self.new ≡ Self.taken self.old }
        ensures left { Self.left self.new ≡ Self.left self.old }
        ensures ended { Self.ended self.new ≡ Self.ended self.old }
        ensures read_faults { Self.read_faults self.old ≤ Self.read_faults self.new };
}
