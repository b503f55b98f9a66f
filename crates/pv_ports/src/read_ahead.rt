ghost use Rattle.std.specs.Prelude.{◌≡◌, ◌≢◌, ◌≤◌, ◌<◌, ℕ, List, [], ◌∷◌, ◌++◌, Option, true, false, MatchOption, IfOk, OnOk, OnErr, IsErr, slice_range};
ghost use Rattle.pv_ports.specs.ReadAhead.{keyed_of, is_at_end};
ghost use Rattle.std.specs.Io.KnownBytes.{Appends};
ghost use Rattle.pv_outside.specs.Counts.{Rose};

use pv_outside::{Failed, Line};
use std::marker::Model;

/// How many bytes are read at a time.
pub(crate) const AHEAD: usize = 256;

/// Bytes that were read and are still to be taken. Contracts see them as a list.
#[derive(Drop)]
pub(crate) struct ReadAhead {
    bytes: [u8; AHEAD],
    at: usize,
    end: usize,
}

impl Model for ReadAhead {
    ghost use Rattle.std.specs.Prelude.{◌≤◌, ℕ, List, slice_range};
    ghost use Rattle.pv_ports.specs.declared.read_ahead.TheConstants.{AHEAD};

    ghost Value = { List ℕ };

    ghost view = { λ k. slice_range k.bytes k.at k.end };

    ghost invariant = { λ k. (k.at ≤ k.end) × (k.end ≤ AHEAD) };
}

impl ReadAhead {
    /// None.
    pub(crate) fn new() -> ReadAhead
        ensures { result ≡ [] }
    {
        ReadAhead {
            bytes: [0; AHEAD],
            at: 0,
            end: 0,
        }
    }

    /// Forgets what was not taken.
    pub(crate) fn clear(&mut self)
        ensures { self.new ≡ [] }
    {
        self.at = 0;
        self.end = 0;
    }

    /// Takes the first of them. `None`: all were taken.
    pub(crate) fn take(&mut self) -> Option<u8>
        ensures { MatchOption result ((self.old ≡ []) × (self.new ≡ []))
            (λ byte. self.old ≡ byte ∷ self.new) }
    {
        if self.at == self.end {
            return None;
        }
        let byte = self.bytes[self.at];
        self.at += 1;
        Some(byte)
    }

    /// Reads some, where there are none, and returns whether there are some now. There are none at the end of the
    /// line alone.
    pub(crate) fn refill<L: Line>(&mut self, line: &mut L) -> Result<bool, Failed>
        requires none { self.old ≡ [] }
        requires goes_on { L.ended line.old ≡ false }

        // What was read is what there is now.
        ensures read { OnOk result (Appends (L.taken line.old) (L.taken line.new) self.new) }
        ensures some { result ≡ Ok true → (self.new ≢ []) × (L.ended line.new ≡ false) }
        ensures end { result ≡ Ok false → (self.new ≡ []) × (L.ended line.new ≡ true) }
        ensures err { OnErr result ((self.new ≡ []) × (L.ended line.new ≡ false)) }
        ensures err_taken { OnErr result (Appends (L.taken line.old) (L.taken line.new) []) }

        // A fault is counted, and nothing is written.
        ensures failed { IsErr result → Rose (L.read_faults line.old) (L.read_faults line.new) }
        ensures counted { L.read_faults line.old ≤ L.read_faults line.new }
        ensures written { L.written line.new ≡ L.written line.old }
        ensures write_faults { L.write_faults line.old ≤ L.write_faults line.new }
    {
        self.at = 0;
        self.end = 0;
        self.end = line.hear(&mut self.bytes)?;
        Ok(self.end > 0)
    }

    /// The next key of a connection, of those that were read ahead or else read now. `None` exactly at its end.
    pub(crate) fn next<L: Line>(&mut self, line: &mut L) -> Result<Option<u8>, Failed>
        requires goes_on { L.ended line.old ≡ false }
        ensures keyed { (first : Option (List ℕ)) (keys : List ℕ)
            → Appends first (L.taken line.old) (keys ++ self.old)
            → Appends first (L.taken line.new) (keys ++ keyed_of result ++ self.new) }
        ensures drained { keyed_of result ≡ [] → self.new ≡ [] }
        ensures ended { L.ended line.new ≡ is_at_end result }

        // A fault is counted, and nothing is written.
        ensures failed { IsErr result → Rose (L.read_faults line.old) (L.read_faults line.new) }
        ensures counted { L.read_faults line.old ≤ L.read_faults line.new }
        ensures written { L.written line.new ≡ L.written line.old }
        ensures write_faults { L.write_faults line.old ≤ L.write_faults line.new }
    {
        if let Some(byte) = self.take() {
            return Ok(Some(byte));
        }
        if !self.refill(line)? {
            return Ok(None);
        }
        Ok(self.take())
    }
}
