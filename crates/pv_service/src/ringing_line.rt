use crate::signals::Signals;
use pv_outside::{Failed, Line, Sink, Source};

/// What a reply begins with that acknowledges an edit.
const ACKNOWLEDGED: &[u8] = b"OK ";

/// An editor's connection that wakes all carriers before an edit is acknowledged on it. The edit is stored by then, so
/// it is on its way to the centres when the editor reads that it is. It reports what the connection within it reports.
#[derive(Drop)]
pub(crate) struct RingingLine<'a, L: Line + Drop> {
    pub(crate) line: L,
    pub(crate) signals: &'a Signals,
}

impl<'a, L: Line + Drop> RingingLine<'a, L> {
    /// Wakes all carriers if these bytes acknowledge an edit.
    fn ring(&self, bytes: &[u8]) {
        if bytes.starts_with(ACKNOWLEDGED) {
            self.signals.ring_all();
        }
    }
}

impl<'a, L: Line + Drop> Source for RingingLine<'a, L> {
    ghost read_faults = { λ l. L.read_faults l.line };

    ghost ended = { λ l. L.ended l.line };

    ghost taken = { λ l. L.taken l.line };

    ghost left = { λ l. L.left l.line };

    fn read(&mut self, into: &mut [u8]) -> Result<usize, Failed> {
        self.line.read(into)
    }
}

impl<'a, L: Line + Drop> Sink for RingingLine<'a, L> {
    ghost write_faults = { λ l. L.write_faults l.line };

    ghost written = { λ l. L.written l.line };

    ghost writes = { λ l. L.writes l.line };

    fn write_all(&mut self, bytes: &[u8]) -> Result<(), Failed> {
        self.ring(bytes);
        self.line.write_all(bytes)
    }
}

impl<'a, L: Line + Drop> Line for RingingLine<'a, L> {
    fn hear(&mut self, into: &mut [u8]) -> Result<usize, Failed> {
        self.line.hear(into)
    }

    fn say(&mut self, bytes: &[u8]) -> Result<(), Failed> {
        self.ring(bytes);
        self.line.say(bytes)
    }
}
