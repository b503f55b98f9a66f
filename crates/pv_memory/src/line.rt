ghost use Rattle.std.specs.Prelude.{◌≡◌, ◌||◌, ◌≤◌, ◌<◌, Some, IfOk, IsErr, OnErr, is_err, length, drop};
ghost use Rattle.std.specs.Io.KnownBytes.{IsAtEnd};
ghost use Rattle.pv_outside.specs.Counts.{Rose, successes_after};
ghost use Rattle.pv_outside.specs.Sink.{Writes};
ghost use Rattle.pv_outside.specs.Source.{MarksEnd, Takes, Leaves};
ghost use Rattle.pv_memory.specs.Faults.{fails_now};
ghost use Rattle.pv_memory.specs.Streams.{is_past_room, source_after_read, sink_after_write};

use crate::sink::MemSink;
use crate::source::MemSource;
use pv_outside::{Failed, Line, Sink, Source};

/// A line of which both ends are in memory: it gives what its source has, and keeps in its sink what is
/// written to it.
#[derive(Debug, Drop)]
pub struct MemLine {
    source: MemSource,
    sink: MemSink,
}

impl MemLine {
    /// A line of these two ends.
    pub fn new(source: MemSource, sink: MemSink) -> MemLine
        ensures { result ≡ record { source = source; sink = sink } }
    {
        MemLine { source, sink }
    }

    /// What was written to it so far.
    pub fn sent(&self) -> &[u8]
        ensures { result.now ≡ self.now.sink.bytes }
    {
        self.sink.bytes()
    }
}

impl Source for MemLine {
    ghost read_faults = { λ l. l.source.plan.faults };

    ghost ended = { λ l. l.source.ended };

    ghost taken = { λ l. Some l.source.read };

    ghost left = { λ l. Some l.source.left };

    fn read(&mut self, into: &mut [u8]) -> Result<usize, Failed>
        ensures within { IfOk result (λ n. n ≤ length into.old) }
        ensures taken { Takes (Some self.old.source.read) (Some self.new.source.read) result into.new }
        ensures left { Leaves (Some self.old.source.left) (Some self.new.source.left) result into.new }
        ensures end { MarksEnd self.old.source.ended self.new.source.ended result (length into.old) }
        ensures only_at_end { result ≡ Ok 0 → 0 < length into.old → IsAtEnd (Some self.old.source.left) }

        // A fault is counted.
        ensures counted { self.old.source.plan.faults ≤ self.new.source.plan.faults }
        ensures failed { IsErr result → Rose self.old.source.plan.faults self.new.source.plan.faults }

        // Its source alone is read, and fails at the calls that were named.
        ensures exact { self.new
            ≡ record self.old { source = source_after_read self.old.source (length into.old) } }
        ensures fails { is_err result ≡ fails_now self.old.source.plan }
        ensures kept { OnErr result (into.new ≡ into.old) }

        // After the bytes that it gave the slice is as it was.
        ensures rest { IfOk result (λ n. drop n into.new ≡ drop n into.old) }
    {
        self.source.read(into)
    }
}

impl Sink for MemLine {
    ghost write_faults = { λ l. l.sink.plan.faults };

    ghost written = { λ l. Some l.sink.bytes };

    ghost writes = { λ l. l.sink.writes };

    fn write_all(&mut self, bytes: &[u8]) -> Result<(), Failed>
        ensures written { Writes (Some self.old.sink.bytes) (Some self.new.sink.bytes) result bytes.now }
        ensures writes { self.new.sink.writes ≡ successes_after result self.old.sink.writes }
        ensures counted { self.old.sink.plan.faults ≤ self.new.sink.plan.faults }
        ensures failed { IsErr result → Rose self.old.sink.plan.faults self.new.sink.plan.faults }

        // Its sink alone is written to, and fails at the calls that were named and past its room.
        ensures exact { self.new ≡ record self.old { sink = sink_after_write self.old.sink bytes.now } }
        ensures fails { is_err result
            ≡ (fails_now self.old.sink.plan || is_past_room self.old.sink bytes.now) }
    {
        self.sink.write_all(bytes)
    }
}

impl Line for MemLine {
    fn hear(&mut self, into: &mut [u8]) -> Result<usize, Failed> {
        self.read(into)
    }

    fn say(&mut self, bytes: &[u8]) -> Result<(), Failed> {
        self.write_all(bytes)
    }
}
