ghost use Rattle.std.specs.Prelude.{◌≡◌, ◌≤◌, false, [], IfOk, IsErr, OnOk, None};
ghost use Rattle.std.specs.Io.Buffered.{writer_inner, writer_capacity};
ghost use Rattle.std.specs.Io.KnownBytes.{Keeps};
ghost use Rattle.pv_outside.specs.Counts.{Rose};
ghost use Rattle.pv_outside.specs.declared.failed.TheConstants.{COUNT_END};
ghost use Rattle.pv_files.specs.Output.{written_bytes, buffered_bytes};

use crate::retry::{is_end, read_some, write_whole};
use pv_outside::{Failed, Sink, Source};
use std::alloc::{AllocError, Global};
use std::io::{BufWriter, Read, Write};

/// How many bytes of the output the buffer has room for.
pub const OUTPUT_BUFFER: usize = 65_536;

/// A reader of the process as a source. It counts its faults and whether it has ended. It reports what is
/// left if the reader does: a slice does, a terminal and a pipe do not.
#[derive(Drop)]
pub struct StandardInput<R: Read + Drop> {
    reader: R,
    faults: u64,
    ended: bool,
}

impl<R: Read + Drop> StandardInput<R> {
    /// A source of which nothing was read.
    pub fn new(reader: R) -> Self
        ensures reader { result.reader ≡ reader }
        ensures faults { result.faults ≡ 0 }
        ensures ended { result.ended ≡ false }
    {
        StandardInput {
            reader,
            faults: 0,
            ended: false,
        }
    }

    /// The reader itself.
    pub fn reader(&self) -> &R
        ensures { result.now ≡ self.now.reader }
    {
        &self.reader
    }
}

impl<R: Read + Drop> Source for StandardInput<R> {
    ghost read_faults = { λ s. s.faults };

    ghost ended = { λ s. s.ended };

    ghost taken = { λ _. None };

    ghost left = { λ s. R.remaining s.reader };

    fn read(&mut self, into: &mut [u8]) -> Result<usize, Failed> {
        match read_some(&mut self.reader, into) {
            Ok(count) => {
                self.ended |= is_end(count, into.len());
                Ok(count)
            }
            Err(_) => {
                self.faults = self.faults.saturating_add(1);
                Err(Failed)
            }
        }
    }
}

/// A writer of the process as a sink, with a buffer of its own before it. It counts its faults, and reports
/// the bytes that were written if the writer reports what it holds.
#[derive(Drop)]
pub struct StandardOutput<W: Write + Drop> {
    writer: BufWriter<W>,
    faults: u64,
}

impl<W: Write + Drop> StandardOutput<W> {
    /// A sink to which nothing was written.
    pub fn new(alloc: Global, writer: W) -> Result<Self, AllocError>
        ensures writer { IfOk result (λ out. writer_inner out.writer ≡ writer) }
        ensures empty { IfOk result (λ out. buffered_bytes out ≡ []) }
        ensures capacity { IfOk result (λ out. writer_capacity out.writer ≡ OUTPUT_BUFFER) }
        ensures faults { IfOk result (λ out. out.faults ≡ 0) }
    {
        let Ok(writer) = BufWriter::with_capacity(alloc, OUTPUT_BUFFER, writer) else {
            return Err(AllocError);
        };
        Ok(StandardOutput { writer, faults: 0 })
    }

    /// The writer itself, which has what was flushed.
    pub fn writer(&self) -> &W
        ensures { result.now ≡ writer_inner self.now.writer }
    {
        self.writer.get_ref()
    }

    /// Passes on to the writer what is still in the buffer.
    pub fn flush(&mut self) -> Result<(), Failed>
        ensures flushed { OnOk result (buffered_bytes self.new ≡ []) }
        ensures kept { Keeps (written_bytes W.contents self.old) (written_bytes W.contents self.new) }
        ensures counted { self.old.faults ≤ self.new.faults }
        ensures failed { IsErr result → Rose self.old.faults self.new.faults }
    {
        if self.writer.flush().is_err() {
            self.faults = self.faults.saturating_add(1);
            return Err(Failed);
        }
        Ok(())
    }
}

impl<W: Write + Drop> Sink for StandardOutput<W> {
    ghost write_faults = { λ s. s.faults };

    ghost written = { written_bytes W.contents };

    ghost writes = { λ _. COUNT_END };

    fn write_all(&mut self, bytes: &[u8]) -> Result<(), Failed> {
        if write_whole(&mut self.writer, bytes).is_err() {
            self.faults = self.faults.saturating_add(1);
            return Err(Failed);
        }
        Ok(())
    }
}
