ghost use Rattle.std.specs.Prelude.{◌≡◌, ◌<◌, ◌≤◌, length, false, IfOk, IsErr, None};
ghost use Rattle.std.specs.Io.KnownBytes.{IsAtEnd};
ghost use Rattle.pv_outside.specs.Counts.{Rose};
ghost use Rattle.pv_outside.specs.Sink.{Writes};
ghost use Rattle.pv_outside.specs.Source.{MarksEnd, Leaves};
ghost use Rattle.pv_outside.specs.declared.failed.TheConstants.{COUNT_END};

use crate::retry::{is_end, read_some, write_whole};
use pv_outside::{Failed, Line, Sink, Source};
use std::io::{self, Read, Write};
use std::net::{OpenStream, Shutdown, TcpStream};

/// A connection to a caller or an editor, by its two directions. It counts its faults, and keeps the last
/// error of the system. It reports what is left and what was written if its reader and its writer do: a
/// socket does not.
#[derive(Drop)]
pub struct TcpLine<R: Read = TcpStream, W: Write = TcpStream> {
    reader: R,
    writer: W,
    read_faults: u64,
    write_faults: u64,
    ended: bool,
    error: Option<io::Error>,
}

impl<R: Read, W: Write> TcpLine<R, W> {
    /// A line of a new connection.
    pub fn new(reader: R, writer: W) -> TcpLine<R, W>
        ensures reader { result.reader ≡ reader }
        ensures writer { result.writer ≡ writer }
        ensures ended { result.ended ≡ false }
    {
        TcpLine {
            reader,
            writer,
            read_faults: 0,
            write_faults: 0,
            ended: false,
            error: None,
        }
    }

    /// Reads once, and counts a fault.
    fn receive(&mut self, into: &mut [u8]) -> Result<usize, Failed>
        ensures within { IfOk result (λ n. n ≤ length into.old) }
        ensures left { Leaves (R.remaining self.old.reader) (R.remaining self.new.reader) result into.new }
        ensures end { MarksEnd self.old.ended self.new.ended result (length into.old) }
        ensures only_at_end { result ≡ Ok 0 → 0 < length into.old → IsAtEnd (R.remaining self.old.reader) }

        // The count of faults of the reads.
        ensures counted { self.old.read_faults ≤ self.new.read_faults }
        ensures failed { IsErr result → Rose self.old.read_faults self.new.read_faults }

        // Nothing is written by this.
        ensures writer { self.new.writer ≡ self.old.writer }
        ensures write_faults { self.new.write_faults ≡ self.old.write_faults }
    {
        match read_some(&mut self.reader, into) {
            Ok(count) => {
                self.ended |= is_end(count, into.len());
                Ok(count)
            }
            Err(error) => {
                self.read_faults = self.read_faults.saturating_add(1);
                self.error = Some(error);
                Err(Failed)
            }
        }
    }

    /// Writes all of the bytes, and counts a fault.
    fn send(&mut self, bytes: &[u8]) -> Result<(), Failed>
        ensures written { Writes (W.contents self.old.writer) (W.contents self.new.writer) result bytes.now }

        // The count of faults of the writes.
        ensures counted { self.old.write_faults ≤ self.new.write_faults }
        ensures failed { IsErr result → Rose self.old.write_faults self.new.write_faults }

        // Nothing is read by this.
        ensures reader { self.new.reader ≡ self.old.reader }
        ensures ended { self.new.ended ≡ self.old.ended }
        ensures read_faults { self.new.read_faults ≡ self.old.read_faults }
    {
        match write_whole(&mut self.writer, bytes) {
            Ok(()) => Ok(()),
            Err(error) => {
                self.write_faults = self.write_faults.saturating_add(1);
                self.error = Some(error);
                Err(Failed)
            }
        }
    }

    /// The last error that was counted.
    pub fn error(&self) -> Option<io::Error>
        ensures { result ≡ self.now.error }
    {
        self.error
    }

    /// The writer, to look at.
    pub fn writer(&self) -> &W
        ensures { result.now ≡ self.now.writer }
    {
        &self.writer
    }
}

impl<R: Read + Drop, W: Write + OpenStream + Drop> TcpLine<R, W> {
    /// Says to the peer that nothing more comes, and closes the connection.
    pub fn close(self) {
        let _ = self.writer.shutdown(Shutdown::Write);
    }
}

impl<R: Read, W: Write> Source for TcpLine<R, W> {
    ghost read_faults = { λ l. l.read_faults };

    ghost ended = { λ l. l.ended };

    ghost taken = { λ _. None };

    ghost left = { λ l. R.remaining l.reader };

    fn read(&mut self, into: &mut [u8]) -> Result<usize, Failed> {
        self.receive(into)
    }
}

impl<R: Read, W: Write> Sink for TcpLine<R, W> {
    ghost write_faults = { λ l. l.write_faults };

    ghost written = { λ l. W.contents l.writer };

    ghost writes = { λ _. COUNT_END };

    fn write_all(&mut self, bytes: &[u8]) -> Result<(), Failed> {
        self.send(bytes)
    }
}

impl<R: Read, W: Write> Line for TcpLine<R, W> {
    fn hear(&mut self, into: &mut [u8]) -> Result<usize, Failed> {
        self.receive(into)
    }

    fn say(&mut self, bytes: &[u8]) -> Result<(), Failed> {
        self.send(bytes)
    }
}
