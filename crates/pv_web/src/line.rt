ghost use Rattle.std.specs.Prelude.{◌≡◌, ◌<◌, ◌≤◌, nat_lt, min, length, take, drop, false, [], IfOk, IsErr, None};
ghost use Rattle.std.specs.Io.KnownBytes.{IsAtEnd, Keeps};
ghost use Rattle.pv_outside.specs.Counts.{Rose};
ghost use Rattle.pv_outside.specs.Sink.{Writes};
ghost use Rattle.pv_outside.specs.Source.{MarksEnd, Leaves};
ghost use Rattle.pv_outside.specs.declared.failed.TheConstants.{COUNT_END};
ghost use Rattle.pv_files.specs.Output.{WritesWhole};
ghost use Rattle.pv_web.specs.Messages.{keys_to_come};

use crate::messages::{Incoming, MAX_SENT, Messages};
use bytes::Bytes;
use pv_outside::{Failed, Line, Sink, Source};
use std::io::{self, ErrorKind};

/// A line to a caller at a browser. It keeps the keys of a message that did not fit into a read, counts its
/// faults, and keeps the last error. It reports what is left and what was written if its messages do.
#[derive(Drop)]
pub struct BrowserLine<M: Messages> {
    messages: M,
    waiting: Bytes,
    read_faults: u64,
    write_faults: u64,
    ended: bool,
    error: Option<io::Error>,
}

impl<M: Messages> BrowserLine<M> {
    /// A line over these messages.
    pub fn new(messages: M) -> BrowserLine<M>
        ensures messages { result.messages ≡ messages }
        ensures waiting { result.waiting ≡ [] }
        ensures ended { result.ended ≡ false }
    {
        BrowserLine {
            messages,
            waiting: Bytes::new(),
            read_faults: 0,
            write_faults: 0,
            ended: false,
            error: None,
        }
    }

    /// Reads keys, and counts a fault.
    fn receive(&mut self, into: &mut [u8]) -> Result<usize, Failed>
        ensures within { IfOk result (λ n. n ≤ length into.old) }
        ensures left { Leaves (keys_to_come self.old.waiting (M.coming self.old.messages))
            (keys_to_come self.new.waiting (M.coming self.new.messages)) result into.new }
        ensures end { MarksEnd self.old.ended self.new.ended result (length into.old) }
        ensures only_at_end { result ≡ Ok 0 → 0 < length into.old
            → IsAtEnd (keys_to_come self.old.waiting (M.coming self.old.messages)) }

        // The count of faults of the reads.
        ensures counted { self.old.read_faults ≤ self.new.read_faults }
        ensures failed { IsErr result → Rose self.old.read_faults self.new.read_faults }

        // Nothing is written by this.
        ensures written { M.written self.new.messages ≡ M.written self.old.messages }
        ensures write_faults { self.new.write_faults ≡ self.old.write_faults }
    {
        if into.is_empty() {
            return Ok(0);
        }
        match await_keys(&mut self.messages, &mut self.waiting) {
            Ok(true) => Ok(give(&mut self.waiting, into)),
            Ok(false) => {
                self.ended = true;
                Ok(0)
            }
            Err(error) => {
                self.read_faults = self.read_faults.saturating_add(1);
                self.error = Some(error);
                Err(Failed)
            }
        }
    }

    /// Sends all of the bytes, and counts a fault.
    fn send(&mut self, bytes: &[u8]) -> Result<(), Failed>
        ensures written { Writes (M.written self.old.messages) (M.written self.new.messages)
            result bytes.now }

        // The count of faults of the writes.
        ensures counted { self.old.write_faults ≤ self.new.write_faults }
        ensures failed { IsErr result → Rose self.old.write_faults self.new.write_faults }

        // Nothing is read by this.
        ensures coming { M.coming self.new.messages ≡ M.coming self.old.messages }
        ensures waiting { self.new.waiting ≡ self.old.waiting }
        ensures ended { self.new.ended ≡ self.old.ended }
        ensures read_faults { self.new.read_faults ≡ self.old.read_faults }
    {
        match send_all(&mut self.messages, bytes) {
            Ok(()) => Ok(()),
            Err(error) => {
                self.write_faults = self.write_faults.saturating_add(1);
                self.error = Some(error);
                Err(Failed)
            }
        }
    }

    /// The last error that was counted.
    pub fn error(&self) -> Option<io::Error>
        ensures { result ≡ self.now.error }
    {
        self.error
    }

    /// The messages, to look at.
    pub fn messages(&self) -> &M
        ensures { result.now ≡ self.now.messages }
    {
        &self.messages
    }

    /// The messages, without the keys that wait.
    pub fn into_messages(self) -> M
        ensures { result ≡ self.messages }
    {
        self.messages
    }
}

impl<M: Messages> Source for BrowserLine<M> {
    ghost read_faults = { λ l. l.read_faults };

    ghost ended = { λ l. l.ended };

    ghost taken = { λ _. None };

    ghost left = { λ l. keys_to_come l.waiting (M.coming l.messages) };

    fn read(&mut self, into: &mut [u8]) -> Result<usize, Failed> {
        self.receive(into)
    }
}

impl<M: Messages> Sink for BrowserLine<M> {
    ghost write_faults = { λ l. l.write_faults };

    ghost written = { λ l. M.written l.messages };

    ghost writes = { λ _. COUNT_END };

    fn write_all(&mut self, bytes: &[u8]) -> Result<(), Failed> {
        self.send(bytes)
    }
}

impl<M: Messages> Line for BrowserLine<M> {
    fn hear(&mut self, into: &mut [u8]) -> Result<usize, Failed> {
        self.receive(into)
    }

    fn say(&mut self, bytes: &[u8]) -> Result<(), Failed> {
        self.send(bytes)
    }
}

/// Waits until keys wait, or for the end. Returns whether keys wait. None are lost and none come twice.
fn await_keys<M: Messages>(messages: &mut M, waiting: &mut Bytes) -> io::Result<bool>
    ensures left { Keeps (keys_to_come waiting.old (M.coming messages.old))
        (keys_to_come waiting.new (M.coming messages.new)) }
    ensures some { IfOk result (λ some. some ≡ nat_lt 0 (length waiting.new)) }
    ensures end { result ≡ Ok false → IsAtEnd (keys_to_come waiting.old (M.coming messages.old)) }
    ensures written { M.written messages.new ≡ M.written messages.old }
{
    for _ in 0..u64::MAX {
        if !waiting.is_empty() {
            return Ok(true);
        }
        match messages.receive() {
            Ok(Incoming::Keys(keys)) => *waiting = keys,
            Ok(Incoming::Nothing) => {}
            Ok(Incoming::End) => return Ok(false),
            Err(error) => return Err(error),
        }
    }
    Err(ErrorKind::Interrupted.into())
}

/// Moves as many of the keys that wait as there is room for into the beginning of a slice. Returns how many.
fn give(waiting: &mut Bytes, into: &mut [u8]) -> usize
    ensures count { result ≡ min (length waiting.old) (length into.old) }
    ensures given { take result into.new ≡ take result waiting.old }
    ensures left { waiting.new ≡ drop result waiting.old }
{
    let count = waiting.len().min(into.len());
    into[..count].copy_from_slice(&waiting.as_slice()[..count]);
    waiting.advance(count);
    count
}

/// Sends all of the bytes, in messages of [`MAX_SENT`] bytes at most.
fn send_all<M: Messages>(messages: &mut M, bytes: &[u8]) -> io::Result<()>
    ensures written { WritesWhole (M.written messages.old) (M.written messages.new) result bytes.now }
    ensures coming { M.coming messages.new ≡ M.coming messages.old }
{
    let mut at = 0;
    while at < bytes.len() {
        let count = (bytes.len() - at).min(MAX_SENT);
        match messages.send(&bytes[at..at + count]) {
            Ok(()) => at += count,
            Err(error) => return Err(error),
        }
    }
    Ok(())
}
