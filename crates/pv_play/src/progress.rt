ghost use Rattle.std.specs.Prelude.{◌≡◌};

use std::io::{self, Eprint, Write};

/// After how many bytes it is said again how far the output is.
const STEP: u64 = 16 << 20;

/// A writer that says on standard error how far it is: a line after each [`STEP`] bytes. It says nothing if standard error is
/// no terminal.
#[derive(Drop)]
pub struct Progress<'a, R, W: Write + Drop> {
    rt: &'a R,
    writer: W,
    is_seen: bool,
    written: u64,
}

impl<'a, R: Eprint, W: Write + Drop> Progress<'a, R, W> {
    /// A writer to which nothing was written yet. Whether standard error is a terminal is for the caller to say.
    pub fn new(rt: &'a R, writer: W, is_seen: bool) -> Progress<'a, R, W>
        ensures { result.writer ≡ writer }
    {
        Progress {
            rt,
            writer,
            is_seen,
            written: 0,
        }
    }

    /// So many bytes more were written.
    fn advance(&mut self, count: usize)
        ensures { self.new.writer ≡ self.old.writer }
    {
        let before = self.written / STEP;
        self.written = self.written.saturating_add(count as u64);
        let now = self.written / STEP;
        if self.is_seen && before < now {
            let _ = eprintln!(self.rt; "prestel: {} MiB are written", now * (STEP >> 20));
        }
    }
}

impl<'a, R: Eprint, W: Write + Drop> Write for Progress<'a, R, W> {
    ghost contents = { λ progress. W.contents progress.writer };

    fn write(&mut self, buf: &[u8]) -> io::Result<usize> {
        let count = self.writer.write(buf)?;
        self.advance(count);
        Ok(count)
    }

    fn flush(&mut self) -> io::Result<()> {
        self.writer.flush()
    }
}
