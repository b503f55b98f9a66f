//! A line whose bytes wait for what another line is sent.
ghost use Rattle.std.specs.Prelude.{◌≡◌};

use super::parts::ROOM;
use pv_memory::MemSink;
use pv_outside::{Failed, Line, Sink, Source};
use std::alloc::{AllocError, Global};
use std::sync::atomic::{AtomicBool, Ordering};
use std::vec::IntoIter;

/// How often a line looks at a flag at most, until it fails.
const LOOKS: u32 = 500_000_000;

/// How often it looks at a flag at most, until it goes on.
const PAUSE: u32 = 200_000;

/// What a line gives at a read.
#[derive(Clone, Copy)]
pub enum Step<'a> {
    /// These bytes, at once.
    Now(&'a [u8]),
    /// These bytes once the flag is raised. If it stays down for [`LOOKS`], the read fails.
    Once(&'a AtomicBool, &'a [u8]),
    /// These bytes if the flag stays down for [`PAUSE`]. If it is raised, they are passed over.
    Unless(&'a AtomicBool, &'a [u8]),
}

/// A flag that is raised once these bytes are the last that a line was sent.
#[derive(Clone, Copy)]
pub struct Signal<'a> {
    /// The flag.
    pub flag: &'a AtomicBool,
    /// The bytes.
    pub bytes: &'a [u8],
}

/// A line that gives what its steps say, one step a read, and keeps what it is sent. It reports nothing of either.
#[derive(Drop)]
pub struct ScriptedLine<'a> {
    steps: IntoIter<Step<'a>>,
    signal: Option<Signal<'a>>,
    sink: MemSink,
    ended: bool,
    faults: u64,
}

impl<'a> ScriptedLine<'a> {
    /// A line of these steps, and its signal if it has one. The bytes of each step are no more than a port reads at a
    /// time.
    pub fn new(
        alloc: Global,
        steps: Vec<Step<'a>>,
        signal: Option<Signal<'a>>,
    ) -> Result<ScriptedLine<'a>, AllocError> {
        Ok(ScriptedLine {
            steps: steps.into_iter(),
            signal,
            sink: MemSink::new(alloc, ROOM, &[])?,
            ended: false,
            faults: 0,
        })
    }

    /// Whether a read has met its end.
    pub fn has_ended(&self) -> bool
        ensures { result ≡ self.now.ended }
    {
        self.ended
    }

    /// What it was sent.
    pub fn sent(&self) -> &[u8] {
        self.sink.bytes()
    }

    /// Raises the flag if it is time to.
    fn raise(&self) {
        if let Some(signal) = self.signal {
            if self.sink.bytes().ends_with(signal.bytes) {
                signal.flag.store(true, Ordering::SeqCst);
            }
        }
    }
}

/// Whether a flag is raised, after this many looks at most.
fn is_raised(flag: &AtomicBool, looks: u32) -> bool {
    for _ in 0..looks {
        if flag.load(Ordering::SeqCst) {
            return true;
        }
    }
    false
}

/// The bytes of the next read, which are none at the end of the steps. `None` if it fails.
fn next_bytes<'a>(steps: &mut IntoIter<Step<'a>>) -> Option<&'a [u8]> {
    for step in steps.by_ref() {
        match step {
            Step::Now(bytes) => return Some(bytes),
            Step::Once(flag, bytes) => {
                return if is_raised(flag, LOOKS) {
                    Some(bytes)
                } else {
                    None
                };
            }
            Step::Unless(flag, bytes) => {
                if !is_raised(flag, PAUSE) {
                    return Some(bytes);
                }
            }
        }
    }
    Some(&[])
}

impl<'a> Source for ScriptedLine<'a> {
    ghost use Rattle.std.specs.Prelude.{None};

    ghost read_faults = { λ l. l.faults };

    ghost ended = { λ l. l.ended };

    ghost taken = { λ _. None };

    ghost left = { λ _. None };

    fn read(&mut self, into: &mut [u8]) -> Result<usize, Failed> {
        self.hear(into)
    }
}

impl<'a> Sink for ScriptedLine<'a> {
    ghost use Rattle.std.specs.Prelude.{None};

    ghost write_faults = { λ l. l.sink.plan.faults };

    ghost written = { λ _. None };

    ghost writes = { λ l. l.sink.writes };

    fn write_all(&mut self, bytes: &[u8]) -> Result<(), Failed> {
        self.say(bytes)
    }
}

impl<'a> Line for ScriptedLine<'a> {
    fn hear(&mut self, into: &mut [u8]) -> Result<usize, Failed> {
        let Some(bytes) = next_bytes(&mut self.steps) else {
            self.faults = self.faults.saturating_add(1);
            return Err(Failed);
        };
        let count = bytes.len().min(into.len());
        into[..count].copy_from_slice(&bytes[..count]);
        self.ended |= count == 0 && !into.is_empty();
        Ok(count)
    }

    fn say(&mut self, bytes: &[u8]) -> Result<(), Failed> {
        self.sink.write_all(bytes)?;
        self.raise();
        Ok(())
    }
}
