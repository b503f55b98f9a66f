use crate::program::run_program;
use crate::task::Task;
use pv_files::{StandardInput, StandardOutput};
use pv_memory::MemSink;
use pv_outside::{Failed, Sink, Status};
use pv_script::{evening, generate, play};
use std::alloc::Global;
use std::io::{self, ErrorKind, Read, Write};
use std::test::Fail;

/// Two lines, of which each has an answer.
const TWO_SEEDS: &[u8] = b"seed 1a A\nseed 2a B\n";

/// What is written for them.
const TWO_ANSWERS: &[u8] = b"OK 0\nOK 1\n";

/// The script that is made for 1.
const FIRST_SCRIPT: &[u8] = b"edit 0 LOGON 0000000000 0000
edit 0 ACCOUNT 1 1000000001 ABCD 0 -
edit 0 NEW 1001a
edit 0 ROW 2 FRAME 1
edit 0 PRICE 8
edit 0 STORE 2
carry 0
dial 0 0
keys 0 0 1000000001ABCD
keys 0 0 *1001#
keys 0 0 *1001#
hang 0 0
crash 0
crash u
carry 0
bill 1000000001
";

/// The summary of its evening.
const FIRST_SUMMARY: &[u8] = b"records 4 screens 5 lines 2 pence 16\n";

/// A stream in memory whose call of one number, from 1, fails; none does if that is 0. It takes at most three bytes at
/// a time, and gives what it holds and then the end.
#[derive(Drop)]
struct Stream {
    bytes: Vec<u8>,
    calls: u64,
    failing: u64,
}

impl Stream {
    fn new(alloc: Global, bytes: &[u8], failing: u64) -> Result<Stream, Fail> {
        Ok(Stream {
            bytes: Vec::from_slice(alloc, bytes)?,
            calls: 0,
            failing,
        })
    }

    /// Counts a call, which may be the one that fails.
    fn call(&mut self) -> io::Result<()> {
        self.calls = self.calls.saturating_add(1);
        if self.calls == self.failing {
            return Err(ErrorKind::BrokenPipe.into());
        }
        Ok(())
    }
}

impl Read for Stream {
    fn read(&mut self, into: &mut [u8]) -> io::Result<usize> {
        self.call()?;
        let count = self.bytes.as_slice().read(into)?;
        self.bytes.drain(..count);
        Ok(count)
    }
}

impl Write for Stream {
    fn write(&mut self, bytes: &[u8]) -> io::Result<usize> {
        self.call()?;
        let count = bytes.len().min(3);
        self.bytes.extend_from_slice(&bytes[..count])?;
        Ok(count)
    }

    fn flush(&mut self) -> io::Result<()> {
        Ok(())
    }
}

/// A run of the program, the call of its reader and that of its writer that fails, and how it is to end: with this
/// status, this written, and the reader asked so often.
#[derive(Clone, Copy)]
struct Run<'a> {
    words: &'a [&'a str],
    script: &'a [u8],
    failing_read: u64,
    failing_write: u64,
    status: Status,
    written: &'a [u8],
    reads: u64,
}

impl Run<'_> {
    /// Whether it ends so.
    fn ends(self, alloc: Global) -> Result<bool, Fail> {
        let words = texts(alloc, self.words)?;
        let mut input = StandardInput::new(Stream::new(alloc, self.script, self.failing_read)?);
        let writer = Stream::new(alloc, b"", self.failing_write)?;
        let mut out = StandardOutput::new(alloc, writer)?;
        let status = run_program(alloc, &words, &mut input, &mut out);
        Ok(
            status == self.status
                && out.writer().bytes.as_slice() == self.written
                && input.reader().calls == self.reads,
        )
    }
}

/// These words as the command line gives them.
fn texts(alloc: Global, words: &[&str]) -> Result<Vec<String>, Fail> {
    let mut texts = Vec::new(alloc);
    for word in words {
        texts.push(String::from_str(alloc, word)?)?;
    }
    Ok(texts)
}

/// A run that reads and writes nothing.
const NOTHING: Run<'static> = Run {
    words: &[],
    script: TWO_SEEDS,
    failing_read: 0,
    failing_write: 0,
    status: Status::Done,
    written: b"",
    reads: 0,
};

/// Words that ask for nothing.
const REFUSED: [&[&str]; 23] = [
    &[],
    &["1"],
    &["-h"],
    &["help", "--help"],
    &["--help", "--version"],
    &["1", "play"],
    &["plays", "1"],
    &["play"],
    &["play", "0"],
    &["play", "5"],
    &["play", "01"],
    &["play", ""],
    &["play", "1", "1"],
    &["play", "1", "--help"],
    &["gen"],
    &["gen", "0"],
    &["gen", "1000"],
    &["gen", "01"],
    &["gen", "1", "1"],
    &["evening"],
    &["evening", "0"],
    &["evening", "1000"],
    &["evening", "1", "1"],
];

#[test]
fn words_that_ask_for_nothing_are_refused(rt: HostRuntime) -> Result<(), Fail> {
    for words in REFUSED {
        let run = Run {
            words,
            status: Status::Usage,
            ..NOTHING
        };
        assert!(rt; run.ends(rt.alloc())?, "{words:?}");
    }
    Ok(())
}

/// A play of two lines.
const PLAY: Run<'static> = Run {
    words: &["play", "1"],
    written: TWO_ANSWERS,
    reads: 2,
    ..NOTHING
};

/// Runs of which no call fails.
const WHOLE: [Run<'static>; 6] = [
    PLAY,
    Run {
        script: b"",
        written: b"",
        reads: 1,
        ..PLAY
    },
    Run {
        script: b"seed 1a A\nnonsense\nseed 2a B\n",
        status: Status::BadLine { line: 2 },
        written: b"OK 0\n",
        ..PLAY
    },
    Run {
        words: &["gen", "1"],
        written: FIRST_SCRIPT,
        ..NOTHING
    },
    Run {
        words: &["evening", "1"],
        written: FIRST_SUMMARY,
        ..NOTHING
    },
    Run {
        words: &["gen", "--version"],
        written: b"prestel 0.1.0\n",
        ..NOTHING
    },
];

#[test]
fn a_run_reads_to_the_end_and_passes_on_what_it_wrote(rt: HostRuntime) -> Result<(), Fail> {
    for run in WHOLE {
        assert!(rt; run.ends(rt.alloc())?, "{:?} {}", run.words, run.reads);
    }
    Ok(())
}

/// Runs of which a read fails, or a write.
const FAILING: [Run<'static>; 6] = [
    Run {
        failing_read: 1,
        status: Status::ReadFault,
        written: b"",
        reads: 1,
        ..PLAY
    },
    Run {
        failing_read: 2,
        status: Status::ReadFault,
        written: b"",
        ..PLAY
    },
    Run {
        failing_write: 1,
        status: Status::WriteFault,
        written: b"",
        ..PLAY
    },
    Run {
        failing_write: 3,
        status: Status::WriteFault,
        written: b"OK 0\nO",
        ..PLAY
    },
    Run {
        words: &["gen", "1"],
        failing_write: 3,
        status: Status::WriteFault,
        written: b"edit 0",
        ..NOTHING
    },
    Run {
        words: &["evening", "1"],
        failing_write: 3,
        status: Status::WriteFault,
        written: b"record",
        ..NOTHING
    },
];

#[test]
fn a_call_that_fails_ends_a_run(rt: HostRuntime) -> Result<(), Fail> {
    for run in FAILING {
        assert!(rt;
            run.ends(rt.alloc())?,
            "{:?} {} {}",
            run.words,
            run.failing_read,
            run.failing_write
        );
    }
    Ok(())
}

/// Sinks at which the first task of a kind fails: the writes that fail, the room, and how much is written of what text.
const FULL: [(Task, &[u64], usize, usize, &[u8]); 10] = [
    (Task::Play, &[0], 1_000, 0, TWO_ANSWERS),
    (Task::Play, &[1], 1_000, 5, TWO_ANSWERS),
    (Task::Play, &[], 9, 5, TWO_ANSWERS),
    (Task::Play, &[], 0, 0, TWO_ANSWERS),
    (Task::Generate, &[0], 1_000, 0, FIRST_SCRIPT),
    (Task::Generate, &[1], 1_000, 66, FIRST_SCRIPT),
    (Task::Generate, &[], 66, 66, FIRST_SCRIPT),
    (Task::Generate, &[], 255, 207, FIRST_SCRIPT),
    (Task::Evening, &[0], 1_000, 0, FIRST_SUMMARY),
    (Task::Evening, &[], 36, 0, FIRST_SUMMARY),
];

/// How a task ends over a sink.
fn status_of(alloc: Global, task: Task, words: &[String], sink: &mut MemSink) -> Status {
    let mut script = StandardInput::new(TWO_SEEDS);
    match task {
        Task::Play => play(alloc, words, &mut script, sink).status,
        Task::Generate => generate(words, sink),
        Task::Evening => evening(alloc, words, sink).status,
    }
}

#[test]
fn a_write_that_fails_is_not_tried_again(rt: HostRuntime) -> Result<(), Fail> {
    let alloc = rt.alloc();
    for (task, failing, room, count, text) in FULL {
        let words = texts(alloc, &[task.word(), "1"])?;
        let mut sink = MemSink::new(alloc, room, failing)?;
        assert_eq!(rt;
            status_of(alloc, task, &words, &mut sink),
            Status::WriteFault,
            "{task} {room}"
        );
        assert_eq!(rt; sink.bytes(), &text[..count], "{task} {room}");
    }
    Ok(())
}

#[test]
fn what_a_failing_flush_left_goes_by_the_next(rt: HostRuntime) -> Result<(), Fail> {
    let alloc = rt.alloc();
    let mut out = StandardOutput::new(alloc, Stream::new(alloc, b"", 3)?)?;
    out.write_all(TWO_ANSWERS)?;
    assert!(rt; out.writer().bytes.is_empty() && out.flush() == Err(Failed));
    out.flush()?;
    assert_eq!(rt; out.writer().bytes.as_slice(), TWO_ANSWERS);
    Ok(())
}
