//! The machine's clock, an input that is interrupted, and threads.
ghost use Rattle.std.specs.Prelude.{◌≡◌, ◌+◌};

use pv_files::{MachineClock, StandardInput, ThreadSpawner};
use pv_outside::{CLOCK_END, Clock, Job, Source, Spawner};
use std::alloc::{AllocError, Global};
use std::io::{self, ErrorKind, Read};
use std::sync::Wait;
use std::test::Fail;
use std::time::{self, Duration};

/// A machine that has counted these seconds since 1970, or that cannot say.
#[derive(Drop)]
struct Machine(Option<u64>);

impl time::Clock for Machine {
    fn monotonic(&self) -> io::Result<Duration> {
        Err(ErrorKind::Unsupported.into())
    }

    fn since_1970(&self) -> io::Result<Duration> {
        self.0
            .map(Duration::from_secs)
            .ok_or(ErrorKind::Unsupported.into())
    }
}

#[test]
fn the_clock_of_the_machine_stays_in_its_range(rt: HostRuntime) {
    for (seconds, moment) in [
        (Some(7), 7),
        (Some(4_102_444_799), CLOCK_END),
        (Some(4_102_444_800), CLOCK_END),
        (Some(u64::MAX), CLOCK_END),
        (None, 0),
    ] {
        assert_eq!(rt; MachineClock::new(&Machine(seconds)).now(), moment);
    }
    // It is later than the year 2020.
    assert!(rt; MachineClock::new(&rt).now() > 1_577_836_800);
}

/// A reader whose first call is interrupted.
#[derive(Drop)]
struct Startled<'a> {
    bytes: &'a [u8],
    is_calm: bool,
}

impl<'a> Read for Startled<'a> {
    fn read(&mut self, into: &mut [u8]) -> io::Result<usize> {
        if !self.is_calm {
            self.is_calm = true;
            return Err(ErrorKind::Interrupted.into());
        }
        self.bytes.read(into)
    }
}

#[test]
fn an_interrupted_read_is_no_end(rt: HostRuntime) {
    let mut input = StandardInput::new(Startled {
        bytes: b"ab",
        is_calm: false,
    });
    let mut bytes = [0; 4];
    for count in [2, 0] {
        assert_eq!(rt; input.read(&mut bytes), Ok(count));
    }
}

/// A job that adds.
#[derive(Drop)]
struct Sum(u32, u32);

impl Job for Sum {
    type Done = u64;

    ghost may_return = { λ job done. done ≡ job.0 + job.1 };

    fn run<R: Wait + Sync>(self, _rt: &R) -> u64 {
        u64::from(self.0) + u64::from(self.1)
    }
}

/// Twenty jobs, whose sums begin at 100 and go on by one.
fn twenty_sums(alloc: Global) -> Result<Vec<Sum>, AllocError> {
    let mut jobs = Vec::new(alloc);
    for number in 0..20 {
        jobs.push(Sum(number, 100))?;
    }
    Ok(jobs)
}

#[test]
fn threads_return_in_the_order_of_their_jobs(rt: HostRuntime) -> Result<(), Fail> {
    let jobs = twenty_sums(rt.alloc())?;
    let sums = ThreadSpawner::new().run_all(&rt, rt.alloc(), jobs);
    let sums = sums.ok().ok_or("all run")?;
    assert_eq!(rt; sums.len(), 20);
    for (number, sum) in sums.iter().enumerate() {
        assert_eq!(rt; *sum, number as u64 + 100);
    }
    Ok(())
}
