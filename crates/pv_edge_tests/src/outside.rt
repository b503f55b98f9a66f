ghost use Rattle.std.specs.Prelude.{◌≡◌, ◌≤◌, ◌*◌, ⊤, Option, None};
ghost use Rattle.std.proofs.Common.{inl, arith};
ghost use Rattle.pv_outside.specs.Counts.{Rose};
ghost use Rattle.pv_outside.specs.declared.failed.TheConstants.{COUNT_END};

use pv_outside::{Disk, Failed, Job, Link, MAX_PACKET, Reports, Spawner};
use std::alloc::{AllocError, Global};
use std::sync::Wait;
use std::test::Fail;

/// A disk that reports nothing, as a file does: the trait asks no more of it than to count its faults.
#[derive(Drop)]
struct Silent {
    faults: u64,
}

impl Silent {
    fn fails(&mut self) -> Failed
        ensures { Rose self.old.faults self.new.faults × (self.old.faults ≤ self.new.faults) }
    {
        self.faults = self.faults.saturating_add(1);
        Failed
    }
}

impl Reports for Silent {
    ghost reads = { λ _. None };

    ghost may_leave = { λ _ _. ⊤ };

    ghost clock = { λ _. COUNT_END };

    ghost left_since = { λ _ _ _. ⊤ };

    ghost has_forgotten = { λ _ _. ⊤ };

    ghost budget = { λ _. None };

    ghost faults = { λ d. d.faults };
}

impl Disk for Silent {
    type Failure = Failed;

    ghost reads_is_left = { λ _. tt };

    ghost now_counts = { λ _ _ _ _ _. tt };

    ghost only_now = { λ _ _ _. inl tt };

    ghost now_is_known = { λ _ _. omega arith };

    ghost any_if_forgotten = { λ _ _ _ _. tt };

    fn len(&mut self) -> Result<u64, Failed> {
        Ok(7)
    }

    fn read(&mut self, _at: u64, _into: &mut [u8]) -> Result<(), Failed> {
        Err(self.fails())
    }

    fn write(&mut self, _at: u64, _bytes: &[u8]) -> Result<(), Failed> {
        Err(self.fails())
    }

    fn sync(&mut self) -> Result<(), Failed> {
        Ok(())
    }
}

#[test]
fn a_disk_need_not_report_anything(rt: HostRuntime) {
    let mut disk = Silent { faults: 0 };
    assert_eq!(rt; (disk.len(), disk.sync()), (Ok(7), Ok(())));
    let (read, written) = (disk.read(9, &mut [0]), disk.write(9, b"a"));
    assert_eq!(rt; (read, written, disk.faults), (Err(Failed), Err(Failed), 2));
}

/// A link that reports nothing and loses each packet.
#[derive(Drop)]
struct Hole {
    given: u64,
}

impl Link for Hole {
    ghost faults = { λ _. 0 };

    ghost given = { λ h. h.given };

    ghost taken = { λ _. 0 };

    ghost packets = { λ _. None };

    ghost may_hold = { λ _ _. ⊥ };

    ghost holds_its_packets = { λ _ _. tt };

    fn give(&mut self, _packet: &[u8]) -> Result<(), Failed> {
        self.given = self.given.saturating_add(1);
        Ok(())
    }

    fn take(&mut self, _into: &mut [u8; MAX_PACKET]) -> Result<Option<usize>, Failed> {
        Ok(None)
    }
}

#[test]
fn a_link_may_lose_each_packet(rt: HostRuntime) {
    let mut hole = Hole { given: 0 };
    let (given, taken) = (hole.give(b"a"), hole.take(&mut [0; MAX_PACKET]));
    assert_eq!(rt; (given, taken, hole.given), (Ok(()), Ok(None), 1));
}

/// A job that returns its number, twice.
#[derive(Drop)]
struct Twice(u32);

impl Job for Twice {
    type Done = u64;

    ghost may_return = { λ job done. done ≡ 2 * job.0 };

    fn run<R: Wait + Sync>(self, _rt: &R) -> u64 {
        2 * u64::from(self.0)
    }
}

/// A spawner that starts no more than this many jobs at a time.
#[derive(Drop)]
struct AtMost {
    jobs: usize,
    refused: u64,
}

impl Spawner for AtMost {
    ghost refused = { λ s. s.refused };

    fn start(&mut self, jobs: usize) -> Result<(), Failed> {
        if jobs > self.jobs {
            self.refused = self.refused.saturating_add(1);
            return Err(Failed);
        }
        Ok(())
    }
}

/// The numbers 1 to 3, to be doubled.
fn three(alloc: Global) -> Result<Vec<Twice>, AllocError> {
    Ok(vec![in alloc; Twice(1), Twice(2), Twice(3)]?)
}

#[test]
fn jobs_return_in_their_order(rt: HostRuntime) -> Result<(), Fail> {
    let mut spawner = AtMost {
        jobs: 3,
        refused: 0,
    };
    let done = spawner.run_all(&rt, rt.alloc(), three(rt.alloc())?);
    assert_eq!(rt;
        done.ok().ok_or("all run")?.as_slice(),
        [2, 4, 6].as_slice()
    );
    Ok(())
}

#[test]
fn jobs_that_are_refused_come_back(rt: HostRuntime) -> Result<(), Fail> {
    let mut spawner = AtMost {
        jobs: 2,
        refused: 0,
    };
    let refused = spawner.run_all(&rt, rt.alloc(), three(rt.alloc())?);
    let part = refused.err().ok_or("none run")?;
    assert_eq!(rt;
        (part.done.len(), part.rest.len(), part.memory),
        (0, 3, false)
    );
    assert_eq!(rt; (part.rest[2].0, spawner.refused), (3, 1));
    Ok(())
}
