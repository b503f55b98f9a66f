ghost use Rattle.std.specs.Prelude.{◌≡◌};

use pv_outside::{Disk, Reports};
use std::io::Eprint;

/// How many syncs the storing of an edit makes.
const SYNCS_OF_AN_EDIT: u64 = 2;

/// After how many edits it is said again how many are stored.
const STEP: u64 = 1_000;

/// How many edits were stored. It says on standard error how many, a line after each [`STEP`], unless standard error is no
/// terminal.
#[derive(Drop)]
struct Edits<'a, R> {
    rt: &'a R,
    is_seen: bool,
    was_written: bool,
    syncs: u64,
}

impl<'a, R: Eprint> Edits<'a, R> {
    /// A sync has succeeded. One with nothing to sync, as that of an opening, does not count.
    fn advance(&mut self) {
        if !self.was_written {
            return;
        }
        self.was_written = false;
        self.syncs = self.syncs.saturating_add(1);
        if self.is_seen && self.syncs % (SYNCS_OF_AN_EDIT * STEP) == 0 {
            let _ = eprintln!(self.rt;
                "prestel: {} edits are stored",
                self.syncs / SYNCS_OF_AN_EDIT
            );
        }
    }
}

/// A disk that says how many edits are stored on it, as [`Edits`] does. It reports what the disk in it does.
#[derive(Drop)]
pub(crate) struct Watched<'a, R, D: Disk + Drop> {
    disk: D,
    edits: Edits<'a, R>,
}

impl<'a, R: Eprint, D: Disk + Drop> Watched<'a, R, D> {
    /// A disk on which nothing was stored yet. Whether standard error is a terminal is for the caller to say.
    pub(crate) fn new(rt: &'a R, disk: D, is_seen: bool) -> Watched<'a, R, D>
        ensures { result.disk ≡ disk }
    {
        Watched {
            disk,
            edits: Edits {
                rt,
                is_seen,
                was_written: false,
                syncs: 0,
            },
        }
    }
}

impl<'a, R: Eprint, D: Disk + Drop> Reports for Watched<'a, R, D> {
    ghost reads = { λ w. D.reads w.disk };

    ghost may_leave = { λ w. D.may_leave w.disk };

    ghost clock = { λ w. D.clock w.disk };

    ghost left_since = { λ w. D.left_since w.disk };

    ghost has_forgotten = { λ w. D.has_forgotten w.disk };

    ghost budget = { λ w. D.budget w.disk };

    ghost faults = { λ w. D.faults w.disk };
}

impl<'a, R: Eprint, D: Disk + Drop> Disk for Watched<'a, R, D> {
    type Failure = D::Failure;

    ghost reads_is_left = { λ w. D.reads_is_left w.disk };

    ghost now_counts = { λ w. D.now_counts w.disk };

    ghost only_now = { λ w. D.only_now w.disk };

    ghost now_is_known = { λ w. D.now_is_known w.disk };

    ghost any_if_forgotten = { λ w. D.any_if_forgotten w.disk };

    fn len(&mut self) -> Result<u64, D::Failure> {
        self.disk.len()
    }

    fn read(&mut self, at: u64, into: &mut [u8]) -> Result<(), D::Failure> {
        self.disk.read(at, into)
    }

    fn write(&mut self, at: u64, bytes: &[u8]) -> Result<(), D::Failure> {
        self.edits.was_written = true;
        self.disk.write(at, bytes)
    }

    fn sync(&mut self) -> Result<(), D::Failure> {
        let result = self.disk.sync();
        if result.is_ok() {
            self.edits.advance();
        }
        result
    }
}
