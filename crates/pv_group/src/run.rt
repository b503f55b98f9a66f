ghost use Rattle.std.specs.Prelude.{◌≡◌, ℕ};

use pv_live::{Run, Start};
use std::marker::{Brand, Model, PhantomData};
use std::sync::ledger::{Blank, Ledger};

/// Which run of a node it is whose records are stored in groups.
pub trait GroupRun<T>: Run<T> {
    /// The name of the ledger of the records that were taken to be stored.
    ghost taken: { ℕ };
}

/// What a caller names, who picks the run at the call.
impl<T> GroupRun<T> for Brand {
    ghost taken = { 0 };
}

/// What such a run is named by: an empty history and three ledgers. It takes no memory.
#[derive(Drop)]
pub struct GroupStart<T> {
    start: Start<T>,
    taken: Blank,
}

impl<T> Model for GroupStart<T> {
    ghost use Rattle.std.specs.Prelude.{◌≡◌};
    ghost use Rattle.pv_group.specs.Run.{GroupName};

    ghost Value = { GroupName };

    ghost view = { λ s. record {
      book = s.start.book;
      told = s.start.told;
      failed = s.start.failed;
      passes = s.start.passes;
      taken = s.taken.name;
    } };

    ghost invariant = { λ s. s.taken.parts ≡ 1 };
}

impl<T> GroupStart<T> {
    /// What a run of this many passes is named by.
    pub fn new(passes: u64) -> GroupStart<T>
        ensures { result.passes ≡ passes }
    {
        GroupStart {
            start: Start::new(passes),
            taken: Blank::new(1),
        }
    }

    /// What a run is named by that stores one record at a time, and the ledger of what is taken to be stored.
    pub(crate) fn into_parts(self) -> (Start<T>, Blank)
        ensures is { self ≡ record {
          book = result.0.book;
          told = result.0.told;
          failed = result.0.failed;
          passes = result.0.passes;
          taken = result.1.name;
        } }
        ensures parts { result.1.parts ≡ 1 }
    {
        let GroupStart { start, taken } = self;
        (start, taken)
    }
}

/// The ledger of the records that were taken to be stored. Its one share is the vault's, so whoever has both
/// locks knows that the desk has counted as many as the vault.
pub struct TakenLedger<T, N> {
    of: PhantomData<T>,
    run: PhantomData<N>,
}

impl<T, N: GroupRun<T>> Ledger for TakenLedger<T, N> {
    ghost name = { N.taken };

    ghost parts = { 1 };
}
