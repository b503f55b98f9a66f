ghost use Rattle.std.specs.Prelude.{ℕ, List};

use pv_history::HistoryName;
use std::marker::{Brand, PhantomData};
use std::sync::ledger::Ledger;

/// Which run of a node it is, from its opening to its closing. All types of a run have it as a parameter,
/// so a pass of one node is never used at another.
pub trait Run<T>: HistoryName {
    ghost use Rattle.pv_outside.specs.declared.limits.Limits.{Limits};

    /// The records of the node when it was opened.
    ghost opening: { List T };

    /// The limits of its state.
    ghost limits: { Limits };

    /// How many passes there are.
    ghost passes: { ℕ };

    /// The name of the ledger of the records that asks reported as stored.
    ghost told: { ℕ };

    /// The name of the ledger of the asks that failed on the disk.
    ghost failed: { ℕ };
}

/// What a caller names, who picks the run at the call.
impl<T> Run<T> for Brand {
    ghost use Rattle.std.specs.Prelude.{[]};
    ghost use Rattle.pv_live.specs.Run.{one_frame, one_record};

    ghost opening = { [] };

    ghost limits = { record {
      frames = 1;
      records = 1;
      frames_in_range = one_frame;
      records_in_range = one_record;
    } };

    ghost passes = { 0 };

    ghost told = { 0 };

    ghost failed = { 0 };
}

/// The ledger of the records that asks reported as stored.
pub struct ToldLedger<T, N> {
    of: PhantomData<T>,
    run: PhantomData<N>,
}

impl<T, N: Run<T>> Ledger for ToldLedger<T, N> {
    ghost name = { N.told };

    ghost parts = { N.passes };
}

/// The ledger of the asks that failed on the disk.
pub struct FailedLedger<T, N> {
    of: PhantomData<T>,
    run: PhantomData<N>,
}

impl<T, N: Run<T>> Ledger for FailedLedger<T, N> {
    ghost name = { N.failed };

    ghost parts = { N.passes };
}
