ghost use Rattle.std.specs.Prelude.{◌≡◌};
ghost use Rattle.pv_group.specs.Answers.{place_of};

use pv_live::{Known, Run};
use pv_node::{Rules, Told};
use pv_outside::Disk;

/// What is decided on a request. It is given once all is stored that it stands on.
#[derive(Drop)]
pub enum Outcome<P> {
    /// The reply, and the place of the record that the request stores.
    Replied(Told<P>),
    /// The request would store a record, and there are `count` of them, as many as the limit.
    Full { count: u64 },
}

impl<P> Outcome<P> {
    /// The place of the record that it stores.
    pub fn place(&self) -> Option<u64>
        ensures { result ≡ place_of self.now }
    {
        match self {
            Outcome::Replied(told) => told.number,
            Outcome::Full { .. } => None,
        }
    }
}

/// What was decided on a request, and the records that it stands on, with the one that it stores.
#[derive(Drop)]
pub struct Decided<R: Rules, N: Run<R::Rec>> {
    /// All records that have to be stored before the outcome is given.
    pub upto: Known<R::Rec, N>,
    /// The outcome.
    pub outcome: Outcome<R::Reply>,
}

/// Why a request was not decided. Nothing has changed.
#[derive(Debug, Drop)]
pub enum NotDecided {
    /// No memory was found.
    Memory,
    /// The batch has no room for the record: those that wait have to be taken to be stored first.
    NoRoom,
}

/// What is left of a node whose disk failed at the closing.
#[derive(Drop)]
pub struct LeftDisk<D: Disk> {
    /// Why the call failed.
    pub failure: D::Failure,
    /// The disk. It holds what was stored, and may hold the group that was being stored.
    pub disk: D,
    /// Whether no pass has seen more than is stored. None ever has, since nothing is shown before it is stored. But no
    /// clause follows that through the passes, so it is counted.
    pub seen_is_stored: bool,
}
