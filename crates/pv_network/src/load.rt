ghost use Rattle.std.specs.Prelude.{◌≡◌, ◌<◌};
ghost use Rattle.pv_network.specs.declared.outcome.Outcome.TheVariants.{Carried};
ghost use Rattle.pv_traffic.specs.declared.packets.TheConstants.{MAX_PACKETS};
ghost use Rattle.pv_network.specs.Traffic.{no_load, with_one};

use crate::outcome::Outcome;
use pv_traffic::{MAX_PACKETS, Way};

/// How many records and items a carry brought that were taken.
#[derive(Clone, Copy, Debug, PartialEq, Eq)]
pub struct Load {
    pub records: u64,
    pub items: u64,
}

impl Load {
    /// None.
    pub(crate) fn new() -> Load
        ensures { result ≡ no_load }
    {
        Load {
            records: 0,
            items: 0,
        }
    }

    /// One more was taken on a way.
    pub(crate) fn add(&mut self, way: Way)
        requires records { self.old.records < MAX_PACKETS }
        requires items { self.old.items < MAX_PACKETS }
        ensures { self.new ≡ with_one way self.old }
    {
        match way {
            Way::Down => self.records += 1,
            Way::Up => self.items += 1,
        }
    }

    /// The answer to a carry that brought this.
    pub(crate) fn carried(self) -> Outcome
        ensures { result ≡ Carried self.records self.items }
    {
        Outcome::Carried {
            records: self.records,
            items: self.items,
        }
    }
}
