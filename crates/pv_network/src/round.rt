ghost use Rattle.std.specs.Prelude.{◌≡◌};
ghost use Rattle.pv_network.specs.Traffic.{round_by};

use crate::outcome::Outcome;

/// What came of a round of a carry.
#[derive(Debug, Drop)]
pub enum Round {
    /// What was sent was taken.
    Taken,
    /// The receiver had it, or misses one before it.
    Again,
    /// The carry cannot go on.
    Stopped(Outcome),
}

impl Round {
    /// The round whose packet arrived with this outcome.
    pub(crate) fn of(arrived: Outcome) -> Round
        ensures { result ≡ round_by arrived }
    {
        match arrived {
            Outcome::Taken { .. } => Round::Taken,
            Outcome::Old { .. } | Outcome::Early { .. } => Round::Again,
            outcome => Round::Stopped(outcome),
        }
    }
}
