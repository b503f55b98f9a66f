ghost use Rattle.std.specs.Prelude.{◌≡◌, ◌⊎◌, ◌||◌, None};
ghost use Rattle.pv_ports.specs.Round.{round_stop};
ghost use Rattle.pv_service.specs.Rounds.{GoesAfter, round_lacked_memory};

use crate::carrier_report::CarrierFault;
use pv_outside::Disk;
use pv_ports::RoundEnd;

/// What a carrier does after a round.
#[derive(Drop)]
pub(crate) enum AfterRound<D: Disk> {
    /// Makes the next one. With `true` the Update Centre has a new record, which every carrier is to bring.
    Again { stored: bool },
    /// Sleeps until it is rung, and makes the next one.
    Sleep,
    /// Ends.
    End(Option<CarrierFault<D>>),
}

/// What a carrier does after a round that ended so. If the ports are done it ends once there is nothing more to bring.
/// A node that is full or finds no memory gives it nothing to bring either.
pub(crate) fn after_round<D: Disk>(
    end: RoundEnd<D>,
    is_last: bool,
    memory: &mut bool,
) -> AfterRound<D>
    ensures goes { GoesAfter (round_stop end) result }
    ensures memory { memory.new ≡ (memory.old || round_lacked_memory (round_stop end)) }
{
    match end {
        RoundEnd::Moved { records: _, items } => AfterRound::Again { stored: items > 0 },
        RoundEnd::Idle => rest(is_last),
        RoundEnd::Full { .. } => rest(is_last),
        RoundEnd::LinkFault => AfterRound::End(Some(CarrierFault::Link)),
        RoundEnd::DiskFault(failure) => AfterRound::End(Some(CarrierFault::Disk(failure))),
        RoundEnd::Memory { .. } => {
            *memory = true;
            rest(is_last)
        }
    }
}

/// What a carrier does if there is nothing to bring: it ends if the ports are done.
fn rest<D: Disk>(is_last: bool) -> AfterRound<D>
    ensures { (result ≡ AfterRound.Sleep) ⊎ (result ≡ AfterRound.End None) }
{
    if is_last {
        AfterRound::End(None)
    } else {
        AfterRound::Sleep
    }
}
