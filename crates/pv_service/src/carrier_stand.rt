ghost use Rattle.std.specs.Prelude.{◌≡◌};
ghost use Rattle.pv_service.specs.Rounds.{HasCarried, carrier_at};

use crate::after_round::{AfterRound, after_round};
use crate::carrier_report::CarrierReport;
use crate::signals::Signals;
use pv_edits::Record;
use pv_group::{GroupRun, Live};
use pv_irc::{CentreRecord, IrcRules};
use pv_live::Run;
use pv_node::Rules;
use pv_outside::{Disk, Link};
use pv_ports::Carrier;
use pv_udc::UdcRules;
use std::sync::Wait;

/// A carrier with its two links, and how its work ended.
#[derive(Drop)]
pub struct CarrierStand<
    const C: u8,
    U: Run<Record>,
    N: Run<CentreRecord>,
    D: Disk,
    L: Link + Drop,
> {
    /// The carrier.
    pub carrier: Carrier<C, U, N>,
    /// The link down to the centre.
    pub down: Box<L>,
    /// The link up from it.
    pub up: Box<L>,
    /// How its work has ended.
    pub report: Box<CarrierReport<D>>,
}

impl<const C: u8, U: Run<Record>, N: Run<CentreRecord>, D: Disk, L: Link + Drop> CarrierStand<
    C,
    U,
    N,
    D,
    L,
> {
    /// A stand of a carrier and its links, with the report that its work is to fill in.
    pub fn new(
        carrier: Carrier<C, U, N>,
        down: Box<L>,
        up: Box<L>,
        report: Box<CarrierReport<D>>,
    ) -> CarrierStand<C, U, N, D, L>
        ensures carrier { result.carrier ≡ carrier }
        ensures links { (result.down ≡ down) × (result.up ≡ up) }
        ensures report { result.report ≡ report }
    {
        CarrierStand {
            carrier,
            down,
            up,
            report,
        }
    }
}

/// Makes rounds until the ports are done and a round has nothing more to bring, or until a link or a disk fails.
fn make_rounds<
    const C: u8,
    U: GroupRun<Record>,
    N: GroupRun<CentreRecord>,
    D: Disk,
    H: Wait + Drop,
    L: Link,
    W: Wait,
>(
    rt: &W,
    udc: &Live<UdcRules, D, U, H>,
    centre: &Live<IrcRules<C>, D, N, H>,
    signals: &Signals,
    carrier: &mut Carrier<C, U, N>,
    down: &mut L,
    up: &mut L,
) -> CarrierReport<D>
    ensures { HasCarried ⟦<UdcRules as Rules>⟧ ⟦<IrcRules<C> as Rules>⟧ ⟦<L as Link>⟧
        U.limits N.limits U.opening N.opening C (carrier_at carrier.old down.old up.old)
        (carrier_at carrier.new down.new up.new) result }
{
    let mut memory = false;
    for _ in rt.forever() {
        // Both are read before the round: what is stored during it rings, and ports that are done have nothing more.
        let rings = signals.rings(C);
        let is_last = signals.are_done();
        let end = carrier.carry_round(rt, udc, centre, down, up);
        match after_round(end, is_last, &mut memory) {
            AfterRound::Again { stored } => {
                if stored {
                    signals.ring_all();
                }
            }
            AfterRound::Sleep => signals.sleep(rt, C, rings),
            AfterRound::End(fault) => return CarrierReport { memory, fault },
        }
    }
    unreachable!()
}

/// Carries for a centre until the ports are done and a round has nothing more to bring, or until a link or a disk fails.
/// A carrier with nothing to bring sleeps. A round that finds no memory ends, and the next one is made after a sleep.
pub fn carry_rounds<
    const C: u8,
    U: GroupRun<Record>,
    N: GroupRun<CentreRecord>,
    D: Disk,
    H: Wait + Drop,
    L: Link + Drop,
    W: Wait,
>(
    rt: &W,
    udc: &Live<UdcRules, D, U, H>,
    centre: &Live<IrcRules<C>, D, N, H>,
    signals: &Signals,
    stand: &mut CarrierStand<C, U, N, D, L>,
)
    ensures { HasCarried ⟦<UdcRules as Rules>⟧ ⟦<IrcRules<C> as Rules>⟧ ⟦<L as Link>⟧
        U.limits N.limits U.opening N.opening C (carrier_at stand.old.carrier stand.old.down.value stand.old.up.value)
        (carrier_at stand.new.carrier stand.new.down.value stand.new.up.value) stand.new.report.value }
{
    *stand.report = make_rounds(
        rt,
        udc,
        centre,
        signals,
        &mut stand.carrier,
        &mut *stand.down,
        &mut *stand.up,
    );
}
