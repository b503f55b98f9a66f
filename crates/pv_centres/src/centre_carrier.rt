//! A centre's carrier as a server has it.
ghost use Rattle.std.specs.Prelude.{◌≡◌};
ghost use Rattle.pv_edits.specs.Taken.{IsCentre};
ghost use Rattle.pv_centres.specs.Carried.{HasStoredNoMore, IsQuiet};
ghost use Rattle.pv_centres.specs.Served.{IsNewPass};

use pv_edits::Record;
use pv_group::{GroupRun, Live};
use pv_irc::{CentreRecord, IrcRules};
use pv_live::Pass;
use pv_memory::Pipe;
use pv_outside::Disk;
use pv_ports::Carrier;
use pv_service::{CarrierReport, CarrierStand, Signals, carry_rounds};
use pv_udc::UdcRules;
use std::alloc::{AllocError, Global};
use std::marker::Model;
use std::sync::Wait;

/// The carrier of a centre. Its links are pipes in memory, which hold nothing at first, and of which no call fails. Unless memory
/// ran out or a disk failed, what was stored for it is what it has brought.
#[derive(Drop)]
pub struct CentreCarrier<const C: u8, U: GroupRun<Record>, N: GroupRun<CentreRecord>, D: Disk> {
    stand: CarrierStand<C, U, N, D, Pipe>,
}

impl<const C: u8, U: GroupRun<Record>, N: GroupRun<CentreRecord>, D: Disk> Model
    for CentreCarrier<C, U, N, D> {
    ghost use Rattle.pv_ports.specs.Round.{CarrierState};
    ghost use Rattle.pv_centres.specs.Carried.{HasStoredNoMore, IsQuiet};

    ghost Value = { CarrierState };

    ghost view = { λ c. c.stand.carrier };

    ghost invariant = { λ c. IsQuiet c.stand.report.value → HasStoredNoMore U.opening N.opening C
        c.stand.carrier };
}

impl<const C: u8, U: GroupRun<Record>, N: GroupRun<CentreRecord>, D: Disk> CentreCarrier<
    C,
    U,
    N,
    D,
> {
    /// A carrier of these passes, which were used for nothing.
    pub fn new(
        alloc: Global,
        udc: Pass<UdcRules, U>,
        centre: Pass<IrcRules<C>, N>,
    ) -> Result<CentreCarrier<C, U, N, D>, AllocError>
        requires centre { IsCentre C }
        requires new { IsNewPass udc × IsNewPass centre }
    {
        let carrier = Carrier::new(udc, centre);
        let down = Box::new(alloc, Pipe::new(alloc, &[])?)?;
        let up = Box::new(alloc, Pipe::new(alloc, &[])?)?;
        let report = CarrierReport::boxed(alloc)?;
        let stand = CarrierStand::new(carrier, down, up, report);
        Ok(CentreCarrier { stand })
    }

    /// Makes rounds until the ports are done and a round has nothing more to bring, or until a disk fails. A carrier that has met
    /// a fault makes no further ones.
    pub fn carry<H: Wait + Drop, W: Wait>(
        &mut self,
        rt: &W,
        udc: &Live<UdcRules, D, U, H>,
        centre: &Live<IrcRules<C>, D, N, H>,
        signals: &Signals,
    ) {
        if self.stand.report.fault.is_some() {
            return;
        }
        let memory = self.stand.report.memory;
        carry_rounds(rt, udc, centre, signals, &mut self.stand);
        self.stand.report.memory |= memory;
    }

    /// What it has met, and its passes: the Update Centre's and the centre's.
    pub fn into_parts(self) -> (CarrierReport<D>, Pass<UdcRules, U>, Pass<IrcRules<C>, N>)
        ensures passes { (result.1 ≡ self.udc) × (result.2 ≡ self.centre) }
        ensures stored { IsQuiet result.0 → HasStoredNoMore U.opening N.opening C self }
    {
        let CentreCarrier { stand } = self;
        let CarrierStand {
            carrier,
            down: _,
            up: _,
            report,
        } = stand;
        let (udc, centre) = carrier.into_passes();
        (Box::into_inner(report), udc, centre)
    }
}
