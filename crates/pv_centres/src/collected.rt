ghost use Rattle.std.specs.Prelude.{◌≡◌, ◌++◌, [], option_to_list, OnOk, IfSome};
ghost use Rattle.std.specs.Option.{option_map};
ghost use Rattle.pv_centres.specs.Carried.{AreQuiet, HasStoredNoMore};

use crate::centre_carrier::CentreCarrier;
use crate::doors::put;
use pv_edits::Record;
use pv_group::GroupRun;
use pv_irc::{CentreRecord, IrcRules};
use pv_live::Pass;
use pv_outside::{Disk, Door};
use pv_service::{CarrierReport, PortReport};
use pv_udc::UdcRules;
use std::alloc::{AllocError, Global};

/// What the stands of centres had, collected as these are closed.
#[derive(Drop)]
pub struct Collected<U: GroupRun<Record>, D: Disk + Drop, O: Door + Drop> {
    /// The doors of the callers, in order.
    pub doors: Vec<O>,
    /// What their ports have met, in order.
    pub reports: Vec<PortReport<D>>,
    /// The passes of the Update Centre that carriers had, in order.
    pub passes: Vec<Pass<UdcRules, U>>,
    /// What the carriers have met, in order.
    pub carriers: Vec<CarrierReport<D>>,
}

impl<U: GroupRun<Record>, D: Disk + Drop, O: Door + Drop> Collected<U, D, O> {
    /// Nothing is collected.
    pub fn new(alloc: Global) -> Collected<U, D, O>
        ensures { (result.doors.items ≡ []) × (result.reports.items ≡ []) × (result.passes.items ≡ [])
            × (result.carriers.items ≡ []) }
    {
        Collected {
            doors: Vec::new(alloc),
            reports: Vec::new(alloc),
            passes: Vec::new(alloc),
            carriers: Vec::new(alloc),
        }
    }

    /// Adds what a centre's carrier has met, and its pass of the Update Centre. Its pass of the centre is appended.
    pub fn take_carrier<const C: u8, N: GroupRun<CentreRecord>>(
        &mut self,
        carrier: Option<CentreCarrier<C, U, N, D>>,
        passes: &mut Vec<Pass<IrcRules<C>, N>>,
    ) -> Result<(), AllocError>
        ensures own { OnOk result (passes.new.items
            ≡ passes.old.items ++ option_to_list (option_map (λ c. c.centre) carrier)) }
        ensures udc { OnOk result (self.new.passes.items
            ≡ self.old.passes.items ++ option_to_list (option_map (λ c. c.udc) carrier)) }
        ensures quiet { OnOk result (AreQuiet self.new.carriers.items → AreQuiet self.old.carriers.items
            × IfSome carrier (HasStoredNoMore U.opening N.opening C)) }
        ensures others { (self.new.doors ≡ self.old.doors) × (self.new.reports ≡ self.old.reports) }
    {
        let Some(carrier) = carrier else {
            return Ok(());
        };
        let (report, udc, own) = carrier.into_parts();
        put(&mut self.carriers, report)?;
        put(&mut self.passes, udc)?;
        put(passes, own)?;
        Ok(())
    }
}
