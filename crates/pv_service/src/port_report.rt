ghost use Rattle.std.specs.Prelude.{◌≡◌, false, None, IfOk};

use pv_outside::Disk;
use std::alloc::{AllocError, Global};

/// Why a port ended before all of its connections were served.
#[derive(Drop)]
pub enum PortFault<D: Disk> {
    /// Its door let no connection in.
    Door,
    /// A call of its node's disk failed.
    Disk(D::Failure),
}

/// How a port's work has ended.
#[derive(Drop)]
pub struct PortReport<D: Disk> {
    /// Whether a call or a session ended since no memory was found.
    pub memory: bool,
    /// Why it ended before all of its connections were served.
    pub fault: Option<PortFault<D>>,
}

impl<D: Disk> PortReport<D> {
    /// A report of no fault, for a stand to fill in.
    pub fn boxed(alloc: Global) -> Result<Box<PortReport<D>>, AllocError>
        ensures { IfOk result (λ report. (report.value.memory ≡ false) × (report.value.fault ≡ None)) }
    {
        Ok(Box::new(
            alloc,
            PortReport {
                memory: false,
                fault: None,
            },
        )?)
    }
}
