ghost use Rattle.std.specs.Prelude.{◌≡◌, false, None, IfOk};

use pv_outside::Disk;
use std::alloc::{AllocError, Global};

/// Why a carrier ended before its time.
#[derive(Drop)]
pub enum CarrierFault<D: Disk> {
    /// A call of a link failed.
    Link,
    /// A call of a node's disk failed.
    Disk(D::Failure),
}

/// How a carrier's work has ended.
#[derive(Drop)]
pub struct CarrierReport<D: Disk> {
    /// Whether a round ended since no memory was found.
    pub memory: bool,
    /// Why it ended before its time.
    pub fault: Option<CarrierFault<D>>,
}

impl<D: Disk> CarrierReport<D> {
    /// A report of no fault, for a stand to fill in.
    pub fn boxed(alloc: Global) -> Result<Box<CarrierReport<D>>, AllocError>
        ensures { IfOk result (λ report. (report.value.memory ≡ false) × (report.value.fault ≡ None)) }
    {
        Ok(Box::new(
            alloc,
            CarrierReport {
                memory: false,
                fault: None,
            },
        )?)
    }
}
