use thiserror::Error;

/// The end of a count of faults, which is kept in 64 bits: from here on it no longer rises.
pub const COUNT_END: u64 = u64::MAX;

/// Something outside failed. It does not say why; the outside has counted it.
#[derive(Clone, Copy, Debug, PartialEq, Eq, Error)]
#[error("the outside failed")]
pub struct Failed;
