//! The stands of a network, row by row, and its carriers.

use crate::centre_carrier::CentreCarrier;
use pv_edits::Record;
use pv_group::GroupRun;
use pv_irc::CentreRecord;
use pv_outside::{Disk, Door};
use pv_service::{CallerStand, EditorStand};
use std::alloc::Global;

/// The stands of all ports. A centre that the network does not have has none.
#[derive(Drop)]
pub struct AllPorts<
    U: GroupRun<Record>,
    N0: GroupRun<CentreRecord>,
    N1: GroupRun<CentreRecord>,
    N2: GroupRun<CentreRecord>,
    N3: GroupRun<CentreRecord>,
    D: Disk + Drop,
    O: Door + Drop,
    E: Door + Drop,
> {
    /// Those of centre 0's callers.
    pub first: Vec<CallerStand<0, N0, D, O>>,
    /// Those of centre 1's callers.
    pub second: Vec<CallerStand<1, N1, D, O>>,
    /// Those of centre 2's callers.
    pub third: Vec<CallerStand<2, N2, D, O>>,
    /// Those of centre 3's callers.
    pub fourth: Vec<CallerStand<3, N3, D, O>>,
    /// Those of the editors.
    pub editors: Vec<EditorStand<U, D, E>>,
}

impl<
    U: GroupRun<Record>,
    N0: GroupRun<CentreRecord>,
    N1: GroupRun<CentreRecord>,
    N2: GroupRun<CentreRecord>,
    N3: GroupRun<CentreRecord>,
    D: Disk + Drop,
    O: Door + Drop,
    E: Door + Drop,
> AllPorts<U, N0, N1, N2, N3, D, O, E> {
    /// No stands.
    pub fn none(alloc: Global) -> AllPorts<U, N0, N1, N2, N3, D, O, E> {
        AllPorts {
            first: Vec::new(alloc),
            second: Vec::new(alloc),
            third: Vec::new(alloc),
            fourth: Vec::new(alloc),
            editors: Vec::new(alloc),
        }
    }
}

/// The carriers of all centres. Of a centre that the network does not have there is none.
#[derive(Drop)]
pub struct AllCarriers<
    U: GroupRun<Record>,
    N0: GroupRun<CentreRecord>,
    N1: GroupRun<CentreRecord>,
    N2: GroupRun<CentreRecord>,
    N3: GroupRun<CentreRecord>,
    D: Disk + Drop,
> {
    /// Centre 0.
    pub first: Option<CentreCarrier<0, U, N0, D>>,
    /// Centre 1.
    pub second: Option<CentreCarrier<1, U, N1, D>>,
    /// Centre 2.
    pub third: Option<CentreCarrier<2, U, N2, D>>,
    /// Centre 3.
    pub fourth: Option<CentreCarrier<3, U, N3, D>>,
}
