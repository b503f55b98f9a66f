ghost use Rattle.std.specs.Prelude.{◌≡◌};
ghost use Rattle.pv_nodes.specs.Cutting.{cut_by};

/// What became of the record of an ask within which the node stopped.
#[derive(Clone, Copy, Debug, PartialEq, Eq)]
pub enum Cut {
    /// No record was to be stored.
    NotStored,
    /// The record is on the disk.
    Kept,
    /// The record is not on the disk.
    Lost,
}

impl Cut {
    /// What became of a record, if one was to be stored, by how many records the node had and has.
    pub(crate) fn by(stores: bool, before: u64, after: u64) -> Cut
        ensures { result ≡ cut_by stores before after }
    {
        if !stores {
            Cut::NotStored
        } else if after == before {
            Cut::Lost
        } else {
            Cut::Kept
        }
    }
}
