use pv_outside::Disk;

/// What came of a round.
#[derive(Drop)]
pub enum RoundEnd<D: Disk> {
    /// Packets were given or taken. This many records were applied, and this many items taken up.
    Moved { records: u8, items: u8 },
    /// There was nothing to give and nothing to take.
    Idle,
    /// A call of a link failed.
    LinkFault,
    /// A call of a node's disk failed.
    DiskFault(D::Failure),
    /// A node is full: it has this many records. The Update Centre is node 0, and a centre the node after its number.
    Full { node: u8, count: u64 },
    /// No memory was found to publish a record. If one was stored for this round, this is its place.
    Memory { stored: Option<u64> },
}
