use pv_outside::Disk;

/// Why an ask has no answer.
#[derive(Drop)]
pub enum LiveFault<D: Disk> {
    /// No memory was found to publish a record. If this ask has stored one, this is its place. The next ask
    /// publishes it first.
    Memory { stored: Option<u64> },
    /// A call of the disk failed. A record may be in hand.
    Disk(D::Failure),
    /// The request would store a record, and the node has `count` records, as many as its limit.
    Full { count: u64 },
}
