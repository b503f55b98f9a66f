use pv_outside::Disk;

/// How far a node was brought what it lacked.
#[derive(Drop)]
pub enum RestEnd<D: Disk> {
    /// All of it is stored.
    Brought,
    /// There are `count` records, which is the limit. What comes next is not stored.
    Full {
        /// How many there are.
        count: u64,
    },
    /// What comes next has no room in the node's state, and is not stored.
    NoRoom,
    /// A call of the disk failed. A record may be in hand.
    DiskFault(D::Failure),
}
