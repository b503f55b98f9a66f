use pv_outside::Disk;

/// How an editor's session ended.
#[derive(Drop)]
pub enum EditEnd<D: Disk> {
    /// The editor ended it.
    Closed,
    /// The editor hung up.
    Hung,
    /// He has had as many lines or bytes as a session may have.
    Spent,
    /// His connection could not be read.
    ReadFault,
    /// His connection could not be written.
    WriteFault,
    /// A call of the Update Centre's disk failed. His last reply is `NO 15 DISK`, cut off if its write failed too.
    DiskFault(D::Failure),
    /// No memory was found to publish a record. His last reply is `NO 16 MEMORY`, cut off if its write failed too. If
    /// the record was stored for this session, this is its place.
    Memory { stored: Option<u64> },
}
