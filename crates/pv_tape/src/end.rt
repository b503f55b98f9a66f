use pv_outside::Disk;

/// How a run of a tape ended.
#[derive(Drop)]
pub enum TapeEnd<D: Disk> {
    /// Each edit of the tape is stored.
    Done {
        /// How many were stored by this run.
        stored: u32,
        /// How many there were before: their numbers are at most the account's last.
        skipped: u32,
    },
    /// The tape could not be read. Its source has counted it. Nothing was asked.
    ReadFault,
    /// The tape has more than [`LONGEST_TEXT`](pv_input::LONGEST_TEXT) bytes. Nothing was asked.
    TooLong,
    /// A line is bad. Nothing was asked.
    BadTape {
        /// The number of the first bad line, from 1.
        line: u32,
    },
    /// There is no such account, or it has another password. Nothing was asked.
    NotKnown,
    /// The Update Centre refused an edit. Those before it are stored.
    Refused {
        /// The number of the edit's line, from 1.
        line: u32,
        /// The number of the refusal.
        code: u8,
        /// The number that the refusal's text shows, 0 if it shows none.
        shown: u64,
    },
    /// There are as many records as the limit. The edits before this one are stored.
    Full {
        /// How many there are.
        count: u64,
    },
    /// A call of the disk failed. An edit may be in hand.
    DiskFault(D::Failure),
    /// Memory ran out. Nothing was asked.
    Memory,
}
