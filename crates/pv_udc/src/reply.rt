/// What the Update Centre replies.
#[derive(Clone, Copy, Debug, PartialEq, Eq)]
pub enum UdcReply {
    /// The record of the edit or of the item is stored at this place of the edit list.
    Stored(u64),
    /// The editor's last edit has this number: it is at this place.
    Again(u64),
    /// The item was taken up before: this many of the centre's were.
    Old(u64),
    /// Items of the centre before this one are still to come: this many were taken up.
    Early(u64),
    /// The edit is refused.
    Refused(Code),
}

/// The number of a refusal, and the number that its text shows, 0 if it shows none.
#[derive(Clone, Copy, Debug, PartialEq, Eq)]
pub struct Code {
    /// The number of the refusal, from 1.
    pub code: u8,
    /// The number that its text shows.
    pub shown: u64,
}
