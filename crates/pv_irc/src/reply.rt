/// What a centre replies.
#[derive(Clone, Copy, Debug, PartialEq, Eq)]
pub enum IrcReply {
    /// The record that came down is applied, or the letter is removed.
    Applied,
    /// The record was applied before: this many were.
    Old(u64),
    /// Records before this one are still to come: this many were applied.
    Early(u64),
    /// There is no room for the record. This many were applied, and it is not among them.
    NoRoom(u64),
    /// The log-on is counted. This many came before.
    Serial(u64),
    /// The item is kept. This many were kept before, which is its number.
    Kept(u64),
    /// No such letter waits.
    Nothing,
}
