use thiserror::Error;

/// Why bytes are no packet. The first of the tests that fails is reported, in this order: there is a byte,
/// it is a kind, the number is there, and then the centre, what follows and the end.
#[derive(Clone, Copy, Debug, PartialEq, Eq, Error)]
pub enum PacketError {
    /// There are fewer bytes than a packet's head has.
    #[error("the packet is too short")]
    Short,
    /// The first byte is none of the four kinds.
    #[error("the packet is of no kind that there is")]
    Kind,
    /// The centre is over the last one, or what follows the head spells no record or item.
    #[error("the packet's centre, record or item is not valid")]
    Body,
    /// Bytes follow an acknowledgement.
    #[error("bytes follow the acknowledgement")]
    Trailing,
}
