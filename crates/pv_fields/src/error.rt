use thiserror::Error;

/// The bytes do not fit into what is left of the slice; nothing was written.
#[derive(Clone, Copy, Debug, PartialEq, Eq, Error)]
#[error("no room is left for the bytes")]
pub struct NoRoom;

/// Fewer bytes are left than were asked for; nothing was taken.
#[derive(Clone, Copy, Debug, PartialEq, Eq, Error)]
#[error("fewer bytes are left than were asked for")]
pub struct Short;

/// The next bytes are no valid spelling of the value that was asked for.
#[derive(Clone, Copy, Debug, PartialEq, Eq, Error)]
#[error("the bytes are no valid spelling of the value")]
pub struct NoSpelling;

impl From<Short> for NoSpelling {
    fn from(_short: Short) -> NoSpelling {
        NoSpelling
    }
}
