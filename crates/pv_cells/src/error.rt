use thiserror::Error;

/// Why a text is no row in notation: its first error from the left. Places are indexes of the text's
/// bytes.
#[derive(Clone, Copy, Debug, PartialEq, Eq, Error)]
pub enum NotationError {
    /// The text goes on after the row is full.
    #[error("the text has more cells than the row")]
    TooLong,
    /// A backslash is not followed by the two hexadecimal digits of a cell.
    #[error("no cell follows the backslash at {at}")]
    BadEscape {
        /// The backslash's place.
        at: usize,
    },
    /// A byte is outside 0x20 to 0x7E.
    #[error("the byte at {at} cannot be printed")]
    BadByte {
        /// The byte's place.
        at: usize,
    },
}
