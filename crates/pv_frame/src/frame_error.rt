ghost use Rattle.std.specs.Prelude.{◌≡◌};
ghost use Rattle.pv_frame.specs.Errors.{error_number};

use thiserror::Error;

/// Why a frame is not valid: the first reason in this order.
#[derive(Clone, Copy, Debug, PartialEq, Eq, Error)]
pub enum FrameError {
    /// A cell of the title or of the body is over 127.
    #[error("a cell is over 127")]
    Cell,
    /// The price is over 99 pence.
    #[error("the price is over 99 pence")]
    Price,
    /// A field does not lie in the body: its row is outside 2 to 23, its length outside 1 to 40, or
    /// it ends after the last column.
    #[error("field {i} does not lie in the body")]
    FieldRange {
        /// The index of the first such field.
        i: usize,
    },
    /// Two fields share a cell.
    #[error("the fields {i} and {j} share a cell")]
    FieldsMeet {
        /// The least index of a field that shares a cell with a later one.
        i: usize,
        /// The index of the first later field that it shares one with.
        j: usize,
    },
    /// The fields are not those of the frame's kind.
    #[error("the fields are not those of the frame's kind")]
    Shape,
    /// A code in the bytes of a frame has no meaning. Only reading returns this.
    #[error("the code at byte {at} has no meaning")]
    Code {
        /// The place of the first byte of the code.
        at: usize,
    },
}

impl FrameError {
    /// The number of the error, 1 to 6 in the order above.
    pub fn number(&self) -> u8
        ensures { result ≡ error_number self.now }
    {
        match self {
            FrameError::Cell => 1,
            FrameError::Price => 2,
            FrameError::FieldRange { .. } => 3,
            FrameError::FieldsMeet { .. } => 4,
            FrameError::Shape => 5,
            FrameError::Code { .. } => 6,
        }
    }
}
