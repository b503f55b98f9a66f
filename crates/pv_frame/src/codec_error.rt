use crate::frame_error::FrameError;
use pv_fields::Short;
use thiserror::Error;

/// Why bytes are not the spelling of a frame: the first reason in the order of
/// [`Frame::decode`](crate::Frame::decode).
#[derive(Clone, Copy, Debug, PartialEq, Eq, Error)]
pub enum FrameCodecError {
    /// Bytes are missing.
    #[error("bytes are missing")]
    Short,
    /// The first byte is not the version.
    #[error("the version is not 1")]
    Version,
    /// A code has no meaning, or the frame is not valid.
    #[error("{0}")]
    Invalid(FrameError),
    /// There are bytes after the last field.
    #[error("there are bytes after the frame")]
    Trailing,
}

impl From<Short> for FrameCodecError {
    ghost use Rattle.std.specs.Prelude.{◌≡◌};
    ghost use Rattle.pv_frame.specs.declared.codec_error.FrameCodecError.TheVariants as variants;

    ghost from_gives = { λ _ error. error ≡ variants.Short };

    fn from(_short: Short) -> FrameCodecError {
        FrameCodecError::Short
    }
}
