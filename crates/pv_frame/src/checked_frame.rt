ghost use Rattle.std.specs.Prelude.{◌≡◌, ◌↔◌, All, IsOk, IfOk, IfErr, Some, Ok};
ghost use Rattle.pv_cells.specs.Row.{IsCell};

use crate::codec_error::FrameCodecError;
use crate::frame::Frame;
use crate::frame_error::FrameError;
use crate::layout::FIRST_ROW;
use pv_cells::ROW_LENGTH;
use std::marker::Model;

/// A valid frame: one that [`Frame::check`] accepts. Contracts see what it holds.
#[derive(Clone, Copy, Debug, PartialEq, Eq)]
pub struct CheckedFrame {
    frame: Frame,
}

impl Model for CheckedFrame {
    ghost use Rattle.pv_frame.specs.Content.{Content};
    ghost use Rattle.pv_frame.specs.Errors.{IsValid};

    ghost Value = { Content };

    ghost view = { λ c. c.frame };

    ghost invariant = { λ c. IsValid c.frame };

    ghost inverse = { λ frame. record { frame = frame } };
}

impl CheckedFrame {
    ghost use Rattle.pv_frame.specs.Content.{Content, frame_of_row};
    ghost use Rattle.pv_frame.specs.Errors.{IsValid, HasRanges, error_of};
    ghost use Rattle.pv_frame.specs.Spelling.{HasSpelling, spelling_of};
    ghost use Rattle.pv_frame.specs.Reading.{decode_of};

    /// The frame, if it is valid. The error is that of [`Frame::check`].
    pub fn of(frame: Frame) -> Result<CheckedFrame, FrameError>
        ensures ok { IsOk result ↔ IsValid frame }
        ensures value { IfOk result (λ checked. checked ≡ frame) }
        ensures err { IfErr result (λ error. error_of frame ≡ Some error) }
    {
        frame.check()?;
        Ok(CheckedFrame { frame })
    }

    /// A frame that is blank except for its row 2.
    #[tactic(auto, using(crate::proofs::Rows::rows))]
    pub fn of_row(row: &[u8; ROW_LENGTH]) -> CheckedFrame
        requires { All IsCell row.now }
        ensures { result ≡ frame_of_row row.now }
    {
        let mut frame = Frame::blank();
        frame.set_row(FIRST_ROW, row);
        CheckedFrame { frame }
    }

    /// The frame that the bytes spell, as [`Frame::decode`] reads it.
    pub fn decode(bytes: &[u8]) -> Result<CheckedFrame, FrameCodecError>
        ensures found { IfOk result (λ frame.
            HasSpelling frame × (bytes.now ≡ spelling_of frame)) }
        ensures only { (frame : Content) → HasSpelling frame → bytes.now ≡ spelling_of frame →
            result ≡ Ok frame }
        ensures exact { result ≡ decode_of bytes.now }
    {
        let frame = Frame::decode(bytes)?;
        Ok(CheckedFrame { frame })
    }

    /// The frame has a spelling, by its type. A call states this and has no effect.
    pub fn within(&self)
        ensures { HasSpelling self.now }
    {
        self.frame.within();
    }

    /// The frame.
    pub fn frame(&self) -> &Frame
        ensures value { result.now ≡ self.now }
        ensures valid { IsValid self.now }
        ensures ranges { HasRanges self.now }
    {
        &self.frame
    }
}
