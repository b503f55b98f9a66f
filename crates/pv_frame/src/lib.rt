//! Frames: what one screen of a viewdata service shows, and what it leads to.
//!
//! A [`Frame`] has a title of 24 cells, a body of 22 rows, a [`Kind`] and a route for each digit. It
//! has a price in pence, a closed user group, and up to eight [`Field`]s, which a caller fills in. A frame
//! of the kind Information has no field. One of the kind Response has at least one. One of the kind
//! Mail has a field for the ten digits of an account and then one to six for words.
//!
//! - [`Frame::blank`] is a frame with nothing on it. Its parts are public, [`Frame::set_row`] writes
//!   a row of the body, and [`Frame::add_field`] puts a field after the others.
//! - [`Frame::check`] returns whether a frame is valid, or its first [`FrameError`].
//! - A [`CheckedFrame`] is a valid frame: its type guarantees that.
//! - [`Frame::encode`] appends the one spelling of a frame, 950 bytes and four for each field.
//!   [`Frame::decode`] reads it, or returns the first [`FrameCodecError`].
//!
//! Contracts see a frame as its `Content`: lists of cells, of routes and of fields, without the empty
//! places after the last field. `IsFrame` is the invariant of every frame, and `IsValid` says that it
//! has no error. The layout of the bytes is one definition, `Raw`: the parts in their order, without
//! meaning. The errors of bytes and the frame that they spell are functions of it.
//!
//! No call allocates. A caller makes a frame, spells it and reads it again:
//!
//! ```text
//! let mut frame = Frame::blank();
//! frame.price = 5;
//! frame.check()?;
//! let mut bytes = [0; FIELDS_AT];
//! frame.encode(&mut Out::new(&mut bytes))?;
//! assert_eq!(Frame::decode(&bytes), Ok(frame));
//! ```
#![tactic(auto)]

mod checked_frame;
mod checking;
mod codec_error;
mod codes;
mod field;
mod frame;
mod frame_error;
mod kind;
mod law;
mod layout;
mod raw;

pub use checked_frame::CheckedFrame;
pub use codec_error::FrameCodecError;
pub use field::{Field, FieldKind};
pub use frame::Frame;
pub use frame_error::FrameError;
pub use kind::Kind;
pub use law::{errors_are_what_they_say, no_spelling_begins_another};
pub use layout::{
    ACCOUNT_DIGITS, BODY_CELLS, BODY_ROWS, FIELD_BYTES, FIELDS, FIELDS_AT, FIRST_ROW, LAST_PRICE,
    LAST_ROW, MAIL_TEXTS, ROUTES, TITLE_CELLS, VERSION,
};
