//! Rows of cells, their notation in text, and mosaics.
//!
//! A row of the screen has forty cells. A cell is 0 to 127: 0 to 31 are display attributes, 32 to 127
//! are characters and mosaics. In a text a row is written in notation: a byte that can be printed is
//! itself, except the backslash, and every other byte is a backslash and its two hexadecimal digits.
//!
//! - [`notation`] appends the canonical notation to a slice, [`push_notation`] to a `Vec`.
//! - [`row_of`] reads a row of forty cells, [`cells_of`] one of another width. The digits may be of
//!   either case, and the first error is returned with its place.
//! - [`first_byte`] reads any bytes one by one, up to `\ff`.
//! - [`mosaic`] and [`weights_of`] convert between the lit squares of a mosaic and its code.
//!
//! Only [`push_notation`] allocates. A caller reads a row and writes it again, in the canonical form:
//!
//! ```text
//! fn canonical(text: &[u8], out: &mut Out) -> Result<bool, NotationError> {
//!     let row = row_of(text)?;
//!     Ok(notation(&row, out).is_ok())
//! }
//! ```
#![tactic(auto)]

mod error;
mod law;
mod mosaics;
mod reading;
mod writing;

pub use error::NotationError;
pub use law::{notation_is_printable, notation_is_read_back, notation_is_unambiguous};
pub use mosaics::{
    BOTTOM_LEFT, BOTTOM_RIGHT, DARK, MIDDLE_LEFT, MIDDLE_RIGHT, TOP_LEFT, TOP_RIGHT, mosaic,
    mosaics_are_one_to_one, squares_have_their_codes, weights_of,
};
pub use reading::{BLANK, LAST_CELL, ROW_LENGTH, cells_of, first_byte, row_of};
pub use writing::{BACKSLASH, FIRST_PRINTABLE, LAST_PRINTABLE, notation, push_notation};
