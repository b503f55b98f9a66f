//! Numbers and runs of bytes, appended into a slice of the caller's and read from one.
//!
//! - [`Out`] appends into a slice, from its beginning on.
//! - [`In`] reads from a slice, from its beginning on.
//! - [`NoRoom`] refuses what does not fit, and changes nothing.
//! - [`Short`] is returned if too few bytes are left, and changes nothing.
//! - [`NoSpelling`] is returned by decoders whose bytes are no valid spelling.
//!
//! A number is a byte, or two, four or eight in big-endian order; a run is any bytes. No call
//! allocates. A caller writes a number and a text, and reads them again:
//!
//! ```text
//! fn write(into: &mut [u8], price: u16, text: &[u8; 24]) -> Result<usize, NoRoom> {
//!     let mut out = Out::new(into);
//!     out.u16(price)?;
//!     out.run(text)?;
//!     Ok(out.written())
//! }
//!
//! fn read(from: &[u8]) -> Result<(u16, [u8; 24]), Short> {
//!     let mut bytes = In::new(from);
//!     let price = bytes.u16()?;
//!     let text = bytes.array()?;
//!     Ok((price, text))
//! }
//! ```
//!
//! Contracts see an [`In`] as the list of the bytes that are left. Of an [`Out`] they see three things:
//! `written_of` is what was appended, `rest_of` the rest of the slice, and `room_of` how many bytes
//! still fit. `Appends old new bytes` says that a call appended these bytes and did nothing else. When
//! the `Out` is dropped, the slice holds what was written, and after it what it held before.
//!
//! Four forms for the crates above are defined here:
//!
//! - `specs/Reading.antt`: how a value is spelled, part by part, and that no spelling is a prefix of
//!   another. A decoder's contract is `GivesFound same result (x_at bytes.old) bytes.new`, where the parser
//!   `x_at` has one line for each part, and `proofs/Readings.antt` has a lemma for each.
//! - `specs/Out.antt`: how it is written. An encoder's contract is `Puts` or `Appends`.
//! - `specs/Refusals.antt`: the first refusal that applies, of a list of tests.
//! - `specs/Padded.antt`: items and then filler, up to a fixed size.
#![tactic(auto)]

mod error;
mod law;
mod reading;
mod writing;

pub use error::{NoRoom, NoSpelling, Short};
pub use law::numbers_are_read_back;
pub use reading::In;
pub use writing::Out;
