//! A caller's keys, read into commands.
//!
//! The keys are the digits, `*` and `#`, which also has the code of `_`. All other bytes are ignored. A digit is a
//! route, `#` is the next frame, and a command of several keys begins with `*`.
//!
//! - [`KeyReader`] takes a byte at a time, and gives a command at the byte that ends it.
//! - [`Command`] is what the keys ask for.
//!
//! No call allocates, and every byte is accepted. A caller's bytes may come in any pieces:
//!
//! ```text
//! let mut reader = KeyReader::new();
//! for byte in b"*12#" {
//!     if let Some(command) = reader.take(*byte) {
//!         // Go(12), at the last of the four bytes
//!     }
//! }
//! ```
#![tactic(auto)]

mod command;
mod law;
mod progress;
mod reader;

pub use command::{Command, END_PAGE, MAIL_PAGE};
pub use law::{
    answers_are_the_commands, keys_are_cut_in_one_way, no_spelling_begins_another,
    pieces_are_answered_as_one,
};
pub use reader::KeyReader;
