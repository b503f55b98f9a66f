//! The office of the viewdata network, as two words of the program: `statement` writes a month's statement of an account, and
//! `tape` loads an information provider's pages.
//!
//! - [`statement_options`] and [`tape_folder`] read the words of the command line.
//! - [`statement_of`] writes the statement that they ask for, from the Update Centre's disk that is handed in, and [`tape_of`]
//!   loads a tape into such a disk.
//! - [`OfficeStatus`] says how a program of the office ends.
//! - [`run_office`] does all this over the real file, standard input, output and error.
//!
//! ```text
//! let status = statement_of(alloc, &words, disk, &mut out);
//! let (status, disk) = tape_of(alloc, &words, disk, &mut tape, &mut out);
//! ```
#![tactic(auto)]

mod month;
mod options;
mod real;
mod statements;
mod status;
mod tapes;
mod watched;

pub use month::month_of;
pub use options::{StatementOptions, statement_options};
pub use real::run_office;
pub use statements::statement_of;
pub use status::OfficeStatus;
pub use tapes::{tape_folder, tape_of};

#[cfg(test)]
mod tests;
