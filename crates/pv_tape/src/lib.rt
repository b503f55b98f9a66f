//! Tapes: an information provider's pages as a text, which is loaded in one go.
//!
//! ```text
//! TAPE 1 2000000001 NEWS
//! NEW 20a
//! ROW 2 HEADLINES
//! STORE
//! DROP 21a
//! ```
//!
//! The first line says whose edits these are, and the number of the first. The lines that make a frame are those of an
//! editor. `STORE` and `DROP` have no number, since the edits are counted on from the first.
//!
//! - [`run_tape`] reads a whole tape, checks it, and asks the Update Centre for its edits. A run that was cut is
//!   continued by running the tape again.
//! - [`TapeEnd`] says how a run ended, and [`Head`] is what the first line of a tape says.
//! - [`runs_leave_each_edit_once`] is the law of any runs of one tape.
//!
//! ```text
//! match run_tape(alloc, &mut node, &mut source) {
//!     TapeEnd::Done { stored, skipped } => report(stored, skipped),
//!     TapeEnd::BadTape { line } => point_at(line),
//!     end => explain(end),
//! }
//! ```
//!
//! What a tape means is defined in `specs/Tape.antt`, what its lines ask for in `specs/Loading.antt`, and how a run ends in
//! `specs/Running.antt`.
#![tactic(auto)]

mod asking;
mod checking;
mod end;
mod head;
mod law;
mod line;
mod loading;
mod making;
mod progress;
mod running;

pub use end::TapeEnd;
pub use head::Head;
pub use law::runs_leave_each_edit_once;
pub use running::run_tape;

#[cfg(test)]
mod tests;
