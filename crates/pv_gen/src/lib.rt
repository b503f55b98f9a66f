//! Scripts that are made by rule: for each number from 1 to 999 one evening of a small service.
//!
//! The operator stores as many pages as the number says, each with a price of its own, and an account for a caller. A centre
//! gets all of it. The caller dials it, fetches pages twice as often as there are pages, and hangs up. Then both nodes
//! crash, and the bill is asked for. Prices and fetches come from a sequence that the number begins, so that a script is
//! long and mixed, and the same each time.
//!
//! [`script`] writes the script of a number to a sink. It takes no memory:
//!
//! ```text
//! script(7, &mut out)?;
//! ```
//!
//! The text is defined in `specs/Script.antt`, line by line, and the sequence in `specs/Sequence.antt`.
#![tactic(auto)]

mod line;
mod sequence;
mod writing;

pub use writing::{LAST_NUMBER, script};
