//! Charge lines and bills.
//!
//! - [`Line`] is one priced frame that a caller asked for: which call, for which account, which frame,
//!   at what price and when. A line has one spelling in bytes.
//! - [`Bill`] adds up the lines of an account.
//!
//! No call allocates. A caller reads the lines that bytes hold and adds them up:
//!
//! ```text
//! let mut bytes = In::new(stored);
//! let mut bill = Bill::new();
//! while let Some(line) = Line::decode(&mut bytes) {
//!     bill.add(&line); // its sums are far below their limits
//! }
//! ```
//!
//! Contracts see a line as its parts (`Charge` of `specs/Line.antt`), and a bill as its two sums.
#![tactic(auto)]

mod bill;
mod law;
mod line;

pub use bill::{Bill, MAX_BILLED_LINES, MAX_BILLED_PENCE};
pub use law::no_line_begins_another;
pub use line::{LAST_MOMENT, LINE_BYTES, Line, MAX_PRICE};
