//! A text that is read whole: a script, a tape.
//!
//! [`read_text`] reads a source to its end, and at most one byte more than a text may have. [`ReadEnd`] says why it did not.
#![tactic(auto)]

mod text;

pub use text::{LONGEST_TEXT, ReadEnd, read_text};
