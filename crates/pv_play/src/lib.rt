//! The words of the command line that work on a script, `play`, `gen` and `evening`, and those that ask about the program.
//!
//! A script comes in by standard input, and what is written goes out by standard output; a fault is one line on standard
//! error, and the exit status says which. All that the words do is [`run_program`], over the source and the writer that it
//! is handed. [`run`] makes the real ones, and [`end`] ends with the status.
//!
//! ```text
//! let args = args_of(&rt)?;
//! let words = words_of(&args);
//! let status = run(&rt, words, is_seen);
//! end(&rt, status, error_of(words))
//! ```
#![tactic(auto)]

mod about;
mod process;
mod program;
mod progress;
mod quoted;
mod task;
#[cfg(test)]
mod tests;
mod words_error;

pub use about::About;
pub use process::{args_of, end, run, words_of};
pub use program::run_program;
pub use quoted::Quoted;
pub use task::Task;
pub use words_error::{WordsError, error_of};
