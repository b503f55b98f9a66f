//! The script of a play, its transcript, and the play that makes the one of the other.
//!
//! A script is a text of lines. [`parse`] reads a line as a [`Command`]: nothing, limits for the play, or an event of
//! the network. [`play`] takes the words of the command line, a source and a sink: it reads a whole script, lets its
//! events happen to a new network, and writes an answer to each. Sources and sinks are handed in, so that nothing
//! here touches the outside.
//!
//! ```text
//! seed 1a HELLO      ->  OK 0
//! send 0             ->  sent 0 record 0
//! deliver 0 0        ->  taken 0 ack 0
//! view 0 1a          ->  screen \0c ..
//! ```
//!
//! [`generate`] writes the script that is made by rule for a number, and [`evening`] plays it and
//! writes one line of what came of it: the records of the Update Centre, the screens, the charge
//! lines and the sum of the bill.
//!
//! The lines are defined in `specs/Grammar.antt`, a row for each, the answers in `specs/Transcript.antt`, how a play
//! may end in `specs/Play.antt`, and an evening in `specs/Evening.antt`.
#![tactic(auto)]

mod answer;
mod asking;
mod ends;
mod evenings;
mod generating;
mod grammar;
mod playing;
mod readers;
mod storing;
mod tally;
mod word;

pub use evenings::evening;
pub use generating::generate;
pub use grammar::{Command, parse};
pub use playing::{FRAMES, Played, RECORDS, play};
