//! An editor's seat: the lines with which an information provider makes frames and asks for edits.
//!
//! An editor types lines. He logs on, makes a frame line by line in his seat, and asks the Update
//! Centre to store it under his next number. The seat answers most lines itself.
//!
//! - [`EditLine`] is what a line says: the word and its parts, read.
//! - [`EditorSeat`] is where the lines arrive. [`EditorSeat::line`] returns the [`EditStep`] of
//!   each.
//! - [`Text`] is a reply. [`reply_text`] is what the Update Centre's verdict reads, and
//!   [`responses_text`] what was keyed into a response frame.
//!
//! No call allocates. A caller hands in a line and does the step.
//!
//! ```text
//! match seat.line(b"STORE 7", &base) {
//!     EditStep::Say(text) => show(text.bytes()),
//!     EditStep::Ask { editor, q, wish } => show(judge(editor, q, wish)),
//!     EditStep::Responses { editor, from } => show(responses_text(find(editor, from)).bytes()),
//!     EditStep::Close => show(closing_text().bytes()),
//! }
//! ```
//!
//! Contracts see a text as the list of its bytes. `Says` of `specs/Say.antt` is a whole turn: the line
//! that is read, the first refusal that applies, and otherwise the seat after and the step.
#![tactic(auto)]

mod cells;
mod change;
mod digit;
mod groups;
mod line;
mod numbers;
mod parts;
mod reading;
mod replies;
mod responses;
mod row;
mod seat;
mod step;
mod text;
mod word;

pub use change::{FrameChange, has_all_fields, make_change};
pub use digit::RouteDigit;
pub use line::EditLine;
pub use parts::{AccountText, NameText, PasswordText};
pub use reading::{LONGEST_LINE, line_of};
pub use replies::{UdcReplyView, closing_text, reply_text};
pub use responses::responses_text;
pub use row::BodyRow;
pub use seat::{EditorSeat, Working};
pub use step::EditStep;
pub use text::{ROOM, Text};
pub use word::{ChangeWord, Word};
