//! The lines of a text, the words of a line, and the decimal numbers among them.
//!
//! A line is a first word and its tail: nothing, or a space and all that follows it. The tail has parts: words, and
//! all that follows the space after the last of them. A [`Reader`] says what one part stands for, as [`Number`] and
//! [`Below`] do. [`none_as`], [`one_as`], [`two_as`] and [`three_as`] read the whole tail, and make a value of it.
//!
//! ```text
//! let (word, tail) = split_word(b"deliver 0 17");              // `deliver` and ` 0 17`
//! let made = two_as(&Below(1), &Number, tail, |(centre, index)| Event::Deliver { centre, index });
//! ```
#![tactic(auto)]

mod lines;
mod number;
mod part;
mod parts;
mod split;

pub use lines::{first_line, split_at};
pub use number::{Below, Number, number_of};
pub use part::{AllOf, Part};
pub use parts::{Reader, none_as, one, one_as, three, three_as, two, two_as};
pub use split::{next_word, split_word};
