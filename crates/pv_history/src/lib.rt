//! One history that grows, and prefixes of it that were seen.
//!
//! A history is a list of entries that exists in proofs alone: at run time a [`Prefix`] of it is a count.
//! Whoever holds the [`Appender`] alone adds entries. It has a right for each, made as the history is named.
//! A prefix may be copied and handed to other threads. All prefixes of a history are prefixes of one list, so
//! of two of them the one with the smaller count is a prefix of the other. No call waits.
//!
//! ```text
//! let (mut appender, mut whole) = NewHistory::new().named::<N>(alloc, 1)?;
//! let mut old = whole.copy();
//! whole.append(&mut appender, &entry);     // whole ≡ old ++ entry ∷ []
//! old.is_prefix_of(&whole);                // true, and a proof knows what it means
//! old.catch_up(&mut appender, &whole);     // old ≡ whole
//! ```
//!
//! Which history it is, is said by the type parameter `N`: [`HistoryName`]. A caller makes a
//! [`NewHistory`], and calls a function that is generic in `N`, which is then this history's name.
#![tactic(auto)]

mod history;
mod name;
mod prefix;
mod rule;

pub use history::{Appender, NewHistory};
pub use name::HistoryName;
pub use prefix::Prefix;
