//! The two sending ends of a link, by numbers alone.
//!
//! Records go down to a centre and items go up from it, each in a packet with its number. A packet may be
//! lost, so an end goes through the numbers that are not acknowledged, and then begins again.
//!
//! - [`DownEnd`] is the Update Centre's end for one centre: which record goes next.
//! - [`UpEnd`] is a centre's end: which item goes next.
//!
//! Both have the same calls, and no call allocates. A call is given how many records or items there are:
//!
//! ```text
//! let mut end = DownEnd::new();
//! end.next(2);            // Some(0)
//! end.next(2);            // Some(1)
//! end.next(2);            // Some(0): nothing is acknowledged yet
//! end.acknowledged(2, 2); // all numbers below 2 are
//! end.next(2);            // None
//! ```
//!
//! Contracts see an end as the number below which all is acknowledged, and the one that it gives next
//! (`SendingEnd` of `specs/Sending.antt`).
#![tactic(auto)]

mod down;
mod law;
mod sending;
mod up;

pub use down::DownEnd;
pub use law::each_number_comes_round;
pub use up::UpEnd;
