//! A caller's seat: the keys that a caller sends, and the screens that he is sent.
//!
//! A caller keys his account number and his password. Then he asks for pages. A page with a price
//! is shown once its charge is stored. He fills in response frames and letters, and sends them. The
//! letters that wait for him are shown one by one, and he deletes them.
//!
//! - [`Seat`] is where the keys arrive. [`Seat::dial`] begins a call, and [`Seat::key`] returns the
//!   [`Step`] of a byte.
//! - [`Wish`] is what a seat asks its centre to store. [`Seat::paid`] goes on once it is stored,
//!   and [`Seat::turned_away`] ends the call if the centre is full.
//! - [`Message`] is what row 24 says.
//!
//! No call allocates, and every byte is accepted. A port hands in a byte with the sight of
//! [`Seat::account`] and the moment, and does the step:
//!
//! ```text
//! match seat.key(byte, &Sight::new(&base, &boxes, centre, seat.account()), moment) {
//!     Step::Quiet => {}
//!     Step::Show(screen) => send(&screen),
//!     Step::Owe(wish) => store(wish),
//!     Step::Ended(why, screen) => end(why, &screen),
//! }
//! ```
//!
//! Contracts see a seat by `state_of` of `specs/Seat.antt`. `IsTurn` of `specs/Turns.antt` is a
//! whole turn: the entry that all keys since the last one make, and what the seat does with it.
#![tactic(auto)]

mod digits;
mod earlier;
mod entry;
mod field;
mod gathered;
mod law;
mod letters;
mod message;
mod names;
mod password;
mod present;
mod reading;
mod seat;
mod step;

pub use entry::Entry;
pub use law::{
    a_call_owes_what_is_its_own, a_caller_stays_who_he_is, byte_without_entry_reads_no_sight,
    keys_are_kept_until_they_make_an_entry, moments_and_serials_change_no_screen,
    screens_are_a_function, sights_count_at_entries,
};
pub use message::Message;
pub use seat::{MAX_BYTES, MAX_ENTRIES, Seat, TRIES};
pub use step::{Paid, Phase, Step, Why, Wish};
