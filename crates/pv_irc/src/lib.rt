//! A centre's rules: what it keeps, and how it judges what comes down, what callers post, log-ons, and
//! removals of letters.
//!
//! - An [`IrcRequest`] is a record of the edit list that came down, a log-on, an item to be kept, or a
//!   letter to be removed.
//! - A [`CentreRecord`] is what the centre stores of it. It has one spelling in bytes.
//! - [`IrcState`] is what the centre knows: the base of the records that it has applied, its items, the
//!   letters that wait, and its counts. [`IrcState::decide`] judges a request, [`IrcState::absorb`] takes a stored record in.
//! - [`IrcRules`] are the rules of the centre of a number, for a node.
//!
//! A centre applies the edit list in order, so the records that it has applied are a prefix of that list.
//! Its items and its log-ons are numbered from 0, in the order in which they were stored.
//!
//! A mail that comes down puts a letter into the box of its account, if the centre is his home by the
//! records before it. It has the number of its place in the edit list. The twenty-first is dropped.
//!
//! ```text
//! let mut node = Node::<IrcRules<2>, _>::open(alloc, disk, limits)?;
//! node.ask(&IrcRequest::Apply { n: 0, rec })?.reply;      // Applied
//! node.ask(&IrcRequest::Apply { n: 0, rec })?.reply;      // Old(1): one was applied
//! node.ask(&IrcRequest::LogOn { account })?.reply;        // Serial(0)
//! node.state().sight(Some(account));                      // what the caller may see here
//! ```
//!
//! What a list of the centre's records means is defined in `specs/History.antt`, how a request is
//! judged in `specs/Deciding.antt`. Only `open` and `copy` take memory.
#![tactic(auto)]

mod delivery;
mod law;
mod record;
mod reply;
mod request;
mod rules;
mod state;

pub use law::{
    centre_records_are_numbered, letters_wait_by_places, no_centre_record_begins_another,
};
pub use record::CentreRecord;
pub use reply::IrcReply;
pub use request::IrcRequest;
pub use rules::IrcRules;
pub use state::IrcState;
