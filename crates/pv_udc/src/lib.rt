//! The Update Centre's rules: what it keeps, and how it judges what editors and centres ask.
//!
//! - A [`UdcRequest`] is an editor's wish under his own number, or an item of a centre.
//! - [`UdcState`] is what the Update Centre knows: its edit list, and all that follows from it.
//! - [`UdcState::decide`] judges a request. It answers at once, or gives the record that is to be stored
//!   and the reply for then. [`UdcState::absorb`] takes a stored record in.
//! - A [`Refusal`] says why an edit is not stored. Its [`Code`] is what goes to the editor: a number,
//!   and the number that its text shows.
//! - [`down`] is what a centre gets of a record.
//! - [`UdcState::bill`] is how many charge lines came up for an account, and the sum of their prices. Its
//!   lines are found one after the other, from the last one: [`UdcState::last_charge`] and
//!   [`UdcState::charge_before`].
//!
//! An editor numbers his edits 1, 2, 3 and on. A request under his last number is the same edit again,
//! whatever it asks: its reply is [`UdcReply::Again`] with the place that is kept, and nothing is stored.
//!
//! ```text
//! let mut state = UdcState::open(alloc, limits)?;
//! match state.decide(&UdcRequest::Edit { editor, q: 1, wish }) {
//!     Decision::Store(record, reply) => { state.absorb(&record, state.front()); reply }
//!     Decision::Answer(reply) => reply,
//! }
//! ```
//!
//! Contracts see a state as its edit list and its limits (`specs/EditList.antt`). How a request is judged
//! is one definition over these, `judge` of `specs/Judgement.antt`: the first answer that applies, or the
//! record. The calls have the contracts that a node's rules have. Only `open` and `copy` take memory.
#![tactic(auto)]

mod billing;
mod charges;
mod judging;
mod law;
mod refusal;
mod replies;
mod reply;
mod request;
mod rules;
mod sending;
mod state;

pub use law::{
    edits_are_numbered_from_one, repeat_is_the_same_edit, spelling_is_a_body,
    stored_record_has_room,
};
pub use refusal::Refusal;
pub use reply::{Code, UdcReply};
pub use request::UdcRequest;
pub use rules::UdcRules;
pub use sending::down;
pub use state::UdcState;
