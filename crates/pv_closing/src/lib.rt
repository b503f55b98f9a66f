//! What is done with nodes once their threads have ended: each is brought what it lacks of another.
//!
//! - [`take_items`] has the Update Centre take up the items of a centre that it has not taken, in order.
//! - [`apply_records`] has a centre apply the records of the edit list that it has not applied, in order.
//! - A [`RestEnd`] says how far that went: everything is brought, the node is full, the next record has no room, or
//!   a call of the disk failed.
//!
//! ```text
//! for each centre: take_items(&mut udc, &centre);        // first all that goes up
//! for each centre: apply_records(&udc, &mut centre);     // then all that goes down
//! ```
//!
//! What a node lacks is defined in `specs/Lacking.antt`, how far it is brought and what a crash leaves of it in
//! `specs/Bringing.antt`. A node that has a record in hand, since a call of its disk failed, settles it first.
#![tactic(auto)]

mod items;
mod law;
mod records;
mod rest_end;
#[cfg(test)]
mod tests;

pub use items::take_items;
pub use law::{
    everything_lacked_makes_the_counts_equal, what_is_lacked_is_items_and_records,
    what_is_lacked_is_to_be_stored,
};
pub use records::apply_records;
pub use rest_end::RestEnd;
