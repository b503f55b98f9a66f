//! All nodes of the viewdata network as one machine that goes by events.
//!
//! A [`Network`] has one Update Centre, which keeps the list of all edits, and one to four retrieval
//! centres, each of which has applied a prefix of that list. Editors type lines at four ports, and
//! what they ask for is judged and stored by the rules of `pv_udc`. Callers dial at the 16 ports of a
//! centre, and `pv_session` has their seats. Their charges, filled forms and letters are items of their
//! centre, and a letter waits at the home of its account. An [`Event`] happens to the network, one at
//! a time, and an [`Outcome`] says what came of it.
//!
//! The Update Centre and each centre are nodes of `pv_nodes`: what a node stores is on its disk before it replies.
//! Records go down to a centre, and its items go up to the Update Centre, each in a packet on the links of
//! `pv_traffic`. The packets of a centre are numbered from 0 each way, in the order in which they were made; any of
//! them may arrive at any time, never, or again. Each is kept in bytes, as `pv_packet` spells it, and decoded when it
//! arrives. A node may crash, also within the write of a record: it is opened again from its disk, and knows what it
//! had stored.
//!
//! ```text
//! let mut network = Network::open(alloc, 1, limits)?;
//! network.step(&Event::Seed { name, row })?;           // OK 0
//! network.step(&Event::Send { centre: 0 })?;           // sent 0 record 0
//! network.step(&Event::Deliver { centre: 0, index: 0 })?;   // taken 0 ack 0
//! network.step(&Event::View { centre: 0, name })?;     // the screen of that frame
//! ```
//!
//! What an event does is defined in `specs/Step.antt`, over the worlds of `specs/World.antt`. Which worlds
//! a network stands for is defined in `specs/Standing.antt`, part by part, and [`Network::step`] keeps it
//! so. What holds of every world that can be reached is the law [`every_reachable_world_is_sound`].
#![tactic(auto)]

mod arrival;
mod bills;
mod call;
mod calls;
mod centre;
mod event;
mod laws;
mod lines;
mod load;
mod moment;
mod network;
mod outcome;
mod round;
mod storing;
mod turns;
mod verdict;

pub use event::{EDITORS, Event, NodeName, PORTS};
pub use laws::{
    a_carried_centre_has_every_record, a_carry_has_rounds_enough,
    a_line_in_hand_is_for_the_frame_shown_next, caller_is_shown_the_steps_of_his_seat,
    every_reachable_world_is_sound,
};
pub use lines::BillLines;
pub use network::Network;
pub use outcome::{BillLine, Outcome, Turn};
pub use pv_editor::Text;
pub use pv_session::Why;
pub use storing::Storing;
pub use turns::Turns;
