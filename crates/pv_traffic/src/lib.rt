//! The links between the Update Centre and the retrieval centres: the packets that were made on them, and the ends that send.
//!
//! - [`Way`] is one of the two ways on a link: records go down, items go up.
//! - [`Links`] are the links of all centres. A packet is sent under the number that the end of its way gives, and what
//!   arrived is acknowledged by a packet on the way back.
//!
//! Each packet that was made stays, and is read by its index, of those that went its way: it may arrive at any time, never,
//! or again. It is kept in the bytes that `pv_packet` spells, and decoded when it is read. `open` reserves room for
//! [`MAX_PACKETS`], and no other call allocates.
//!
//! ```text
//! let mut links = Links::open(alloc, 1)?;
//! let index = links.send(Way::Down, 0, records, &packet); // under the next number, of `records` to go there
//! links.packet(Way::Down, 0, index);                      // the same packet
//! links.acknowledge(Way::Down, 0, count);                 // a packet that goes up
//! links.hear(Way::Down, 0, records, count);               // and the end of the way down hears it
//! ```
//!
//! Contracts see the list of links, as `specs/Link.antt` defines them; `specs/Packets.antt` has the bytes.
#![tactic(auto)]

mod link;
mod links;
mod packets;
mod way;

pub use links::Links;
pub use packets::MAX_PACKETS;
pub use way::Way;
