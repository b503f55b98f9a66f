//! Packets: what goes down to a centre and up from it, with its number, and the acknowledgements of both.
//!
//! - [`Packet`] is one of four. It has one spelling in bytes.
//! - [`PacketError`] says why bytes are no packet.
//!
//! No call allocates. A carrier writes a packet into a buffer, and the other side reads it:
//!
//! ```text
//! let packet = Packet::Up { centre: 2, number: 7, item };
//! let mut out = Out::new(&mut bytes);
//! packet.encode(&mut out)?;
//! let size = out.written();
//!
//! Packet::decode(&bytes[..size])?; // the same packet
//! ```
//!
//! Contracts see a packet as its parts. `specs/Packet.antt` has its spelling, and which error is reported
//! of bytes that spell none; `specs/Reading.antt`, which packet they spell.
#![tactic(auto)]

mod error;
mod head;
mod law;
mod packet;

pub use error::PacketError;
pub use head::{HEAD_BYTES, LAST_KIND, PACKET_BYTES};
pub use law::{a_packet_is_read_as_it_is_spelled, no_packet_begins_another};
pub use packet::Packet;
