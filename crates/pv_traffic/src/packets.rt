ghost use Rattle.std.specs.Prelude.{◌≡◌, ◌+◌, ◌<◌, ◌≤◌, ◌++◌, ◌∷◌, [], length, take, slice_get, vec_capacity, IfOk};
ghost use Rattle.pv_packet.specs.Packet.{IsPacket, packet_bytes};
ghost use Rattle.pv_packet.specs.declared.head.TheConstants.{PACKET_BYTES};
ghost use Rattle.pv_traffic.specs.declared.packets.TheConstants.{MAX_PACKETS};

use pv_fields::Out;
use pv_packet::{PACKET_BYTES, Packet, a_packet_is_read_as_it_is_spelled};
use std::alloc::{AllocError, Global};
use std::marker::Model;

/// How many packets a network may make, in both directions and at all centres.
pub const MAX_PACKETS: usize = 20_000;

/// Where the bytes of a packet are.
#[derive(Clone, Copy, Debug, PartialEq, Eq)]
pub struct Span {
    pub start: u32,
    pub end: u32,
}

/// All packets that were made, in the order made and each in the bytes of its spelling. `open` reserves all room.
#[derive(Debug, Drop)]
pub struct Packets {
    bytes: Vec<u8>,
    spans: Vec<Span>,
}

impl Model for Packets {
    ghost use Rattle.std.specs.Prelude.{◌≤◌, ◌*◌, List, vec_capacity};
    ghost use Rattle.pv_packet.specs.declared.head.TheConstants.{PACKET_BYTES};
    ghost use Rattle.pv_packet.specs.declared.packet.Packet.{Packet};
    ghost use Rattle.pv_traffic.specs.declared.packets.TheConstants.{MAX_PACKETS};
    ghost use Rattle.pv_traffic.specs.Packets as Spec;

    ghost Value = { List Packet };

    ghost view = { λ p. Spec.packets_of p.bytes.items p.spans.items };

    ghost invariant = { λ p. Spec.AreSpelled p.bytes.items p.spans.items
        × (MAX_PACKETS * PACKET_BYTES ≤ vec_capacity p.bytes) × (MAX_PACKETS ≤ vec_capacity p.spans) };
}

impl Packets {
    /// No packet.
    pub(crate) fn open(alloc: Global) -> Result<Packets, AllocError>
        ensures { IfOk result (λ packets. packets ≡ []) }
    {
        Ok(Packets {
            bytes: Vec::with_capacity(alloc, MAX_PACKETS * PACKET_BYTES)?,
            spans: Vec::with_capacity(alloc, MAX_PACKETS)?,
        })
    }

    /// How many there are.
    pub(crate) fn len(&self) -> usize
        ensures { result ≡ length self.now }
    {
        self.spans.len()
    }

    /// The packet at a place, decoded from its bytes.
    #[inline(always)]
    pub(crate) fn get(&self, place: usize) -> Option<Packet>
        ensures { result ≡ slice_get self.now place }
    {
        a_packet_is_read_as_it_is_spelled();
        let span = self.spans.get(place)?;
        match Packet::decode(&self.bytes[span.start as usize..span.end as usize]) {
            Ok(packet) => Some(packet),
            Err(_) => None,
        }
    }

    /// Adds a packet after the others.
    pub(crate) fn push(&mut self, packet: &Packet)
        requires room { length self.old < MAX_PACKETS }
        requires within { IsPacket packet.now }
        ensures { self.new ≡ self.old ++ packet.now ∷ [] }
    {
        a_packet_is_read_as_it_is_spelled();
        let mut buffer = [0; PACKET_BYTES];
        let size = spell(packet, &mut buffer);
        let start = self.bytes.len() as u32;
        append(&mut self.bytes, &buffer[..size]);
        self.spans.push_reserved(Span {
            start,
            end: start + size as u32,
        });
    }
}

/// Appends bytes for which there is room.
fn append(bytes: &mut Vec<u8>, more: &[u8])
    requires { length bytes.old.items + length more.now ≤ vec_capacity bytes.old }
    ensures items { bytes.new.items ≡ bytes.old.items ++ more.now }
    ensures capacity { vec_capacity bytes.old ≤ vec_capacity bytes.new }
{
    // It cannot fail, since it takes no memory.
    let _ = bytes.extend_from_slice(more);
}

/// Puts the spelling of a packet at the beginning, and returns how many bytes it has.
fn spell(packet: &Packet, into: &mut [u8; PACKET_BYTES]) -> usize
    requires { IsPacket packet.now }
    ensures within { result ≤ PACKET_BYTES }
    ensures size { result ≡ length (packet_bytes packet.now) }
    ensures spelled { take result into.new ≡ packet_bytes packet.now }
{
    a_packet_is_read_as_it_is_spelled();
    let mut out = Out::new(into);
    // A spelling has at most as many bytes as there is room, so it is never refused.
    let _ = packet.encode(&mut out);
    out.written()
}
