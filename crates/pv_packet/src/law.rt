//! Laws of packets, each the clause of a function that does nothing.

ghost use Rattle.std.specs.Prelude.{◌≡◌, ◌≤◌, length, Some};
ghost use Rattle.pv_fields.specs.Reading.{ReadsBack};
ghost use Rattle.pv_packet.specs.Packet.{IsPacket, packet_bytes};
ghost use Rattle.pv_packet.specs.Reading.{packet_of_bytes};
ghost use Rattle.pv_packet.specs.declared.head.TheConstants.{PACKET_BYTES};
ghost use Rattle.pv_packet.specs.declared.packet.Packet.{Packet};

use pv_edits::no_down_record_begins_another;
use pv_post::no_item_begins_another;

/// A law: no spelling of a packet is a prefix of another's, so bytes spell at most one packet.
pub fn no_packet_begins_another()
    ensures { ReadsBack IsPacket packet_bytes }
{
    no_down_record_begins_another();
    no_item_begins_another();
}

/// A law: the spelling of a packet is read as that packet, and has at most [`PACKET_BYTES`](crate::PACKET_BYTES) bytes.
pub fn a_packet_is_read_as_it_is_spelled()
    ensures read { (packet : Packet) → IsPacket packet → packet_of_bytes (packet_bytes packet) ≡ Some packet }
    ensures size { (packet : Packet) → IsPacket packet → length (packet_bytes packet) ≤ PACKET_BYTES }
{}
