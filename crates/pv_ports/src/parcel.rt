ghost use Rattle.std.specs.Prelude.{◌≡◌, ◌≤◌, Some, None, take, length};
ghost use Rattle.pv_edits.specs.Taken.{IsCentre};
ghost use Rattle.pv_link.specs.Sending.{new_end, number_to_give, end_after};
ghost use Rattle.pv_outside.specs.declared.link.TheConstants.{MAX_PACKET};
ghost use Rattle.pv_packet.specs.Packet.{IsPacket, packet_bytes, centre_of};
ghost use Rattle.pv_ports.specs.Parcels.{BeginsWithPacket, down_packet, up_packet};

use pv_fields::Out;
use pv_irc::IrcState;
use pv_link::{DownEnd, UpEnd};
use pv_live::Viewer;
use pv_outside::MAX_PACKET;
use pv_packet::{Packet, a_packet_is_read_as_it_is_spelled};
use pv_udc::{UdcState, down};

/// What goes down next. It is a viewer of the Update Centre: it asks the sending end for the number, and spells the
/// packet of that record into its own bytes.
#[derive(Drop)]
pub(crate) struct DownParcel<const C: u8> {
    pub(crate) end: DownEnd,
    /// How many records the last look has seen.
    pub(crate) count: u64,
    /// How many bytes the packet has. `None`: there is no packet.
    pub(crate) size: Option<usize>,
    pub(crate) bytes: [u8; MAX_PACKET],
    ghost centre: { IsCentre C },
}

impl<const C: u8> DownParcel<C> {
    /// Nothing goes down yet.
    pub(crate) fn new() -> DownParcel<C>
        requires { IsCentre C }
        ensures { result.end ≡ new_end }
    {
        DownParcel {
            end: DownEnd::new(),
            count: 0,
            size: None,
            bytes: [0; MAX_PACKET],
        }
    }
}

impl<const C: u8> Viewer<UdcState> for DownParcel<C> {
    ghost use Rattle.std.specs.Prelude.{◌≡◌, length};
    ghost use Rattle.pv_link.specs.Sending.{number_to_give, end_after};
    ghost use Rattle.pv_ports.specs.Parcels.{BeginsWithPacket, down_packet};

    ghost may_become = { λ old state new. (new.count ≡ length state.records)
        × (new.end ≡ end_after old.end new.count)
        × BeginsWithPacket new.bytes new.size (down_packet C state.records (number_to_give old.end
        new.count)) };

    fn view(&mut self, state: &UdcState) {
        self.count = state.front();
        self.size = match self.end.next(self.count) {
            Some(number) => spell_record::<C>(state, number, &mut self.bytes),
            None => None,
        };
    }
}

/// What goes up next. It is a viewer of the centre: it asks the sending end for the number, and spells the packet of
/// that item into its own bytes.
#[derive(Drop)]
pub(crate) struct UpParcel<const C: u8> {
    pub(crate) end: UpEnd,
    /// How many items the last look has seen.
    pub(crate) count: u64,
    /// How many bytes the packet has. `None`: there is no packet.
    pub(crate) size: Option<usize>,
    pub(crate) bytes: [u8; MAX_PACKET],
    ghost centre: { IsCentre C },
}

impl<const C: u8> UpParcel<C> {
    /// Nothing goes up yet.
    pub(crate) fn new() -> UpParcel<C>
        requires { IsCentre C }
        ensures { result.end ≡ new_end }
    {
        UpParcel {
            end: UpEnd::new(),
            count: 0,
            size: None,
            bytes: [0; MAX_PACKET],
        }
    }
}

impl<const C: u8> Viewer<IrcState> for UpParcel<C> {
    ghost use Rattle.std.specs.Prelude.{◌≡◌, length};
    ghost use Rattle.pv_link.specs.Sending.{number_to_give, end_after};
    ghost use Rattle.pv_ports.specs.Parcels.{BeginsWithPacket, up_packet};

    ghost may_become = { λ old state new. (new.count ≡ length state.items)
        × (new.end ≡ end_after old.end new.count)
        × BeginsWithPacket new.bytes new.size (up_packet C state.items (number_to_give old.end new.count)) };

    fn view(&mut self, state: &IrcState) {
        self.count = state.items();
        self.size = match self.end.next(self.count) {
            Some(number) => spell_item::<C>(state, number, &mut self.bytes),
            None => None,
        };
    }
}

/// Spells the packet of the record of a number. `None`: no record has it.
fn spell_record<const C: u8>(
    state: &UdcState,
    number: u64,
    into: &mut [u8; MAX_PACKET],
) -> Option<usize>
    requires { IsCentre C }
    ensures { BeginsWithPacket into.new result (down_packet C state.now.records (Some number)) }
{
    let rec = state.rec_at(number)?;
    let packet = Packet::Down {
        centre: C,
        number,
        rec: down(rec),
    };
    Some(spell(&packet, into))
}

/// Spells the packet of the item of a number. `None`: no item has it.
fn spell_item<const C: u8>(
    state: &IrcState,
    number: u64,
    into: &mut [u8; MAX_PACKET],
) -> Option<usize>
    requires { IsCentre C }
    ensures { BeginsWithPacket into.new result (up_packet C state.now.items (Some number)) }
{
    let item = state.item_at(number)?;
    let packet = Packet::Up {
        centre: C,
        number,
        item: *item,
    };
    Some(spell(&packet, into))
}

/// Puts the spelling of a packet at the beginning, and returns how many bytes it has.
pub(crate) fn spell(packet: &Packet, into: &mut [u8; MAX_PACKET]) -> usize
    requires { IsCentre (centre_of packet.now) }
    ensures { BeginsWithPacket into.new (Some result) (Some packet.now) }
{
    packet.within();
    a_packet_is_read_as_it_is_spelled();
    let mut out = Out::new(into);
    // A spelling has at most as many bytes as there is room, so it is never refused.
    let _ = packet.encode(&mut out);
    out.written()
}
