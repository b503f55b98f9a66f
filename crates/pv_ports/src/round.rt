ghost use Rattle.std.specs.Prelude.{◌≡◌, ◌+◌, ◌<◌, ◌≤◌, Option, Some, IfSome, option_map, false};
ghost use Rattle.pv_edits.specs.Taken.{IsCentre};
ghost use Rattle.pv_live.specs.Entries.{with_opening};
ghost use Rattle.pv_live.specs.Run.{IsStateOf};
ghost use Rattle.pv_outside.specs.declared.link.TheConstants.{MAX_PACKET};
ghost use Rattle.pv_packet.specs.Packet.{IsPacket, centre_of};
ghost use Rattle.pv_packet.specs.declared.packet.Packet.{Packet};
ghost use Rattle.pv_packet.specs.declared.packet.Packet.TheVariants.{Down, Up, DownHeard, UpHeard};
ghost use Rattle.pv_ports.specs.Parcels.{BeginsWithPacket};
ghost use Rattle.pv_ports.specs.Talk.{PassLooks};
ghost use Rattle.pv_ports.specs.Round.{LooksDown, LooksUp, GivesTo, IsReadAs, HandlesDown, HandlesUp, ReceivesDown, ReceivesUp, UpToTwo, Receives, CarriesUp, Carries, round_at, round_stop, came_in, stop_in, applied_by, taken_by, ask_stop};

use crate::parcel::{DownParcel, UpParcel, spell};
use crate::round_end::RoundEnd;
use crate::trip::Trip;
use pv_edits::{DownRecord, Record};
use pv_group::{GroupRun, Live};
use pv_irc::{CentreRecord, IrcReply, IrcRequest, IrcRules};
use pv_live::{LiveFault, Pass, Run, Viewer};
use pv_node::Rules;
use pv_outside::{Disk, Failed, Link, MAX_PACKET};
use pv_packet::{Packet, a_packet_is_read_as_it_is_spelled};
use pv_post::Item;
use pv_udc::{UdcReply, UdcRequest, UdcRules};
use std::sync::Wait;

/// What a carrier has in hand: the two passes, what goes next on each way, the trip, and a buffer for all other packets.
#[derive(Drop)]
pub(crate) struct Hand<const C: u8, U: Run<Record>, N: Run<CentreRecord>> {
    pub(crate) udc: Pass<UdcRules, U>,
    pub(crate) centre: Pass<IrcRules<C>, N>,
    pub(crate) down: DownParcel<C>,
    pub(crate) up: UpParcel<C>,
    pub(crate) trip: Trip,
    pub(crate) bytes: [u8; MAX_PACKET],
}

impl<const C: u8, U: Run<Record>, N: Run<CentreRecord>> Hand<C, U, N> {
    /// Looks at the Update Centre, for what goes down next.
    pub(crate) fn look_down<W: Wait>(&mut self, rt: &W)
        ensures looks { (going : Option Packet) × LooksDown ⟦<UdcRules as Rules>⟧ U.limits U.opening C
            self.old.udc
            self.old.trip.sending self.new.udc self.new.trip.sending self.new.trip.record_count going
            × BeginsWithPacket self.new.down.bytes self.new.down.size going }
        ensures fits { IfSome self.new.down.size (λ n. n ≤ MAX_PACKET) }
        ensures same { (self.new.centre ≡ self.old.centre) × (self.new.trip ≡ record self.old.trip {
          sending = self.new.trip.sending;
          record_count = self.new.trip.record_count;
        }) }
    {
        self.down.end = self.trip.sending;
        see(rt, &mut self.udc, &mut self.down);
        self.trip.sending = self.down.end;
        self.trip.record_count = self.down.count;
    }

    /// Looks at the centre, for what goes up next.
    pub(crate) fn look_up<W: Wait>(&mut self, rt: &W)
        ensures looks { (going : Option Packet) × LooksUp ⟦<IrcRules<C> as Rules>⟧ N.limits N.opening C
            self.old.centre
            self.old.trip.posting self.new.centre self.new.trip.posting self.new.trip.item_count going
            × BeginsWithPacket self.new.up.bytes self.new.up.size going }
        ensures fits { IfSome self.new.up.size (λ n. n ≤ MAX_PACKET) }
        ensures same { (self.new.udc ≡ self.old.udc) × (self.new.down ≡ self.old.down) × (self.new.trip ≡
            record self.old.trip {
              posting = self.new.trip.posting;
              item_count = self.new.trip.item_count;
            }) }
    {
        self.up.end = self.trip.posting;
        see(rt, &mut self.centre, &mut self.up);
        self.trip.posting = self.up.end;
        self.trip.item_count = self.up.count;
    }
}

impl<const C: u8, U: GroupRun<Record>, N: GroupRun<CentreRecord>> Hand<C, U, N> {
    /// Has a record applied, and acknowledges it.
    fn apply<D: Disk, H: Wait + Drop, L: Link, W: Wait>(
        &mut self,
        rt: &W,
        centre: &Live<IrcRules<C>, D, N, H>,
        up: &mut L,
        n: u64,
        rec: &DownRecord,
    ) -> Option<RoundEnd<D>>
        requires centre { IsCentre C }
        requires few { self.old.trip.applied < 2 }
        ensures handles { (down : L) → HandlesDown ⟦<IrcRules<C> as Rules>⟧ ⟦<L as Link>⟧ N.limits N.opening C
            (Some (Down C n rec.now)) (round_at self.old.udc self.old.centre self.old.trip down up.old)
            (round_at self.new.udc self.new.centre self.new.trip down up.new) (option_map round_stop result) }
        ensures few { self.new.trip.applied ≤ self.old.trip.applied + 1 }
        ensures other { self.new.trip.taken_up ≡ self.old.trip.taken_up }
    {
        rec.within();
        match centre.ask(rt, &mut self.centre, &IrcRequest::Apply { n, rec: *rec }) {
            Ok(told) => {
                self.trip.count_record(&told.reply);
                let heard = records_heard::<C>(n, &told.reply);
                acknowledge(up, &mut self.trip, &mut self.bytes, heard)
            }
            Err(fault) => Some(ask_stop(C + 1, fault)),
        }
    }

    /// Has an item taken up, and acknowledges it.
    fn take_up<D: Disk, H: Wait + Drop, L: Link, W: Wait>(
        &mut self,
        rt: &W,
        udc: &Live<UdcRules, D, U, H>,
        down: &mut L,
        k: u64,
        item: &Item,
    ) -> Option<RoundEnd<D>>
        requires centre { IsCentre C }
        requires few { self.old.trip.taken_up < 2 }
        ensures handles { (up : L) → HandlesUp ⟦<UdcRules as Rules>⟧ ⟦<L as Link>⟧ U.limits U.opening C
            (Some (Up C k item.now)) (round_at self.old.udc self.old.centre self.old.trip down.old up)
            (round_at self.new.udc self.new.centre self.new.trip down.new up) (option_map round_stop result) }
        ensures few { self.new.trip.taken_up ≤ self.old.trip.taken_up + 1 }
        ensures other { self.new.trip.applied ≡ self.old.trip.applied }
    {
        item.within();
        let request = UdcRequest::TakeUp {
            centre: C,
            k,
            item: *item,
        };
        match udc.ask(rt, &mut self.udc, &request) {
            Ok(told) => {
                self.trip.count_item(&told.reply);
                let heard = items_heard::<C>(k, &told.reply);
                acknowledge(down, &mut self.trip, &mut self.bytes, heard)
            }
            Err(fault) => Some(ask_stop(0, fault)),
        }
    }

    /// Handles a packet of the centre that came down: has a record applied, or hears an acknowledgement.
    fn handle_down<D: Disk, H: Wait + Drop, L: Link, W: Wait>(
        &mut self,
        rt: &W,
        centre: &Live<IrcRules<C>, D, N, H>,
        up: &mut L,
        packet: &Packet,
    ) -> Option<RoundEnd<D>>
        requires packet { IsPacket packet.now × (centre_of packet.now ≡ C) }
        requires few { self.old.trip.applied < 2 }
        ensures handles { (down : L) → HandlesDown ⟦<IrcRules<C> as Rules>⟧ ⟦<L as Link>⟧ N.limits N.opening C
            (Some packet.now) (round_at self.old.udc self.old.centre self.old.trip down up.old)
            (round_at self.new.udc self.new.centre self.new.trip down up.new) (option_map round_stop result) }
        ensures few { self.new.trip.applied ≤ self.old.trip.applied + 1 }
        ensures other { self.new.trip.taken_up ≡ self.old.trip.taken_up }
    {
        match packet {
            Packet::Down { number, rec, .. } => self.apply(rt, centre, up, *number, rec),
            Packet::UpHeard { number, .. } => {
                let count = self.trip.item_count;
                self.trip.posting.acknowledged(*number, count);
                None
            }
            Packet::Up { .. } | Packet::DownHeard { .. } => None,
        }
    }

    /// Handles a packet of the centre that came up: has an item taken up, or hears an acknowledgement.
    fn handle_up<D: Disk, H: Wait + Drop, L: Link, W: Wait>(
        &mut self,
        rt: &W,
        udc: &Live<UdcRules, D, U, H>,
        down: &mut L,
        packet: &Packet,
    ) -> Option<RoundEnd<D>>
        requires packet { IsPacket packet.now × (centre_of packet.now ≡ C) }
        requires few { self.old.trip.taken_up < 2 }
        ensures handles { (up : L) → HandlesUp ⟦<UdcRules as Rules>⟧ ⟦<L as Link>⟧ U.limits U.opening C
            (Some packet.now) (round_at self.old.udc self.old.centre self.old.trip down.old up)
            (round_at self.new.udc self.new.centre self.new.trip down.new up) (option_map round_stop result) }
        ensures few { self.new.trip.taken_up ≤ self.old.trip.taken_up + 1 }
        ensures other { self.new.trip.applied ≡ self.old.trip.applied }
    {
        match packet {
            Packet::Up { number, item, .. } => self.take_up(rt, udc, down, *number, item),
            Packet::DownHeard { number, .. } => {
                let count = self.trip.record_count;
                self.trip.sending.acknowledged(*number, count);
                None
            }
            Packet::Down { .. } | Packet::UpHeard { .. } => None,
        }
    }

    /// Takes a packet from the link down and handles it, and returns whether one came.
    fn receive_down<D: Disk, H: Wait + Drop, L: Link, W: Wait>(
        &mut self,
        rt: &W,
        centre: &Live<IrcRules<C>, D, N, H>,
        down: &mut L,
        up: &mut L,
    ) -> Result<bool, RoundEnd<D>>
        requires few { self.old.trip.applied < 2 }
        ensures receives { ReceivesDown ⟦<IrcRules<C> as Rules>⟧ ⟦<L as Link>⟧ N.limits N.opening C
            (round_at self.old.udc self.old.centre self.old.trip down.old up.old)
            (round_at self.new.udc self.new.centre self.new.trip down.new up.new) (came_in result) }
        ensures few { self.new.trip.applied ≤ self.old.trip.applied + 1 }
        ensures other { self.new.trip.taken_up ≡ self.old.trip.taken_up }
    {
        let size = match down.take(&mut self.bytes) {
            Ok(Some(size)) => size,
            Ok(None) => return Ok(false),
            Err(Failed) => return Err(RoundEnd::LinkFault),
        };
        self.trip.moved = true;
        let Some(packet) = packet_of::<C>(&self.bytes[..size]) else {
            return Ok(true);
        };
        match self.handle_down(rt, centre, up, &packet) {
            None => Ok(true),
            Some(end) => Err(end),
        }
    }

    /// Takes a packet from the link up and handles it, and returns whether one came.
    fn receive_up<D: Disk, H: Wait + Drop, L: Link, W: Wait>(
        &mut self,
        rt: &W,
        udc: &Live<UdcRules, D, U, H>,
        down: &mut L,
        up: &mut L,
    ) -> Result<bool, RoundEnd<D>>
        requires few { self.old.trip.taken_up < 2 }
        ensures receives { ReceivesUp ⟦<UdcRules as Rules>⟧ ⟦<L as Link>⟧ U.limits U.opening C
            (round_at self.old.udc self.old.centre self.old.trip down.old up.old)
            (round_at self.new.udc self.new.centre self.new.trip down.new up.new) (came_in result) }
        ensures few { self.new.trip.taken_up ≤ self.old.trip.taken_up + 1 }
        ensures other { self.new.trip.applied ≡ self.old.trip.applied }
    {
        let size = match up.take(&mut self.bytes) {
            Ok(Some(size)) => size,
            Ok(None) => return Ok(false),
            Err(Failed) => return Err(RoundEnd::LinkFault),
        };
        self.trip.moved = true;
        let Some(packet) = packet_of::<C>(&self.bytes[..size]) else {
            return Ok(true);
        };
        match self.handle_up(rt, udc, down, &packet) {
            None => Ok(true),
            Some(end) => Err(end),
        }
    }

    /// Takes what has come down, up to two packets.
    fn receive_records<D: Disk, H: Wait + Drop, L: Link, W: Wait>(
        &mut self,
        rt: &W,
        centre: &Live<IrcRules<C>, D, N, H>,
        down: &mut L,
        up: &mut L,
    ) -> Option<RoundEnd<D>>
        requires none { self.old.trip.applied ≡ 0 }
        ensures receives { UpToTwo (ReceivesDown ⟦<IrcRules<C> as Rules>⟧ ⟦<L as Link>⟧ N.limits N.opening C)
            (round_at self.old.udc self.old.centre self.old.trip down.old up.old)
            (round_at self.new.udc self.new.centre self.new.trip down.new up.new) (option_map round_stop
            result) }
        ensures other { self.new.trip.taken_up ≡ self.old.trip.taken_up }
    {
        match self.receive_down(rt, centre, down, up) {
            Ok(true) => stop_in(self.receive_down(rt, centre, down, up)),
            Ok(false) => None,
            Err(end) => Some(end),
        }
    }

    /// Takes what has come up, up to two packets.
    fn receive_items<D: Disk, H: Wait + Drop, L: Link, W: Wait>(
        &mut self,
        rt: &W,
        udc: &Live<UdcRules, D, U, H>,
        down: &mut L,
        up: &mut L,
    ) -> Option<RoundEnd<D>>
        requires none { self.old.trip.taken_up ≡ 0 }
        ensures { UpToTwo (ReceivesUp ⟦<UdcRules as Rules>⟧ ⟦<L as Link>⟧ U.limits U.opening C)
            (round_at self.old.udc self.old.centre self.old.trip down.old up.old)
            (round_at self.new.udc self.new.centre self.new.trip down.new up.new) (option_map round_stop
            result) }
    {
        match self.receive_up(rt, udc, down, up) {
            Ok(true) => stop_in(self.receive_up(rt, udc, down, up)),
            Ok(false) => None,
            Err(end) => Some(end),
        }
    }

    /// Takes what has come down, and then what has come up.
    fn receive<D: Disk, H: Wait + Drop, L: Link, W: Wait>(
        &mut self,
        rt: &W,
        udc: &Live<UdcRules, D, U, H>,
        centre: &Live<IrcRules<C>, D, N, H>,
        down: &mut L,
        up: &mut L,
    ) -> Option<RoundEnd<D>>
        requires none { (self.old.trip.applied ≡ 0) × (self.old.trip.taken_up ≡ 0) }
        ensures { Receives ⟦<UdcRules as Rules>⟧ ⟦<IrcRules<C> as Rules>⟧ ⟦<L as Link>⟧ U.limits N.limits
            U.opening N.opening C
            (round_at self.old.udc self.old.centre self.old.trip down.old up.old)
            (round_at self.new.udc self.new.centre self.new.trip down.new up.new) (option_map round_stop
            result) }
    {
        match self.receive_records(rt, centre, down, up) {
            Some(end) => Some(end),
            None => self.receive_items(rt, udc, down, up),
        }
    }

    /// Gives what goes up, and then takes what has come.
    fn carry_up<D: Disk, H: Wait + Drop, L: Link, W: Wait>(
        &mut self,
        rt: &W,
        udc: &Live<UdcRules, D, U, H>,
        centre: &Live<IrcRules<C>, D, N, H>,
        down: &mut L,
        up: &mut L,
    ) -> Option<RoundEnd<D>>
        requires up { IfSome self.old.up.size (λ n. n ≤ MAX_PACKET) }
        requires none { (self.old.trip.applied ≡ 0) × (self.old.trip.taken_up ≡ 0) }
        ensures { (going : Option Packet) → BeginsWithPacket self.old.up.bytes self.old.up.size going
            → CarriesUp ⟦<UdcRules as Rules>⟧ ⟦<IrcRules<C> as Rules>⟧ ⟦<L as Link>⟧ U.limits N.limits
            U.opening N.opening C
            going (round_at self.old.udc self.old.centre self.old.trip down.old up.old)
            (round_at self.new.udc self.new.centre self.new.trip down.new up.new) (option_map round_stop
            result) }
    {
        match give(up, &mut self.trip, &self.up.bytes, self.up.size) {
            Some(end) => Some(end),
            None => self.receive(rt, udc, centre, down, up),
        }
    }

    /// Gives what goes down and up, and then takes what has come.
    pub(crate) fn carry<D: Disk, H: Wait + Drop, L: Link, W: Wait>(
        &mut self,
        rt: &W,
        udc: &Live<UdcRules, D, U, H>,
        centre: &Live<IrcRules<C>, D, N, H>,
        down: &mut L,
        up: &mut L,
    ) -> Option<RoundEnd<D>>
        requires down { IfSome self.old.down.size (λ n. n ≤ MAX_PACKET) }
        requires up { IfSome self.old.up.size (λ n. n ≤ MAX_PACKET) }
        requires none { (self.old.trip.applied ≡ 0) × (self.old.trip.taken_up ≡ 0) }
        ensures { (going_down going_up : Option Packet) → BeginsWithPacket self.old.down.bytes
            self.old.down.size going_down
            → BeginsWithPacket self.old.up.bytes self.old.up.size going_up
            → Carries ⟦<UdcRules as Rules>⟧ ⟦<IrcRules<C> as Rules>⟧ ⟦<L as Link>⟧ U.limits N.limits
            U.opening N.opening C
            going_down going_up (round_at self.old.udc self.old.centre self.old.trip down.old up.old)
            (round_at self.new.udc self.new.centre self.new.trip down.new up.new) (option_map round_stop
            result) }
    {
        match give(down, &mut self.trip, &self.down.bytes, self.down.size) {
            Some(end) => Some(end),
            None => self.carry_up(rt, udc, centre, down, up),
        }
    }
}

/// Looks at a node, until a look is let in.
fn see<R: Rules, N: Run<R::Rec>, V: Viewer<R::State>, W: Wait>(
    rt: &W,
    pass: &mut Pass<R, N>,
    view: &mut V,
)
    ensures viewed { (state : R.State)
        × IsStateOf ⟦<R as Rules>⟧ N.limits state (with_opening N.opening pass.new.seen)
        × V.may_become view.old state view.new }
    ensures looks { PassLooks pass.old pass.new }
{
    for _ in rt.forever() {
        if let Ok(()) = pass.show(view) {
            return;
        }
    }
    unreachable!()
}

/// Why the round stops, if it does at a packet.
fn stop_in<D: Disk>(came: Result<bool, RoundEnd<D>>) -> Option<RoundEnd<D>>
    ensures { option_map round_stop result ≡ stop_in (came_in came) }
{
    match came {
        Ok(_) => None,
        Err(end) => Some(end),
    }
}

/// Gives the packet that a buffer begins with to a link. `size` says how many bytes it has. `None`: there is no packet.
fn give<D: Disk, L: Link>(
    link: &mut L,
    trip: &mut Trip,
    bytes: &[u8; MAX_PACKET],
    size: Option<usize>,
) -> Option<RoundEnd<D>>
    requires { IfSome size (λ n. n ≤ MAX_PACKET) }
    ensures gives { (packet : Option Packet) → BeginsWithPacket bytes.now size packet
        → GivesTo ⟦<L as Link>⟧ packet link.old trip.old link.new trip.new (option_map round_stop result) }
    ensures same { (trip.new.applied ≡ trip.old.applied) × (trip.new.taken_up ≡ trip.old.taken_up) }
{
    let Some(size) = size else {
        return None;
    };
    match link.give(&bytes[..size]) {
        Ok(()) => {
            trip.moved = true;
            None
        }
        Err(Failed) => Some(RoundEnd::LinkFault),
    }
}

/// Gives an acknowledgement to a link. `None` gives nothing.
fn acknowledge<D: Disk, L: Link>(
    link: &mut L,
    trip: &mut Trip,
    bytes: &mut [u8; MAX_PACKET],
    packet: Option<Packet>,
) -> Option<RoundEnd<D>>
    requires { IfSome packet (λ p. IsCentre (centre_of p)) }
    ensures gives { GivesTo ⟦<L as Link>⟧ packet link.old trip.old link.new trip.new (option_map round_stop
        result) }
    ensures same { (trip.new.applied ≡ trip.old.applied) × (trip.new.taken_up ≡ trip.old.taken_up) }
{
    let packet = packet?;
    let size = spell(&packet, bytes);
    give(link, trip, bytes, Some(size))
}

/// The packet of the centre that bytes spell, if they spell one.
fn packet_of<const C: u8>(bytes: &[u8]) -> Option<Packet>
    ensures { IsReadAs C bytes.now result }
{
    a_packet_is_read_as_it_is_spelled();
    match Packet::decode(bytes) {
        Ok(packet) => {
            if centre_of(&packet) == C {
                Some(packet)
            } else {
                None
            }
        }
        Err(_) => None,
    }
}

/// The centre that a packet goes to or comes from.
fn centre_of(packet: &Packet) -> u8
    ensures { result ≡ centre_of packet.now }
{
    match packet {
        Packet::Down { centre, .. }
        | Packet::Up { centre, .. }
        | Packet::DownHeard { centre, .. }
        | Packet::UpHeard { centre, .. } => *centre,
    }
}

/// Why a round stops at an ask of this node that has no answer.
fn ask_stop<D: Disk>(node: u8, fault: LiveFault<D>) -> RoundEnd<D>
    ensures { round_stop result ≡ ask_stop node fault }
{
    match fault {
        LiveFault::Full { count } => RoundEnd::Full { node, count },
        LiveFault::Disk(failure) => RoundEnd::DiskFault(failure),
        LiveFault::Memory { stored } => RoundEnd::Memory { stored },
    }
}

/// How many records a centre has applied, by its reply to the record of a number. One without room is not acknowledged.
fn applied_by(number: u64, reply: &IrcReply) -> Option<u64>
    ensures { result ≡ applied_by number reply.now }
{
    match reply {
        IrcReply::Applied => Some(number.saturating_add(1)),
        IrcReply::Old(count) | IrcReply::Early(count) => Some(*count),
        IrcReply::NoRoom(_) | IrcReply::Serial(_) | IrcReply::Kept(_) | IrcReply::Nothing => None,
    }
}

/// How many items the Update Centre has taken up, by its reply to the item of a number.
fn taken_by(number: u64, reply: &UdcReply) -> Option<u64>
    ensures { result ≡ taken_by number reply.now }
{
    match reply {
        UdcReply::Stored(_) => Some(number.saturating_add(1)),
        UdcReply::Old(count) | UdcReply::Early(count) => Some(*count),
        UdcReply::Again(_) | UdcReply::Refused(_) => None,
    }
}

/// The acknowledgement of records. `None`: the reply acknowledges none.
fn records_heard<const C: u8>(number: u64, reply: &IrcReply) -> Option<Packet>
    ensures value { result ≡ option_map (DownHeard C) (applied_by number reply.now) }
    ensures centre { IfSome result (λ p. centre_of p ≡ C) }
{
    let number = applied_by(number, reply)?;
    Some(Packet::DownHeard { centre: C, number })
}

/// The acknowledgement of items. `None`: the reply acknowledges none.
fn items_heard<const C: u8>(number: u64, reply: &UdcReply) -> Option<Packet>
    ensures value { result ≡ option_map (UpHeard C) (taken_by number reply.now) }
    ensures centre { IfSome result (λ p. centre_of p ≡ C) }
{
    let number = taken_by(number, reply)?;
    Some(Packet::UpHeard { centre: C, number })
}
