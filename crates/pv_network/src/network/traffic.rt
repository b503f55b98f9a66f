ghost use Rattle.std.specs.Prelude.{◌≡◌, ◌<◌, length, option_copied, slice_get, IfSome};
ghost use Rattle.pv_packet.specs.Packet.{centre_of};
ghost use Rattle.pv_packet.specs.declared.packet.Packet.TheVariants.{Down, Up};
ghost use Rattle.pv_traffic.specs.Link.{ack_packet, packet_room};
ghost use Rattle.pv_network.specs.Standing.{StandsFor, Performs, IsGenuineAt};
ghost use Rattle.pv_network.specs.Traffic.{front_of, received_count, receiver_count, packet_for, next_number_on, step_of_sending, step_of_acknowledging, step_of_answer, step_of_arrival, with_next_at, with_item_of, step_of_hearing, step_of_arriving, step_of_round, round_of_packet, with_ack_back, way_on, GoesOn, step_of_carry};
ghost use Rattle.pv_network.specs.World.{World, centre_at};
ghost use Rattle.pv_traffic.specs.declared.way.Way.TheVariants as ways;

use crate::arrival::Arrival;
use crate::load::Load;
use crate::network::Network;
use crate::outcome::Outcome;
use crate::round::Round;
use crate::verdict::take_up;
use pv_edits::DownRecord;
use pv_nodes::a_centre_shows_what_the_list_shows;
use pv_packet::Packet;
use pv_post::Item;
use pv_traffic::Way;
use pv_udc::down;

impl Network {
    /// How many there are to go a way: records of the edit list, or items of a centre.
    fn front(&self, way: Way, centre: u8) -> u64
        requires { centre < length self.now.centres }
        ensures { (w : World) → StandsFor self.now w → result ≡ front_of way w centre }
    {
        match way {
            Way::Down => self.update.count(),
            Way::Up => self.centres[centre as usize].items(),
        }
    }

    /// How many were received of what went a way: records that a centre has applied, or items of it that were taken up.
    fn received(&self, way: Way, centre: u8) -> u64
        requires { centre < length self.now.centres }
        ensures { (w : World) → StandsFor self.now w → result ≡ received_count way w centre }
    {
        match way {
            Way::Down => self.centres[centre as usize].applied(),
            Way::Up => self.update.state().taken(centre),
        }
    }

    /// How many records the node has that receives on a way.
    fn receiver_count(&self, way: Way, centre: u8) -> u64
        requires { centre < length self.now.centres }
        ensures { (w : World) → StandsFor self.now w → result ≡ receiver_count way w centre }
    {
        match way {
            Way::Down => self.centres[centre as usize].count(),
            Way::Up => self.update.count(),
        }
    }

    /// The item of a centre and a number. `None` if there is no such.
    fn item(&self, centre: u8, number: u64) -> Option<&Item>
        requires { centre < length self.now.centres }
        ensures { (w : World) → StandsFor self.now w
            → option_copied result ≡ slice_get (centre_at w centre).calls.items number }
    {
        self.centres[centre as usize].item_at(number)
    }

    /// The packet of the record or item of a number. `None` if there is no such.
    fn packet(&self, way: Way, centre: u8, number: u64) -> Option<Packet>
        requires { centre < length self.now.centres }
        ensures packet { (w : World) → StandsFor self.now w → result ≡ packet_for way w centre number }
        ensures own { IfSome result (λ packet. centre_of packet ≡ centre) }
    {
        match way {
            Way::Down => {
                let edit = self.update.state().rec_at(number)?;
                Some(Packet::Down {
                    centre,
                    number,
                    rec: down(edit),
                })
            }
            Way::Up => {
                let item = *self.item(centre, number)?;
                Some(Packet::Up {
                    centre,
                    number,
                    item,
                })
            }
        }
    }

    /// The number that goes next on a way. `None` if all of them are acknowledged.
    fn next_number(&self, way: Way, centre: u8) -> Option<u64>
        requires { centre < length self.now.centres }
        ensures { (w : World) → StandsFor self.now w → result ≡ next_number_on way w centre }
    {
        let front = self.front(way, centre);
        self.links.next_number(way, centre, front)
    }

    /// Sends the next packet on a way: a record to a centre, or an item of it to the Update Centre.
    #[inline(never)]
    pub(super) fn send(&mut self, way: Way, centre: u8) -> Outcome
        requires { centre < length self.old.centres }
        ensures performs { Performs self.old self.new result (λ w. step_of_sending way w centre) }
        ensures centres { length self.new.centres ≡ length self.old.centres }
    {
        if self.links.is_full() {
            return Outcome::PacketsFull;
        }
        let Some(number) = self.next_number(way, centre) else {
            return Outcome::Idle;
        };
        let Some(packet) = self.packet(way, centre, number) else {
            return Outcome::Idle;
        };
        let front = self.front(way, centre);
        let index = self.links.send(way, centre, front, &packet);
        Outcome::sent(way, index, number)
    }

    /// The packet of an index arrives, of those that went a way.
    #[inline(never)]
    pub(super) fn arrive(&mut self, way: Way, centre: u8, index: u64) -> Outcome
        requires { centre < length self.old.centres }
        ensures performs { Performs self.old self.new result (λ w. step_of_arriving way w centre index) }
        ensures centres { length self.new.centres ≡ length self.old.centres }
    {
        match self.links.packet(way, centre, index) {
            Some(Packet::Down { number, rec, .. }) => self.apply(centre, number, &rec),
            Some(Packet::Up { number, item, .. }) => self.take_up(centre, number, &item),
            Some(Packet::DownHeard { number, .. }) => self.hear(Way::Down, centre, number),
            Some(Packet::UpHeard { number, .. }) => self.hear(Way::Up, centre, number),
            None => Outcome::NoPacket,
        }
    }

    /// A record arrives at a centre under a number.
    fn apply(&mut self, centre: u8, number: u64, rec: &DownRecord) -> Outcome
        requires there { centre < length self.old.centres }
        requires genuine { IsGenuineAt self.old centre (Down centre number rec.now) }
        ensures performs { Performs self.old self.new result
            (λ w. step_of_arrival ways.Down w (with_next_at w centre) centre number) }
        ensures centres { length self.new.centres ≡ length self.old.centres }
    {
        a_centre_shows_what_the_list_shows();
        let arrival = self.centres[centre as usize].apply(number, rec);
        self.answer(Way::Down, centre, number, arrival)
    }

    /// An item of a centre arrives at the Update Centre under a number.
    fn take_up(&mut self, centre: u8, number: u64, item: &Item) -> Outcome
        requires there { centre < length self.old.centres }
        requires genuine { IsGenuineAt self.old centre (Up centre number item.now) }
        ensures performs { Performs self.old self.new result
            (λ w. step_of_arrival ways.Up w (with_item_of w centre number item.now) centre number) }
        ensures centres { length self.new.centres ≡ length self.old.centres }
    {
        self.links.within();
        let arrival = take_up(&mut self.update, centre, number, item);
        self.answer(Way::Up, centre, number, arrival)
    }

    /// Answers what arrived under a number, and acknowledges it unless the receiver is full.
    fn answer(&mut self, way: Way, centre: u8, number: u64, arrival: Arrival) -> Outcome
        requires { centre < length self.old.centres }
        ensures performs { Performs self.old self.new result
            (λ w. step_of_answer way w centre number arrival) }
        ensures centres { length self.new.centres ≡ length self.old.centres }
    {
        match arrival {
            Arrival::Taken => {
                let ack = self.acknowledge(way, centre);
                Outcome::Taken { number, ack }
            }
            Arrival::Old => {
                let ack = self.acknowledge(way, centre);
                Outcome::Old { number, ack }
            }
            Arrival::Early => {
                let ack = self.acknowledge(way, centre);
                Outcome::Early { number, ack }
            }
            Arrival::Full => {
                let count = self.receiver_count(way, centre);
                Outcome::Full { count }
            }
        }
    }

    /// The receiver acknowledges what it received of a way, unless no packet can be made, and the acknowledgement's
    /// index is returned.
    fn acknowledge(&mut self, way: Way, centre: u8) -> Option<u64>
        requires { centre < length self.old.centres }
        ensures performs { Performs self.old self.new result (λ w. step_of_acknowledging way w centre) }
        ensures centres { length self.new.centres ≡ length self.old.centres }
    {
        if self.links.is_full() {
            return None;
        }
        let count = self.received(way, centre);
        Some(self.links.acknowledge(way, centre, count))
    }

    /// The end of a way hears an acknowledgement.
    fn hear(&mut self, way: Way, centre: u8, count: u64) -> Outcome
        requires there { centre < length self.old.centres }
        requires genuine { IsGenuineAt self.old centre (ack_packet way centre count) }
        ensures performs { Performs self.old self.new result (λ w. step_of_hearing way w centre count) }
        ensures centres { length self.new.centres ≡ length self.old.centres }
    {
        let front = self.front(way, centre);
        self.links.hear(way, centre, front, count);
        Outcome::Heard { number: count }
    }

    /// Record after record goes to a centre, and item after item to the Update Centre, each with its acknowledgement,
    /// until both ends are idle or the carry cannot go on.
    #[inline(never)]
    pub(super) fn carry(&mut self, centre: u8) -> Outcome
        requires { centre < length self.old.centres }
        ensures performs { Performs self.old self.new result (λ w. step_of_carry w centre) }
        ensures centres { length self.new.centres ≡ length self.old.centres }
    {
        let mut way = Way::Down;
        let mut load = Load::new();
        'rounds: loop {
            let Some(next) = self.way_on(way, centre) else {
                return load.carried();
            };
            way = next;
            match self.round(way, centre) {
                Round::Taken => load.add(way),
                Round::Again => {}
                Round::Stopped(outcome) => return outcome,
            }
        }
    }

    /// The way of the next round: the same way as long as its end gives a number, else the other one. `None` if both
    /// ends are idle.
    fn way_on(&self, way: Way, centre: u8) -> Option<Way>
        requires { centre < length self.now.centres }
        ensures { (w : World) → StandsFor self.now w → result ≡ way_on way w centre }
    {
        if self.next_number(way, centre).is_some() {
            Some(way)
        } else if self.next_number(way.back(), centre).is_some() {
            Some(way.back())
        } else {
            None
        }
    }

    /// A round on a way: the next packet is sent and arrives, and so does its acknowledgement.
    fn round(&mut self, way: Way, centre: u8) -> Round
        requires { centre < length self.old.centres }
        ensures performs { Performs self.old self.new result (λ w. step_of_round way w centre) }
        ensures centres { length self.new.centres ≡ length self.old.centres }

        // Before another round comes a packet was made.
        ensures room { GoesOn result → packet_room self.new.links < packet_room self.old.links }
    {
        // The network stands for a world, in which the packets are counted.
        let _ = &self.links;
        let sent = self.send(way, centre);
        match sent.packet() {
            Some(index) => self.bring(way, centre, index),
            None => Round::Stopped(sent),
        }
    }

    /// The rest of a round: a packet arrives, and so does its acknowledgement.
    fn bring(&mut self, way: Way, centre: u8, index: u64) -> Round
        requires { centre < length self.old.centres }
        ensures performs { Performs self.old self.new result (λ w. round_of_packet way w centre index) }
        ensures centres { length self.new.centres ≡ length self.old.centres }
    {
        let arrived = self.arrive(way, centre, index);
        self.take_back(way, centre, arrived.ack());
        Round::of(arrived)
    }

    /// What was acknowledged on a way is heard, if an acknowledgement was made.
    fn take_back(&mut self, way: Way, centre: u8, ack: Option<u64>)
        requires { centre < length self.old.centres }
        ensures stands { (w : World) → StandsFor self.old w
            → StandsFor self.new (with_ack_back way w centre ack) }
        ensures centres { length self.new.centres ≡ length self.old.centres }
    {
        if let Some(index) = ack {
            let _ = self.arrive(way.back(), centre, index);
        }
    }
}
