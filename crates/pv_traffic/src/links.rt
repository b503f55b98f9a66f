ghost use Rattle.std.specs.Prelude.{◌≡◌, ◌<◌, ◌≤◌, false, length, map, replicate, slice_get, slice_set, IfOk};
ghost use Rattle.pv_link.specs.Sending.{new_end, number_to_give};
ghost use Rattle.pv_packet.specs.Packet.{centre_of};
ghost use Rattle.pv_account.specs.declared.account.TheConstants.{MAX_CENTRES};
ghost use Rattle.pv_traffic.specs.declared.way.Way.TheVariants as ways;
ghost use Rattle.pv_traffic.specs.Link.{new_link, link_in, is_packets_full, back_way, ack_packet, packets_on, end_on, with_packet, with_given_number, with_sent, with_heard, with_new_end, places_with_end};

use crate::link::Link;
use crate::packets::{MAX_PACKETS, Packets};
use crate::way::Way;
use pv_packet::Packet;
use std::alloc::{AllocError, Global};
use std::marker::Model;

/// The links of all centres. All packets that were made on them are in one row, in room that `open` reserves, and each
/// link has the places of its own.
#[derive(Debug, Drop)]
pub struct Links {
    links: Vec<Link>,
    packets: Packets,
}

impl Model for Links {
    ghost use Rattle.std.specs.Prelude.{◌≡◌, ◌≤◌, List, length};
    ghost use Rattle.pv_account.specs.declared.account.TheConstants.{MAX_CENTRES};
    ghost use Rattle.pv_traffic.specs.Link as Spec;

    ghost Value = { List Spec.Link };

    ghost view = { λ l. Spec.links_of l.packets l.links.items };

    ghost invariant = { λ l. Spec.AreWithin l.packets l.links.items
        × (length l.packets ≡ Spec.place_count l.links.items)
        × (length l.links.items ≤ MAX_CENTRES) };
}

impl Links {
    /// `count` links on which nothing was sent, one for each centre.
    pub fn open(alloc: Global, count: u8) -> Result<Links, AllocError>
        requires { count ≤ MAX_CENTRES }
        ensures { IfOk result (λ links. links ≡ replicate count new_link) }
    {
        let mut links = Vec::with_capacity(alloc, count as usize)?;
        for _ in 0..count {
            links.push(Link::open(alloc)?)?;
        }
        Ok(Links {
            links,
            packets: Packets::open(alloc)?,
        })
    }

    /// Whether as many packets were made as may be.
    #[tactic(auto, using(crate::proofs::Rows::count_of_places))]
    pub fn is_full(&self) -> bool
        ensures { result ≡ is_packets_full self.now }
    {
        self.packets.len() >= MAX_PACKETS
    }

    /// There are no more of them than there may be centres. A call states this and has no effect.
    pub fn within(&self)
        ensures { length self.now ≤ MAX_CENTRES }
    {
        let _ = &self.links;
    }

    /// The packet of an index, of those that went a way. `None` if there is no such packet.
    #[inline(always)]
    pub fn packet(&self, way: Way, link: u8, index: u64) -> Option<Packet>
        requires { link < length self.now }
        ensures { result ≡ slice_get (packets_on way (link_in self.now link)) index }
    {
        let place = self.links[link as usize].place(way, index)?;
        self.packets.get(usize::from(place))
    }

    /// The number that goes next on a way, if there are `front` to go there. `None` if all of them are acknowledged.
    pub fn next_number(&self, way: Way, link: u8, front: u64) -> Option<u64>
        requires { link < length self.now }
        ensures { result ≡ number_to_give (end_on way (link_in self.now link)) front }
    {
        self.links[link as usize].next_number(way, front)
    }

    /// Sends a packet, under the number that the end of its way gives of `front` to go there. Returns its index.
    pub fn send(&mut self, way: Way, link: u8, front: u64, packet: &Packet) -> u64
        requires there { link < length self.old }
        requires room { is_packets_full self.old ≡ false }
        requires own { centre_of packet.now ≡ link }
        ensures index { result ≡ length (packets_on way (link_in self.old link)) }
        ensures sent { self.new
            ≡ slice_set self.old link (with_sent way (link_in self.old link) front packet.now) }
    {
        let index = self.put(way, link, packet);
        self.go_on(way, link, front);
        index
    }

    /// Acknowledges `count` of what went a way, and returns the acknowledgement's index.
    pub fn acknowledge(&mut self, way: Way, link: u8, count: u64) -> u64
        requires there { link < length self.old }
        requires room { is_packets_full self.old ≡ false }
        ensures index { result ≡ length (packets_on (back_way way) (link_in self.old link)) }
        ensures made { self.new ≡ slice_set self.old link
            (with_packet (back_way way) (link_in self.old link) (ack_packet way link count)) }
    {
        let ack = acknowledgement(way, link, count);
        self.put(way.back(), link, &ack)
    }

    /// Makes a packet that goes a way, and returns its index.
    #[tactic(auto, using(crate::proofs::Rows::count_of_places))]
    fn put(&mut self, way: Way, link: u8, packet: &Packet) -> u64
        requires there { link < length self.old }
        requires room { is_packets_full self.old ≡ false }
        requires own { centre_of packet.now ≡ link }
        ensures index { result ≡ length (packets_on way (link_in self.old link)) }
        ensures made { self.new
            ≡ slice_set self.old link (with_packet way (link_in self.old link) packet.now) }
    {
        let place = self.packets.len() as u16;
        let index = self.links[link as usize].add(way, place);
        packet.within();
        self.packets.push(packet);
        index
    }

    /// The end of a way gives its next number, of `front` to go there.
    fn go_on(&mut self, way: Way, link: u8, front: u64)
        requires { link < length self.old }
        ensures { self.new ≡ slice_set self.old link (with_given_number way (link_in self.old link) front) }
    {
        self.links[link as usize].go_on(way, front);
    }

    /// The end of a way hears that `count` arrived, of `front` in all.
    pub fn hear(&mut self, way: Way, link: u8, front: u64, count: u64)
        requires { link < length self.old }
        ensures { self.new ≡ slice_set self.old link (with_heard way (link_in self.old link) front count) }
    {
        self.links[link as usize].hear(way, front, count);
    }

    /// A centre's end, which sends items up, is new. The packets stay.
    pub fn renew_up(&mut self, link: u8)
        requires { link < length self.old }
        ensures { self.new ≡ slice_set self.old link (with_new_end ways.Up (link_in self.old link)) }
    {
        self.links[link as usize].renew(Way::Up);
    }

    /// The end that sends records down each link is new. The packets stay.
    pub fn renew_down(&mut self)
        ensures { self.new ≡ map (with_new_end ways.Down) self.old }
    {
        renew_all(&mut self.links);
    }
}

/// The packet that acknowledges `count` of what went a way.
fn acknowledgement(way: Way, centre: u8, count: u64) -> Packet
    ensures value { result ≡ ack_packet way centre count }
    ensures own { centre_of result ≡ centre }
{
    let number = count;
    match way {
        Way::Down => Packet::DownHeard { centre, number },
        Way::Up => Packet::UpHeard { centre, number },
    }
}

/// The end that sends records down each of these links is new.
fn renew_all(links: &mut Vec<Link>)
    ensures { links.new.items ≡ map (λ here. places_with_end ways.Down here new_end) links.old.items }
{
    for link in links.iter_mut() {
        link.renew(Way::Down);
    }
}
