ghost use Rattle.std.specs.Prelude.{◌≡◌, ◌<◌, length, slice_get, IfOk};
ghost use Rattle.pv_link.specs.Sending.{new_end, number_to_give, end_after, end_that_heard};
ghost use Rattle.pv_traffic.specs.declared.packets.TheConstants.{MAX_PACKETS};
ghost use Rattle.pv_traffic.specs.Link.{no_places, end_at, places_on, with_place, places_with_end};

use crate::packets::MAX_PACKETS;
use crate::way::Way;
use pv_link::{DownEnd, UpEnd};
use std::alloc::{AllocError, Global};
use std::marker::Model;

/// The link between the Update Centre and a centre: the places of the packets that went down it, of those that went
/// up, the end that sends records down, and the centre's end that sends items up. `open` reserves all room.
#[derive(Debug, Drop)]
pub struct Link {
    down: Vec<u16>,
    up: Vec<u16>,
    sending: DownEnd,
    posting: UpEnd,
}

impl Model for Link {
    ghost use Rattle.std.specs.Prelude.{◌≤◌, vec_capacity};
    ghost use Rattle.pv_traffic.specs.declared.packets.TheConstants.{MAX_PACKETS};
    ghost use Rattle.pv_traffic.specs.Link as Spec;

    ghost Value = { Spec.Places };

    ghost view = { λ l. record {
      down = l.down.items;
      up = l.up.items;
      sending = l.sending;
      posting = l.posting;
    } };

    ghost invariant = { λ l. (MAX_PACKETS ≤ vec_capacity l.down) × (MAX_PACKETS ≤ vec_capacity l.up) };
}

impl Link {
    /// A link on which nothing was sent.
    pub(crate) fn open(alloc: Global) -> Result<Link, AllocError>
        ensures { IfOk result (λ l. l ≡ no_places) }
    {
        Ok(Link {
            down: Vec::with_capacity(alloc, MAX_PACKETS)?,
            up: Vec::with_capacity(alloc, MAX_PACKETS)?,
            sending: DownEnd::new(),
            posting: UpEnd::new(),
        })
    }

    /// The number that goes next on a way, if there are `front` to go there. `None` if all of them are acknowledged.
    pub(crate) fn next_number(&self, way: Way, front: u64) -> Option<u64>
        ensures { result ≡ number_to_give (end_at way self.now) front }
    {
        match way {
            Way::Down => {
                let mut end = self.sending;
                end.next(front)
            }
            Way::Up => {
                let mut end = self.posting;
                end.next(front)
            }
        }
    }

    /// The place of the packet of an index, of those that went a way.
    pub(crate) fn place(&self, way: Way, index: u64) -> Option<u16>
        ensures { result ≡ slice_get (places_on way self.now) index }
    {
        match way {
            Way::Down => self.down.get(index as usize).copied(),
            Way::Up => self.up.get(index as usize).copied(),
        }
    }

    /// The packet at a place goes a way. Returns its index there.
    pub(crate) fn add(&mut self, way: Way, place: u16) -> u64
        requires { length (places_on way self.old) < MAX_PACKETS }
        ensures index { result ≡ length (places_on way self.old) }
        ensures added { self.new ≡ with_place way self.old place }
    {
        match way {
            Way::Down => {
                let index = self.down.len() as u64;
                self.down.push_reserved(place);
                index
            }
            Way::Up => {
                let index = self.up.len() as u64;
                self.up.push_reserved(place);
                index
            }
        }
    }

    /// The end of a way gives its next number, of `front` to go there.
    pub(crate) fn go_on(&mut self, way: Way, front: u64)
        ensures { self.new ≡ places_with_end way self.old (end_after (end_at way self.old) front) }
    {
        match way {
            Way::Down => {
                let _ = self.sending.next(front);
            }
            Way::Up => {
                let _ = self.posting.next(front);
            }
        }
    }

    /// The end of a way hears that `count` arrived, of `front` in all.
    pub(crate) fn hear(&mut self, way: Way, front: u64, count: u64)
        ensures { self.new ≡ places_with_end way self.old (end_that_heard (end_at way self.old) count front) }
    {
        match way {
            Way::Down => self.sending.acknowledged(count, front),
            Way::Up => self.posting.acknowledged(count, front),
        }
    }

    /// The end of a way is new. The packets stay.
    pub(crate) fn renew(&mut self, way: Way)
        ensures { self.new ≡ places_with_end way self.old new_end }
    {
        match way {
            Way::Down => self.sending = DownEnd::new(),
            Way::Up => self.posting = UpEnd::new(),
        }
    }
}
