ghost use Rattle.std.specs.Prelude.{◌≡◌, ℕ, ◌<◌, List, [], ◌∷◌, ◌++◌, length, IfOk};
ghost use Rattle.pv_edits.specs.declared.record.Record.{Record};
ghost use Rattle.pv_udc.specs.Replies.{brings_reply, reply_places};
ghost use Rattle.pv_udc.specs.ReplyPlaces.{ArePlacesOf, MayHaveMore};

use pv_edits::Record;
use pv_post::Item;
use std::alloc::{AllocError, Global};

/// The places of the records that brought a reply, in order. So the replies are found without a look at
/// the records between them. Whose they are is asked at each search, since leases change it.
#[derive(Debug, Drop)]
pub(crate) struct ReplyPlaces {
    places: Vec<u64>,
}

impl ReplyPlaces {
    /// There is no record. Room for `room` places is reserved.
    pub(crate) fn open(alloc: Global, room: usize) -> Result<ReplyPlaces, AllocError>
        ensures { IfOk result (λ replies. ArePlacesOf replies room []) }
    {
        Ok(ReplyPlaces {
            places: Vec::with_capacity(alloc, room)?,
        })
    }

    /// A copy, with as much room.
    pub(crate) fn copy(&self, alloc: Global, room: usize) -> Result<ReplyPlaces, AllocError>
        ensures { (records : List Record) → ArePlacesOf self.now room records
            → IfOk result (λ copy. ArePlacesOf copy room records) }
    {
        let mut places = Vec::with_capacity(alloc, room)?;
        places.extend_from_slice(&self.places)?;
        Ok(ReplyPlaces { places })
    }

    /// Adds a record, at its place. There is room for it.
    pub(crate) fn push(&mut self, rec: &Record, place: u64)
        requires { MayHaveMore self.old }
        ensures { (room : ℕ) (records : List Record) → ArePlacesOf self.old room records
            → place ≡ length records → ArePlacesOf self.new room (records ++ rec.now ∷ []) }
    {
        if brings_reply(rec) {
            self.places.push_reserved(place);
        }
    }

    /// The places from this one on.
    pub(crate) fn starting_at(&self, from: u64) -> &[u64]
        ensures { (room : ℕ) (records : List Record) → ArePlacesOf self.now room records
            → result.now ≡ reply_places records from }
    {
        let start = self.places.partition_point(|place| *place < from);
        &self.places[start..]
    }
}

/// Whether a record brought a reply.
fn brings_reply(rec: &Record) -> bool
    ensures { result ≡ brings_reply rec.now }
{
    match rec {
        Record::Taken(taken) => match taken.item {
            Item::Reply(_) => true,
            _ => false,
        },
        _ => false,
    }
}
