ghost use Rattle.pv_fields.specs.Out.{Puts};
ghost use Rattle.pv_fields.specs.Reading.{GivesFound, same};
ghost use Rattle.pv_edits.specs.Taken.{IsTakenUp, taken_bytes, taken_at};

use pv_account::LAST_CENTRE;
use pv_fields::{In, NoRoom, NoSpelling, Out};
use pv_post::Item;
use std::marker::Model;

/// An item that was taken up from a centre.
#[derive(Clone, Copy, Debug, PartialEq, Eq)]
pub struct Taken {
    /// The centre, at most [`LAST_CENTRE`].
    pub centre: u8,
    /// How many items of this centre were taken up before.
    pub k: u64,
    /// The item.
    pub item: Item,
}

impl Model for Taken {
    ghost use Rattle.pv_edits.specs.Taken.{TakenUp, IsCentre};

    ghost Value = { TakenUp };

    ghost view = { λ t. record { centre = t.centre; k = t.k; item = t.item } };

    ghost invariant = { λ t. IsCentre t.centre };

    ghost inverse = { λ t. record { centre = t.centre; k = t.k; item = t.item } };
}

impl Taken {
    /// The parts are within their ranges, by its type. A call states this and has no effect.
    pub fn within(&self)
        ensures { IsTakenUp self.now }
    {
        let _number = self.k;
        self.item.within();
    }

    /// Appends the spelling of what was taken up. [`NoRoom`] exactly when it does not fit.
    #[tactic(auto, unfolding(crate::specs::Taken::taken_bytes))]
    pub fn put(&self, out: &mut Out) -> Result<(), NoRoom>
        ensures { Puts result out.old out.new (taken_bytes self.now) }
    {
        out.u8(self.centre)?;
        out.u64(self.k)?;
        self.item.encode(out)
    }

    /// Takes the spelling of what was taken up. [`NoSpelling`] if the bytes begin with none.
    #[tactic(auto, unfolding(crate::specs::Taken::taken_at))]
    pub fn read(bytes: &mut In) -> Result<Taken, NoSpelling>
        ensures { GivesFound same result (taken_at bytes.old) bytes.new }
    {
        let centre = bytes.u8_within(0, LAST_CENTRE)?;
        let k = bytes.u64()?;
        let item = Item::read(bytes)?;
        Ok(Taken { centre, k, item })
    }
}
