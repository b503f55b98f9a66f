ghost use Rattle.std.specs.Prelude.{◌≡◌, IsNone, IfSome};
ghost use Rattle.pv_fields.specs.Out.{Puts};
ghost use Rattle.pv_edits.specs.Down.{IsDown, down_bytes};

use crate::record::Record;
use pv_fields::{NoRoom, Out};

/// What a centre gets of a record: all of it, or only its place in the edit list.
#[derive(Clone, Copy, Debug, PartialEq, Eq)]
pub enum DownRecord {
    /// The record.
    Whole(Record),
    /// A record that this centre is not to see.
    Blank,
}

/// The byte that spells [`DownRecord::Blank`].
pub const BLANK_TAG: u8 = 6;

impl DownRecord {
    /// The parts are within their ranges, by its type. A call states this and has no effect.
    pub fn within(&self)
        ensures { IsDown self.now }
    {
        if let DownRecord::Whole(record) = self {
            record.within();
        }
    }

    /// Appends the spelling. [`NoRoom`] exactly when it does not fit; some of it may then have been
    /// appended.
    #[tactic(auto, unfolding(crate::specs::Down::down_bytes, crate::specs::Record::record_bytes))]
    pub fn encode(&self, out: &mut Out) -> Result<(), NoRoom>
        ensures { Puts result out.old out.new (down_bytes self.now) }
    {
        match self {
            DownRecord::Whole(record) => record.encode(out),
            DownRecord::Blank => out.u8(BLANK_TAG),
        }
    }

    /// What the bytes spell, all of the bytes. `None` exactly when they spell nothing.
    pub fn decode(bytes: &[u8]) -> Option<DownRecord>
        ensures found { IfSome result (λ down. IsDown down × (bytes.now ≡ down_bytes down)) }
        ensures missing { IsNone result → (down : DownRecord) → IsDown down → bytes.now ≡ down_bytes down
            → ⊥ }
    {
        if bytes == [BLANK_TAG].as_slice() {
            return Some(DownRecord::Blank);
        }
        match Record::decode(bytes) {
            Some(record) => Some(DownRecord::Whole(record)),
            None => None,
        }
    }
}
