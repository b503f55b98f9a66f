ghost use Rattle.std.specs.Prelude.{◌≡◌, IsErr, IsNone, IfOk, IfErr, IfSome};
ghost use Rattle.pv_fields.specs.Out.{Puts};
ghost use Rattle.pv_post.specs.Spelling.{IsItem, item_bytes};
ghost use Rattle.pv_edits.specs.Taken.{IsCentre};
ghost use Rattle.pv_packet.specs.Packet.{centre_of, IsPacket, packet_bytes, Refuses};

use crate::error::PacketError;
use crate::head::{put_head, read_head};
use pv_edits::DownRecord;
use pv_fields::{In, NoRoom, Out};
use pv_post::Item;

/// What goes between the Update Centre and a centre.
///
/// The centre is at most [`LAST_CENTRE`](pv_account::LAST_CENTRE). The number of a record is its place in
/// the edit list, that of an item its place among the centre's items. An acknowledgement's number says
/// that all below it are stored.
#[derive(Clone, Copy, Debug, PartialEq, Eq)]
pub enum Packet {
    /// A record goes down.
    Down {
        /// The centre that it goes to.
        centre: u8,
        /// The record's number.
        number: u64,
        /// What the centre gets of the record.
        rec: DownRecord,
    },
    /// An item goes up.
    Up {
        /// The centre that it comes from.
        centre: u8,
        /// The item's number.
        number: u64,
        /// The item.
        item: Item,
    },
    /// Records that went down are stored. This goes up.
    DownHeard {
        /// The centre that has them.
        centre: u8,
        /// All below this number are stored.
        number: u64,
    },
    /// Items that went up are stored. This goes down.
    UpHeard {
        /// The centre whose items they are.
        centre: u8,
        /// All below this number are stored.
        number: u64,
    },
}

impl Packet {
    /// The packet's parts are within their ranges, by their types, if its centre is. A call states this
    /// and has no effect.
    pub fn within(&self)
        ensures { IsCentre (centre_of self.now) → IsPacket self.now }
    {
        match self {
            Packet::Down { number, rec, .. } => {
                let _number = *number;
                rec.within();
            }
            Packet::Up { number, item, .. } => {
                let _number = *number;
                item.within();
            }
            Packet::DownHeard { number, .. } | Packet::UpHeard { number, .. } => {
                let _number = *number;
            }
        }
    }

    /// Appends the packet's spelling. [`NoRoom`] exactly when it does not fit; some of it may then have
    /// been appended. What is written of a centre over the last one, `decode` refuses.
    #[tactic(auto, unfolding(crate::specs::Packet::packet_bytes))]
    pub fn encode(&self, out: &mut Out) -> Result<(), NoRoom>
        ensures { Puts result out.old out.new (packet_bytes self.now) }
    {
        match self {
            Packet::Down {
                centre,
                number,
                rec,
            } => {
                put_head(1, *centre, *number, out)?;
                rec.encode(out)
            }
            Packet::Up {
                centre,
                number,
                item,
            } => {
                put_head(2, *centre, *number, out)?;
                item.encode(out)
            }
            Packet::DownHeard { centre, number } => put_head(3, *centre, *number, out),
            Packet::UpHeard { centre, number } => put_head(4, *centre, *number, out),
        }
    }

    /// The packet that the bytes spell, all of the bytes. If they spell none, the error is the first that
    /// applies, in the order of [`PacketError`].
    #[tactic(auto, unfolding(crate::specs::Packet::packet_bytes))]
    pub fn decode(bytes: &[u8]) -> Result<Packet, PacketError>
        ensures found { IfOk result (λ packet. IsPacket packet × (bytes.now ≡ packet_bytes packet)) }
        ensures missing { IsErr result → (packet : Packet) → IsPacket packet → bytes.now ≡ packet_bytes packet
            → ⊥ }
        ensures refused { IfErr result (λ error. Refuses bytes.now error) }
    {
        let (head, rest) = match read_head(bytes) {
            Ok(read) => read,
            Err(error) => return Err(error),
        };
        let (centre, number) = (head.centre, head.number);
        match head.kind {
            1 => match DownRecord::decode(rest) {
                Some(rec) => Ok(Packet::Down {
                    centre,
                    number,
                    rec,
                }),
                None => Err(PacketError::Body),
            },
            2 => match item_of(rest) {
                Some(item) => Ok(Packet::Up {
                    centre,
                    number,
                    item,
                }),
                None => Err(PacketError::Body),
            },
            3 => Ok(Packet::DownHeard { centre, number }),
            _ => Ok(Packet::UpHeard { centre, number }),
        }
    }
}

/// The item that the bytes spell, all of the bytes.
fn item_of(bytes: &[u8]) -> Option<Item>
    ensures found { IfSome result (λ item. IsItem item × (bytes.now ≡ item_bytes item)) }
    ensures missing { IsNone result → (item : Item) → IsItem item → bytes.now ≡ item_bytes item → ⊥ }
{
    let mut from = In::new(bytes);
    let item = Item::decode(&mut from)?;
    if from.left() == 0 { Some(item) } else { None }
}
