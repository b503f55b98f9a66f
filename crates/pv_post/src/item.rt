ghost use Rattle.std.specs.Prelude.{◌≡◌, ◌++◌, IsNone, IfSome};
ghost use Rattle.pv_fields.specs.Out.{Puts};
ghost use Rattle.pv_fields.specs.Reading.{GivesFound, Missing, same};
ghost use Rattle.pv_post.specs.Spelling.{IsItem, item_bytes, item_at};

use crate::mail::Mail;
use crate::reply::Reply;
use pv_charge::Line;
use pv_fields::{In, NoRoom, NoSpelling, Out};

/// What a centre sends to the Update Centre for a caller.
#[derive(Clone, Copy, Debug, PartialEq, Eq)]
pub enum Item {
    /// A priced frame that he was shown.
    Charge(Line),
    /// A response frame that he filled in.
    Reply(Reply),
    /// A letter to another account.
    Mail(Mail),
}

impl Item {
    /// The item's parts are within their ranges, by its type. A call states this and has no effect.
    pub fn within(&self)
        ensures { IsItem self.now }
    {
        match self {
            Item::Charge(line) => line.within(),
            Item::Reply(reply) => reply.within(),
            Item::Mail(mail) => mail.within(),
        }
    }

    /// Appends the item's spelling. [`NoRoom`] exactly when it does not fit; some of it may then have
    /// been appended.
    #[tactic(auto, unfolding(crate::specs::Spelling::item_bytes))]
    pub fn encode(&self, out: &mut Out) -> Result<(), NoRoom>
        ensures { Puts result out.old out.new (item_bytes self.now) }
    {
        match self {
            Item::Charge(line) => {
                out.u8(1)?;
                line.encode(out)
            }
            Item::Reply(reply) => {
                out.u8(2)?;
                reply.put(out)
            }
            Item::Mail(mail) => {
                out.u8(3)?;
                mail.put(out)
            }
        }
    }

    /// Takes an item's spelling. `None` exactly when the bytes begin with no item's spelling, and then
    /// nothing is taken.
    pub fn decode(bytes: &mut In) -> Option<Item>
        ensures found { IfSome result (λ item. IsItem item × (bytes.old ≡ item_bytes item ++ bytes.new)) }
        ensures missing { IsNone result → Missing IsItem item_bytes bytes.old }
        ensures none { IsNone result → bytes.new ≡ bytes.old }
    {
        let mut ahead = bytes.fork();
        match Item::read(&mut ahead) {
            Ok(item) => {
                *bytes = ahead;
                Some(item)
            }
            Err(NoSpelling) => None,
        }
    }

    /// Takes an item's spelling, as a part of another.
    #[tactic(auto, unfolding(crate::specs::Spelling::item_at))]
    pub fn read(bytes: &mut In) -> Result<Item, NoSpelling>
        ensures { GivesFound same result (item_at bytes.old) bytes.new }
    {
        match bytes.u8()? {
            1 => Ok(Item::Charge(Line::read(bytes)?)),
            2 => Ok(Item::Reply(Reply::read(bytes)?)),
            3 => Ok(Item::Mail(Mail::read(bytes)?)),
            _ => Err(NoSpelling),
        }
    }
}
