ghost use Rattle.std.specs.Prelude.{◌≡◌};
ghost use Rattle.std.specs.List.{list_all};
ghost use Rattle.pv_fields.specs.Out.{Puts};
ghost use Rattle.pv_fields.specs.Reading.{GivesFound, same};
ghost use Rattle.pv_post.specs.Item.{IsMessage, is_text_cell, message_bytes, message_at};

use pv_charge::LAST_MOMENT;
use pv_fields::{In, NoRoom, NoSpelling, Out};
use pv_page::AccountNo;
use std::marker::Model;

/// How many cells the text of a letter has: six rows of 40.
pub const TEXT_CELLS: usize = 240;

/// The first cell that a letter may show, a space.
pub const FIRST_CELL: u8 = b' ';

/// The last cell that a letter may show.
pub const LAST_CELL: u8 = b'~';

/// A letter from one account to another.
#[derive(Clone, Copy, Debug, PartialEq, Eq)]
pub struct Mail {
    /// Who sent it.
    pub sender: AccountNo,
    /// Who is to have it.
    pub to: AccountNo,
    /// When it was sent, in seconds since 1970, at most [`LAST_MOMENT`].
    pub moment: u32,
    /// Its text: cells from [`FIRST_CELL`] to [`LAST_CELL`].
    pub text: [u8; TEXT_CELLS],
}

impl Model for Mail {
    ghost use Rattle.pv_post.specs.Item.{Message, IsMessage};

    ghost Value = { Message };

    ghost view = { λ m. record { sender = m.sender; to = m.to; moment = m.moment; text = m.text } };

    ghost invariant = { λ m. IsMessage
        (record { sender = m.sender; to = m.to; moment = m.moment; text = m.text }) };

    ghost inverse = { λ m. record { sender = m.sender; to = m.to; moment = m.moment; text = m.text } };
}

impl Mail {
    /// The letter's parts are within their ranges, by its type. A call states this and has no effect.
    pub fn within(&self)
        ensures { IsMessage self.now }
    {
        let _ = &self.moment;
    }

    /// Appends the letter's spelling. [`NoRoom`] exactly when it does not fit.
    #[tactic(auto, unfolding(crate::specs::Item::message_bytes))]
    pub fn put(&self, out: &mut Out) -> Result<(), NoRoom>
        ensures { Puts result out.old out.new (message_bytes self.now) }
    {
        self.sender.put(out)?;
        self.to.put(out)?;
        out.u32(self.moment)?;
        out.run(&self.text)
    }

    /// Takes a letter's spelling. [`NoSpelling`] if the bytes begin with none.
    #[tactic(auto, unfolding(crate::specs::Item::message_at))]
    pub fn read(from: &mut In) -> Result<Mail, NoSpelling>
        ensures { GivesFound same result (message_at from.old) from.new }
    {
        let sender = AccountNo::read(from)?;
        let to = AccountNo::read(from)?;
        let moment = from.u32_to(LAST_MOMENT)?;
        let text = from.array::<TEXT_CELLS>()?;
        if !are_text_cells(&text) {
            return Err(NoSpelling);
        }
        Ok(Mail {
            sender,
            to,
            moment,
            text,
        })
    }
}

/// Whether a letter may show each of the cells.
pub fn are_text_cells(text: &[u8]) -> bool
    ensures { result ≡ list_all is_text_cell text.now }
{
    text.iter()
        .all(|cell| FIRST_CELL <= *cell && *cell <= LAST_CELL)
}
