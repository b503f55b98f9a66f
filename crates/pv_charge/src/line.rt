ghost use Rattle.std.specs.Prelude.{◌≡◌, ◌++◌, IsNone, IfSome};
ghost use Rattle.pv_fields.specs.Out.{Puts};
ghost use Rattle.pv_fields.specs.Reading.{GivesFound, Missing, same};
ghost use Rattle.pv_charge.specs.Line.{IsCharge, charge_bytes, charge_at};

use pv_fields::{In, NoRoom, NoSpelling, Out};
use pv_page::{AccountNo, FrameName};
use std::marker::Model;

/// The greatest price of a frame, in pence.
pub const MAX_PRICE: u16 = 99;

/// The last moment that a record can name, in seconds since 1970: the end of the year 2099.
pub const LAST_MOMENT: u32 = 4_102_444_799;

/// How many bytes a line's spelling has.
pub const LINE_BYTES: usize = 31;

/// A charge line: one priced frame that a caller asked for. It is stored before the frame is shown.
#[derive(Clone, Copy, Debug, PartialEq, Eq)]
pub struct Line {
    /// The call, by its number at its centre.
    pub serial: u64,
    /// The line's number in that call, from 0.
    pub number: u32,
    /// Who pays.
    pub account: AccountNo,
    /// The frame.
    pub name: FrameName,
    /// The price in pence, at most [`MAX_PRICE`].
    pub price: u16,
    /// When he asked for it, in seconds since 1970, at most [`LAST_MOMENT`].
    pub moment: u32,
}

impl Model for Line {
    ghost use Rattle.pv_charge.specs.Line.{Charge, IsCharge};

    ghost Value = { Charge };

    ghost view = { λ l. record {
      serial = l.serial;
      number = l.number;
      account = l.account;
      name = l.name;
      price = l.price;
      moment = l.moment;
    } };

    ghost invariant = { λ l. IsCharge (record {
      serial = l.serial;
      number = l.number;
      account = l.account;
      name = l.name;
      price = l.price;
      moment = l.moment;
    }) };

    ghost inverse = { λ c. record {
      serial = c.serial;
      number = c.number;
      account = c.account;
      name = c.name;
      price = c.price;
      moment = c.moment;
    } };
}

impl Line {
    /// The charge line's parts are within their ranges, by its type. A call states this and has no effect.
    pub fn within(&self)
        ensures { IsCharge self.now }
    {
        let _ = &self.number;
    }

    /// Appends the line's spelling. [`NoRoom`] exactly when it does not fit; some of it may then have
    /// been appended.
    #[tactic(auto, unfolding(crate::specs::Line::charge_bytes))]
    pub fn encode(&self, out: &mut Out) -> Result<(), NoRoom>
        ensures { Puts result out.old out.new (charge_bytes self.now) }
    {
        out.u64(self.serial)?;
        out.u32(self.number)?;
        self.account.put(out)?;
        self.name.put(out)?;
        out.u16(self.price)?;
        out.u32(self.moment)
    }

    /// Takes a line's spelling. `None` exactly when the bytes begin with no line's spelling, and then
    /// nothing is taken.
    pub fn decode(bytes: &mut In) -> Option<Line>
        ensures found { IfSome result (λ line. IsCharge line × (bytes.old ≡ charge_bytes line ++ bytes.new)) }
        ensures missing { IsNone result → Missing IsCharge charge_bytes bytes.old }
        ensures none { IsNone result → bytes.new ≡ bytes.old }
    {
        let mut ahead = bytes.fork();
        match Line::read(&mut ahead) {
            Ok(line) => {
                *bytes = ahead;
                Some(line)
            }
            Err(NoSpelling) => None,
        }
    }

    /// Takes a line's spelling, as a part of another.
    #[tactic(auto, unfolding(crate::specs::Line::charge_at))]
    pub fn read(bytes: &mut In) -> Result<Line, NoSpelling>
        ensures { GivesFound same result (charge_at bytes.old) bytes.new }
    {
        let serial = bytes.u64()?;
        let number = bytes.u32()?;
        let account = AccountNo::read(bytes)?;
        let name = FrameName::read(bytes)?;
        let price = bytes.u16_to(MAX_PRICE)?;
        let moment = bytes.u32_to(LAST_MOMENT)?;
        Ok(Line {
            serial,
            number,
            account,
            name,
            price,
            moment,
        })
    }
}
