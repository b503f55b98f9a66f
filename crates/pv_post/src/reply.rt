ghost use Rattle.pv_fields.specs.Out.{Puts};
ghost use Rattle.pv_fields.specs.Reading.{GivesFound, same};
ghost use Rattle.pv_post.specs.Item.{IsResponse, response_bytes, response_at};

use crate::fields::Fields;
use pv_charge::LAST_MOMENT;
use pv_fields::{In, NoRoom, NoSpelling, Out};
use pv_page::{AccountNo, FrameName};
use std::marker::Model;

/// A response frame that a caller filled in.
#[derive(Clone, Copy, Debug, PartialEq, Eq)]
pub struct Reply {
    /// Who filled it in.
    pub account: AccountNo,
    /// The frame.
    pub name: FrameName,
    /// When, in seconds since 1970, at most [`LAST_MOMENT`].
    pub moment: u32,
    /// What was keyed into its fields.
    pub fields: Fields,
}

impl Model for Reply {
    ghost use Rattle.pv_post.specs.Item.{Response, IsResponse};

    ghost Value = { Response };

    ghost view = { λ r. record { account = r.account; name = r.name; moment = r.moment; fields = r.fields } };

    ghost invariant = { λ r. IsResponse
        (record { account = r.account; name = r.name; moment = r.moment; fields = r.fields }) };

    ghost inverse = { λ r. record {
      account = r.account;
      name = r.name;
      moment = r.moment;
      fields = r.fields;
    } };
}

impl Reply {
    /// The reply's parts are within their ranges, by its type. A call states this and has no effect.
    pub fn within(&self)
        ensures { IsResponse self.now }
    {
        let _ = &self.moment;
    }

    /// Appends the reply's spelling. [`NoRoom`] exactly when it does not fit.
    #[tactic(auto, unfolding(crate::specs::Item::response_bytes))]
    pub fn put(&self, out: &mut Out) -> Result<(), NoRoom>
        ensures { Puts result out.old out.new (response_bytes self.now) }
    {
        self.account.put(out)?;
        self.name.put(out)?;
        out.u32(self.moment)?;
        self.fields.put(out)
    }

    /// Takes a reply's spelling. [`NoSpelling`] if the bytes begin with none.
    #[tactic(auto, unfolding(crate::specs::Item::response_at))]
    pub fn read(from: &mut In) -> Result<Reply, NoSpelling>
        ensures { GivesFound same result (response_at from.old) from.new }
    {
        let account = AccountNo::read(from)?;
        let name = FrameName::read(from)?;
        let moment = from.u32_to(LAST_MOMENT)?;
        let fields = Fields::read(from)?;
        Ok(Reply {
            account,
            name,
            moment,
            fields,
        })
    }
}
