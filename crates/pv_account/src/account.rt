ghost use Rattle.std.specs.Prelude.{◌≡◌, ◌++◌, ◌↔◌, IsNone, IfSome, IsTrue};
ghost use Rattle.pv_fields.specs.Out.{Puts};
ghost use Rattle.pv_fields.specs.Reading.{GivesFound, Missing, same};
ghost use Rattle.pv_account.specs.Profile.{IsProfile, digest_of, profile_bytes, profile_at};

use crate::groups::{ACCOUNT_GROUPS, Groups};
use crate::password::{DIGEST_BYTES, PASSWORD_BYTES, digest};
use pv_fields::{In, NoRoom, NoSpelling, Out};
use pv_page::AccountNo;
use std::marker::Model;

/// The greatest number of a retrieval centre.
pub const LAST_CENTRE: u8 = 3;

/// How many retrieval centres a network has at most.
pub const MAX_CENTRES: u8 = LAST_CENTRE + 1;

/// An account.
#[derive(Clone, Copy, Debug, PartialEq, Eq)]
pub struct Account {
    /// Its number.
    pub number: AccountNo,
    /// The [`digest`] of its password.
    pub digest: [u8; DIGEST_BYTES],
    /// The centre that it may call, at most [`LAST_CENTRE`].
    pub home: u8,
    /// The closed groups that it is in.
    pub groups: Groups<ACCOUNT_GROUPS>,
}

impl Model for Account {
    ghost use Rattle.pv_account.specs.Profile.{Profile, IsProfile};

    ghost Value = { Profile };

    ghost view = { λ a. record { number = a.number; digest = a.digest; home = a.home; groups = a.groups } };

    ghost invariant = { λ a. IsProfile
        (record { number = a.number; digest = a.digest; home = a.home; groups = a.groups }) };

    ghost inverse = { λ p. record {
      number = p.number;
      digest = p.digest;
      home = p.home;
      groups = p.groups;
    } };
}

impl Account {
    /// Whether this is the account's password, by its digest.
    pub fn matches(&self, password: &[u8; PASSWORD_BYTES]) -> bool
        ensures { IsTrue result ↔ (digest_of self.now.number password.now ≡ self.now.digest) }
    {
        digest(self.number, password) == self.digest
    }

    /// The account's parts are within their ranges, by its type. A call states this and has no effect.
    pub fn within(&self)
        ensures { IsProfile self.now }
    {
        let _ = &self.number;
    }

    /// Appends the account's spelling. [`NoRoom`] exactly when it does not fit; some of it may then have
    /// been appended.
    #[tactic(auto, unfolding(crate::specs::Profile::profile_bytes))]
    pub fn encode(&self, out: &mut Out) -> Result<(), NoRoom>
        ensures { Puts result out.old out.new (profile_bytes self.now) }
    {
        self.number.put(out)?;
        out.run(&self.digest)?;
        out.u8(self.home)?;
        self.groups.put(out)
    }

    /// Takes an account's spelling. `None` exactly when the bytes begin with no account's spelling, and
    /// then nothing is taken.
    pub fn decode(bytes: &mut In) -> Option<Account>
        ensures found { IfSome result (λ account. IsProfile account
            × (bytes.old ≡ profile_bytes account ++ bytes.new)) }
        ensures missing { IsNone result → Missing IsProfile profile_bytes bytes.old }
        ensures none { IsNone result → bytes.new ≡ bytes.old }
    {
        let mut ahead = bytes.fork();
        match Account::read(&mut ahead) {
            Ok(account) => {
                *bytes = ahead;
                Some(account)
            }
            Err(NoSpelling) => None,
        }
    }

    /// Takes an account's spelling, as a part of another.
    #[tactic(auto, unfolding(crate::specs::Profile::profile_at))]
    pub fn read(bytes: &mut In) -> Result<Account, NoSpelling>
        ensures { GivesFound same result (profile_at bytes.old) bytes.new }
    {
        let number = AccountNo::read(bytes)?;
        let digest = bytes.array::<DIGEST_BYTES>()?;
        let home = bytes.u8_within(0, LAST_CENTRE)?;
        let groups = Groups::read(bytes)?;
        Ok(Account {
            number,
            digest,
            home,
            groups,
        })
    }
}
