ghost use Rattle.std.specs.Prelude.{◌≡◌, ◌<◌, ◌≤◌, [], length, slice_get, option_copied, IfOk, IsTrue};
ghost use Rattle.std.specs.Vec.{vec_capacity};
ghost use Rattle.pv_irc.specs.History.{state_count, with_down, with_centre_record};
ghost use Rattle.pv_irc.specs.Deciding.{down_fits, centre_has_room, centre_judgement};
ghost use Rattle.pv_irc.specs.declared.record.CentreRecord.TheVariants as records;
ghost use Rattle.pv_irc.specs.declared.request.IrcRequest.TheVariants as requests;

use crate::delivery::deliver;
use crate::record::CentreRecord;
use crate::reply::IrcReply;
use crate::request::IrcRequest;
use pv_edits::{Base, DownRecord, MAX_ACCOUNTS, Sight};
use pv_node::Decision;
use pv_outside::Limits;
use pv_page::AccountNo;
use pv_post::{Item, Mailboxes, Removal};
use std::alloc::{AllocError, Global};
use std::marker::Model;

/// What a centre knows: its number, the base of the records that it has applied, its items, the letters
/// that wait for its callers, and its counts. All room is reserved when it is opened.
#[derive(Debug)]
pub struct IrcState {
    centre: u8,
    base: Base,
    limits: Limits,
    applied: u64,
    items: Vec<Item>,
    log_ons: u64,
    removals: Vec<Removal>,
    boxes: Mailboxes,
}

impl Model for IrcState {
    ghost use Rattle.pv_irc.specs.History.{CentreState};
    ghost use Rattle.pv_irc.specs.Room.{IsKeptCentre};

    ghost Value = { CentreState };

    ghost view = { λ s. record {
      centre = s.centre;
      limits = s.limits;
      applied = s.applied;
      edits = s.base.records;
      places = s.base.places;
      items = s.items.items;
      log_ons = s.log_ons;
      removals = s.removals.items;
    } };

    ghost invariant = { IsKeptCentre };
}

impl Drop for IrcState {
    /// One call frees all parts, so that a proof has one step where such a value ends.
    fn drop(self) {
        let IrcState {
            centre: _,
            base: _,
            limits: _,
            applied: _,
            items: _,
            log_ons: _,
            removals: _,
            boxes: _,
        } = self;
    }
}

impl IrcState {
    ghost use Rattle.pv_edits.specs.Sight.{sight_of, view_of};
    ghost use Rattle.pv_irc.specs.History.{centre_state_of, letters_for};

    /// The state of a centre that has stored nothing. Room for `limits.records` records is reserved.
    pub fn open(alloc: Global, centre: u8, limits: Limits) -> Result<IrcState, AllocError>
        ensures { IfOk result (λ state. state ≡ centre_state_of centre limits []) }
    {
        Ok(IrcState {
            centre,
            base: Base::open(alloc, limits)?,
            limits,
            applied: 0,
            items: Vec::with_capacity(alloc, limits.records as usize)?,
            log_ons: 0,
            removals: Vec::with_capacity(alloc, limits.records as usize)?,
            boxes: Mailboxes::open(alloc, MAX_ACCOUNTS)?,
        })
    }

    /// A copy of the state. Room for `limits.records` records is reserved in it too.
    pub fn copy(&self, alloc: Global) -> Result<IrcState, AllocError>
        ensures { IfOk result (λ copy. copy ≡ self.now) }
    {
        let room = self.limits.records as usize;
        Ok(IrcState {
            centre: self.centre,
            base: self.base.copy(alloc)?,
            limits: self.limits,
            applied: self.applied,
            items: list_with_room(alloc, &self.items, room)?,
            log_ons: self.log_ons,
            removals: list_with_room(alloc, &self.removals, room)?,
            boxes: self.boxes.copy(alloc)?,
        })
    }

    /// Decides on a request.
    ///
    /// A record that came down is to be stored if its place is the count of those that were applied and
    /// there is room for it. It is [`IrcReply::Old`] exactly below that count, [`IrcReply::Early`] exactly
    /// above, and [`IrcReply::NoRoom`] exactly at it if it is whole and has no room. A log-on and an item
    /// are always to be stored. A removal is to be stored if its letter waits, and is [`IrcReply::Nothing`]
    /// exactly if it does not.
    pub fn decide(&self, request: &IrcRequest) -> Decision<CentreRecord, IrcReply>
        ensures { result ≡ centre_judgement self.now request.now }
    {
        match request {
            IrcRequest::Apply { n, rec } => self.decide_record(*n, rec),
            IrcRequest::LogOn { account } => Decision::Store(
                CentreRecord::LogOn { account: *account },
                IrcReply::Serial(self.log_ons),
            ),
            IrcRequest::Keep { item } => Decision::Store(
                CentreRecord::Kept { item: *item },
                IrcReply::Kept(self.items()),
            ),
            IrcRequest::Remove { account, number } => self.decide_removal(*account, *number),
        }
    }

    /// Decides on a record that came down, with its place.
    fn decide_record(&self, n: u64, rec: &DownRecord) -> Decision<CentreRecord, IrcReply>
        ensures { result ≡ centre_judgement self.now (requests.Apply n rec.now) }
    {
        let count = self.applied();
        if n < count {
            return Decision::Answer(IrcReply::Old(count));
        }
        if n > count {
            return Decision::Answer(IrcReply::Early(count));
        }
        if !self.fits(rec) {
            return Decision::Answer(IrcReply::NoRoom(count));
        }
        Decision::Store(CentreRecord::Applied { n, rec: *rec }, IrcReply::Applied)
    }

    /// Decides on the removal of a letter.
    fn decide_removal(&self, account: AccountNo, number: u64) -> Decision<CentreRecord, IrcReply>
        ensures { result ≡ centre_judgement self.now (requests.Remove account number) }
    {
        if self.boxes.waits(account, number) {
            Decision::Store(CentreRecord::Removed { account, number }, IrcReply::Applied)
        } else {
            Decision::Answer(IrcReply::Nothing)
        }
    }

    /// Whether there is room for a record: if it is of a whole record that came down, what this adds is
    /// within the limits.
    pub fn has_room(&self, rec: &CentreRecord) -> bool
        ensures { result ≡ centre_has_room self.now rec.now }
    {
        match rec {
            CentreRecord::Applied { rec, .. } => self.fits(rec),
            _ => true,
        }
    }

    /// Whether there is room for what came down.
    fn fits(&self, rec: &DownRecord) -> bool
        ensures { result ≡ down_fits self.now rec.now }
    {
        match rec {
            DownRecord::Whole(edit) => self.base.has_room(edit),
            DownRecord::Blank => true,
        }
    }

    /// Takes a record in, for which there is room. There are fewer than the limit of records.
    pub fn absorb(&mut self, rec: &CentreRecord)
        requires room { IsTrue (centre_has_room self.old rec.now) }
        requires within { state_count self.old < self.old.limits.records }
        ensures { self.new ≡ with_centre_record self.old rec.now }
    {
        match rec {
            CentreRecord::Applied { rec, .. } => self.apply(rec),
            CentreRecord::LogOn { .. } => self.log_ons += 1,
            CentreRecord::Kept { item } => self.items.push_reserved(*item),
            CentreRecord::Removed { account, number } => self.remove(*account, *number),
        }
    }

    /// Takes a letter out of an account's box. There are fewer than the limit of records.
    fn remove(&mut self, account: AccountNo, number: u64)
        requires { state_count self.old < self.old.limits.records }
        ensures { self.new ≡ with_centre_record self.old (records.Removed account number) }
    {
        self.boxes.remove(account, number);
        self.removals.push_reserved(Removal {
            account,
            number,
            place: self.applied,
        });
    }

    /// Applies what came down.
    fn apply(&mut self, rec: &DownRecord)
        requires room { IsTrue (down_fits self.old rec.now) }
        requires within { state_count self.old < self.old.limits.records }
        ensures { self.new ≡ with_down self.old rec.now }
    {
        if let DownRecord::Whole(edit) = rec {
            deliver(&mut self.boxes, &self.base, self.centre, self.applied, edit);
            self.base.absorb(edit, self.applied);
        }
        self.applied += 1;
    }

    /// How many records of the edit list were applied: the place of the next one.
    pub fn applied(&self) -> u64
        ensures { result ≡ self.now.applied }
    {
        self.applied
    }

    /// How many items were kept: the number of the next one.
    pub fn items(&self) -> u64
        ensures { result ≡ length self.now.items }
    {
        self.items.len() as u64
    }

    /// The item of a number. `None` exactly from the count on.
    pub fn item_at(&self, k: u64) -> Option<&Item>
        ensures { option_copied result ≡ slice_get self.now.items k }
    {
        self.items.get(k as usize)
    }

    /// How many log-ons were counted: the serial of the next one.
    pub fn log_ons(&self) -> u64
        ensures { result ≡ self.now.log_ons }
    {
        self.log_ons
    }

    /// The base of the whole records that were applied, each with its place in the edit list.
    pub fn base(&self) -> &Base
        ensures records { result.now.records ≡ self.now.edits }
        ensures places { result.now.places ≡ self.now.places }
    {
        &self.base
    }

    /// What the centre shows to the caller who gave this account, or none.
    pub fn sight(&self, account: Option<AccountNo>) -> Sight<'_>
        ensures { view_of result
            ≡ sight_of self.now.edits (letters_for self.now) self.now.centre account }
    {
        Sight::new(&self.base, &self.boxes, self.centre, account)
    }
}

/// A copy of a list, with room for this many in all.
fn list_with_room<T: Copy>(alloc: Global, list: &[T], room: usize) -> Result<Vec<T>, AllocError>
    ensures same { IfOk result (λ copy. copy.items ≡ list.now) }
    ensures room { IfOk result (λ copy. room ≤ vec_capacity copy) }
{
    let mut copy = Vec::with_capacity(alloc, room)?;
    copy.extend_from_slice(list)?;
    Ok(copy)
}
