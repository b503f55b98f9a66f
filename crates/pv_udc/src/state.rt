ghost use Rattle.std.specs.Prelude.{◌≡◌, ℕ, ◌+◌, ◌<◌, ◌≤◌, ◌^◌, List, [], length, slice_get, slice_index_or, nat_le, is_some, option_copied, IfOk, IsTrue};
ghost use Rattle.pv_edits.specs.Edits.{is_of_centre, frame_at, account_at, taken_of};
ghost use Rattle.pv_edits.specs.Owner.{owner_of};
ghost use Rattle.pv_edits.specs.Room.{frame_fits, account_fits, lease_fits, has_room};
ghost use Rattle.pv_edits.specs.Taken.{IsCentre};
ghost use Rattle.pv_edits.specs.declared.record.Record.{Record};
ghost use Rattle.pv_udc.specs.Counts.{counted_on};

use crate::charges::Charges;
use crate::replies::ReplyPlaces;
use pv_account::{LAST_CENTRE, MAX_CENTRES};
use pv_edits::{Base, Record};
use pv_outside::Limits;
use pv_page::{AccountNo, FrameName, PageNo};
use pv_post::Item;
use std::alloc::{AllocError, Global};
use std::marker::Model;

/// How many centres there can be.
const CENTRES: usize = MAX_CENTRES as usize;

/// What the Update Centre knows: its edit list, what follows from it, how many items of each centre were
/// taken up, and the charge lines and replies among them. All room is reserved when it is opened.
#[derive(Debug)]
pub struct UdcState {
    base: Base,
    limits: Limits,
    count: u64,
    counts: [u64; CENTRES],
    charges: Charges,
    replies: ReplyPlaces,
}

impl Model for UdcState {
    ghost use Rattle.pv_udc.specs.EditList.{EditList};
    ghost use Rattle.pv_udc.specs.Keeping.{IsKeptList};

    ghost Value = { EditList };

    ghost view = { λ s. record { limits = s.limits; records = s.base.records } };

    ghost invariant = { λ s. IsKeptList s.base s.limits s.count s.counts s.charges s.replies };
}

impl Drop for UdcState {
    /// One call frees all parts, so that a proof has one step where such a value ends.
    fn drop(self) {
        let UdcState {
            base: _,
            limits: _,
            count: _,
            counts: _,
            charges: _,
            replies: _,
        } = self;
    }
}

impl UdcState {
    ghost use Rattle.pv_udc.specs.EditList.{empty_list, with_record, all_places};
    ghost use Rattle.pv_udc.specs.Judgement.{last_edit};
    ghost use Rattle.pv_udc.specs.Charges.{AreChargesOf};
    ghost use Rattle.pv_udc.specs.Replies.{brings_reply_to, reply_place};
    ghost use Rattle.pv_udc.specs.ReplyPlaces.{ArePlacesOf};

    /// The state of no records. Room for `limits.records` records is reserved.
    pub fn open(alloc: Global, limits: Limits) -> Result<UdcState, AllocError>
        ensures { IfOk result (λ state. state ≡ empty_list limits) }
    {
        Ok(UdcState {
            base: Base::open(alloc, limits)?,
            limits,
            count: 0,
            counts: [0; CENTRES],
            charges: Charges::open(alloc, limits.records as usize)?,
            replies: ReplyPlaces::open(alloc, limits.records as usize)?,
        })
    }

    /// A copy of the state. Room for `limits.records` records is reserved in it too.
    pub fn copy(&self, alloc: Global) -> Result<UdcState, AllocError>
        ensures { IfOk result (λ copy. copy ≡ self.now) }
    {
        Ok(UdcState {
            base: self.base.copy(alloc)?,
            limits: self.limits,
            count: self.count,
            counts: self.counts,
            charges: self.charges.copy(alloc, self.limits.records as usize)?,
            replies: self.replies.copy(alloc, self.limits.records as usize)?,
        })
    }

    /// Whether there is room for a record: its editor is an account, if it has one, and what it adds is
    /// within the limits.
    pub fn has_room(&self, rec: &Record) -> bool
        ensures { result ≡ has_room self.now.limits self.now.records rec.now }
    {
        self.base.has_room(rec)
    }

    /// Takes a record in, at its place: the next one, which is below the limit of records.
    pub fn absorb(&mut self, rec: &Record, place: u64)
        requires room { IsTrue (has_room self.old.limits self.old.records rec.now) }
        requires next { place ≡ length self.old.records }
        requires within { place < self.old.limits.records }
        ensures { self.new ≡ with_record self.old rec.now }
    {
        self.base.absorb(rec, place);
        self.count += 1;
        count_item(&mut self.counts, rec);
        self.charges.push(rec);
        self.replies.push(rec, place);
    }

    /// The base of the records: frames, accounts, leases and editors' numbers.
    pub fn base(&self) -> &Base
        ensures records { result.now.records ≡ self.now.records }
        ensures places { result.now.places ≡ all_places self.now.records }
    {
        &self.base
    }

    /// How many records there are: the place of the next one.
    pub fn front(&self) -> u64
        ensures value { result ≡ length self.now.records }
        ensures within { length self.now.records ≤ self.now.limits.records }
    {
        self.count
    }

    /// Whether there are as many records as the limit, so that none can be absorbed.
    pub fn is_full(&self) -> bool
        ensures { result ≡ nat_le self.now.limits.records (length self.now.records) }
    {
        u64::from(self.limits.records) <= self.count
    }

    /// How many items of a centre were taken up, 0 of a centre that there cannot be.
    pub fn taken(&self, centre: u8) -> u64
        ensures { result ≡ taken_of self.now.records centre }
    {
        count_at(&self.counts, centre)
    }

    /// The record at a place. `None` exactly from the count of records on.
    pub fn rec_at(&self, n: u64) -> Option<&Record>
        ensures { option_copied result ≡ slice_get self.now.records n }
    {
        self.base.record_at(n)
    }

    /// The first place, from this one on, of a record that brought a reply to a page that is the editor's
    /// now. `None` exactly when there is none.
    pub fn reply_for(&self, editor: AccountNo, from: u64) -> Option<u64>
        ensures { result ≡ reply_place self.now.records editor from }
    {
        let places = self.replies().starting_at(from);
        for place in places {
            if self.brings_reply_to(editor, *place) {
                return Some(*place);
            }
        }
        None
    }

    /// Whether the record at a place brought a reply to a page that is the editor's now.
    fn brings_reply_to(&self, editor: AccountNo, place: u64) -> bool
        requires { place < length self.now.records }
        ensures { (rec : Record) → slice_get self.now.records place ≡ Some rec →
            result ≡ brings_reply_to self.now.records editor rec }
    {
        match self.rec_at(place) {
            Some(Record::Taken(taken)) => match taken.item {
                Item::Reply(reply) => self.owner(reply.name.page) == editor,
                _ => false,
            },
            _ => false,
        }
    }

    /// Whom a page belongs to.
    pub(crate) fn owner(&self, page: PageNo) -> AccountNo
        ensures { result ≡ owner_of self.now.records page }
    {
        self.base.owner(page)
    }

    /// An editor's last number, and the place of his last edit.
    pub(crate) fn last(&self, editor: AccountNo) -> Option<(u32, u64)>
        ensures { result ≡ last_edit self.now.records editor }
    {
        self.base.last(editor)
    }

    /// Whether there is the account.
    pub(crate) fn has_account(&self, number: AccountNo) -> bool
        ensures { result ≡ is_some (account_at self.now.records number) }
    {
        self.base.account(number).is_some()
    }

    /// Whether the name has a frame.
    pub(crate) fn has_frame(&self, name: FrameName) -> bool
        ensures { result ≡ is_some (frame_at self.now.records name) }
    {
        self.base.get(name).is_some()
    }

    /// Whether the name has a frame, or there may be one frame more.
    pub(crate) fn frame_fits(&self, name: FrameName) -> bool
        ensures { result ≡ frame_fits self.now.limits self.now.records name }
    {
        self.base.frame_fits(name)
    }

    /// Whether there is the account, or there may be one more.
    pub(crate) fn account_fits(&self, number: AccountNo) -> bool
        ensures { result ≡ account_fits self.now.records number }
    {
        self.base.account_fits(number)
    }

    /// Whether the root is leased, or there may be one leased root more.
    pub(crate) fn lease_fits(&self, root: PageNo) -> bool
        ensures { result ≡ lease_fits self.now.records root }
    {
        self.base.lease_fits(root)
    }

    /// The charge lines among the records.
    pub(crate) fn charges(&self) -> &Charges
        ensures charged { AreChargesOf result.now self.now.limits.records self.now.records }
        ensures within { length self.now.records ≤ self.now.limits.records }
    {
        &self.charges
    }

    /// The places of the replies among the records.
    fn replies(&self) -> &ReplyPlaces
        ensures { ArePlacesOf result.now self.now.limits.records self.now.records }
    {
        &self.replies
    }

    /// How many frames there may be.
    pub(crate) fn frame_limit(&self) -> u64
        ensures { result ≡ self.now.limits.frames }
    {
        u64::from(self.limits.frames)
    }
}

/// The count of a centre, 0 of a centre that there cannot be.
fn count_at(counts: &[u64; CENTRES], centre: u8) -> u64
    ensures { result ≡ slice_index_or counts.now centre 0 }
{
    match counts.get(usize::from(centre)) {
        Some(count) => *count,
        None => 0,
    }
}

/// Counts an item that was taken up, if the record is of one.
fn count_item(counts: &mut [u64; CENTRES], rec: &Record)
    requires { (centre : ℕ) → slice_index_or counts.old centre 0 < 2 ^ 32 }
    ensures { (centre : ℕ) → slice_index_or counts.new centre 0
        ≡ counted_on (is_of_centre centre rec.now) (slice_index_or counts.old centre 0) }
{
    if let Record::Taken(taken) = rec {
        counts[usize::from(taken.centre)] += 1;
    }
}
