ghost use Rattle.std.specs.Prelude.{◌≡◌, ℕ, ◌<◌, ◌≤◌, List, [], ◌∷◌, ◌++◌, length, slice_get, is_some, option_copied, IfOk, IfSome, IsTrue};
ghost use Rattle.std.specs.Vec.{vec_capacity};
ghost use Rattle.pv_frame.specs.Errors.{IsValid};
ghost use Rattle.pv_edits.specs.OpenPages.{open_frame_at, is_open_to};
ghost use Rattle.pv_edits.specs.Owner.{owner_of};
ghost use Rattle.pv_edits.specs.Room.{frame_count, frames_after, account_count, accounts_after, lease_count, leases_after, has_editor, frame_fits, account_fits, lease_fits, has_room};
ghost use Rattle.pv_edits.specs.Edits.{is_about, leases, last_index, frame_at, frame_in, account_at, account_in, last_of, number_in, operator_profile};
ghost use Rattle.pv_edits.specs.Standing.{empty_base, with_record_at};

use crate::owner::lot_of;
use crate::record::Record;
use crate::records::{Records, list_with_room};
use crate::room::{MAX_ACCOUNTS, MAX_LEASES, OPERATOR};
use crate::subject::Subject;
use pv_account::{Account, Groups, digest};
use pv_frame::Frame;
use pv_outside::Limits;
use pv_page::{AccountNo, FrameName, PageNo};
use std::alloc::{AllocError, Global};
use std::marker::Model;

/// The frames, the accounts, the leases and the editors' numbers of a list of records. All room is
/// reserved when it is opened. No call goes through the records: each finds the last one about a
/// subject under its key.
#[derive(Debug)]
pub struct Base {
    records: Records,
    places: Vec<u64>,
    operator: Account,
    limits: Limits,
    frames: u32,
    accounts: u32,
    leased: u32,
}

impl Model for Base {
    ghost use Rattle.pv_edits.specs.Standing.{BaseState};

    ghost Value = { BaseState };

    ghost use Rattle.pv_edits.specs.Keeping.{IsKeptBase};

    ghost view = { λ b. record {
      records = b.records.items;
      places = b.places.items;
      limits = b.limits;
    } };

    ghost invariant = { IsKeptBase };
}

impl Drop for Base {
    /// One call frees all parts, so that a proof has one step where such a value ends.
    fn drop(self) {
        let Base {
            records: _,
            places: _,
            operator: _,
            limits: _,
            frames: _,
            accounts: _,
            leased: _,
        } = self;
    }
}

impl Base {
    /// The base of no records. It has the operator and nothing else. Room for `limits.records` records
    /// is reserved.
    pub fn open(alloc: Global, limits: Limits) -> Result<Base, AllocError>
        ensures { IfOk result (λ base. base ≡ empty_base limits) }
    {
        let room = limits.records as usize;
        Ok(Base {
            records: Records::open(alloc, room)?,
            places: Vec::with_capacity(alloc, room)?,
            operator: operator(),
            limits,
            frames: 0,
            accounts: 1,
            leased: 0,
        })
    }

    /// A copy of the base. Room for `limits.records` records is reserved in it too.
    pub fn copy(&self, alloc: Global) -> Result<Base, AllocError>
        ensures { IfOk result (λ copy. copy ≡ self.now) }
    {
        let room = self.limits.records as usize;
        Ok(Base {
            records: self.records.copy(alloc)?,
            places: list_with_room(alloc, &self.places, room)?,
            operator: self.operator,
            limits: self.limits,
            frames: self.frames,
            accounts: self.accounts,
            leased: self.leased,
        })
    }

    /// Adds a record, with its place in the edit list. There is room for it.
    pub fn absorb(&mut self, rec: &Record, place: u64)
        requires fits { length self.old.records < self.old.limits.records }
        requires room { IsTrue (has_room self.old.limits self.old.records rec.now) }
        ensures { self.new ≡ with_record_at self.old rec.now place }
    {
        let frames = self.frames_after(rec);
        let accounts = self.accounts_after(rec);
        let leased = self.leases_after(rec);
        self.records.push(rec);
        self.places.push_reserved(place);
        self.frames = frames;
        self.accounts = accounts;
        self.leased = leased;
    }

    /// How many records were absorbed.
    pub fn count(&self) -> u64
        ensures { result ≡ length self.now.records }
    {
        self.records.len() as u64
    }

    /// The record at an index, in the order in which they were absorbed. `None` exactly from the count
    /// on.
    pub fn record_at(&self, index: u64) -> Option<&Record>
        ensures { option_copied result ≡ slice_get self.now.records index }
    {
        self.records.get(index as usize)
    }

    /// The limits that it was opened with.
    pub fn limits(&self) -> Limits
        ensures { result ≡ self.now.limits }
    {
        self.limits
    }

    /// The frame of a name. `None` exactly when it has none.
    pub fn get(&self, name: FrameName) -> Option<&Frame>
        ensures valid { IfSome result (λ frame. IsValid frame.now) }
        ensures frame { option_copied result ≡ frame_at self.now.records name }
    {
        let index = self.records.last_about(Subject::Name(name))?;
        frame_in(self.records.at(index))
    }

    /// The frame of a name, if it is open to the account: if its group is 0 or one of the account's.
    /// `None` exactly when there is no such frame.
    pub fn open_to(&self, account: &Account, name: FrameName) -> Option<&Frame>
        ensures valid { IfSome result (λ frame. IsValid frame.now) }
        ensures frame { option_copied result ≡ open_frame_at self.now.records account.now.groups name }
    {
        let frame = self.get(name)?;
        if is_open_to(account, frame) {
            Some(frame)
        } else {
            None
        }
    }

    /// The account of a number. `None` exactly when there is none.
    pub fn account(&self, number: AccountNo) -> Option<&Account>
        ensures { option_copied result ≡ account_at self.now.records number }
    {
        match self.records.last_about(Subject::Account(number)) {
            Some(index) => account_in(self.records.at(index)),
            None if number.number() == OPERATOR => Some(&self.operator),
            None => None,
        }
    }

    /// Whom a page belongs to: the account of the longest leased root whose digits are a prefix of the
    /// page's, by the last lease of that root, or the operator.
    pub fn owner(&self, page: PageNo) -> AccountNo
        ensures { result ≡ owner_of self.now.records page }
    {
        if self.leased == 0 {
            return self.operator.number;
        }
        match lot_of(&self.records, page) {
            Some(lot) => lot.account,
            None => self.operator.number,
        }
    }

    /// Whether there is room for a record: its editor is an account, if it has one, and what it adds is
    /// within the limits.
    pub fn has_room(&self, rec: &Record) -> bool
        ensures { result ≡ has_room self.now.limits self.now.records rec.now }
    {
        match rec {
            Record::Put { editor, name, .. } => self.has_editor(*editor) && self.frame_fits(*name),
            Record::Drop { editor, .. } => self.has_editor(*editor),
            Record::Account {
                editor,
                account,
                ..
            } => self.has_editor(*editor) && self.account_fits(account.number),
            Record::Lease { editor, root, .. } => {
                self.has_editor(*editor) && self.lease_fits(*root)
            }
            Record::Taken(_) => true,
        }
    }

    /// Whether the name has a frame, or there may be one frame more.
    pub fn frame_fits(&self, name: FrameName) -> bool
        ensures { result ≡ frame_fits self.now.limits self.now.records name }
    {
        self.has_frame(name) || self.frames < self.limits.frames
    }

    /// Whether there is the account, or there may be one more.
    pub fn account_fits(&self, number: AccountNo) -> bool
        ensures { result ≡ account_fits self.now.records number }
    {
        self.has_account(number) || self.accounts < MAX_ACCOUNTS
    }

    /// Whether the root is leased, or there may be one leased root more.
    pub fn lease_fits(&self, root: PageNo) -> bool
        ensures { result ≡ lease_fits self.now.records root }
    {
        self.has_lease(root) || self.leased < MAX_LEASES
    }

    /// An editor's last number, and the place of his last record. `None` exactly when he has none.
    pub fn last(&self, editor: AccountNo) -> Option<(u32, u64)>
        ensures { result ≡ last_of self.now.records self.now.places editor }
    {
        let index = self.records.last_about(Subject::Editor(editor))?;
        let q = number_in(self.records.at(index))?;
        Some((q, self.places[index]))
    }

    /// Whether the name has a frame.
    fn has_frame(&self, name: FrameName) -> bool
        ensures { result ≡ is_some (frame_at self.now.records name) }
    {
        self.get(name).is_some()
    }

    /// Whether there is the account.
    fn has_account(&self, number: AccountNo) -> bool
        ensures { result ≡ is_some (account_at self.now.records number) }
    {
        self.account(number).is_some()
    }

    /// Whether the root is leased.
    fn has_lease(&self, root: PageNo) -> bool
        ensures { result ≡ is_some (last_index (leases root) self.now.records) }
    {
        self.records.last_about(Subject::Root(root)).is_some()
    }

    /// Whether the editor is an account.
    fn has_editor(&self, editor: AccountNo) -> bool
        ensures { result ≡ has_editor self.now.records editor }
    {
        self.has_account(editor)
    }

    /// How many names have a frame after this record.
    fn frames_after(&self, rec: &Record) -> u32
        requires { IsTrue (has_room self.now.limits self.now.records rec.now) }
        ensures { result ≡ frames_after self.now.records (frame_count self.now.records) rec.now }
    {
        match rec {
            Record::Put { name, .. } => {
                if self.has_frame(*name) {
                    self.frames
                } else {
                    self.frames + 1
                }
            }
            Record::Drop { name, .. } => {
                if self.has_frame(*name) {
                    self.frames.saturating_sub(1)
                } else {
                    self.frames
                }
            }
            _ => self.frames,
        }
    }

    /// How many accounts there are after this record.
    fn accounts_after(&self, rec: &Record) -> u32
        requires { IsTrue (has_room self.now.limits self.now.records rec.now) }
        ensures { result ≡ accounts_after self.now.records (account_count self.now.records) rec.now }
    {
        match rec {
            Record::Account { account, .. } => {
                if self.has_account(account.number) {
                    self.accounts
                } else {
                    self.accounts + 1
                }
            }
            _ => self.accounts,
        }
    }

    /// How many roots are leased after this record.
    fn leases_after(&self, rec: &Record) -> u32
        requires { IsTrue (has_room self.now.limits self.now.records rec.now) }
        ensures { result ≡ leases_after self.now.records (lease_count self.now.records) rec.now }
    {
        match rec {
            Record::Lease { root, .. } => {
                if self.has_lease(*root) {
                    self.leased
                } else {
                    self.leased + 1
                }
            }
            _ => self.leased,
        }
    }
}

/// Whether the frame's group is 0 or one of the account's.
fn is_open_to(account: &Account, frame: &Frame) -> bool
    ensures { result ≡ is_open_to account.now.groups frame.now }
{
    frame.group == 0 || account.groups.has(frame.group)
}

/// The frame that the record gives its name.
fn frame_in(edit: &Record) -> Option<&Frame>
    ensures valid { IfSome result (λ frame. IsValid frame.now) }
    ensures frame { option_copied result ≡ frame_in edit.now }
{
    match edit {
        Record::Put { frame, .. } => Some(frame.frame()),
        _ => None,
    }
}

/// The account that the record makes.
fn account_in(edit: &Record) -> Option<&Account>
    ensures { option_copied result ≡ account_in edit.now }
{
    match edit {
        Record::Account { account, .. } => Some(account),
        _ => None,
    }
}

/// The number of the edit.
fn number_in(edit: &Record) -> Option<u32>
    ensures { result ≡ number_in edit.now }
{
    match edit {
        Record::Put { q, .. } => Some(*q),
        Record::Drop { q, .. } => Some(*q),
        Record::Account { q, .. } => Some(*q),
        Record::Lease { q, .. } => Some(*q),
        Record::Taken(_) => None,
    }
}

/// The operator, as he is at first: account 0000000000 with the password `0000`, at centre 0, in no
/// group.
fn operator() -> Account
    ensures { result ≡ operator_profile }
{
    let number = AccountNo::of_number(OPERATOR).unwrap();
    Account {
        number,
        digest: digest(number, b"0000"),
        home: 0,
        groups: Groups::none(),
    }
}
