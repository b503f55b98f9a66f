ghost use Rattle.std.specs.Prelude.{◌≡◌, ℕ, ◌<◌, ◌≤◌, List, [], ◌∷◌, ◌++◌, length, Some, IfOk, IfSome};
ghost use Rattle.pv_index.specs.Indexes.{index_under};
ghost use Rattle.pv_charge.specs.declared.line.TheConstants.{MAX_PRICE};
ghost use Rattle.pv_edits.specs.declared.record.Record.{Record};
ghost use Rattle.pv_udc.specs.Bills.{bill_of, charge_in};
ghost use Rattle.pv_udc.specs.Charges.{AreChargesOf, MayGrow, before_at};

use pv_charge::{Bill, Line};
use pv_edits::Record;
use pv_index::LastIndexes;
use pv_page::AccountNo;
use pv_post::Item;
use std::alloc::{AllocError, Global};

/// What is kept of a record. Both parts are empty if it brought no charge line.
#[derive(Clone, Copy, Debug, PartialEq, Eq)]
pub(crate) struct Entry {
    /// The place of the line before this one, of the same account.
    before: Option<u64>,
    /// The bill of that account, up to this line.
    bill: Bill,
}

/// The charge lines of a list of records, by the places of the records. An account's lines are linked,
/// from its last line back to its first, and each has the bill so far. So a bill is found without a
/// search, and adding a record changes no other.
#[derive(Debug, Drop)]
pub(crate) struct Charges {
    entries: Vec<Entry>,
    last: LastIndexes,
}

impl Charges {
    /// There is no record. Room for `room` records is reserved.
    pub(crate) fn open(alloc: Global, room: usize) -> Result<Charges, AllocError>
        ensures { IfOk result (λ charges. AreChargesOf charges room []) }
    {
        Ok(Charges {
            entries: Vec::with_capacity(alloc, room)?,
            last: LastIndexes::open(alloc, room)?,
        })
    }

    /// A copy, with as much room.
    pub(crate) fn copy(&self, alloc: Global, room: usize) -> Result<Charges, AllocError>
        ensures { (records : List Record) → AreChargesOf self.now room records
            → IfOk result (λ copy. AreChargesOf copy room records) }
    {
        let mut entries = Vec::with_capacity(alloc, room)?;
        entries.extend_from_slice(&self.entries)?;
        Ok(Charges {
            entries,
            last: self.last.copy()?,
        })
    }

    /// Adds a record. There is room for it.
    pub(crate) fn push(&mut self, rec: &Record)
        requires { MayGrow self.old }
        ensures { (room : ℕ) (records : List Record) → AreChargesOf self.old room records
            → length records < room → AreChargesOf self.new room (records ++ rec.now ∷ []) }
    {
        match charge_in(rec) {
            Some(line) => self.push_line(&line),
            None => self.entries.push_reserved(Entry {
                before: None,
                bill: Bill::new(),
            }),
        }
    }

    /// Adds a record that brought a charge line.
    fn push_line(&mut self, line: &Line)
        requires grow { MayGrow self.old }
        requires price { line.now.price ≤ MAX_PRICE }
        ensures { (room : ℕ) (records : List Record) (edit : Record) → AreChargesOf self.old room records
            → length records < room → charge_in edit ≡ Some line.now
            → AreChargesOf self.new room (records ++ edit ∷ []) }
    {
        let before = self.last(line.account);
        let mut bill = self.bill(line.account);
        bill.add(line);
        self.last.set(line.account.number(), self.entries.len());
        self.entries.push_reserved(Entry { before, bill });
    }

    /// The bill of an account.
    pub(crate) fn bill(&self, account: AccountNo) -> Bill
        requires { (room : ℕ) × (records : List Record) × AreChargesOf self.now room records }
        ensures { (room : ℕ) (records : List Record) → AreChargesOf self.now room records
            → result ≡ bill_of records account }
    {
        match self.last.get(account.number()) {
            Some(place) => self.entries[place].bill,
            None => Bill::new(),
        }
    }

    /// The place of an account's last charge line.
    pub(crate) fn last(&self, account: AccountNo) -> Option<u64>
        ensures { result ≡ index_under self.now.last.pairs account }
    {
        match self.last.get(account.number()) {
            Some(place) => Some(place as u64),
            None => None,
        }
    }

    /// The place of the charge line before the one at a place, of the same account.
    pub(crate) fn before(&self, place: u64) -> Option<u64>
        ensures { result ≡ before_at self.now.entries.items place }
    {
        self.entries.get(place as usize)?.before
    }
}

/// The charge line that a record brought.
fn charge_in(rec: &Record) -> Option<Line>
    ensures line { result ≡ charge_in rec.now }
    ensures price { IfSome result (λ line. line.price ≤ MAX_PRICE) }
{
    match rec {
        Record::Taken(taken) => match taken.item {
            Item::Charge(line) => {
                line.within();
                Some(line)
            }
            _ => None,
        },
        _ => None,
    }
}
