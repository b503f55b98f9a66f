ghost use Rattle.std.specs.Prelude.{◌≡◌, ◌/◌, nat_lt, None, Some, if◌then◌else◌};
ghost use Rattle.pv_page.specs.Names.{IsPage};
ghost use Rattle.pv_edits.specs.Owner.{lot_in, lot_at, lot_of};

use crate::record::Record;
use crate::records::Records;
use crate::subject::Subject;
use pv_page::{AccountNo, PageNo};

/// A leased root, and whose it is.
#[derive(Clone, Copy, Debug, PartialEq, Eq)]
pub struct Lot {
    /// The root.
    pub root: PageNo,
    /// The account.
    pub account: AccountNo,
}

/// The lot that a page is in. `None` exactly when no leased root covers it. The longest root that can
/// cover it is the page itself, and the shortest its first digit.
pub(crate) fn lot_of(records: &Records, page: PageNo) -> Option<Lot>
    ensures { result ≡ lot_of records.now.items page }
{
    records.within();
    let mut next = Some(page);
    while let Some(root) = next {
        if let Some(lot) = lot_at(records, root) {
            return Some(lot);
        }
        next = without_last_digit(root);
    }
    None
}

/// The lot of a root, by its last lease.
fn lot_at(records: &Records, root: PageNo) -> Option<Lot>
    ensures { result ≡ lot_at records.now.items root }
{
    let index = records.last_about(Subject::Root(root))?;
    lot_in(records.at(index))
}

/// The lot that the record gives.
fn lot_in(edit: &Record) -> Option<Lot>
    ensures { result ≡ lot_in edit.now }
{
    match edit {
        Record::Lease { root, account, .. } => Some(Lot {
            root: *root,
            account: *account,
        }),
        _ => None,
    }
}

/// The page without its last digit. `None` exactly when that is its only digit.
fn without_last_digit(page: PageNo) -> Option<PageNo>
    ensures value { result ≡ (if nat_lt page 10 then None else Some (page / 10)) }
    ensures within { IsPage page }
{
    let number = page.number();
    if number < 10 {
        None
    } else {
        PageNo::of_number(number / 10)
    }
}
