ghost use Rattle.std.specs.Prelude.{◌≡◌, [], IsNone, IfSome};
ghost use Rattle.pv_fields.specs.Out.{Puts};
ghost use Rattle.pv_fields.specs.Reading.{GivesFound, GivesAll, same, whole};
ghost use Rattle.pv_irc.specs.Record.{IsCentreRecord, centre_bytes, centre_record_at, applied_bytes, applied_at, removed_bytes, removed_at, down_at_end};

use pv_edits::DownRecord;
use pv_fields::{In, NoRoom, NoSpelling, Out};
use pv_page::AccountNo;
use pv_post::Item;

/// What a centre stores.
#[derive(Clone, Copy, Debug, PartialEq, Eq)]
pub enum CentreRecord {
    /// A record of the edit list was applied.
    Applied {
        /// Its place in the edit list.
        n: u64,
        /// What the centre got of it.
        rec: DownRecord,
    },
    /// A caller logged on.
    LogOn {
        /// His account.
        account: AccountNo,
    },
    /// An item was kept.
    Kept {
        /// The item.
        item: Item,
    },
    /// A letter was taken out of the box of an account.
    Removed {
        /// The account.
        account: AccountNo,
        /// The letter's number.
        number: u64,
    },
}

impl CentreRecord {
    /// Appends the record's spelling. [`NoRoom`] exactly when it does not fit; some of it may then have
    /// been appended.
    #[tactic(auto, unfolding(crate::specs::Record::centre_bytes))]
    pub fn encode(&self, out: &mut Out) -> Result<(), NoRoom>
        ensures { Puts result out.old out.new (centre_bytes self.now) }
    {
        match self {
            CentreRecord::Applied { n, rec } => {
                out.u8(1)?;
                put_applied(*n, rec, out)
            }
            CentreRecord::LogOn { account } => {
                out.u8(2)?;
                account.put(out)
            }
            CentreRecord::Kept { item } => {
                out.u8(3)?;
                item.encode(out)
            }
            CentreRecord::Removed { account, number } => {
                out.u8(4)?;
                put_removed(*account, *number, out)
            }
        }
    }

    /// The record that the bytes spell, all of the bytes. `None` exactly when they spell none.
    pub fn decode(bytes: &[u8]) -> Option<CentreRecord>
        ensures found { IfSome result (λ rec. IsCentreRecord rec × (bytes.now ≡ centre_bytes rec)) }
        ensures missing { IsNone result → (rec : CentreRecord) → IsCentreRecord rec
            → bytes.now ≡ centre_bytes rec → ⊥ }
    {
        match read_all(bytes) {
            Ok(rec) => Some(rec),
            Err(NoSpelling) => None,
        }
    }
}

/// Appends the rest of an `Applied`.
#[tactic(auto, unfolding(crate::specs::Record::applied_bytes))]
fn put_applied(n: u64, rec: &DownRecord, out: &mut Out) -> Result<(), NoRoom>
    ensures { Puts result out.old out.new (applied_bytes n rec.now) }
{
    out.u64(n)?;
    rec.encode(out)
}

/// Appends the rest of a `Removed`.
#[tactic(auto, unfolding(crate::specs::Record::removed_bytes))]
fn put_removed(account: AccountNo, number: u64, out: &mut Out) -> Result<(), NoRoom>
    ensures { Puts result out.old out.new (removed_bytes account number) }
{
    account.put(out)?;
    out.u64(number)
}

/// Takes the rest of a `Removed`.
#[tactic(auto, unfolding(crate::specs::Record::removed_at))]
fn read_removed(bytes: &mut In) -> Result<CentreRecord, NoSpelling>
    ensures { GivesFound same result (removed_at bytes.old) bytes.new }
{
    let account = AccountNo::read(bytes)?;
    let number = bytes.u64()?;
    Ok(CentreRecord::Removed { account, number })
}

/// Takes the rest of an `Applied`.
#[tactic(auto, unfolding(crate::specs::Record::applied_at))]
fn read_applied(bytes: &mut In) -> Result<CentreRecord, NoSpelling>
    ensures { GivesFound same result (applied_at bytes.old) bytes.new }
{
    let n = bytes.u64()?;
    let rec = read_down(bytes.take_rest())?;
    Ok(CentreRecord::Applied { n, rec })
}

/// What came down that the bytes spell, all of the bytes.
fn read_down(bytes: &[u8]) -> Result<DownRecord, NoSpelling>
    ensures { GivesFound same result (down_at_end bytes.now) [] }
{
    match DownRecord::decode(bytes) {
        Some(rec) => Ok(rec),
        None => Err(NoSpelling),
    }
}

/// The record that the bytes spell, all of the bytes.
#[tactic(auto, unfolding(crate::specs::Record::centre_record_at))]
fn read_all(bytes: &[u8]) -> Result<CentreRecord, NoSpelling>
    ensures { GivesAll same result (whole centre_record_at bytes.now) }
{
    let mut from = In::new(bytes);
    let rec = match from.u8()? {
        1 => read_applied(&mut from)?,
        2 => CentreRecord::LogOn {
            account: AccountNo::read(&mut from)?,
        },
        3 => CentreRecord::Kept {
            item: Item::read(&mut from)?,
        },
        4 => read_removed(&mut from)?,
        _ => return Err(NoSpelling),
    };
    if from.left() == 0 {
        Ok(rec)
    } else {
        Err(NoSpelling)
    }
}
