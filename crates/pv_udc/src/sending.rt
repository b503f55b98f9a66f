ghost use Rattle.std.specs.Prelude.{◌≡◌};
ghost use Rattle.pv_udc.specs.Replies.{down_of, down_of_item};

use pv_edits::{DownRecord, Record, Taken};
use pv_post::Item;

/// What a centre gets of a record: nothing but its place of charges and replies that were taken up, and
/// all of any other record.
pub fn down(rec: &Record) -> DownRecord
    ensures { result ≡ down_of rec.now }
{
    match rec {
        Record::Taken(taken) => down_of_taken(taken),
        _ => DownRecord::Whole(*rec),
    }
}

/// What a centre gets of an item that was taken up: the letters alone.
fn down_of_taken(taken: &Taken) -> DownRecord
    ensures { result ≡ down_of_item taken.now.item taken.now }
{
    match taken.item {
        Item::Mail(_) => DownRecord::Whole(Record::Taken(*taken)),
        _ => DownRecord::Blank,
    }
}
