use pv_edits::DownRecord;
use pv_page::AccountNo;
use pv_post::Item;

/// What a centre is asked.
#[derive(Clone, Copy, Debug, PartialEq, Eq)]
pub enum IrcRequest {
    /// A record of the edit list came down.
    Apply {
        /// Its place in the edit list.
        n: u64,
        /// What the centre gets of it.
        rec: DownRecord,
    },
    /// A caller logs on.
    LogOn {
        /// His account.
        account: AccountNo,
    },
    /// An item is to be kept, and sent up.
    Keep {
        /// The item.
        item: Item,
    },
    /// A letter is to be taken out of the box of an account.
    Remove {
        /// The account.
        account: AccountNo,
        /// The letter's number.
        number: u64,
    },
}
