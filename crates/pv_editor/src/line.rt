use crate::change::FrameChange;
use pv_account::{AccountNo, PASSWORD_BYTES};
use pv_edits::EditWish;
use pv_page::FrameName;

/// What a line of an editor says.
#[derive(Clone, Copy, Debug, PartialEq, Eq)]
pub enum EditLine {
    /// `LOGON account password`
    LogOn {
        /// The account.
        account: AccountNo,
        /// Its password, as typed.
        password: [u8; PASSWORD_BYTES],
    },
    /// `NEW name`
    New {
        /// The name of the frame to make.
        name: FrameName,
    },
    /// `OPEN name`
    Open {
        /// The name of the frame to change.
        name: FrameName,
    },
    /// `TITLE`, `ROW`, `KIND`, `ROUTE`, `PRICE`, `GROUP`, `FIELD`
    Change {
        /// What is to change in the working frame.
        change: FrameChange,
    },
    /// `STORE q`
    Store {
        /// The number of the edit among the editor's.
        q: u32,
    },
    /// `DROP q name`, `LEASE q root account`, `ACCOUNT q account password home groups`
    Ask {
        /// The number of the edit among the editor's.
        q: u32,
        /// What is asked for.
        wish: EditWish,
    },
    /// `LAST`
    Last,
    /// `RESPONSES n`
    Responses {
        /// The first place that counts.
        from: u64,
    },
    /// `QUIT`
    Quit,
}
