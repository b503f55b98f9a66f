use pv_account::Account;
use pv_frame::Frame;
use pv_page::{AccountNo, FrameName, PageNo};

/// What an editor asks for. The frame of a `Put` need not be valid: the Update Centre judges it.
#[derive(Clone, Copy, Debug, PartialEq, Eq)]
pub enum EditWish {
    /// A name is to have this frame.
    Put {
        /// The frame's name.
        name: FrameName,
        /// The frame.
        frame: Frame,
    },
    /// A name is to have no frame.
    Drop {
        /// The frame's name.
        name: FrameName,
    },
    /// There is to be this account.
    Account {
        /// The account.
        account: Account,
    },
    /// A page, and those that begin with its digits, are to belong to an account.
    Lease {
        /// The page.
        root: PageNo,
        /// The account.
        account: AccountNo,
    },
}
