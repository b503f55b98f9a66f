use pv_page::{AccountNo, FrameName, PageNo};

/// What a record can be about.
#[derive(Clone, Copy, Debug, PartialEq, Eq)]
pub enum Subject {
    /// The frame of a name.
    Name(FrameName),
    /// An account.
    Account(AccountNo),
    /// The root of a lease.
    Root(PageNo),
    /// Who edits.
    Editor(AccountNo),
}
