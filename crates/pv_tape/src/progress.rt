use pv_editor::Working;

/// How far a run of a tape is.
#[derive(Clone, Copy, Debug, PartialEq, Eq)]
pub(crate) struct Progress {
    /// The frame that the lines make.
    pub(crate) working: Option<Working>,
    /// The number of the next line.
    pub(crate) line: u32,
    /// The numbers of its edits.
    pub(crate) numbers: Numbers,
}

/// How far the edits of a run of a tape are.
#[derive(Clone, Copy, Debug, PartialEq, Eq)]
pub(crate) struct Numbers {
    /// The number of the next edit among the account's.
    pub(crate) next: u32,
    /// The account's last number.
    pub(crate) last: u32,
    /// How many edits were stored.
    pub(crate) stored: u32,
}
