use pv_page::AccountNo;

/// A letter that was taken out of the box of an account.
#[derive(Clone, Copy, Debug, PartialEq, Eq)]
pub struct Removal {
    /// The account.
    pub account: AccountNo,
    /// The letter's number.
    pub number: u64,
    /// How many records of the edit list had come when the removal was stored.
    pub place: u64,
}
