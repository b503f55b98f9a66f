ghost use Rattle.std.specs.Prelude.{◌≡◌};
ghost use Rattle.pv_udc.specs.Codes.{code_number, shown_number, code_of};

use crate::reply::Code;
use pv_frame::FrameError;

/// Why an edit is refused, in the order of the numbers: of several reasons the first is given.
#[derive(Clone, Copy, Debug, PartialEq, Eq)]
pub enum Refusal {
    /// The editor is no account.
    NotLoggedOn,
    /// The page belongs to another account.
    NotOwner,
    /// The number is not the editor's next one.
    BadNumber {
        /// The editor's next number.
        wanted: u64,
    },
    /// The name has no frame that could be dropped.
    NoFrame,
    /// The name is new, and there are as many frames as the limit.
    FramesFull {
        /// The limit.
        count: u64,
    },
    /// The account is new, and there are as many as the limit.
    AccountsFull {
        /// The limit.
        count: u64,
    },
    /// The frame is not valid.
    BadFrame(FrameError),
    /// Only the operator makes accounts and leases pages.
    OperatorOnly,
    /// The root is new, and there are as many leased roots as the limit.
    LeasesFull {
        /// The limit.
        count: u64,
    },
    /// The page is leased to no account.
    NoAccount,
}

impl Refusal {
    /// The number of the refusal, 1 to 10 in the order above.
    pub fn number(&self) -> u8
        ensures { result ≡ code_number self.now }
    {
        match self {
            Refusal::NotLoggedOn => 1,
            Refusal::NotOwner => 2,
            Refusal::BadNumber { .. } => 3,
            Refusal::NoFrame => 4,
            Refusal::FramesFull { .. } => 5,
            Refusal::AccountsFull { .. } => 6,
            Refusal::BadFrame(_) => 7,
            Refusal::OperatorOnly => 8,
            Refusal::LeasesFull { .. } => 9,
            Refusal::NoAccount => 10,
        }
    }

    /// The number that the refusal's text shows, 0 if it shows none: the number that is wanted, the limit
    /// that is met, or the number of the frame's error.
    pub fn shown(&self) -> u64
        ensures { result ≡ shown_number self.now }
    {
        match self {
            Refusal::BadNumber { wanted } => *wanted,
            Refusal::FramesFull { count } => *count,
            Refusal::AccountsFull { count } => *count,
            Refusal::BadFrame(error) => u64::from(error.number()),
            Refusal::LeasesFull { count } => *count,
            _ => 0,
        }
    }

    /// The code that goes to the editor.
    pub fn code(&self) -> Code
        ensures { result ≡ code_of self.now }
    {
        Code {
            code: self.number(),
            shown: self.shown(),
        }
    }
}
