ghost use Rattle.pv_session.specs.Charging.{IsSeatWish, IsStorable};

use pv_account::AccountNo;
use pv_charge::Line;
use pv_post::Item;
use pv_screen::Screen;

/// What a seat asks its centre to store.
#[derive(Clone, Copy, Debug, PartialEq, Eq)]
pub enum Wish {
    /// That this account has logged on.
    LogOn(AccountNo),
    /// This charge, for a priced frame.
    Charge(Line),
    /// What the caller sends.
    Post(Item),
    /// That the letter of this number is removed from this account's box.
    Remove(AccountNo, u64),
}

/// What the centre stored.
#[derive(Clone, Copy, Debug, PartialEq, Eq)]
pub enum Paid {
    /// A log-on, and the serial of the call.
    Serial(u64),
    /// What was owed otherwise.
    Stored,
}

/// Why a call ended.
#[derive(Clone, Copy, Debug, PartialEq, Eq)]
pub enum Why {
    /// The caller ended it.
    Finished,
    /// The last of his log-ons failed.
    Refused,
    /// He has had as many bytes or entries as a call may have.
    Spent,
    /// The centre was full.
    Full,
}

/// What is done for a caller.
#[derive(Clone, Copy, Debug, PartialEq, Eq)]
pub enum Step {
    /// Nothing.
    Quiet,
    /// He is sent this screen.
    Show(Screen),
    /// This is to be stored first.
    Owe(Wish),
    /// He is sent this screen, and the call is over.
    Ended(Why, Screen),
}

/// Whether a seat takes keys.
#[derive(Clone, Copy, Debug, PartialEq, Eq)]
pub enum Phase {
    /// It takes keys.
    Listening,
    /// It takes none until this is stored.
    Owing(Wish),
    /// The call is over.
    Over,
}

impl Wish {
    /// Its parts are within their ranges, by their types. A call states this and has no effect.
    pub fn within(&self)
        ensures { IsSeatWish self.now }
    {
        match self {
            Wish::LogOn(account) => {
                let _ = account.number();
            }
            Wish::Charge(line) => line.within(),
            Wish::Post(item) => item.within(),
            Wish::Remove(account, number) => {
                let _ = (account.number(), *number);
            }
        }
    }
}

impl Step {
    /// What is owed can be stored, by its type. A call states this and has no effect.
    pub(crate) fn within(&self)
        ensures { IsStorable self.now }
    {
        if let Step::Owe(wish) = self {
            wish.within();
        }
    }
}
