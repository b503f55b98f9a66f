ghost use Rattle.std.specs.Prelude.{◌≡◌, option_copied, IfSome};
ghost use Rattle.pv_frame.specs.Errors.{IsValid};
ghost use Rattle.pv_post.specs.Boxes.{letters_of};
ghost use Rattle.pv_edits.specs.Sight.{caller_account, sight_of, view_of};

use crate::base::Base;
use pv_account::Account;
use pv_frame::Frame;
use pv_page::{AccountNo, FrameName};
use pv_post::{Letter, Mailboxes};

/// What a centre shows to one caller: his account, if the centre is its home, the frames that are open
/// to it, and its oldest letter. To a caller without such an account it shows no frame and no letter.
#[derive(Clone, Copy, Debug)]
pub struct Sight<'a> {
    base: &'a Base,
    boxes: &'a Mailboxes,
    account: Option<&'a Account>,
}

impl<'a> Sight<'a> {
    /// What the centre of this base and these mailboxes shows to the caller who gave this account, or
    /// none.
    pub fn new(
        base: &'a Base,
        boxes: &'a Mailboxes,
        centre: u8,
        account: Option<AccountNo>,
    ) -> Sight<'a>
        ensures { view_of result ≡ sight_of base.now.records (letters_of boxes.now) centre account }
    {
        Sight {
            base,
            boxes,
            account: account_at_home(base, centre, account),
        }
    }

    /// The caller's account. `None` exactly when he gave none, there is none, or its home is another centre.
    pub fn account(&self) -> Option<&'a Account>
        ensures { option_copied result ≡ (view_of self.now).account }
    {
        self.account
    }

    /// The frame of a name. `None` exactly when there is none or it is closed to the caller: the two are
    /// one answer.
    pub fn frame(&self, name: FrameName) -> Option<&'a Frame>
        ensures valid { IfSome result (λ frame. IsValid frame.now) }
        ensures frame { option_copied result ≡ (view_of self.now).pages name }
    {
        self.base.open_to(self.account?, name)
    }

    /// The letter that has waited longest for the caller. `None` exactly when none waits, or he has no
    /// account here.
    pub fn letter(&self) -> Option<&'a Letter>
        ensures { option_copied result ≡ (view_of self.now).letter }
    {
        self.boxes.oldest(self.account?.number)
    }
}

/// The account of this number, if its home is the centre. `None` without a number, too.
fn account_at_home(base: &Base, centre: u8, account: Option<AccountNo>) -> Option<&Account>
    ensures { option_copied result ≡ caller_account base.now.records centre account }
{
    let account = base.account(account?)?;
    if account.home == centre {
        Some(account)
    } else {
        None
    }
}
