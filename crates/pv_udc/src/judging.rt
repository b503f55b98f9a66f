ghost use Rattle.std.specs.Prelude.{◌≡◌, ◌+◌, IfOk, IfErr, OnOk, None, Some};
ghost use Rattle.std.specs.Option.{option_map_or};
ghost use Rattle.pv_fields.specs.Refusals.{first_of, unless};
ghost use Rattle.pv_edits.specs.Taken.{IsCentre};
ghost use Rattle.pv_edits.specs.declared.wish.EditWish.TheVariants as wishes;
ghost use Rattle.pv_udc.specs.Requests.{HasCentre, edit_of};
ghost use Rattle.pv_udc.specs.Judgement.{next_number, kept_place, owner_refusal, number_refusal, missing_refusal, frames_refusal, accounts_refusal, frame_refusal, operator_refusal, leases_refusal, account_refusal, refusal_of, judge};
ghost use Rattle.pv_udc.specs.declared.request.UdcRequest.TheVariants as requests;

use crate::refusal::Refusal;
use crate::reply::UdcReply;
use crate::request::UdcRequest;
use crate::state::UdcState;
use pv_account::Account;
use pv_edits::{EditWish, MAX_ACCOUNTS, MAX_LEASES, OPERATOR, Record, Taken};
use pv_frame::{CheckedFrame, Frame};
use pv_node::Decision;
use pv_page::{AccountNo, FrameName, PageNo};
use pv_post::Item;

impl UdcState {
    /// Decides on a request.
    ///
    /// Of an edit: an editor who is no account is refused. The number of his last edit is
    /// [`UdcReply::Again`], whatever the wish is. Else the first [`Refusal`] that applies is returned. An
    /// edit that none applies to is to be stored at the end of the edit list.
    ///
    /// An item is to be stored if its number is the count of the centre's items that were taken up. It is
    /// [`UdcReply::Old`] exactly below, and [`UdcReply::Early`] exactly above.
    pub fn decide(&self, request: &UdcRequest) -> Decision<Record, UdcReply>
        requires { HasCentre request.now }
        ensures { result ≡ judge self.now.limits self.now.records request.now }
    {
        match request {
            UdcRequest::Edit { editor, q, wish } => self.decide_edit(*editor, *q, wish),
            UdcRequest::TakeUp { centre, k, item } => self.decide_item(*centre, *k, item),
        }
    }

    /// Decides on an editor's wish under a number.
    fn decide_edit(&self, editor: AccountNo, q: u32, wish: &EditWish) -> Decision<Record, UdcReply>
        ensures { result ≡ judge self.now.limits self.now.records (requests.Edit editor q wish.now) }
    {
        if !self.has_account(editor) {
            return Decision::Answer(UdcReply::Refused(Refusal::NotLoggedOn.code()));
        }
        if let Some(place) = self.kept_place(editor, q) {
            return Decision::Answer(UdcReply::Again(place));
        }
        match self.edit(editor, q, wish) {
            Ok(record) => Decision::Store(record, UdcReply::Stored(self.front())),
            Err(refusal) => Decision::Answer(UdcReply::Refused(refusal.code())),
        }
    }

    /// Decides on an item of a centre.
    fn decide_item(&self, centre: u8, k: u64, item: &Item) -> Decision<Record, UdcReply>
        requires { IsCentre centre }
        ensures { result ≡ judge self.now.limits self.now.records (requests.TakeUp centre k item.now) }
    {
        let count = self.taken(centre);
        if k < count {
            return Decision::Answer(UdcReply::Old(count));
        }
        if k > count {
            return Decision::Answer(UdcReply::Early(count));
        }
        let taken = Taken {
            centre,
            k,
            item: *item,
        };
        Decision::Store(Record::Taken(taken), UdcReply::Stored(self.front()))
    }

    /// The place of the editor's last edit, if it has this number.
    fn kept_place(&self, editor: AccountNo, q: u32) -> Option<u64>
        ensures { result ≡ kept_place self.now.records editor q }
    {
        match self.last(editor) {
            Some((last, place)) if last == q => Some(place),
            _ => None,
        }
    }

    /// The editor's next number: one more than his last, and 1 at first.
    pub fn next_number(&self, editor: AccountNo) -> u64
        ensures { result ≡ next_number self.now.records editor }
    {
        match self.last(editor) {
            Some((last, _)) => u64::from(last) + 1,
            None => 1,
        }
    }

    /// The record of a wish, or the first refusal that applies.
    fn edit(&self, editor: AccountNo, q: u32, wish: &EditWish) -> Result<Record, Refusal>
        ensures { result ≡ unless (refusal_of self.now.limits self.now.records editor q wish.now)
            (edit_of editor q wish.now) }
    {
        match wish {
            EditWish::Put { name, frame } => self.put(editor, q, *name, frame),
            EditWish::Drop { name } => self.drop_frame(editor, q, *name),
            EditWish::Account { account } => self.account(editor, q, account),
            EditWish::Lease { root, account } => self.lease(editor, q, *root, *account),
        }
    }

    /// The record that puts a frame under a name.
    fn put(
        &self,
        editor: AccountNo,
        q: u32,
        name: FrameName,
        frame: &Frame,
    ) -> Result<Record, Refusal>
        ensures { result ≡ unless (refusal_of self.now.limits self.now.records editor q
            (wishes.Put name frame.now)) (edit_of editor q (wishes.Put name frame.now)) }
    {
        self.check_owner(editor, name)?;
        self.check_number(editor, q)?;
        self.check_frame_room(name)?;
        let frame = checked(frame)?;
        Ok(Record::Put {
            editor,
            q,
            name,
            frame,
        })
    }

    /// The record that drops a name's frame.
    fn drop_frame(&self, editor: AccountNo, q: u32, name: FrameName) -> Result<Record, Refusal>
        ensures { result ≡ unless (refusal_of self.now.limits self.now.records editor q
            (wishes.Drop name)) (edit_of editor q (wishes.Drop name)) }
    {
        self.check_owner(editor, name)?;
        self.check_number(editor, q)?;
        self.check_frame(name)?;
        Ok(Record::Drop { editor, q, name })
    }

    /// The record that makes an account or replaces it.
    fn account(&self, editor: AccountNo, q: u32, account: &Account) -> Result<Record, Refusal>
        ensures { result ≡ unless (refusal_of self.now.limits self.now.records editor q
            (wishes.Account account.now)) (edit_of editor q (wishes.Account account.now)) }
    {
        self.check_number(editor, q)?;
        self.check_account_room(account)?;
        check_operator(editor)?;
        Ok(Record::Account {
            editor,
            q,
            account: *account,
        })
    }

    /// The record that leases a root to an account.
    fn lease(
        &self,
        editor: AccountNo,
        q: u32,
        root: PageNo,
        account: AccountNo,
    ) -> Result<Record, Refusal>
        ensures { result ≡ unless (refusal_of self.now.limits self.now.records editor q
            (wishes.Lease root account)) (edit_of editor q (wishes.Lease root account)) }
    {
        self.check_number(editor, q)?;
        check_operator(editor)?;
        self.check_lease_room(root)?;
        self.check_account(account)?;
        Ok(Record::Lease {
            editor,
            q,
            root,
            account,
        })
    }

    /// The page of the name is the editor's.
    fn check_owner(&self, editor: AccountNo, name: FrameName) -> Result<(), Refusal>
        ensures ok { OnOk result (owner_refusal self.now.records editor name ≡ None) }
        ensures err { IfErr result (λ refusal. owner_refusal self.now.records editor name ≡ Some refusal) }
    {
        if self.owner(name.page) == editor {
            Ok(())
        } else {
            Err(Refusal::NotOwner)
        }
    }

    /// The number is the editor's next one.
    fn check_number(&self, editor: AccountNo, q: u32) -> Result<(), Refusal>
        ensures ok { OnOk result (number_refusal self.now.records editor q ≡ None) }
        ensures err { IfErr result (λ refusal. number_refusal self.now.records editor q ≡ Some refusal) }
    {
        let wanted = self.next_number(editor);
        if u64::from(q) == wanted {
            Ok(())
        } else {
            Err(Refusal::BadNumber { wanted })
        }
    }

    /// The name has a frame.
    fn check_frame(&self, name: FrameName) -> Result<(), Refusal>
        ensures ok { OnOk result (missing_refusal self.now.records name ≡ None) }
        ensures err { IfErr result (λ refusal. missing_refusal self.now.records name ≡ Some refusal) }
    {
        if self.has_frame(name) {
            Ok(())
        } else {
            Err(Refusal::NoFrame)
        }
    }

    /// There is room for a frame of the name.
    fn check_frame_room(&self, name: FrameName) -> Result<(), Refusal>
        ensures ok { OnOk result (frames_refusal self.now.limits self.now.records name ≡ None) }
        ensures err { IfErr result (λ refusal.
            frames_refusal self.now.limits self.now.records name ≡ Some refusal) }
    {
        if self.frame_fits(name) {
            Ok(())
        } else {
            Err(Refusal::FramesFull {
                count: self.frame_limit(),
            })
        }
    }

    /// There is room for the account.
    fn check_account_room(&self, account: &Account) -> Result<(), Refusal>
        ensures ok { OnOk result (accounts_refusal self.now.records account.now.number ≡ None) }
        ensures err { IfErr result (λ refusal.
            accounts_refusal self.now.records account.now.number ≡ Some refusal) }
    {
        if self.account_fits(account.number) {
            Ok(())
        } else {
            Err(Refusal::AccountsFull {
                count: u64::from(MAX_ACCOUNTS),
            })
        }
    }

    /// There is room for a lease of the root.
    fn check_lease_room(&self, root: PageNo) -> Result<(), Refusal>
        ensures ok { OnOk result (leases_refusal self.now.records root ≡ None) }
        ensures err { IfErr result (λ refusal. leases_refusal self.now.records root ≡ Some refusal) }
    {
        if self.lease_fits(root) {
            Ok(())
        } else {
            Err(Refusal::LeasesFull {
                count: u64::from(MAX_LEASES),
            })
        }
    }

    /// There is the account that is to have the lease.
    fn check_account(&self, account: AccountNo) -> Result<(), Refusal>
        ensures ok { OnOk result (account_refusal self.now.records account ≡ None) }
        ensures err { IfErr result (λ refusal. account_refusal self.now.records account ≡ Some refusal) }
    {
        if self.has_account(account) {
            Ok(())
        } else {
            Err(Refusal::NoAccount)
        }
    }
}

/// The editor is the operator.
fn check_operator(editor: AccountNo) -> Result<(), Refusal>
    ensures ok { OnOk result (operator_refusal editor ≡ None) }
    ensures err { IfErr result (λ refusal. operator_refusal editor ≡ Some refusal) }
{
    if editor.number() == OPERATOR {
        Ok(())
    } else {
        Err(Refusal::OperatorOnly)
    }
}

/// The frame, if it is valid.
fn checked(frame: &Frame) -> Result<CheckedFrame, Refusal>
    ensures ok { OnOk result (frame_refusal frame.now ≡ None) }
    ensures value { IfOk result (λ checked. checked ≡ frame.now) }
    ensures err { IfErr result (λ refusal. frame_refusal frame.now ≡ Some refusal) }
{
    match CheckedFrame::of(*frame) {
        Ok(frame) => Ok(frame),
        Err(error) => Err(Refusal::BadFrame(error)),
    }
}
