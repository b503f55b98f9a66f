//! How the letter of a mail that came down gets into its box.
ghost use Rattle.std.specs.Prelude.{◌≡◌, ℕ, option_copied};
ghost use Rattle.pv_post.specs.Boxes.{letters_of};
ghost use Rattle.pv_post.specs.Waiting.{letters_with_arrival};
ghost use Rattle.pv_edits.specs.Letters.{is_home, mail_of, mail_in, letter_brought};
ghost use Rattle.pv_irc.specs.Room.{HaveRoom};

use pv_edits::{Base, Record};
use pv_page::AccountNo;
use pv_post::{Item, Letter, Mail, Mailboxes};

/// Puts the letter of a record, which has this number, into the box of its account, if the centre is his
/// home by the base of the records before it.
pub(crate) fn deliver(boxes: &mut Mailboxes, base: &Base, centre: u8, number: u64, edit: &Record)
    requires { HaveRoom boxes.old base.now.records }
    ensures letters { (account : ℕ) → letters_of boxes.new account
        ≡ letters_with_arrival (letters_of boxes.old account)
        (letter_brought centre account base.now.records number edit.now) }
    ensures room { HaveRoom boxes.new base.now.records }
{
    if let Some(mail) = mail_in(edit) {
        if is_home(base, centre, mail.to) {
            boxes.arrive(mail.to, &Letter::of_mail(number, mail));
        }
    }
}

/// Whether there is the account, and the centre is its home.
fn is_home(base: &Base, centre: u8, account: AccountNo) -> bool
    ensures { result ≡ is_home base.now.records centre account }
{
    match base.account(account) {
        Some(account) => account.home == centre,
        None => false,
    }
}

/// The mail that a record took up.
fn mail_in(edit: &Record) -> Option<&Mail>
    ensures { option_copied result ≡ mail_in edit.now }
{
    match edit {
        Record::Taken(taken) => mail_of(&taken.item),
        _ => None,
    }
}

/// The mail in an item.
fn mail_of(item: &Item) -> Option<&Mail>
    ensures { option_copied result ≡ mail_of item.now }
{
    match item {
        Item::Mail(mail) => Some(mail),
        _ => None,
    }
}
