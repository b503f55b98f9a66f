//! The spellings of the four kinds of edits, after their tags.

ghost use Rattle.pv_fields.specs.Out.{Puts};
ghost use Rattle.pv_fields.specs.Reading.{GivesFound, same};
ghost use Rattle.pv_edits.specs.Record.{editor_bytes, put_bytes, drop_bytes, account_edit_bytes, lease_bytes, put_at, drop_at, account_edit_at, lease_at};
ghost use Rattle.pv_edits.specs.Record.{frame_at_end};

use crate::record::Record;
use pv_account::Account;
use pv_fields::{In, NoRoom, NoSpelling, Out};
use pv_frame::CheckedFrame;
use pv_page::{AccountNo, FrameName, PageNo};

/// Appends who edits, and his number.
fn put_editor(editor: AccountNo, q: u32, out: &mut Out) -> Result<(), NoRoom>
    ensures { Puts result out.old out.new (editor_bytes editor q) }
{
    editor.put(out)?;
    out.u32(q)
}

/// Appends the rest of a `Put`.
#[tactic(auto, unfolding(crate::specs::Record::put_bytes))]
pub(crate) fn put_frame(
    editor: AccountNo,
    q: u32,
    name: &FrameName,
    frame: &CheckedFrame,
    out: &mut Out,
) -> Result<(), NoRoom>
    ensures { Puts result out.old out.new (put_bytes editor q name.now frame.now) }
{
    put_editor(editor, q, out)?;
    name.put(out)?;
    frame.frame().encode(out)
}

/// Appends the rest of a `Drop`.
#[tactic(auto, unfolding(crate::specs::Record::drop_bytes))]
pub(crate) fn put_drop(
    editor: AccountNo,
    q: u32,
    name: &FrameName,
    out: &mut Out,
) -> Result<(), NoRoom>
    ensures { Puts result out.old out.new (drop_bytes editor q name.now) }
{
    put_editor(editor, q, out)?;
    name.put(out)
}

/// Appends the rest of an `Account`.
#[tactic(auto, unfolding(crate::specs::Record::account_edit_bytes))]
pub(crate) fn put_account(
    editor: AccountNo,
    q: u32,
    account: &Account,
    out: &mut Out,
) -> Result<(), NoRoom>
    ensures { Puts result out.old out.new (account_edit_bytes editor q account.now) }
{
    put_editor(editor, q, out)?;
    account.encode(out)
}

/// Appends the rest of a `Lease`.
#[tactic(auto, unfolding(crate::specs::Record::lease_bytes))]
pub(crate) fn put_lease(
    editor: AccountNo,
    q: u32,
    root: PageNo,
    account: AccountNo,
    out: &mut Out,
) -> Result<(), NoRoom>
    ensures { Puts result out.old out.new (lease_bytes editor q root account) }
{
    put_editor(editor, q, out)?;
    root.put(out)?;
    account.put(out)
}

/// Takes the rest of a `Put`, which takes all the bytes that are left.
#[tactic(auto, unfolding(crate::specs::Record::put_at))]
pub(crate) fn read_put(bytes: &mut In) -> Result<Record, NoSpelling>
    ensures { GivesFound same result (put_at bytes.old) bytes.new }
{
    let editor = AccountNo::read(bytes)?;
    let q = bytes.u32()?;
    let name = FrameName::read(bytes)?;
    let frame = read_frame(bytes)?;
    Ok(Record::Put {
        editor,
        q,
        name,
        frame,
    })
}

/// Takes a frame's spelling, which must be all the bytes that are left.
#[tactic(auto, unfolding(crate::specs::Record::frame_of_bytes))]
fn read_frame(bytes: &mut In) -> Result<CheckedFrame, NoSpelling>
    ensures { GivesFound same result (frame_at_end bytes.old) bytes.new }
{
    CheckedFrame::decode(bytes.take_rest())
        .ok()
        .ok_or(NoSpelling)
}

/// Takes the rest of a `Drop`.
#[tactic(auto, unfolding(crate::specs::Record::drop_at))]
pub(crate) fn read_drop(bytes: &mut In) -> Result<Record, NoSpelling>
    ensures { GivesFound same result (drop_at bytes.old) bytes.new }
{
    let editor = AccountNo::read(bytes)?;
    let q = bytes.u32()?;
    let name = FrameName::read(bytes)?;
    Ok(Record::Drop { editor, q, name })
}

/// Takes the rest of an `Account`.
#[tactic(auto, unfolding(crate::specs::Record::account_edit_at))]
pub(crate) fn read_account(bytes: &mut In) -> Result<Record, NoSpelling>
    ensures { GivesFound same result (account_edit_at bytes.old) bytes.new }
{
    let editor = AccountNo::read(bytes)?;
    let q = bytes.u32()?;
    let account = Account::read(bytes)?;
    Ok(Record::Account { editor, q, account })
}

/// Takes the rest of a `Lease`.
#[tactic(auto, unfolding(crate::specs::Record::lease_at))]
pub(crate) fn read_lease(bytes: &mut In) -> Result<Record, NoSpelling>
    ensures { GivesFound same result (lease_at bytes.old) bytes.new }
{
    let editor = AccountNo::read(bytes)?;
    let q = bytes.u32()?;
    let root = PageNo::read(bytes)?;
    let account = AccountNo::read(bytes)?;
    Ok(Record::Lease {
        editor,
        q,
        root,
        account,
    })
}
