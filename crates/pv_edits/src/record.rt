ghost use Rattle.std.specs.Prelude.{◌≡◌, IsNone, IfSome};
ghost use Rattle.pv_fields.specs.Out.{Puts};
ghost use Rattle.pv_fields.specs.Reading.{GivesFound, GivesAll, same, whole};
ghost use Rattle.pv_edits.specs.Record.{IsEditor, IsRecord, record_bytes, record_at, record_after};

use crate::parts::{
    put_account, put_drop, put_frame, put_lease, read_account, read_drop, read_lease, read_put,
};
use crate::taken::Taken;
use pv_account::Account;
use pv_fields::{In, NoRoom, NoSpelling, Out};
use pv_frame::CheckedFrame;
use pv_page::{AccountNo, FrameName, PageNo};

/// What the Update Centre stores: an edit, or an item that it took up from a centre.
#[derive(Clone, Copy, Debug, PartialEq, Eq)]
pub enum Record {
    /// A name has this frame from now on.
    Put {
        /// Who edits.
        editor: AccountNo,
        /// The number of the edit among the editor's.
        q: u32,
        /// The frame's name.
        name: FrameName,
        /// The frame.
        frame: CheckedFrame,
    },
    /// A name has no frame from now on.
    Drop {
        /// Who edits.
        editor: AccountNo,
        /// The number of the edit among the editor's.
        q: u32,
        /// The frame's name.
        name: FrameName,
    },
    /// There is this account from now on.
    Account {
        /// Who edits.
        editor: AccountNo,
        /// The number of the edit among the editor's.
        q: u32,
        /// The account.
        account: Account,
    },
    /// A page, and those that begin with its digits, belong to an account from now on.
    Lease {
        /// Who edits.
        editor: AccountNo,
        /// The number of the edit among the editor's.
        q: u32,
        /// The page.
        root: PageNo,
        /// The account.
        account: AccountNo,
    },
    /// An item was taken up from a centre.
    Taken(Taken),
}

impl Record {
    /// The record's parts are within their ranges, by its type. A call states this and has no effect.
    pub fn within(&self)
        ensures { IsRecord self.now }
    {
        match self {
            Record::Put {
                editor,
                q,
                name,
                frame,
            } => {
                within_editor(*editor, *q);
                name.within();
                frame.within();
            }
            Record::Drop { editor, q, name } => {
                within_editor(*editor, *q);
                name.within();
            }
            Record::Account { editor, q, account } => {
                within_editor(*editor, *q);
                account.within();
            }
            Record::Lease {
                editor,
                q,
                root,
                account,
            } => {
                within_editor(*editor, *q);
                let _numbers = (root.number(), account.number());
            }
            Record::Taken(taken) => taken.within(),
        }
    }

    /// Appends the record's spelling. [`NoRoom`] exactly when it does not fit; some of it may then have
    /// been appended.
    #[tactic(auto, unfolding(crate::specs::Record::record_bytes))]
    pub fn encode(&self, out: &mut Out) -> Result<(), NoRoom>
        ensures { Puts result out.old out.new (record_bytes self.now) }
    {
        match self {
            Record::Put {
                editor,
                q,
                name,
                frame,
            } => {
                out.u8(1)?;
                put_frame(*editor, *q, name, frame, out)
            }
            Record::Drop { editor, q, name } => {
                out.u8(2)?;
                put_drop(*editor, *q, name, out)
            }
            Record::Account { editor, q, account } => {
                out.u8(3)?;
                put_account(*editor, *q, account, out)
            }
            Record::Lease {
                editor,
                q,
                root,
                account,
            } => {
                out.u8(4)?;
                put_lease(*editor, *q, *root, *account, out)
            }
            Record::Taken(taken) => {
                out.u8(5)?;
                taken.put(out)
            }
        }
    }

    /// The record that the bytes spell, all of the bytes. `None` exactly when they spell none.
    pub fn decode(bytes: &[u8]) -> Option<Record>
        ensures found { IfSome result (λ edit. IsRecord edit × (bytes.now ≡ record_bytes edit)) }
        ensures missing { IsNone result → (edit : Record) → IsRecord edit → bytes.now ≡ record_bytes edit
            → ⊥ }
    {
        match read_all(bytes) {
            Ok(record) => Some(record),
            Err(NoSpelling) => None,
        }
    }

    /// Takes the rest of a record's spelling, after its tag.
    pub(crate) fn read_after(tag: u8, bytes: &mut In) -> Result<Record, NoSpelling>
        ensures { GivesFound same result (record_after tag bytes.old) bytes.new }
    {
        match tag {
            1 => read_put(bytes),
            2 => read_drop(bytes),
            3 => read_account(bytes),
            4 => read_lease(bytes),
            5 => Ok(Record::Taken(Taken::read(bytes)?)),
            _ => Err(NoSpelling),
        }
    }
}

/// An editor and the number of his edit are within their ranges, by their types.
fn within_editor(editor: AccountNo, _q: u32)
    ensures { IsEditor editor _q }
{
    let _number = editor.number();
}

/// The record that the bytes spell, all of the bytes.
#[tactic(auto, unfolding(crate::specs::Record::record_at))]
fn read_all(bytes: &[u8]) -> Result<Record, NoSpelling>
    ensures { GivesAll same result (whole record_at bytes.now) }
{
    let mut from = In::new(bytes);
    let tag = from.u8()?;
    let record = Record::read_after(tag, &mut from)?;
    if from.left() == 0 {
        Ok(record)
    } else {
        Err(NoSpelling)
    }
}
