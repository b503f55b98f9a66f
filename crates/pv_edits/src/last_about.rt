ghost use Rattle.std.specs.Prelude.{◌≡◌, ℕ, ◌+◌, ◌<◌, Some, IfOk, if◌then◌else◌};
ghost use Rattle.pv_page.specs.Names.{IsName};
ghost use Rattle.pv_edits.specs.declared.subject.Subject.{Subject};
ghost use Rattle.pv_edits.specs.Edits.{is_about};
ghost use Rattle.pv_edits.specs.Indexed.{IsSubject, AreReserved, none_about, index_about};
ghost use Rattle.pv_edits.specs.Indexed as Spec;

use crate::record::Record;
use crate::subject::Subject;
use pv_index::LastIndexes;
use pv_page::FrameName;
use std::alloc::{AllocError, Global};

/// The index of the last record about each subject.
#[derive(Debug, Drop)]
pub(crate) struct LastAbout {
    names: LastIndexes,
    accounts: LastIndexes,
    roots: LastIndexes,
    editors: LastIndexes,
}

impl LastAbout {
    /// There is no record. Room for the subjects of `room` records is reserved.
    pub(crate) fn open(alloc: Global, room: usize) -> Result<LastAbout, AllocError>
        ensures { IfOk result (λ last. last ≡ none_about room) }
    {
        Ok(LastAbout {
            names: LastIndexes::open(alloc, room)?,
            accounts: LastIndexes::open(alloc, room)?,
            roots: LastIndexes::open(alloc, room)?,
            editors: LastIndexes::open(alloc, room)?,
        })
    }

    /// A copy, with as much room.
    pub(crate) fn copy(&self) -> Result<LastAbout, AllocError>
        ensures { IfOk result (λ copy. copy ≡ self.now) }
    {
        Ok(LastAbout {
            names: self.names.copy()?,
            accounts: self.accounts.copy()?,
            roots: self.roots.copy()?,
            editors: self.editors.copy()?,
        })
    }

    /// The index of the last record about a subject.
    pub(crate) fn get(&self, subject: Subject) -> Option<usize>
        ensures index { result ≡ index_about self.now subject }

        // The subject is one that has a key, by its type.
        ensures valid { IsSubject subject }
    {
        match subject {
            Subject::Name(name) => self.names.get(name_key(name)),
            Subject::Account(number) => self.accounts.get(number.number()),
            Subject::Root(page) => self.roots.get(page.number() as u64),
            Subject::Editor(account) => self.editors.get(account.number()),
        }
    }

    /// The record at this index, after all others, is the last about its subjects from now on.
    pub(crate) fn note(&mut self, edit: &Record, index: usize)
        requires reserved { (room : ℕ) × AreReserved self.old room index × (index < room) }
        ensures noted { (subject : Subject) → IsSubject subject → index_about self.new subject
            ≡ (if is_about subject edit.now then Some index else index_about self.old subject) }
        ensures reserved { (room : ℕ) → AreReserved self.old room index
            → AreReserved self.new room (index + 1) }
    {
        match edit {
            Record::Put { editor, name, .. } => {
                self.names.set(name_key(*name), index);
                self.editors.set(editor.number(), index);
            }
            Record::Drop { editor, name, .. } => {
                self.names.set(name_key(*name), index);
                self.editors.set(editor.number(), index);
            }
            Record::Account {
                editor,
                account,
                ..
            } => {
                self.accounts.set(account.number.number(), index);
                self.editors.set(editor.number(), index);
            }
            Record::Lease { editor, root, .. } => {
                self.roots.set(root.number() as u64, index);
                self.editors.set(editor.number(), index);
            }
            Record::Taken(_) => {}
        }
    }
}

/// A number for a name, which no other name has.
fn name_key(name: FrameName) -> u64
    ensures value { result ≡ Spec.name_key name }
    ensures valid { IsName name }
{
    name.within();
    name.page.number() as u64 * LETTERS + name.letter as u64
}

/// More than any letter of a frame.
const LETTERS: u64 = 128;
