ghost use Rattle.std.specs.Prelude.{◌≡◌, ℕ, ◌<◌, ◌≤◌, length, slice_get, is_some, Some, option_copied, IfOk, IfSome, IsTrue};
ghost use Rattle.std.specs.Vec.{vec_capacity};
ghost use Rattle.pv_page.specs.Names.{IsPage};
ghost use Rattle.pv_edits.specs.Edits.{is_about, last_index};
ghost use Rattle.pv_edits.specs.Indexed.{no_records, with_one_more};
ghost use Rattle.pv_edits.specs.Owner.{lot_at};

use crate::last_about::LastAbout;
use crate::record::Record;
use crate::subject::Subject;
use std::alloc::{AllocError, Global};
use std::marker::Model;

/// Records, oldest first. The last one about a subject is found without a search. All room is reserved
/// by `open`.
#[derive(Debug, Drop)]
pub(crate) struct Records {
    items: Vec<Record>,
    last: LastAbout,
    room: usize,
}

impl Model for Records {
    ghost use Rattle.pv_edits.specs.Indexed.{RecordList};
    ghost use Rattle.pv_edits.specs.Indexing.{AreIndexed};

    ghost Value = { RecordList };

    ghost view = { λ records. record { room = records.room; items = records.items.items } };

    ghost invariant = { AreIndexed };
}

impl Records {
    /// No record, and room for this many.
    pub(crate) fn open(alloc: Global, room: usize) -> Result<Records, AllocError>
        ensures { IfOk result (λ records. records ≡ no_records room) }
    {
        Ok(Records {
            items: Vec::with_capacity(alloc, room)?,
            last: LastAbout::open(alloc, room)?,
            room,
        })
    }

    /// A copy, with as much room.
    pub(crate) fn copy(&self, alloc: Global) -> Result<Records, AllocError>
        ensures { IfOk result (λ copy. copy ≡ self.now) }
    {
        Ok(Records {
            items: list_with_room(alloc, &self.items, self.room)?,
            last: self.last.copy()?,
            room: self.room,
        })
    }

    /// Adds a record. There is room for it.
    pub(crate) fn push(&mut self, edit: &Record)
        requires { length self.old.items < self.old.room }
        ensures { self.new ≡ with_one_more self.old edit.now }
    {
        edit.within();
        self.last.note(edit, self.items.len());
        self.items.push_reserved(*edit);
    }

    /// How many records there are.
    pub(crate) fn len(&self) -> usize
        ensures { result ≡ length self.now.items }
    {
        self.items.len()
    }

    /// The record at an index. `None` exactly from the length on.
    pub(crate) fn get(&self, index: usize) -> Option<&Record>
        ensures { option_copied result ≡ slice_get self.now.items index }
    {
        self.items.get(index)
    }

    /// The record at an index, which is less than the length.
    pub(crate) fn at(&self, index: usize) -> &Record
        requires { index < length self.now.items }
        ensures { slice_get self.now.items index ≡ Some result.now }
    {
        &self.items[index]
    }

    /// The index of the last record about this.
    pub(crate) fn last_about(&self, subject: Subject) -> Option<usize>
        ensures last { result ≡ last_index (is_about subject) self.now.items }
        ensures within { IfSome result (λ index. index < length self.now.items) }
    {
        self.last.get(subject)
    }

    /// Each leased root is a page, by the type of a record. A call states this and has no effect.
    pub(crate) fn within(&self)
        ensures { (root : ℕ) → IsTrue (is_some (lot_at self.now.items root)) → IsPage root }
    {
        let _ = &self.room;
    }
}

/// A copy of a list, with room for this many in all.
pub(crate) fn list_with_room<T: Copy>(
    alloc: Global,
    list: &[T],
    room: usize,
) -> Result<Vec<T>, AllocError>
    ensures same { IfOk result (λ copy. copy.items ≡ list.now) }
    ensures room { IfOk result (λ copy. room ≤ vec_capacity copy) }
{
    let mut copy = Vec::with_capacity(alloc, room)?;
    copy.extend_from_slice(list)?;
    Ok(copy)
}
