//! A list of records for contracts alone. It gives a name to the records that a node was opened with.
ghost use Rattle.std.specs.Prelude.{◌≡◌, ◌<◌, ◌≤◌, ◌++◌, ◌∷◌, [], vec_len, IfOk};
ghost use Rattle.std.specs.Vec.{vec_capacity};
ghost use Rattle.pv_node.specs.Trail.{trail_records};

use std::alloc::{AllocError, Global};
use std::snapshot::Snapshot;

/// Snapshots of records, in order. They have no bytes: only contracts see the records.
pub type Trail<T> = Vec<Snapshot<T>>;

/// A trail of no records, with room for this many.
pub(crate) fn empty_trail<T>(alloc: Global, room: usize) -> Result<Trail<T>, AllocError>
    ensures empty { IfOk result (λ trail. trail_records trail.items ≡ []) }
    ensures room { IfOk result (λ trail. room ≤ vec_capacity trail) }
{
    Vec::with_capacity(alloc, room)
}

/// Notes a record, for which there is room.
pub(crate) fn note<T>(trail: &mut Trail<T>, rec: &T)
    requires { vec_len trail.old < vec_capacity trail.old }
    ensures noted { trail_records trail.new.items ≡ trail_records trail.old.items ++ rec.now ∷ [] }
    ensures room { vec_capacity trail.new ≡ vec_capacity trail.old }
{
    trail.push_reserved(Snapshot::of(rec));
}
