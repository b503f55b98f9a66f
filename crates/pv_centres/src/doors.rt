ghost use Rattle.std.specs.Prelude.{◌≡◌, ◌+◌, ◌++◌, ◌∷◌, [], ◌<◌, ◌≤◌, All, length, vec_len, IfOk, OnOk};
ghost use Rattle.std.specs.Vec.Iter.{into_iter_items};
ghost use Rattle.pv_service.specs.declared.caller_stand.TheConstants.{MAX_ACCEPTED};

use pv_outside::Door;
use std::alloc::{AllocError, Global};
use std::vec::IntoIter;

/// The next doors, this many.
pub fn next_doors<O: Door + Drop>(
    alloc: Global,
    doors: &mut IntoIter<O>,
    count: usize,
) -> Result<Vec<O>, AllocError>
    requires count { count ≤ length (into_iter_items doors.old) }
    requires fresh { All (λ d. O.accepted d < MAX_ACCEPTED) (into_iter_items doors.old) }
    ensures doors { IfOk result (λ next. into_iter_items doors.old
        ≡ next.items ++ into_iter_items doors.new) }
    ensures count { IfOk result (λ next. vec_len next ≡ count) }
    ensures fresh { IfOk result (λ next. All (λ d. O.accepted d < MAX_ACCEPTED) next.items) }

    // The counts of those that are left are not at their end.
    ensures waiting { All (λ d. O.accepted d < MAX_ACCEPTED) (into_iter_items doors.new) }
{
    let mut next = Vec::with_capacity(alloc, count)?;
    for _ in 0..count {
        let Some(door) = doors.next() else {
            unreachable!()
        };
        next.push(door)?;
    }
    Ok(next)
}

/// Appends a value. If no memory is found it is dropped.
pub(crate) fn put<T: Drop>(all: &mut Vec<T>, value: T) -> Result<(), AllocError>
    ensures items { OnOk result (all.new.items ≡ all.old.items ++ value ∷ []) }
    ensures count { OnOk result (vec_len all.new ≡ vec_len all.old + 1) }
{
    match all.push(value) {
        Ok(()) => Ok(()),
        Err(_) => Err(AllocError),
    }
}
