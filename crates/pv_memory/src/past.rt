ghost use Rattle.std.specs.Prelude.{◌≡◌, ◌⊎◌, ◌+◌, ◌<◌, ◌≤◌, [], ◌∷◌, length, take, drop, IfOk};
ghost use Rattle.pv_outside.specs.declared.disk.TheConstants.{KEPT_BYTES, KEPT_CALLS, MAX_UNSYNCED};
ghost use Rattle.pv_memory.specs.Past.{changes_after};

use pv_outside::{KEPT_BYTES, KEPT_CALLS, MAX_UNSYNCED};
use std::alloc::{AllocError, Global};
use std::marker::Model;

/// A range of a disk: where it begins, and how many bytes it has.
#[derive(Clone, Copy, Debug, PartialEq, Eq)]
pub(crate) struct Range {
    pub(crate) at: usize,
    pub(crate) size: usize,
}

/// What one call has changed, so that the disk from before it is known. Its room is taken when it is
/// made.
#[derive(Debug, Drop)]
pub(crate) struct Step {
    range: Range,
    replaced: Vec<u8>,
    pending: Vec<Range>,
    end: usize,
}

impl Model for Step {
    ghost use Rattle.std.specs.Prelude.{◌≤◌, vec_capacity};
    ghost use Rattle.pv_outside.specs.declared.disk.TheConstants.{KEPT_BYTES, MAX_UNSYNCED};
    ghost use Rattle.pv_memory.specs.Past.{Change};

    ghost Value = { Change };

    ghost view = { λ s. record {
      range = s.range;
      replaced = s.replaced.items;
      pending = s.pending.items;
      end = s.end;
    } };

    ghost invariant = { λ s. (KEPT_BYTES ≤ vec_capacity s.replaced)
        × (MAX_UNSYNCED ≤ vec_capacity s.pending) };
}

impl Step {
    /// A step that has changed nothing.
    pub(crate) fn new(alloc: Global) -> Result<Step, AllocError>
        ensures { IfOk result (λ step. step ≡ record {
          range = record { at = 0; size = 0 };
          replaced = [];
          pending = [];
          end = 0;
        }) }
    {
        Ok(Step {
            range: Range { at: 0, size: 0 },
            replaced: Vec::with_capacity(alloc, KEPT_BYTES as usize)?,
            pending: Vec::with_capacity(alloc, MAX_UNSYNCED as usize)?,
            end: 0,
        })
    }

    /// Keeps the bytes of a range that is about to be written, and what was pending before that.
    pub(crate) fn keep(&mut self, range: Range, text: &[u8], pending: &[Range], end: usize)
        requires within { range.at ≤ length text.now }
        requires size { range.size ≤ KEPT_BYTES }
        requires few { length pending.now ≤ MAX_UNSYNCED }
        ensures { self.new ≡ record {
          range = range;
          replaced = take range.size (drop range.at text.now);
          pending = pending.now;
          end = end;
        } }
    {
        let size = range.size.min(text.len() - range.at);
        self.range = range;
        self.replaced.clear();
        self.replaced
            .extend_from_slice(&text[range.at..range.at + size])
            .unwrap();
        self.pending.clear();
        self.pending.extend_from_slice(pending).unwrap();
        self.end = end;
    }
}

/// What each of the last calls has changed, the newest first: a ring of steps that stay where they are. A
/// call writes the oldest one anew, which is the newest then.
#[derive(Debug, Drop)]
pub(crate) struct Past {
    steps: Vec<Step>,
    newest: usize,
    known: usize,
}

impl Model for Past {
    ghost use Rattle.std.specs.Prelude.{◌≡◌, ◌<◌, ◌≤◌, List, ◌++◌, length, take, drop};
    ghost use Rattle.pv_outside.specs.declared.disk.TheConstants.{KEPT_CALLS};
    ghost use Rattle.pv_memory.specs.Past.{Change};

    ghost Value = { List Change };

    ghost view = { λ p. take p.known (drop p.newest p.steps.items ++ take p.newest p.steps.items) };

    ghost invariant = { λ p. (length p.steps.items ≡ KEPT_CALLS) × (p.known ≤ KEPT_CALLS)
        × (p.newest < KEPT_CALLS) };
}

impl Past {
    pub(crate) fn new(alloc: Global) -> Result<Past, AllocError>
        ensures { IfOk result (λ past. past ≡ []) }
    {
        let mut steps = Vec::with_capacity(alloc, KEPT_CALLS as usize)?;
        for _i in 0..KEPT_CALLS {
            steps.push(Step::new(alloc)?)?;
        }
        Ok(Past {
            steps,
            newest: 0,
            known: 0,
        })
    }

    /// Keeps what a call changes that is about to write a range. A large write makes it forget all calls.
    pub(crate) fn note(&mut self, range: Range, text: &[u8], pending: &[Range], end: usize)
        requires within { range.at ≤ length text.now }
        requires few { length pending.now ≤ MAX_UNSYNCED }
        ensures { self.new ≡ changes_after (record {
          range = range;
          replaced = take range.size (drop range.at text.now);
          pending = pending.now;
          end = end;
        }) self.old }
    {
        if range.size > KEPT_BYTES as usize {
            self.forget();
        } else {
            self.keep(range, text, pending, end);
        }
    }

    /// Keeps what a call changes that is about to write a range. It forgets the oldest call once it is
    /// full.
    fn keep(&mut self, range: Range, text: &[u8], pending: &[Range], end: usize)
        requires within { range.at ≤ length text.now }
        requires size { range.size ≤ KEPT_BYTES }
        requires few { length pending.now ≤ MAX_UNSYNCED }
        ensures { self.new ≡ take KEPT_CALLS (record {
          range = range;
          replaced = take range.size (drop range.at text.now);
          pending = pending.now;
          end = end;
        } ∷ self.old) }
    {
        self.newest = place_before(self.newest);
        self.steps[self.newest].keep(range, text, pending, end);
        self.known = (self.known + 1).min(KEPT_CALLS as usize);
    }

    /// Forgets all calls.
    pub(crate) fn forget(&mut self)
        ensures { self.new ≡ [] }
    {
        self.known = 0;
    }
}

/// The place before one of the ring. Before the first is the last.
fn place_before(place: usize) -> usize
    requires { place < KEPT_CALLS }
    ensures { (place ≡ result + 1) ⊎ ((place ≡ 0) × (result + 1 ≡ KEPT_CALLS)) }
{
    if place == 0 {
        KEPT_CALLS as usize - 1
    } else {
        place - 1
    }
}
