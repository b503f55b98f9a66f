ghost use Rattle.std.specs.Prelude.{◌≡◌, ◌≤◌, ◌<◌, [], ◌∷◌, ◌++◌, All, Some, IfOk, OnOk, OnErr, is_err};
ghost use Rattle.std.specs.Prelude.{refl};
ghost use Rattle.std.proofs.Common.{arith};
ghost use Rattle.std.specs.Option.{option_map};
ghost use Rattle.pv_outside.specs.Counts.{CountsFaults, successes_after, one_more};
ghost use Rattle.pv_outside.specs.Line.{IsUnused};
ghost use Rattle.pv_memory.specs.Doors.{IsNewLine, is_shut, finished_of, accepted_of, door_after_accept, door_after_failure, door_after_finish};

use crate::faults::Faults;
use crate::line::MemLine;
use pv_outside::{Door, Failed};
use std::alloc::{AllocError, Global};
use std::marker::Model;
use std::vec::IntoIter;

/// A door at which the lines come in that it was made with, in their order. It keeps those that are given
/// back.
#[derive(Drop)]
pub struct MemDoor {
    waiting: IntoIter<MemLine>,
    finished: Vec<MemLine>,
    accepted: u64,
    faults: Faults,
}

impl Model for MemDoor {
    ghost use Rattle.std.specs.Prelude.{◌≤◌, ◌+◌, ◌-◌, All, length, vec_len, vec_capacity};
    ghost use Rattle.std.specs.Vec.Iter.{into_iter_items};
    ghost use Rattle.pv_memory.specs.Doors.{DoorState, IsNewLine};

    ghost Value = { DoorState };

    ghost view = { λ d. record {
      waiting = into_iter_items d.waiting;
      finished = d.finished.items;
      out = d.accepted - length d.finished.items;
      plan = d.faults;
    } };

    ghost invariant = { λ d. All IsNewLine (into_iter_items d.waiting)
        × (vec_len d.finished ≤ d.accepted)
        × (d.accepted + length (into_iter_items d.waiting) ≤ vec_capacity d.finished) };
}

impl MemDoor {
    /// A door at which these lines come in, of which the accepts of these numbers fail, counted from 0.
    /// Nothing was read from the lines or written to them. All memory is taken here.
    pub fn new(alloc: Global, lines: Vec<MemLine>, fails: &[u64]) -> Result<MemDoor, AllocError>
        requires { All IsNewLine lines.items }
        ensures { IfOk result (λ d. d
            ≡ record {
              waiting = lines.items;
              finished = [];
              out = 0;
              plan = record {
                call = 0;
                failing = fails.now;
                faults = 0;
              };
            }) }
    {
        Ok(MemDoor {
            finished: Vec::with_capacity(alloc, lines.len())?,
            waiting: lines.into_iter(),
            accepted: 0,
            faults: Faults::new(alloc, fails)?,
        })
    }

    /// The lines that were given back, as they then were, oldest first.
    pub fn finished(&self) -> &[MemLine]
        ensures { result.now ≡ self.now.finished }
    {
        &self.finished
    }
}

impl Door for MemDoor {
    type Line = MemLine;

    ghost faults = { λ d. d.plan.faults };

    ghost accepted = { accepted_of };

    ghost finished = { finished_of };

    ghost lines = { λ d. Some d.finished };

    ghost order = { λ _. omega arith };

    ghost counted = { λ _. refl };

    fn accept(&mut self) -> Result<MemLine, Failed>
        ensures account { CountsFaults self.old.plan.faults self.new.plan.faults result }
        ensures accepted { accepted_of self.new ≡ successes_after result (accepted_of self.old) }
        ensures unused { IfOk result IsNewLine }

        // No line is given back by this.
        ensures finished { finished_of self.new ≡ finished_of self.old }
        ensures lines { Some self.new.finished ≡ Some self.old.finished }

        // It returns the first line that waits, and fails exactly if it is named to or none is left.
        ensures ok { OnOk result (self.new ≡ door_after_accept self.old self.old.waiting) }
        ensures first { IfOk result (λ line. self.old.waiting ≡ line ∷ self.new.waiting) }
        ensures err { OnErr result (self.new ≡ door_after_failure self.old) }
        ensures fails { is_err result ≡ is_shut self.old }
    {
        if self.faults.next_fails() {
            return Err(Failed);
        }
        match self.waiting.next() {
            Some(line) => {
                self.accepted += 1;
                Ok(line)
            }
            None => {
                self.faults.count_fault();
                Err(Failed)
            }
        }
    }

    fn finish(&mut self, line: MemLine)
        requires { finished_of self.old < accepted_of self.old }
        ensures finished { finished_of self.new ≡ one_more (finished_of self.old) }
        ensures lines { Some self.new.finished
            ≡ option_map (λ before. before ++ line ∷ []) (Some self.old.finished) }

        // No line is accepted by this.
        ensures accepted { accepted_of self.new ≡ accepted_of self.old }
        ensures faults { self.new.plan.faults ≡ self.old.plan.faults }
        ensures exact { self.new ≡ door_after_finish line self.old }
    {
        self.finished.push(line).unwrap();
    }
}
