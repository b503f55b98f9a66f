ghost use Rattle.std.specs.Prelude.{◌≡◌, ◌≤◌, IfOk, IsTrue};
ghost use Rattle.pv_outside.specs.Counts.{Rose};
ghost use Rattle.pv_memory.specs.Faults.{Plan, fails_now, plan_after_call, plan_after_fault};

use std::alloc::{AllocError, Global};
use std::marker::Model;

/// Which calls of an object fail, counted from 0, and how often one has. Both counts no longer
/// rise at the end of 64 bits.
#[derive(Debug, Drop)]
pub(crate) struct Faults {
    call: u64,
    failing: Vec<u64>,
    count: u64,
}

impl Model for Faults {
    ghost Value = { Plan };

    ghost view = { λ f. record { call = f.call; failing = f.failing.items; faults = f.count } };
}

impl Faults {
    pub(crate) fn new(alloc: Global, failing: &[u64]) -> Result<Faults, AllocError>
        ensures { IfOk result (λ f. f ≡ record { call = 0; failing = failing.now; faults = 0 }) }
    {
        Ok(Faults {
            call: 0,
            failing: Vec::from_slice(alloc, failing)?,
            count: 0,
        })
    }

    /// Counts a call, and answers whether it fails.
    pub(crate) fn next_fails(&mut self) -> bool
        ensures fails { result ≡ fails_now self.old }
        ensures counted { self.new ≡ plan_after_call self.old }
        ensures never_falls { self.old.faults ≤ self.new.faults }
        ensures rose { IsTrue result → Rose self.old.faults self.new.faults }
    {
        let fails = self.failing.contains(&self.call);
        self.call = self.call.saturating_add(1);
        if fails {
            self.count = self.count.saturating_add(1);
        }
        fails
    }

    /// Counts a fault that no call was named for.
    pub(crate) fn count_fault(&mut self)
        ensures counted { self.new ≡ plan_after_fault self.old }
        ensures rose { Rose self.old.faults self.new.faults }
        ensures never_falls { self.old.faults ≤ self.new.faults }
    {
        self.count = self.count.saturating_add(1);
    }
}
