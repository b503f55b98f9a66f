ghost use Rattle.std.specs.Prelude.{◌≡◌, ◌≤◌, ◌||◌, [], Option, Some, IfOk, IsErr, is_err};
ghost use Rattle.pv_outside.specs.Counts.{Rose, successes_after};
ghost use Rattle.pv_outside.specs.Sink.{Writes};
ghost use Rattle.pv_memory.specs.Faults.{fails_now};
ghost use Rattle.pv_memory.specs.Streams.{is_past_room, sink_after_write};

use crate::faults::Faults;
use pv_outside::{Failed, Sink};
use std::alloc::{AllocError, Global};
use std::marker::Model;

/// A sink that keeps what is written to it, as long as it has room.
#[derive(Debug, Drop)]
pub struct MemSink {
    bytes: Vec<u8>,
    room: usize,
    writes: u64,
    faults: Faults,
}

impl Model for MemSink {
    ghost use Rattle.std.specs.Prelude.{◌≤◌, vec_len, vec_capacity};
    ghost use Rattle.pv_memory.specs.Streams.{SinkState};

    ghost Value = { SinkState };

    ghost view = { λ s. record {
      bytes = s.bytes.items;
      room = s.room;
      writes = s.writes;
      plan = s.faults;
    } };

    ghost invariant = { λ s. (vec_len s.bytes ≤ s.room) × (s.room ≤ vec_capacity s.bytes) };
}

impl MemSink {
    /// A sink with room for `room` bytes, taken at once, of which the calls of these numbers fail, counted
    /// from 0.
    pub fn new(alloc: Global, room: usize, fails: &[u64]) -> Result<MemSink, AllocError>
        ensures { IfOk result (λ s. s
            ≡ record {
              bytes = [];
              room = room;
              writes = 0;
              plan = record {
                call = 0;
                failing = fails.now;
                faults = 0;
              };
            }) }
    {
        Ok(MemSink {
            bytes: Vec::with_capacity(alloc, room)?,
            room,
            writes: 0,
            faults: Faults::new(alloc, fails)?,
        })
    }

    /// What was written so far.
    pub fn bytes(&self) -> &[u8]
        ensures { result.now ≡ self.now.bytes }
    {
        &self.bytes
    }
}

impl Sink for MemSink {
    ghost write_faults = { λ s. s.plan.faults };

    ghost written = { λ s. Some s.bytes };

    ghost writes = { λ s. s.writes };

    fn write_all(&mut self, bytes: &[u8]) -> Result<(), Failed>
        ensures written { Writes (Some self.old.bytes) (Some self.new.bytes) result bytes.now }
        ensures writes { self.new.writes ≡ successes_after result self.old.writes }
        ensures counted { self.old.plan.faults ≤ self.new.plan.faults }
        ensures failed { IsErr result → Rose self.old.plan.faults self.new.plan.faults }

        // It fails at the calls that were named and past its room, and then keeps nothing of the bytes.
        ensures exact { self.new ≡ sink_after_write self.old bytes.now }
        ensures fails { is_err result ≡ (fails_now self.old.plan || is_past_room self.old bytes.now) }
    {
        if self.faults.next_fails() {
            return Err(Failed);
        }
        if bytes.len() > self.room - self.bytes.len() {
            self.faults.count_fault();
            return Err(Failed);
        }
        self.bytes.extend_from_slice(bytes).unwrap();
        self.writes = self.writes.saturating_add(1);
        Ok(())
    }
}
