ghost use Rattle.std.specs.Prelude.{◌≡◌, ◌⊎◌, ◌≤◌, ℕ, List, [], length, take, Contains, Some, IfOk, IfSome, is_err};
ghost use Rattle.pv_outside.specs.Counts.{CountsFaults, successes_after};
ghost use Rattle.pv_outside.specs.Link.{GainsPacket, HandsOut, handed_after};
ghost use Rattle.pv_outside.specs.declared.link.TheConstants.{MAX_PACKET};
ghost use Rattle.pv_memory.specs.Faults.{fails_now};
ghost use Rattle.pv_memory.specs.Pipes.{pipe_after_give, pipe_after_take};

use crate::faults::Faults;
use circular_buffer::HeapCircularBuffer;
use pv_outside::{Failed, Link, MAX_PACKET};
use std::alloc::{AllocError, Global};
use std::marker::Model;

/// How many packets a pipe holds.
pub const PIPE_PACKETS: usize = 64;

/// A packet in a ring.
#[derive(Debug, Drop)]
pub(crate) struct Kept {
    bytes: [u8; MAX_PACKET],
    size: usize,
}

impl Model for Kept {
    ghost use Rattle.std.specs.Prelude.{◌≤◌, ℕ, List, take};
    ghost use Rattle.pv_outside.specs.declared.link.TheConstants.{MAX_PACKET};

    ghost Value = { List ℕ };

    ghost view = { λ p. take p.size p.bytes };

    ghost invariant = { λ p. p.size ≤ MAX_PACKET };
}

impl Kept {
    /// A copy of these bytes.
    fn of(packet: &[u8]) -> Kept
        requires { length packet.now ≤ MAX_PACKET }
        ensures { result ≡ packet.now }
    {
        let size = packet.len();
        let mut bytes = [0; MAX_PACKET];
        bytes[..size].copy_from_slice(packet);
        Kept { bytes, size }
    }

    /// Copies its bytes into the beginning of a buffer, and returns how many there are.
    fn copy_into(&self, into: &mut [u8; MAX_PACKET]) -> usize
        ensures bytes { take result into.new ≡ self.now }
        ensures within { result ≤ MAX_PACKET }
    {
        into[..self.size].copy_from_slice(&self.bytes[..self.size]);
        self.size
    }
}

/// A link in memory, which reports its packets. It holds 64, and one more loses the oldest.
#[derive(Drop)]
pub struct Pipe {
    ring: HeapCircularBuffer<Kept>,
    given: u64,
    taken: u64,
    faults: Faults,
}

impl Model for Pipe {
    ghost use Rattle.std.specs.Prelude.{◌≡◌};
    ghost use Rattle.pv_memory.specs.Pipes.{PipeState};
    ghost use Rattle.pv_memory.specs.declared.pipe.TheConstants.{PIPE_PACKETS};

    ghost Value = { PipeState };

    ghost view = { λ p. record {
      packets = p.ring.items;
      given = p.given;
      taken = p.taken;
      plan = p.faults;
    } };

    ghost invariant = { λ p. p.ring.capacity ≡ PIPE_PACKETS };
}

impl Pipe {
    /// An empty pipe, of which the calls of these numbers fail, counted from 0. All memory is taken here.
    pub fn new(alloc: Global, fails: &[u64]) -> Result<Pipe, AllocError>
        ensures { IfOk result (λ p. p
            ≡ record {
              packets = [];
              given = 0;
              taken = 0;
              plan = record {
                call = 0;
                failing = fails.now;
                faults = 0;
              };
            }) }
    {
        Ok(Pipe {
            ring: HeapCircularBuffer::with_capacity(alloc, PIPE_PACKETS)?,
            given: 0,
            taken: 0,
            faults: Faults::new(alloc, fails)?,
        })
    }
}

impl Link for Pipe {
    ghost faults = { λ p. p.plan.faults };

    ghost given = { λ p. p.given };

    ghost taken = { λ p. p.taken };

    ghost packets = { λ p. Some p.packets };

    ghost may_hold = { λ p. Contains p.packets };

    ghost holds_its_packets = { λ _ _. (λ held. held, λ held. held) };

    fn give(&mut self, packet: &[u8]) -> Result<(), Failed>
        requires { length packet.now ≤ MAX_PACKET }
        ensures account { CountsFaults self.old.plan.faults self.new.plan.faults result }
        ensures given { self.new.given ≡ successes_after result self.old.given }
        ensures taken { self.new.taken ≡ self.old.taken }

        // It holds no packet but this one and those that it held.
        ensures packets { GainsPacket packet.now result (Some self.old.packets) (Some self.new.packets) }
        ensures only { (held : List ℕ) → Contains self.new.packets held
            → Contains self.old.packets held ⊎ (held ≡ packet.now) }

        // It fails exactly at the calls that were named, and a full pipe loses its oldest packet.
        ensures exact { self.new ≡ pipe_after_give packet.now self.old }
        ensures fails { is_err result ≡ fails_now self.old.plan }
    {
        if self.faults.next_fails() {
            return Err(Failed);
        }
        self.ring.push_back(Kept::of(packet));
        self.given = self.given.saturating_add(1);
        Ok(())
    }

    fn take(&mut self, into: &mut [u8; MAX_PACKET]) -> Result<Option<usize>, Failed>
        ensures account { CountsFaults self.old.plan.faults self.new.plan.faults result }
        ensures given { self.new.given ≡ self.old.given }
        ensures taken { self.new.taken ≡ handed_after result self.old.taken }
        ensures within { IfOk result (λ length. IfSome length (λ n. n ≤ MAX_PACKET)) }
        ensures packets { HandsOut into.new result (Some self.old.packets) (Some self.new.packets) }

        // What it hands out is a packet that it held.
        ensures held { IfOk result (λ length. IfSome length (λ n.
            Contains self.old.packets (take n into.new))) }
        ensures only { (held : List ℕ) → Contains self.new.packets held → Contains self.old.packets held }

        // It fails exactly at the calls that were named.
        ensures exact { self.new ≡ pipe_after_take self.old }
        ensures fails { is_err result ≡ fails_now self.old.plan }
    {
        if self.faults.next_fails() {
            return Err(Failed);
        }
        match self.ring.pop_front() {
            Some(packet) => {
                self.taken = self.taken.saturating_add(1);
                Ok(Some(packet.copy_into(into)))
            }
            None => Ok(None),
        }
    }
}
