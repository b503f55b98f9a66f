ghost use Rattle.std.specs.Prelude.{◌≡◌, ℕ, ◌<◌, ◌≤◌, ◌+◌, List, [], length, take, drop, min, Option, Some, IfOk, OnErr, IsErr, is_err, false, ◌++◌, ◌==◌, ◌&&◌, nat_lt};
ghost use Rattle.std.specs.Io.KnownBytes.{IsAtEnd};
ghost use Rattle.pv_outside.specs.Counts.{Rose};
ghost use Rattle.pv_outside.specs.Source.{MarksEnd, Takes, Leaves};
ghost use Rattle.pv_memory.specs.Faults.{fails_now};
ghost use Rattle.pv_memory.specs.Streams.{SourceState, source_after_read};

use crate::faults::Faults;
use pv_outside::{Failed, Source};
use std::alloc::{AllocError, Global};
use std::marker::Model;

/// A source that gives the bytes that it was made with.
#[derive(Debug, Drop)]
pub struct MemSource {
    bytes: Vec<u8>,
    at: usize,
    ended: bool,
    faults: Faults,
}

impl Model for MemSource {
    ghost use Rattle.std.specs.Prelude.{◌≤◌, vec_len, take, drop};
    ghost use Rattle.pv_memory.specs.Streams.{SourceState};

    ghost Value = { SourceState };

    ghost view = { λ s. record {
      read = take s.at s.bytes.items;
      left = drop s.at s.bytes.items;
      ended = s.ended;
      plan = s.faults;
    } };

    ghost invariant = { λ s. s.at ≤ vec_len s.bytes };
}

impl MemSource {
    /// A source of these bytes, of which the calls of these numbers fail.
    pub fn new(alloc: Global, bytes: &[u8], fails: &[u64]) -> Result<MemSource, AllocError>
        ensures { IfOk result (λ s. s
            ≡ record {
              read = [];
              left = bytes.now;
              ended = false;
              plan = record {
                call = 0;
                failing = fails.now;
                faults = 0;
              };
            }) }
    {
        Ok(MemSource {
            bytes: Vec::from_slice(alloc, bytes)?,
            at: 0,
            ended: false,
            faults: Faults::new(alloc, fails)?,
        })
    }
}

impl Source for MemSource {
    ghost read_faults = { λ s. s.plan.faults };

    ghost ended = { λ s. s.ended };

    ghost taken = { λ s. Some s.read };

    ghost left = { λ s. Some s.left };

    fn read(&mut self, into: &mut [u8]) -> Result<usize, Failed>
        ensures within { IfOk result (λ n. n ≤ length into.old) }
        ensures taken { Takes (Some self.old.read) (Some self.new.read) result into.new }
        ensures left { Leaves (Some self.old.left) (Some self.new.left) result into.new }
        ensures end { MarksEnd self.old.ended self.new.ended result (length into.old) }
        ensures only_at_end { result ≡ Ok 0 → 0 < length into.old → IsAtEnd (Some self.old.left) }

        // A fault is counted.
        ensures counted { self.old.plan.faults ≤ self.new.plan.faults }
        ensures failed { IsErr result → Rose self.old.plan.faults self.new.plan.faults }

        // It gives as many as there is room for, and fails at the calls that were named.
        ensures exact { self.new ≡ source_after_read self.old (length into.old) }
        ensures fails { is_err result ≡ fails_now self.old.plan }
        ensures kept { OnErr result (into.new ≡ into.old) }

        // After the bytes that it gave the slice is as it was.
        ensures rest { IfOk result (λ n. drop n into.new ≡ drop n into.old) }
    {
        if self.faults.next_fails() {
            return Err(Failed);
        }
        let count = copy_from(&self.bytes, self.at, into);
        self.at += count;
        self.ended |= is_end(count, into.len());
        Ok(count)
    }
}

/// Copies bytes from a place on into the beginning of a slice, as many as there are and fit, and returns
/// how many.
fn copy_from(bytes: &[u8], at: usize, into: &mut [u8]) -> usize
    requires { at ≤ length bytes.now }
    ensures count { result ≡ length (take (length into.old) (drop at bytes.now)) }
    ensures within { result ≤ length into.old }
    ensures given { take result into.new ≡ take (length into.old) (drop at bytes.now) }

    // The rest of the slice, and what is read and left of the bytes afterwards.
    ensures rest { drop result into.new ≡ drop result into.old }
    ensures read { take (at + result) bytes.now
        ≡ take at bytes.now ++ take (length into.old) (drop at bytes.now) }
    ensures left { drop (at + result) bytes.now ≡ drop (length into.old) (drop at bytes.now) }
    ensures fits { at + result ≤ length bytes.now }
{
    let count = into.len().min(bytes.len() - at);
    into[..count].copy_from_slice(&bytes[at..at + count]);
    count
}

/// Whether a read with room for `room` bytes that returns `count` has reached the end.
fn is_end(count: usize, room: usize) -> bool
    ensures { result ≡ (count == 0 && nat_lt 0 room) }
{
    count == 0 && room > 0
}
