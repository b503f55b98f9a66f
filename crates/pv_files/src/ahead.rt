ghost use Rattle.std.specs.Prelude.{◌≡◌, ◌+◌, ◌-◌, ◌≤◌, [], length, take, slice_range, IfOk, IsTrue, OnOk, OnErr};
ghost use Rattle.pv_files.specs.Piece.{Piece, has_range};

use crate::retry::read_some_at;
use std::alloc::{AllocError, Global};
use std::io;
use std::marker::Model;
use std::os::unix::fs::FileExt;

/// How many bytes of a file are read at a time.
pub const AHEAD: usize = 65_536;

/// A piece of a file that was read in one call, to serve the reads that follow.
#[derive(Drop)]
pub(crate) struct Ahead {
    at: u64,
    bytes: Vec<u8>,
    size: usize,
}

impl Model for Ahead {
    ghost use Rattle.std.specs.Prelude.{◌≤◌, take, vec_len};
    ghost use Rattle.pv_files.specs.Piece.{Piece};

    ghost Value = { Piece };

    ghost view = { λ a. record { at = a.at; bytes = take a.size a.bytes.items } };

    ghost invariant = { λ a. a.size ≤ vec_len a.bytes };
}

impl Ahead {
    /// An empty piece. The memory for all that come is taken here.
    pub(crate) fn new(alloc: Global) -> Result<Ahead, AllocError>
        ensures { IfOk result (λ a. a.bytes ≡ []) }
    {
        Ok(Ahead {
            at: 0,
            bytes: vec![in alloc; 0u8; AHEAD]?,
            size: 0,
        })
    }

    /// Forgets the piece, since the file has changed.
    pub(crate) fn forget(&mut self)
        ensures { self.new ≡ record self.old { bytes = [] } }
    {
        self.size = 0;
    }

    /// Copies the bytes from this place of the file on, if the piece has all of them.
    pub(crate) fn copy(&self, at: u64, into: &mut [u8]) -> bool
        ensures exact { result ≡ has_range self.now at (length into.old) }
        ensures bytes { IsTrue result → into.new
            ≡ slice_range self.now.bytes (at - self.now.at) (at - self.now.at + length into.old) }
    {
        let Some(from) = at.checked_sub(self.at) else {
            return false;
        };
        if from > self.size as u64 || into.len() > self.size - from as usize {
            return false;
        }
        let from = from as usize;
        into.copy_from_slice(&self.bytes[from..from + into.len()]);
        true
    }

    /// Reads a piece from this place of the file on, and returns how many bytes the system gave.
    pub(crate) fn fill<F: FileExt>(&mut self, file: &F, at: u64) -> io::Result<usize>
        ensures at { OnOk result (self.new.at ≡ at) }
        ensures size { IfOk result (λ count. length self.new.bytes ≡ count) }
        ensures err { OnErr result (self.new.bytes ≡ []) }
    {
        self.forget();
        self.size = read_some_at(file, &mut self.bytes, at)?;
        self.at = at;
        Ok(self.size)
    }
}
