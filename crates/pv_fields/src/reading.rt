ghost use Rattle.std.specs.Prelude.{◌≡◌, ◌<◌, ◌≤◌, ◌↔◌, [], ◌∷◌, ◌++◌, length, IsErr, OnOk, OnErr, IfOk};
ghost use Rattle.std.specs.Int.{w16, w32, w64, to_be_bytes};
ghost use Rattle.pv_fields.specs.Reading.{GivesFound, IsBytes, same, byte_at, number_at, run_at, within, at_most};

use crate::error::{NoSpelling, Short};
use std::marker::Model;

/// Reads from a slice, from its beginning on. Contracts see it as the list of the bytes that are left.
///
/// A call that takes a number of bytes either takes all of them or returns [`Short`] and changes
/// nothing. A call that takes a number within a range returns [`NoSpelling`] if there is none; what is
/// left then is not specified.
#[derive(Drop)]
pub struct In<'a> {
    from: &'a [u8],
}

impl<'a> Model for In<'a> {
    ghost use Rattle.std.specs.Prelude.{ℕ, List};

    ghost Value = { List ℕ };

    ghost view = { λ reader. reader.from.now };

    ghost use Rattle.pv_fields.specs.Reading.{IsBytes};

    ghost invariant = { λ reader. IsBytes reader.from.now };
}

impl<'a> In<'a> {
    /// Begins at the beginning of the slice, with all of it left.
    pub fn new(from: &'a [u8]) -> In<'a>
        ensures whole { result ≡ from.now }
    {
        In { from }
    }

    /// A second reader of the bytes that are left here. It moves on its own, so a caller can look
    /// ahead by it, and put it in the place of this one if all that it wants is there.
    pub fn fork(&self) -> In<'a>
        ensures same { result ≡ self.now }
        ensures bytes { IsBytes result }
    {
        In { from: self.from }
    }

    /// The number of bytes that are left.
    pub fn left(&self) -> usize
        ensures count { result ≡ length self.now }
    {
        self.from.len()
    }

    /// The bytes that are left.
    pub fn rest(&self) -> &'a [u8]
        ensures same { result.now ≡ self.now }
    {
        self.from
    }

    /// Takes all the bytes that are left.
    pub fn take_rest(&mut self) -> &'a [u8]
        ensures all { result.now ≡ self.old }
        ensures none { self.new ≡ [] }
    {
        let (all, none) = self.from.split_at(self.from.len());
        self.from = none;
        all
    }

    /// Takes one byte.
    pub fn u8(&mut self) -> Result<u8, Short>
        ensures found { IfOk result (λ byte. self.old ≡ byte ∷ self.new) }
        ensures short { IsErr result ↔ (length self.old < 1) }
        ensures gives { GivesFound same result (byte_at self.old) self.new }
        ensures err { OnErr result (self.new ≡ self.old) }
    {
        let [byte] = self.array::<1>()?;
        Ok(byte)
    }

    /// Takes a number of two bytes, the higher one first.
    pub fn u16(&mut self) -> Result<u16, Short>
        ensures found { IfOk result (λ number. self.old ≡ to_be_bytes w16 number ++ self.new) }
        ensures short { IsErr result ↔ (length self.old < 2) }
        ensures gives { GivesFound same result (number_at w16 self.old) self.new }
        ensures err { OnErr result (self.new ≡ self.old) }
    {
        let bytes = self.array::<2>()?;
        Ok(u16::from_be_bytes(bytes))
    }

    /// Takes a number of four bytes, the highest first.
    pub fn u32(&mut self) -> Result<u32, Short>
        ensures found { IfOk result (λ number. self.old ≡ to_be_bytes w32 number ++ self.new) }
        ensures short { IsErr result ↔ (length self.old < 4) }
        ensures gives { GivesFound same result (number_at w32 self.old) self.new }
        ensures err { OnErr result (self.new ≡ self.old) }
    {
        let bytes = self.array::<4>()?;
        Ok(u32::from_be_bytes(bytes))
    }

    /// Takes a number of eight bytes, the highest first.
    pub fn u64(&mut self) -> Result<u64, Short>
        ensures found { IfOk result (λ number. self.old ≡ to_be_bytes w64 number ++ self.new) }
        ensures short { IsErr result ↔ (length self.old < 8) }
        ensures gives { GivesFound same result (number_at w64 self.old) self.new }
        ensures err { OnErr result (self.new ≡ self.old) }
    {
        let bytes = self.chunk::<8>()?;
        Ok(u64::from_be_bytes(bytes))
    }

    /// Takes one byte, which is from `first` to `last`.
    pub fn u8_within(&mut self, first: u8, last: u8) -> Result<u8, NoSpelling>
        ensures gives { GivesFound same result (within first last byte_at self.old) self.new }
        ensures range { IfOk result (λ byte. (first ≤ byte) × (byte ≤ last)) }
    {
        let byte = self.u8()?;
        if first <= byte && byte <= last {
            Ok(byte)
        } else {
            Err(NoSpelling)
        }
    }

    /// Takes a number of two bytes, which is at most `last`.
    pub fn u16_to(&mut self, last: u16) -> Result<u16, NoSpelling>
        ensures gives { GivesFound same result (at_most last (number_at w16) self.old) self.new }
        ensures range { IfOk result (λ number. number ≤ last) }
    {
        let number = self.u16()?;
        if number <= last {
            Ok(number)
        } else {
            Err(NoSpelling)
        }
    }

    /// Takes a number of four bytes, which is at most `last`.
    pub fn u32_to(&mut self, last: u32) -> Result<u32, NoSpelling>
        ensures gives { GivesFound same result (at_most last (number_at w32) self.old) self.new }
        ensures range { IfOk result (λ number. number ≤ last) }
    {
        let number = self.u32()?;
        if number <= last {
            Ok(number)
        } else {
            Err(NoSpelling)
        }
    }

    /// Takes a number of eight bytes, which is at most `last`.
    pub fn u64_to(&mut self, last: u64) -> Result<u64, NoSpelling>
        ensures gives { GivesFound same result (at_most last (number_at w64) self.old) self.new }
        ensures range { IfOk result (λ number. number ≤ last) }
    {
        let number = self.u64()?;
        if number <= last {
            Ok(number)
        } else {
            Err(NoSpelling)
        }
    }

    /// Takes as many bytes as `into` has, and copies them there. If fewer are left, `into` too is as it
    /// was.
    pub fn run(&mut self, into: &mut [u8]) -> Result<(), Short>
        ensures found { OnOk result (self.old ≡ into.new ++ self.new) }
        ensures short { IsErr result ↔ (length self.old < length into.old) }
        ensures gives { GivesFound (λ _. into.new) result (run_at (length into.old) self.old) self.new }
        ensures err { OnErr result (self.new ≡ self.old) }
        ensures untouched { OnErr result (into.new ≡ into.old) }
    {
        if self.from.len() < into.len() {
            return Err(Short);
        }
        let (taken, rest) = self.from.split_at(into.len());
        into.copy_from_slice(taken);
        self.from = rest;
        Ok(())
    }

    /// Takes as many bytes as the array has.
    pub fn array<const N: usize>(&mut self) -> Result<[u8; N], Short>
        ensures found { IfOk result (λ bytes. self.old ≡ bytes ++ self.new) }
        ensures short { IsErr result ↔ (length self.old < N) }
        ensures gives { GivesFound same result (run_at N self.old) self.new }
        ensures err { OnErr result (self.new ≡ self.old) }
    {
        let (bytes, left) = self.from.split_first_chunk::<N>().ok_or(Short)?;
        self.from = left;
        Ok(*bytes)
    }

    /// As `array`, with fewer clauses, which keeps the proof of `u64` short.
    fn chunk<const N: usize>(&mut self) -> Result<[u8; N], Short>
        ensures found { IfOk result (λ bytes. self.old ≡ bytes ++ self.new) }
        ensures short { IsErr result ↔ (length self.old < N) }
        ensures err { OnErr result (self.new ≡ self.old) }
    {
        self.array()
    }
}
