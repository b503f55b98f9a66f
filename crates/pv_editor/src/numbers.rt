//! The parts of a line that are numbers within a range.

ghost use Rattle.std.specs.Prelude.{◌<◌, ◌^◌};
ghost use Rattle.pv_words.specs.Numbers.{IsNumber, IsBelow};
ghost use Rattle.pv_frame.specs.declared.layout.TheConstants.{ROUTES};
ghost use Rattle.pv_editor.specs.Parts.{IsRowNumber};

use crate::digit::RouteDigit;
use crate::row::BodyRow;
use pv_words::{Reader, number_of};

/// The part that is a number of eight bits.
#[derive(Clone, Copy)]
pub(crate) struct Byte;

impl<'a> Reader<'a> for Byte {
    type Value = u8;

    ghost Writes = { λ _. IsBelow (2 ^ 8) };

    fn read(&self, text: &'a [u8]) -> Option<u8> {
        let number = number_of(text)?;
        if number <= u8::MAX as u64 {
            Some(number as u8)
        } else {
            None
        }
    }
}

/// The part that is a number of sixteen bits.
#[derive(Clone, Copy)]
pub(crate) struct Short;

impl<'a> Reader<'a> for Short {
    type Value = u16;

    ghost Writes = { λ _. IsBelow (2 ^ 16) };

    fn read(&self, text: &'a [u8]) -> Option<u16> {
        let number = number_of(text)?;
        if number <= u16::MAX as u64 {
            Some(number as u16)
        } else {
            None
        }
    }
}

/// The part that is the number of an edit, of 32 bits.
#[derive(Clone, Copy)]
pub(crate) struct EditNumber;

impl<'a> Reader<'a> for EditNumber {
    type Value = u32;

    ghost Writes = { λ _. IsBelow (2 ^ 32) };

    fn read(&self, text: &'a [u8]) -> Option<u32> {
        let number = number_of(text)?;
        if number <= u32::MAX as u64 {
            Some(number as u32)
        } else {
            None
        }
    }
}

/// The part that is the number of a row of the body.
#[derive(Clone, Copy)]
pub(crate) struct RowNumber;

impl<'a> Reader<'a> for RowNumber {
    type Value = BodyRow;

    ghost Writes = { λ _. IsRowNumber };

    fn read(&self, text: &'a [u8]) -> Option<BodyRow> {
        let number = Byte.read(text)?;
        BodyRow::of_number(number)
    }
}

/// The part that is a digit for a route.
#[derive(Clone, Copy)]
pub(crate) struct Digit;

impl<'a> Reader<'a> for Digit {
    type Value = RouteDigit;

    ghost Writes = { λ _. IsBelow ROUTES };

    fn read(&self, text: &'a [u8]) -> Option<RouteDigit> {
        let number = Byte.read(text)?;
        RouteDigit::of_number(number)
    }
}
