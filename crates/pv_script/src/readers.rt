ghost use Rattle.std.specs.Prelude.{◌≡◌, ◌↔◌, Some, IfSome, IsTrue};
ghost use Rattle.pv_words.specs.Parts.{Exactly};
ghost use Rattle.pv_outside.specs.declared.limits.Limits.{Limits};
ghost use Rattle.pv_network.specs.Standing.{IsNotation};
ghost use Rattle.pv_script.specs.Readers.{IsFrameText, IsNodeText, IsImageText, IsMomentText, IsRowText, IsKeyText, IsKeysText, IsLimitsText, AreOf};

use pv_cells::{ROW_LENGTH, first_byte, row_of};
use pv_charge::LAST_MOMENT;
use pv_network::NodeName;
use pv_outside::{Limits, MAX_FRAMES, MAX_RECORDS};
use pv_page::FrameName;
use pv_words::{Below, Number, Part, Reader, number_of, one, split_word};

/// The last number of an image of a disk.
pub const LAST_IMAGE: u8 = 255;

/// The part of a line that is the name of a frame.
#[derive(Clone, Copy, Debug)]
pub struct FrameText;

impl<'a> Reader<'a> for FrameText {
    type Value = FrameName;

    ghost Writes = { λ _. IsFrameText };

    fn read(&self, text: &'a [u8]) -> Option<FrameName> {
        FrameName::of_text(text)
    }
}

/// The part of a line that names a node, in a play of this many centres: `u`, or the number of a centre.
#[derive(Clone, Copy, Debug)]
pub struct NodeText(pub u8);

impl<'a> Reader<'a> for NodeText {
    type Value = NodeName;

    ghost Writes = { λ centres. IsNodeText centres.0 };

    fn read(&self, text: &'a [u8]) -> Option<NodeName> {
        node_of(text, self.0)
    }
}

/// The node that a text names in a play of this many centres. `None` exactly when it names none.
fn node_of(text: &[u8], centres: u8) -> Option<NodeName>
    ensures { Exactly (λ node. IsNodeText centres node text.now) result }
{
    if text == b"u".as_slice() {
        return Some(NodeName::Udc);
    }
    let centre = Below(centres).read(text)?;
    Some(NodeName::Centre(centre))
}

/// The part of a line that is the number of an image of a disk.
#[derive(Clone, Copy, Debug)]
pub struct ImageText;

impl<'a> Reader<'a> for ImageText {
    type Value = u8;

    ghost Writes = { λ _. IsImageText };

    fn read(&self, text: &'a [u8]) -> Option<u8> {
        let image = number_of(text)?;
        if image <= LAST_IMAGE as u64 {
            Some(image as u8)
        } else {
            None
        }
    }
}

/// The part of a line that is a moment of the clock, in seconds since 1970.
#[derive(Clone, Copy, Debug)]
pub struct MomentText;

impl<'a> Reader<'a> for MomentText {
    type Value = u32;

    ghost Writes = { λ _. IsMomentText };

    fn read(&self, text: &'a [u8]) -> Option<u32> {
        let moment = number_of(text)?;
        if moment <= LAST_MOMENT as u64 {
            Some(moment as u32)
        } else {
            None
        }
    }
}

/// The part of a line that is a row in notation.
#[derive(Clone, Copy, Debug)]
pub struct RowText;

impl<'a> Reader<'a> for RowText {
    type Value = [u8; ROW_LENGTH];

    ghost Writes = { λ _. IsRowText };

    fn read(&self, text: &'a [u8]) -> Option<[u8; ROW_LENGTH]> {
        row_of(text).ok()
    }
}

/// The part of a line that is the notation of one key's byte.
#[derive(Clone, Copy, Debug)]
pub struct KeyText;

impl<'a> Reader<'a> for KeyText {
    type Value = u8;

    ghost Writes = { λ _. IsKeyText };

    fn read(&self, text: &'a [u8]) -> Option<u8> {
        let (key, rest) = first_byte(text)?;
        if rest.is_empty() { Some(key) } else { None }
    }
}

/// The part of a line that is the notation of keys, at least one, as it stands there.
#[derive(Clone, Copy, Debug)]
pub struct KeysText;

impl<'a> Reader<'a> for KeysText {
    type Value = Part<'a>;

    ghost Writes = { λ _. IsKeysText };

    fn read(&self, text: &'a [u8]) -> Option<Part<'a>> {
        if is_notation(text) {
            Some(Part::new(text))
        } else {
            None
        }
    }
}

/// Whether a text is the notation of at least one byte.
fn is_notation(text: &[u8]) -> bool
    ensures { IsTrue result ↔ IsNotation text.now }
{
    let mut rest = text;
    while let Some((_, later)) = first_byte(rest) {
        rest = later;
    }
    rest.is_empty() && !text.is_empty()
}

/// The part of a line that is the limits of a node: how many frames it may have, a space, and how many records.
#[derive(Clone, Copy, Debug)]
pub struct LimitsText;

impl<'a> Reader<'a> for LimitsText {
    type Value = Limits;

    ghost Writes = { λ _. IsLimitsText };

    fn read(&self, text: &'a [u8]) -> Option<Limits> {
        let (word, later) = split_word(text);
        let frames = number_of(word)?;
        let records = one(&Number, later)?;
        limits_of(frames, records)
    }
}

/// The limits of these numbers. `None` exactly when they are out of the range of limits.
fn limits_of(frames: u64, records: u64) -> Option<Limits>
    ensures { Exactly (AreOf frames records) result }
{
    if frames < 1 || frames > MAX_FRAMES as u64 || records < 1 || records > MAX_RECORDS as u64 {
        return None;
    }
    Some(Limits {
        frames: frames as u32,
        records: records as u32,
    })
}
