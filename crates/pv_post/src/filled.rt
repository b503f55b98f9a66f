ghost use Rattle.std.specs.Prelude.{◌≡◌, ◌<◌, ◌≤◌, [], ◌∷◌, ◌++◌, length, take, IfOk, IfSome, IsSome, ◌↔◌, true};
ghost use Rattle.std.specs.List.{list_all};
ghost use Rattle.pv_fields.specs.Out.{Puts};
ghost use Rattle.pv_fields.specs.Padded.{IsPadded};
ghost use Rattle.pv_fields.specs.Reading.{GivesFound, same};
ghost use Rattle.pv_post.specs.Item.{is_field_byte, IsFilled, filled_bytes, filled_at};

use pv_fields::{In, NoRoom, NoSpelling, Out, Short};
use std::marker::Model;

/// How many bytes a field takes at most.
pub const FILLED_BYTES: usize = 40;

/// What was keyed into a field of a frame: at most [`FILLED_BYTES`] bytes that some field takes.
#[derive(Clone, Copy, Debug, PartialEq, Eq)]
pub struct Filled {
    length: u8,
    bytes: [u8; FILLED_BYTES],
}

impl Model for Filled {
    ghost use Rattle.std.specs.Prelude.{ℕ, List, length as length_of, take};
    ghost use Rattle.pv_fields.specs.Padded.{padded_list};
    ghost use Rattle.pv_fields.proofs.CallerLemmas.{length-items, padded_list-take};
    ghost use Rattle.pv_post.specs.declared.filled.TheConstants.{FILLED_BYTES};
    ghost use Rattle.pv_post.specs.Item.{IsFilledInside};

    ghost Value = { List ℕ };

    ghost view = { λ f. take f.length f.bytes };

    ghost invariant = { λ f. IsFilledInside f.length f.bytes };

    ghost inverse = { λ text. record { length = length_of text; bytes = padded_list 0 FILLED_BYTES text } };

    ghost inverse_ok = { λ f inside i. record {
      length = length-items 0 FILLED_BYTES f.length f.bytes inside.padded i;
      bytes = padded_list-take 0 FILLED_BYTES f.length f.bytes inside.padded i;
    } };
}

impl Filled {
    /// An empty field.
    pub fn empty() -> Filled
        ensures { result ≡ [] }
    {
        Filled {
            length: 0,
            bytes: [0; FILLED_BYTES],
        }
    }

    /// A field that was filled by this text. `None` exactly when the text has more than [`FILLED_BYTES`]
    /// bytes, or one that no field takes.
    pub fn of_text(text: &[u8]) -> Option<Filled>
        ensures found { IsSome result ↔ IsFilled text.now }
        ensures value { IfSome result (λ filled. filled ≡ text.now) }
    {
        if text.len() > FILLED_BYTES || !are_field_bytes(text) {
            return None;
        }
        let mut bytes = [0; FILLED_BYTES];
        bytes[..text.len()].copy_from_slice(text);
        Some(Filled {
            length: text.len() as u8,
            bytes,
        })
    }

    /// Adds a byte after the others, of which there must be fewer than [`FILLED_BYTES`].
    pub fn push(&mut self, byte: u8)
        requires taken { is_field_byte byte ≡ true }
        requires room { length self.old < FILLED_BYTES }
        ensures { self.new ≡ self.old ++ byte ∷ [] }
    {
        self.bytes[usize::from(self.length)] = byte;
        self.length += 1;
    }

    /// The bytes that were keyed.
    pub fn text(&self) -> &[u8]
        ensures same { result.now ≡ self.now }
        ensures filled { IsFilled self.now }
    {
        &self.bytes[..usize::from(self.length)]
    }

    /// A copy of the field. Its contract says what the type guarantees.
    pub(crate) fn copy(&self) -> Filled
        ensures same { result ≡ self.now }
        ensures filled { IsFilled self.now }
    {
        Filled {
            length: self.length,
            bytes: self.bytes,
        }
    }

    /// Appends the field's length and then its bytes. [`NoRoom`] exactly when they do not fit.
    pub fn put(&self, out: &mut Out) -> Result<(), NoRoom>
        ensures { Puts result out.old out.new (filled_bytes self.now) }
    {
        out.u8(self.length)?;
        out.run(&self.bytes[..usize::from(self.length)])
    }

    /// Takes a field's length and its bytes. [`NoSpelling`] if there are fewer bytes, or one that no field
    /// takes.
    #[tactic(auto, unfolding(crate::specs::Item::filled_at))]
    pub fn read(from: &mut In) -> Result<Filled, NoSpelling>
        ensures gives { GivesFound same result (filled_at from.old) from.new }
        ensures filled { IfOk result IsFilled }
    {
        let length = from.u8_within(0, FILLED_BYTES as u8)?;
        let mut bytes = [0; FILLED_BYTES];
        let text = &mut bytes[..usize::from(length)];
        from.run(text)?;
        if are_field_bytes(text) {
            Ok(Filled { length, bytes })
        } else {
            Err(NoSpelling)
        }
    }
}

/// Whether some field takes each of the bytes.
fn are_field_bytes(text: &[u8]) -> bool
    ensures { result ≡ list_all is_field_byte text.now }
{
    text.iter().all(|byte| is_field_byte(*byte))
}

/// Whether some field takes this byte: all that can be printed, but for the keys `*` and `#` with its
/// other code `_`, and `|` and `\`.
pub fn is_field_byte(byte: u8) -> bool
    ensures { result ≡ is_field_byte byte }
{
    matches!(byte, b' '..=b'~') && !matches!(byte, b'*' | b'#' | b'_' | b'|' | b'\\')
}
