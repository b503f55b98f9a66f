ghost use Rattle.std.specs.Prelude.{◌≡◌, ◌<◌, ◌≤◌, ◌↔◌, [], ◌∷◌, ◌++◌, length, option_map, IsNone, IsSome, IsTrue};
ghost use Rattle.pv_frame.specs.declared.field.FieldKind.{FieldKind};
ghost use Rattle.pv_keys.specs.Commands.{hash};
ghost use Rattle.pv_post.specs.declared.filled.TheConstants.{FILLED_BYTES};
ghost use Rattle.pv_words.specs.Parts.{Exactly};
ghost use Rattle.pv_session.specs.declared.entry.Entry.TheVariants as entries;
ghost use Rattle.pv_session.specs.Gathering.{IsFieldReading};
ghost use Rattle.pv_session.specs.Entries.{takes_byte, key_if, field_keys, kept_keys, keys_left, FillsField, FillMode};

use pv_frame::{Field, FieldKind};
use pv_post::{Filled, is_field_byte};
use std::marker::Model;

/// Reads what is keyed into a field. Contracts see the field, whether it must be full, and what was
/// keyed so far.
#[derive(Clone, Copy, Debug, PartialEq, Eq)]
pub(crate) struct FieldReader {
    field: Field,
    is_full: bool,
    keyed: Filled,
}

impl Model for FieldReader {
    ghost use Rattle.pv_session.specs.Gathering.{FieldReading, IsFieldReading};

    ghost Value = { FieldReading };

    ghost view = { λ r. record { field = r.field; full = r.is_full; keyed = r.keyed } };

    ghost invariant = { λ r. IsFieldReading
        (record { field = r.field; full = r.is_full; keyed = r.keyed }) };

    ghost inverse = { λ r. record { field = r.field; is_full = r.full; keyed = r.keyed } };
}

impl FieldReader {
    /// A reader of a field into which nothing was keyed.
    pub(crate) fn new(field: Field, is_full: bool) -> FieldReader
        requires { field.length ≤ FILLED_BYTES }
        ensures { result ≡ record { field = field; full = is_full; keyed = [] } }
    {
        FieldReader {
            field,
            is_full,
            keyed: Filled::empty(),
        }
    }

    /// Takes a byte, and returns what was keyed at the key `#`. Then nothing is kept. A field that
    /// must be full and is not takes no such key, and none takes more bytes than it has cells.
    pub(crate) fn take(&mut self, byte: u8) -> Option<Filled>
        ensures text { Exactly (λ text. FillsField self.old.field self.old.full text
            × (self.old.keyed ++ field_keys self.old.field.kind byte ≡ text ++ hash ∷ [])) result }
        ensures field { self.new.field ≡ self.old.field }
        ensures full { self.new.full ≡ self.old.full }
        ensures keys { self.new.keyed ≡ keys_left (FillMode self.old.field self.old.full)
            (self.old.keyed ++ field_keys self.old.field.kind byte)
            (option_map entries.Field result) }
    {
        if byte == b'#' || byte == b'_' {
            return self.end();
        }
        self.add(byte);
        None
    }

    /// Keeps a byte that the field takes, if there is a cell for it.
    fn add(&mut self, byte: u8)
        ensures field { self.new.field ≡ self.old.field }
        ensures full { self.new.full ≡ self.old.full }
        ensures reading { IsFieldReading self.old }
        ensures keys { self.new.keyed ≡ kept_keys (FillMode self.old.field self.old.full)
            (self.old.keyed ++ key_if (takes_byte self.old.field.kind byte) byte) }
    {
        if !takes_byte(self.field.kind, byte) {
            return;
        }
        if self.has_room() {
            self.keyed.push(byte);
        }
    }

    /// Whether there is a cell for one more byte.
    fn has_room(&self) -> bool
        ensures { IsTrue result ↔ (length self.now.keyed < self.now.field.length) }
    {
        self.keyed.text().len() < usize::from(self.field.length)
    }

    /// Returns what was keyed, and keeps nothing. A field that must be full and is not is kept as
    /// it is.
    fn end(&mut self) -> Option<Filled>
        ensures text { Exactly (λ text. FillsField self.old.field self.old.full text
            × (self.old.keyed ≡ text)) result }
        ensures field { self.new.field ≡ self.old.field }
        ensures full { self.new.full ≡ self.old.full }
        ensures kept { IsNone result → self.new.keyed
            ≡ kept_keys (FillMode self.old.field self.old.full) (self.old.keyed ++ hash ∷ []) }
        ensures new { IsSome result → self.new.keyed ≡ [] }
    {
        if self.is_full && self.has_room() {
            return None;
        }
        let text = self.keyed;
        self.keyed = Filled::empty();
        Some(text)
    }
}

/// Whether a field of a kind takes a byte.
fn takes_byte(kind: FieldKind, byte: u8) -> bool
    ensures { result ≡ takes_byte kind byte }
{
    match kind {
        FieldKind::Digits => byte.is_ascii_digit(),
        FieldKind::Words => is_field_byte(byte),
    }
}
