ghost use Rattle.std.specs.Prelude.{◌≡◌, ◌<◌, ◌≤◌, ◌↔◌, [], ◌∷◌, ◌++◌, length, take, flat_map, All, IfOk, IfSome, IsSome};
ghost use Rattle.pv_fields.specs.Out.{Puts};
ghost use Rattle.pv_fields.specs.Padded.{IsPadded};
ghost use Rattle.pv_fields.specs.Reading.{GivesFound, same, times};
ghost use Rattle.pv_post.specs.Item.{AreFields, IsFilled, filled_bytes, filled_at, fields_bytes, fields_at};

use crate::filled::Filled;
use pv_fields::{In, NoRoom, NoSpelling, Out};
use std::marker::Model;

/// How many fields a frame has at most.
pub const MAX_FIELDS: usize = 8;

/// What was keyed into the fields of a frame, one [`Filled`] for each, one to [`MAX_FIELDS`].
#[derive(Clone, Copy, Debug, PartialEq, Eq)]
pub struct Fields {
    count: u8,
    places: [Filled; MAX_FIELDS],
}

impl Model for Fields {
    ghost use Rattle.std.specs.Prelude.{ℕ, List, [], length, take};
    ghost use Rattle.pv_fields.specs.Padded.{padded_list};
    ghost use Rattle.pv_fields.proofs.CallerLemmas.{length-items, padded_list-take};
    ghost use Rattle.pv_post.specs.declared.fields.TheConstants.{MAX_FIELDS};
    ghost use Rattle.pv_post.specs.Item.{AreFieldsInside};

    ghost Value = { List (List ℕ) };

    ghost view = { λ f. take f.count f.places };

    ghost invariant = { λ f. AreFieldsInside f.count f.places };

    ghost inverse = { λ fields. record { count = length fields; places = padded_list [] MAX_FIELDS fields } };

    ghost inverse_ok = { λ f inside i. record {
      count = length-items [] MAX_FIELDS f.count f.places inside.padded i;
      places = padded_list-take [] MAX_FIELDS f.count f.places inside.padded i;
    } };
}

impl Fields {
    /// The fields of a list. `None` exactly when it is empty or has more than [`MAX_FIELDS`].
    pub fn of_list(list: &[Filled]) -> Option<Fields>
        ensures found { IsSome result ↔ (1 ≤ length list.now) × (length list.now ≤ MAX_FIELDS) }
        ensures value { IfSome result (λ fields. fields ≡ list.now) }
    {
        let count = list.len();
        if count < 1 || MAX_FIELDS < count {
            return None;
        }
        Some(Fields {
            count: count as u8,
            places: places_of(list),
        })
    }

    /// One field.
    pub fn one(first: Filled) -> Fields
        ensures { result ≡ first ∷ [] }
    {
        let mut places = [Filled::empty(); MAX_FIELDS];
        places[0] = first;
        Fields { count: 1, places }
    }

    /// Adds a field after the others, of which there must be fewer than [`MAX_FIELDS`].
    pub fn push(&mut self, filled: Filled)
        requires { length self.old < MAX_FIELDS }
        ensures { self.new ≡ self.old ++ filled ∷ [] }
    {
        self.places[usize::from(self.count)] = filled.copy();
        self.count += 1;
    }

    /// The fields, in order.
    pub fn as_slice(&self) -> &[Filled]
        ensures same { result.now ≡ self.now }
        ensures fields { AreFields self.now }
    {
        &self.places[..usize::from(self.count)]
    }

    /// Appends the number of fields and then each. [`NoRoom`] exactly when they do not fit.
    #[tactic(auto, unfolding(crate::specs::Item::fields_bytes))]
    pub fn put(&self, out: &mut Out) -> Result<(), NoRoom>
        ensures { Puts result out.old out.new (fields_bytes self.now) }
    {
        out.u8(self.count)?;
        put_each(&self.places[..usize::from(self.count)], out)
    }

    /// Takes the number of fields and then each. [`NoSpelling`] if the bytes begin with no fields.
    #[tactic(auto, unfolding(crate::specs::Item::fields_at))]
    pub fn read(from: &mut In) -> Result<Fields, NoSpelling>
        ensures { GivesFound same result (fields_at from.old) from.new }
    {
        let count = from.u8_within(1, MAX_FIELDS as u8)?;
        let places = read_each(from, count)?;
        Ok(Fields { count, places })
    }
}

/// Appends each field.
fn put_each(fields: &[Filled], out: &mut Out) -> Result<(), NoRoom>
    ensures { Puts result out.old out.new (flat_map filled_bytes fields.now) }
{
    for filled in fields {
        filled.put(out)?;
    }
    Ok(())
}

/// The fields of a list, with empty ones after them.
fn places_of(list: &[Filled]) -> [Filled; MAX_FIELDS]
    requires { length list.now ≤ MAX_FIELDS }
    ensures same { take (length list.now) result ≡ list.now }
    ensures filled { All IsFilled list.now }
    ensures padded { IsPadded [] MAX_FIELDS (length list.now) result }
{
    let mut places = [Filled::empty(); MAX_FIELDS];
    for i in 0..list.len() {
        places[i] = list[i].copy();
    }
    places
}

/// Takes this many fields, with empty ones after them.
fn read_each(from: &mut In, count: u8) -> Result<[Filled; MAX_FIELDS], NoSpelling>
    requires { count ≤ MAX_FIELDS }
    ensures gives { GivesFound (take count) result (times filled_at count from.old) from.new }
    ensures padded { IfOk result (IsPadded [] MAX_FIELDS count) }
    ensures filled { IfOk result (λ places. All IsFilled (take count places)) }
{
    let mut places = [Filled::empty(); MAX_FIELDS];
    for i in 0..usize::from(count) {
        places[i] = Filled::read(from)?;
    }
    Ok(places)
}
