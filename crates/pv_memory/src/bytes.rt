ghost use Rattle.std.specs.Prelude.{◌≡◌, ℕ, max, ◌+◌, ◌*◌, ◌%◌, ◌<◌, ◌≤◌, false, if◌then◌else◌, length, take, slice_index, vec_len, vec_capacity};
ghost use Rattle.pv_outside.specs.Disk.{text_after_write};
ghost use Rattle.pv_memory.specs.Medium.{is_within, is_pending, IsEachWithin, MatchesSync, IsImage, image_bytes, pattern};

use crate::past::Range;

/// Writes bytes over what is there, and past the end.
pub(crate) fn overwrite(text: &mut Vec<u8>, at: usize, bytes: &[u8])
    requires within { at ≤ vec_len text.old }
    requires room { at + length bytes.now ≤ vec_capacity text.old }
    ensures written { text.new.items ≡ text_after_write at bytes.now text.old.items }
    ensures len { vec_len text.new ≡ max (vec_len text.old) (at + length bytes.now) }
    ensures capacity { vec_capacity text.old ≤ vec_capacity text.new }
{
    if bytes.len() < text.len() - at {
        text[at..at + bytes.len()].copy_from_slice(bytes);
    } else {
        text.truncate(at);
        text.extend_from_slice(bytes).unwrap();
    }
}

/// Makes an older copy of a text equal to it: the copy differs only past its end and in these ranges. What
/// is past its end is copied once, also if a range reaches there.
pub(crate) fn catch_up(copy: &mut Vec<u8>, text: &[u8], pending: &[Range])
    requires shorter { vec_len copy.old ≤ length text.now }
    requires room { length text.now ≤ vec_capacity copy.old }
    requires within { IsEachWithin pending.now (length text.now) }
    requires same { (place : ℕ) → place < vec_len copy.old → is_pending pending.now place ≡ false
        → slice_index copy.old.items place ≡ slice_index text.now place }

    // Afterwards they are equal.
    ensures same { copy.new.items ≡ text.now }
    ensures capacity { vec_capacity copy.old ≤ vec_capacity copy.new }
{
    copy_ranges(copy, text, pending);
    let end = copy.len();
    copy.extend_from_slice(&text[end..]).unwrap();
}

/// Copies what a text has in these ranges to one that is no longer, up to its end.
fn copy_ranges(copy: &mut [u8], text: &[u8], pending: &[Range])
    requires shorter { length copy.old ≤ length text.now }
    requires within { IsEachWithin pending.now (length text.now) }
    requires same { (place : ℕ) → place < length copy.old → is_pending pending.now place ≡ false
        → slice_index copy.old place ≡ slice_index text.now place }
    ensures { copy.new ≡ take (length copy.old) text.now }
{
    for range in pending {
        copy_range(copy, text, *range);
    }
}

/// Copies what a text has in a range to one that is no longer, up to its end.
fn copy_range(copy: &mut [u8], text: &[u8], range: Range)
    requires shorter { length copy.old ≤ length text.now }
    requires within { range.at + range.size ≤ length text.now }
    ensures { (place : ℕ) → place < length copy.old → slice_index copy.new place
        ≡ (if is_within range place then slice_index text.now place else slice_index copy.old place) }
{
    let from = range.at.min(copy.len());
    let end = (range.at + range.size).min(copy.len());
    copy[from..end].copy_from_slice(&text[from..end]);
}

/// Puts the pattern of an image over a range.
fn paint(text: &mut [u8], image: u8, range: Range)
    requires { range.at + range.size ≤ length text.old }
    ensures { (place : ℕ) → place < length text.new → slice_index text.new place
        ≡ (if is_within range place then pattern image place else slice_index text.old place) }
{
    for place in range.at..range.at + range.size {
        text[place] = ((31 * image as usize + 17 * (place % 256)) % 256) as u8;
    }
}

/// Puts the pattern of an image over each range.
fn paint_all(text: &mut [u8], image: u8, pending: &[Range])
    requires { IsEachWithin pending.now (length text.old) }
    ensures { (place : ℕ) → place < length text.new → slice_index text.new place
        ≡ (if is_pending pending.now place then pattern image place else slice_index text.old place) }
{
    for range in pending {
        paint(text, image, *range);
    }
}

/// Makes a text, and its older copy, the image of this number.
pub(crate) fn restore(text: &mut Vec<u8>, synced: &mut Vec<u8>, pending: &[Range], image: u8)
    requires matches { MatchesSync text.old.items synced.old.items pending.now }
    requires text_room { vec_len synced.old ≤ vec_capacity text.old }
    requires synced_room { vec_len text.old ≤ vec_capacity synced.old }

    // It is the image of this number, and one that a crash may leave.
    ensures image { text.new.items ≡ image_bytes text.old.items synced.old.items pending.now image }
    ensures left { IsImage (record {
      text = text.old.items;
      end = length synced.old.items;
      pending = pending.now;
    }) text.new.items }
    ensures same { synced.new.items ≡ text.new.items }

    // Both keep their room.
    ensures no_longer { vec_len text.new ≤ vec_len text.old }
    ensures text_capacity { vec_capacity text.old ≤ vec_capacity text.new }
    ensures synced_capacity { vec_capacity synced.old ≤ vec_capacity synced.new }
{
    match image {
        0 => {
            text.clear();
            text.extend_from_slice(synced).unwrap();
        }
        1 => catch_up(synced, text, pending),
        _ => {
            paint_all(text, image, pending);
            catch_up(synced, text, pending);
        }
    }
}
