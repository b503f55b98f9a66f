ghost use Rattle.std.specs.Prelude.{◌≡◌, ◌≤◌, ◌+◌, ◌*◌, ◌++◌, length, option_map};
ghost use Rattle.pv_page.specs.Names.{name_text};
ghost use Rattle.pv_post.specs.declared.fields.TheConstants.{MAX_FIELDS};
ghost use Rattle.pv_post.specs.declared.filled.TheConstants.{FILLED_BYTES};
ghost use Rattle.pv_editor.specs.Replies.{responses_reply, response_reply, joined_fields, barred_fields, barred_field};
ghost use Rattle.pv_editor.specs.declared.text.TheConstants.{ROOM};

use crate::replies::{number_text, words_text};
use crate::text::Text;
use pv_page::FrameName;
use pv_post::{Filled, Item, Reply};

/// The reply to a search for responses: the place of the item, the frame's name, who filled
/// it in, and what he keyed into its fields, or a dash if nothing was found. An item that is no filled
/// frame counts as nothing.
pub fn responses_text(found: Option<(u64, &Item)>) -> Text
    ensures { result ≡ responses_reply (option_map (λ item. (item.0, item.1.now)) found.entry) }
{
    match found {
        Some((place, Item::Reply(reply))) => response_text(place, reply),
        _ => words_text(b"OK -"),
    }
}

/// The text of a filled frame that was taken up at this place.
fn response_text(place: u64, reply: &Reply) -> Text
    ensures { result ≡ response_reply place reply.now }
{
    let mut text = number_text(b"OK ", place, b" ");
    push_name(&mut text, &reply.name);
    text.push(b" ");
    text.push(&reply.account.digits());
    text.push(b" ");
    push_fields(&mut text, reply.fields.as_slice());
    text
}

/// Appends a frame's name, which fits.
fn push_name(text: &mut Text, name: &FrameName)
    requires { length text.old + 10 ≤ ROOM }
    ensures pushed { text.new ≡ text.old ++ name_text name.now }
    ensures short { length text.new ≤ length text.old + 10 }
{
    let mut into = [0; 10];
    let len = name.text(&mut into);
    text.push(&into[..len]);
}

/// Appends fields with a bar between any two, which fit.
fn push_fields(text: &mut Text, fields: &[Filled])
    requires room { length text.old + MAX_FIELDS * (FILLED_BYTES + 1) ≤ ROOM }
    requires fields { length fields.now ≤ MAX_FIELDS }
    ensures { text.new ≡ text.old ++ joined_fields fields.now }
{
    match fields {
        [] => {}
        [first, others @ ..] => {
            push_field(text, first);
            push_others(text, others);
        }
    }
}

/// Appends fields, each after a bar, which fit.
fn push_others(text: &mut Text, others: &[Filled])
    requires { length text.old + (FILLED_BYTES + 1) * length others.now ≤ ROOM }
    ensures { text.new ≡ text.old ++ barred_fields others.now }
{
    for field in others {
        push_barred(text, field);
    }
}

/// Appends a field after a bar, which fits.
fn push_barred(text: &mut Text, field: &Filled)
    requires { length text.old + (FILLED_BYTES + 1) ≤ ROOM }
    ensures pushed { text.new ≡ text.old ++ barred_field field.now }
    ensures short { length text.new ≤ length text.old + (FILLED_BYTES + 1) }
{
    text.push(b"|");
    push_field(text, field);
}

/// Appends a field, which fits.
fn push_field(text: &mut Text, field: &Filled)
    requires { length text.old + FILLED_BYTES ≤ ROOM }
    ensures pushed { text.new ≡ text.old ++ field.now }
    ensures short { length text.new ≤ length text.old + FILLED_BYTES }
{
    text.push(field.text());
}
