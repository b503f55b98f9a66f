ghost use Rattle.std.specs.Prelude.{◌≡◌};
ghost use Rattle.pv_editor.specs.Replies.{responses_reply};
ghost use Rattle.pv_verdicts.specs.Search.{first_reply};

use pv_editor::{Text, responses_text};
use pv_edits::Record;
use pv_page::AccountNo;
use pv_udc::UdcState;

/// What a search for replies to an editor's pages finds, from a place on.
pub fn responses(update: &UdcState, editor: AccountNo, from: u64) -> Text
    ensures { result ≡ responses_reply (first_reply update.now.records editor from) }
{
    let Some(place) = update.reply_for(editor, from) else {
        return responses_text(None);
    };
    match update.rec_at(place) {
        Some(Record::Taken(taken)) => responses_text(Some((place, &taken.item))),
        _ => responses_text(None),
    }
}
