//! Laws of a centre's records, each the clause of a function that does nothing.
ghost use Rattle.std.specs.Prelude.{◌≡◌, ℕ, List, length};
ghost use Rattle.pv_fields.specs.Reading.{ReadsBack};
ghost use Rattle.pv_outside.specs.declared.limits.Limits.{Limits};
ghost use Rattle.pv_irc.specs.Record.{IsCentreRecord, centre_bytes};
ghost use Rattle.pv_post.specs.Waiting.{waiting_letters};
ghost use Rattle.pv_edits.specs.declared.down.DownRecord.{DownRecord};
ghost use Rattle.pv_irc.specs.History.{applied_of, letter_down, letters_for, CentreState, IsOfDowns};
ghost use Rattle.pv_irc.specs.Numbers.{IsCentreRun, applied_places, first_places};
ghost use Rattle.pv_irc.specs.declared.record.CentreRecord.{CentreRecord};

use pv_edits::no_record_begins_another;
use pv_post::no_item_begins_another;

/// No spelling of a centre's record is a prefix of another's, so bytes spell at most one record.
pub fn no_centre_record_begins_another()
    ensures { ReadsBack IsCentreRecord centre_bytes }
{
    no_record_begins_another();
    no_item_begins_another();
}

/// In a list of records that a centre stored, those of the edit list have the places 0, 1, 2 and on, in
/// order: it has applied a prefix of that list.
pub fn centre_records_are_numbered()
    ensures { (centre : ℕ) (limits : Limits) (records : List CentreRecord)
        → IsCentreRun centre limits records → applied_places records ≡ first_places (applied_of records) }
{}

/// The letters that wait for an account at a centre are those that the places of the edit list brought there,
/// less those that were removed. What a place brought is read from what came down.
pub fn letters_wait_by_places()
    ensures { (state : CentreState) (downs : List DownRecord) → IsOfDowns state downs → (account : ℕ)
        → letters_for state account ≡ waiting_letters (letter_down state.centre account downs)
        state.removals account (length downs) }
{}
