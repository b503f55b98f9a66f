ghost use Rattle.std.specs.Prelude.{◌≡◌, ℕ, List, Option, map};
ghost use Rattle.pv_outside.specs.declared.limits.Limits.{Limits};
ghost use Rattle.pv_page.specs.Names.{Name};
ghost use Rattle.pv_post.specs.Boxes.{WaitingLetter};
ghost use Rattle.pv_edits.specs.Edits.{frame_at, account_at};
ghost use Rattle.pv_edits.specs.Letters.{letter_at};
ghost use Rattle.pv_edits.specs.Room.{has_room};
ghost use Rattle.pv_edits.specs.Sight.{sight_of};
ghost use Rattle.pv_edits.specs.declared.record.Record.{Record};
ghost use Rattle.pv_irc.specs.History.{letter_down};
ghost use Rattle.pv_nodes.specs.Below.{records_below};
ghost use Rattle.pv_udc.specs.Replies.{down_of};

/// A law: charges and replies do not come down, and a centre misses nothing by that. What it has of a prefix of
/// the edit list gives the same frames and accounts, shows each caller the same, and has the same room. Each place
/// brings each account the same letter.
pub fn a_centre_shows_what_the_list_shows()
    ensures frame { (records : List Record) (name : Name) → frame_at (records_below records) name
        ≡ frame_at records name }
    ensures account { (records : List Record) (number : ℕ) → account_at (records_below records) number
        ≡ account_at records number }
    ensures sight { (records : List Record) (letters : ℕ → List WaitingLetter) (centre : ℕ)
        → (caller : Option ℕ)
        → sight_of (records_below records) letters centre caller ≡ sight_of records letters centre caller }
    ensures letter { (records : List Record) (centre account place : ℕ)
        → letter_down centre account (map down_of records) place ≡ letter_at records centre account place }
    ensures room { (limits : Limits) (records : List Record) (rec : Record)
        → has_room limits (records_below records) rec ≡ has_room limits records rec }
{}
