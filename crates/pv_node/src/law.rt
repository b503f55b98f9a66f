ghost use Rattle.std.specs.Prelude.{◌≡◌, ℕ, List};
ghost use Rattle.pv_node.specs.Standing.{Stands};

use crate::rules::Rules;
use pv_journal::bytes_spell_one_list;

/// A law: an image stands for at most one list of records.
pub fn image_stands_for_one_list<R: Rules>()
    ensures { (image : List ℕ) (one other : List R.Rec) → Stands ⟦<R as Rules>⟧ image one
        → Stands ⟦<R as Rules>⟧ image other → one ≡ other }
{
    bytes_spell_one_list();
}
