ghost use Rattle.std.specs.Prelude.{◌≡◌, ◌⊎◌, ℕ, List, [], ◌∷◌};
ghost use Rattle.pv_journal.specs.Text.{Spells, SpellsEither};
ghost use Rattle.pv_journal.specs.Journal.{LeavesOnly};

use pv_outside::Disk;

/// A law: bytes spell at most one list of bodies.
pub fn bytes_spell_one_list()
    ensures { (bytes : List ℕ) (one other : List (List ℕ)) → Spells bytes one → Spells bytes other → one
        ≡ other }
{}

/// A law: at each moment of a settling and then an append, a crash leaves what it might have left at a
/// moment of either.
pub fn settle_then_append<D: Disk>()
    ensures { (old settled new : D) (bodies hand stored : List (List ℕ)) (body : List ℕ)
        → LeavesOnly D.Reports old settled (SpellsEither bodies hand)
        → LeavesOnly D.Reports settled new (SpellsEither stored (body ∷ []))
        → LeavesOnly D.Reports old new (λ image. SpellsEither bodies hand image
        ⊎ SpellsEither stored (body ∷ []) image) }
{}
