ghost use Rattle.std.specs.Prelude.{◌≡◌, ℕ, List, [], ◌++◌, length, Option};
ghost use Rattle.pv_keys.specs.declared.command.Command.{Command};
ghost use Rattle.pv_keys.specs.Commands.{IsSpelling, IsSplitInto, AreCommandsOf};
ghost use Rattle.pv_keys.specs.Reader.{TakesBytes, commands_in};

/// A law: no command's keys are the beginning of another's, and no keys are two commands.
#[tactic(auto, using(crate::proofs::Machine::one_spelling))]
pub fn no_spelling_begins_another()
    ensures { (keys rest : List ℕ) (a b : Command) → IsSpelling keys a → IsSpelling (keys ++ rest) b →
        (rest ≡ []) × (a ≡ b) }
{}

/// A law: keys are cut into commands in one way.
#[tactic(auto, using(crate::proofs::Laws::one_cut))]
pub fn keys_are_cut_in_one_way()
    ensures { (keys x y : List ℕ) (a b : List Command) → IsSplitInto keys a x → IsSplitInto keys b y →
        (a ≡ b) × (x ≡ y) }
{}

/// A law: what a new reader answers to bytes, one after another, is the commands into which all their keys are cut.
pub fn answers_are_the_commands()
    // It gives the commands of the keys, and keeps the rest of them.
    ensures commands { (bytes kept : List ℕ) (answers : List (Option Command)) →
        TakesBytes [] bytes answers kept → AreCommandsOf bytes (commands_in answers) kept }

    // Each is given at the byte that ends it: after the first of the bytes, the commands of these were given.
    ensures ends { (first second after : List ℕ) (a b : List (Option Command)) →
        length a ≡ length first → TakesBytes [] (first ++ second) (a ++ b) after →
        (kept : List ℕ) × AreCommandsOf first (commands_in a) kept × TakesBytes kept second b after }

    // Any bytes are answered, and in one way.
    ensures some { (bytes : List ℕ) →
        (answers : List (Option Command)) × (kept : List ℕ) × TakesBytes [] bytes answers kept }
    ensures one { (bytes before x y : List ℕ) (a b : List (Option Command)) →
        TakesBytes before bytes a x → TakesBytes before bytes b y → (a ≡ b) × (x ≡ y) }
{}

/// A law: bytes that come in pieces are answered as those that come at once.
#[tactic(auto, using(crate::proofs::Laws::join, crate::proofs::Laws::part))]
pub fn pieces_are_answered_as_one()
    ensures joined { (first second before between after : List ℕ) (a b : List (Option Command)) →
        TakesBytes before first a between → TakesBytes between second b after →
        TakesBytes before (first ++ second) (a ++ b) after }
    ensures parted { (first second before after : List ℕ) (a b : List (Option Command)) →
        length a ≡ length first → TakesBytes before (first ++ second) (a ++ b) after →
        (between : List ℕ) × TakesBytes before first a between × TakesBytes between second b after }
{}
