ghost use Rattle.std.specs.Prelude.{◌≡◌, ℕ, map, Some, ◌∷◌, [], IfSome, string_bytes};
ghost use Rattle.pv_script.specs.Asking.{AskFor};

use pv_words::number_of;

/// The number that the words ask for: they are this command, and then a number from 1 to the last. `None` exactly
/// when they are not.
pub(crate) fn number_asked(words: &[String], command: &[u8], last: u32) -> Option<u32>
    ensures found { IfSome result (AskFor command.now last (map string_bytes words.now)) }
    ensures only { (number : ℕ) → AskFor command.now last (map string_bytes words.now) number
        → result ≡ Some number }
{
    match words {
        [first, second] => number_of_words(first.as_bytes(), second.as_bytes(), command, last),
        _ => None,
    }
}

/// The number that these two words ask for. `None` exactly when they are not the command and such a number.
fn number_of_words(first: &[u8], second: &[u8], command: &[u8], last: u32) -> Option<u32>
    ensures found { IfSome result (AskFor command.now last (first.now ∷ second.now ∷ [])) }
    ensures only { (number : ℕ) → AskFor command.now last (first.now ∷ second.now ∷ []) number
        → result ≡ Some number }
{
    if first != command {
        return None;
    }
    match number_of(second) {
        Some(number) if 1 <= number && number <= last as u64 => Some(number as u32),
        _ => None,
    }
}
