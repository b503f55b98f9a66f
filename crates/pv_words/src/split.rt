ghost use Rattle.std.specs.Prelude.{◌≡◌, ℕ, List, IfSome, IsSome};
ghost use Rattle.pv_words.specs.Split.{IsSplit, IsNextWord};

/// A line's first word, and its tail: nothing, or a space and all that follows it.
pub fn split_word(line: &[u8]) -> (&[u8], &[u8])
    ensures found { IsSplit line.now result.0.now result.1.now }
    ensures only { (word tail : List ℕ) → IsSplit line.now word tail
        → (result.0.now ≡ word) × (result.1.now ≡ tail) }
{
    split_of(line)
}

/// A way to split a line.
fn split_of(line: &[u8]) -> (&[u8], &[u8])
    ensures { IsSplit line.now result.0.now result.1.now }
{
    for (at, byte) in line.iter().enumerate() {
        if *byte == b' ' {
            return (&line[..at], &line[at..]);
        }
    }
    (line, &[])
}

/// The word with which a tail goes on, and the tail after it. `None` exactly when the tail is nothing.
pub fn next_word(tail: &[u8]) -> Option<(&[u8], &[u8])>
    ensures found { IfSome result (λ parts. IsNextWord tail.now parts.0.now parts.1.now) }
    ensures some { (word later : List ℕ) → IsNextWord tail.now word later → IsSome result }
    ensures only { (word later : List ℕ) → IsNextWord tail.now word later →
        IfSome result (λ parts. (parts.0.now ≡ word) × (parts.1.now ≡ later)) }
{
    let (space, text) = tail.split_first()?;
    if *space != b' ' {
        return None;
    }
    Some(split_word(text))
}
