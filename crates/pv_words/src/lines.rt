ghost use Rattle.std.specs.Prelude.{◌≡◌, ◌<◌, ◌∷◌, length, IfSome, IsNone};
ghost use Rattle.pv_words.specs.Lines.{lines_of, IsSplitAt};
ghost use Rattle.pv_words.specs.Split.{HasNone};

/// The first line of a text that is not empty, without its end, and the text after it.
pub fn first_line(text: &[u8]) -> (&[u8], &[u8])
    requires { 0 < length text.now }
    ensures line { lines_of text.now ≡ result.0.now ∷ lines_of result.1.now }
    ensures shorter { length result.1.now < length text.now }
{
    match split_at(text, b'\n') {
        Some((line, rest)) => (line, rest),
        None => (text, &text[text.len()..]),
    }
}

/// What stands before the first such byte of a text, and all that follows it. `None` exactly when the text has no
/// such byte.
pub fn split_at(text: &[u8], byte: u8) -> Option<(&[u8], &[u8])>
    ensures found { IfSome result (λ parts. IsSplitAt byte text.now parts.0.now parts.1.now) }
    ensures missing { IsNone result → HasNone byte text.now }
{
    for (at, other) in text.iter().enumerate() {
        if *other == byte {
            return Some((&text[..at], &text[at + 1..]));
        }
    }
    None
}
