ghost use Rattle.std.specs.Prelude.{◌≡◌, ℕ, List, [], Some, IfSome, ◌↔◌, true};
ghost use Rattle.pv_words.specs.Parts.{Exactly, IsOne, AreTwo, AreThree, Gives, GivesAlone};

use crate::split::next_word;

/// A reader of one part of a line.
pub trait Reader<'a> {
    /// What a part stands for.
    type Value: Drop;

    ghost Writes: { Self → Self.Value → List ℕ → Type 0 };

    /// What a text stands for. `None` exactly when the text is no such part.
    fn read(&self, text: &'a [u8]) -> Option<Self::Value>
        ensures found { IfSome result (λ value. Writes self.now value text.now) }
        ensures only { (value : Self.Value) → Writes self.now value text.now → result ≡ Some value };
}

/// The one part of a tail: all that follows its space. `None` exactly when it has none that reads.
pub fn one<'a, A: Reader<'a>>(first: &A, tail: &'a [u8]) -> Option<A::Value>
    ensures found { IfSome result (λ value. IsOne (A.Writes first.now) tail.now value) }
    ensures only { (value : A.Value) → IsOne (A.Writes first.now) tail.now value → result ≡ Some value }
{
    let (space, text) = tail.split_first()?;
    if *space == b' ' {
        first.read(text)
    } else {
        None
    }
}

/// The two parts of a tail. `None` exactly when it has no two that read.
pub fn two<'a, A: Reader<'a>, B: Reader<'a>>(
    first: &A,
    second: &B,
    tail: &'a [u8],
) -> Option<(A::Value, B::Value)>
    ensures found { IfSome result (AreTwo (A.Writes first.now) (B.Writes second.now) tail.now) }
    ensures only { (parts : A.Value × B.Value)
        → AreTwo (A.Writes first.now) (B.Writes second.now) tail.now parts → result ≡ Some parts }
{
    let (word, later) = next_word(tail)?;
    let a = first.read(word)?;
    let b = one(second, later)?;
    Some((a, b))
}

/// The three parts of a tail. `None` exactly when it has no three that read.
pub fn three<'a, A: Reader<'a>, B: Reader<'a>, C: Reader<'a>>(
    first: &A,
    second: &B,
    third: &C,
    tail: &'a [u8],
) -> Option<(A::Value, B::Value, C::Value)>
    ensures found { IfSome result
        (AreThree (A.Writes first.now) (B.Writes second.now) (C.Writes third.now) tail.now) }
    ensures only { (parts : A.Value × B.Value × C.Value)
        → AreThree (A.Writes first.now) (B.Writes second.now) (C.Writes third.now) tail.now parts
        → result ≡ Some parts }
{
    let (word, later) = next_word(tail)?;
    let a = first.read(word)?;
    let (b, c) = two(second, third, later)?;
    Some((a, b, c))
}

/// What is made of a tail that is nothing. `None` exactly when it is not.
pub fn none_as<E: Drop>(tail: &[u8], made: E) -> Option<E>
    ensures { Exactly (GivesAlone made tail.now) result }
{
    if tail.is_empty() { Some(made) } else { None }
}

/// What is made of the one part of a tail. `None` exactly when it has none that reads.
pub fn one_as<'a, A: Reader<'a>, E: Drop, F: FnOnce(A::Value) -> E + Drop>(
    first: &A,
    tail: &'a [u8],
    make: F,
) -> Option<E>
    requires { F.IsAlwaysCallable make }
    ensures { (makes : A.Value → E)
        → ((parts : A.Value) (made : E) → F.post make parts made → made ≡ makes parts)
        → Exactly (Gives (IsOne (A.Writes first.now)) makes tail.now) result }
{
    match one(first, tail) {
        Some(parts) => Some(make(parts)),
        None => None,
    }
}

/// What is made of the two parts of a tail. `None` exactly when it has no two that read.
pub fn two_as<
    'a,
    A: Reader<'a>,
    B: Reader<'a>,
    E: Drop,
    F: FnOnce((A::Value, B::Value)) -> E + Drop,
>(first: &A, second: &B, tail: &'a [u8], make: F) -> Option<E>
    requires { F.IsAlwaysCallable make }
    ensures { (makes : A.Value × B.Value → E)
        → ((parts : A.Value × B.Value) (made : E) → F.post make parts made → made ≡ makes parts)
        → Exactly (Gives (AreTwo (A.Writes first.now) (B.Writes second.now)) makes tail.now) result }
{
    match two(first, second, tail) {
        Some(parts) => Some(make(parts)),
        None => None,
    }
}

/// What is made of the three parts of a tail. `None` exactly when it has no three that read.
pub fn three_as<
    'a,
    A: Reader<'a>,
    B: Reader<'a>,
    C: Reader<'a>,
    E: Drop,
    F: FnOnce((A::Value, B::Value, C::Value)) -> E + Drop,
>(first: &A, second: &B, third: &C, tail: &'a [u8], make: F) -> Option<E>
    requires { F.IsAlwaysCallable make }
    ensures { (makes : A.Value × B.Value × C.Value → E)
        → ((parts : A.Value × B.Value × C.Value) (made : E) → F.post make parts made → made ≡ makes parts)
        → Exactly (Gives
        (AreThree (A.Writes first.now) (B.Writes second.now) (C.Writes third.now)) makes tail.now) result }
{
    match three(first, second, third, tail) {
        Some(parts) => Some(make(parts)),
        None => None,
    }
}
