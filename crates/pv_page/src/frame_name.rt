ghost use Rattle.std.specs.Prelude.{◌≡◌, ℕ, ◌+◌, ◌≤◌, ◌⊎◌, ◌≢◌, ◌↔◌, ◌++◌, length, drop, All, IsNone, IfSome};
ghost use Rattle.std.specs.Char.{IsAsciiDigit};
ghost use Rattle.pv_page.specs.Names.{IsLetter, Name, IsName, name_text, space};

use crate::page_no::PageNo;
use itoa::Buffer;
use pv_fields::Out;
use std::marker::Model;

/// The letter of a page's first frame.
pub const FIRST_LETTER: u8 = b'a';

/// The letter of a page's last frame.
pub const LAST_LETTER: u8 = b'z';

/// The name of a frame: its page, and its letter `a` to `z`.
#[derive(Clone, Copy, Debug, PartialEq, Eq, PartialOrd, Ord, Hash)]
pub struct FrameName {
    /// The frame's page.
    pub page: PageNo,
    /// The frame's letter, `a` to `z`.
    pub letter: u8,
}

impl Model for FrameName {
    ghost use Rattle.pv_page.specs.Names.{Name, IsName};

    ghost Value = { Name };

    ghost view = { λ frame. record { page = frame.page; letter = frame.letter } };

    ghost invariant = { λ frame. IsName (record { page = frame.page; letter = frame.letter }) };

    ghost inverse = { λ name. record { page = name.page; letter = name.letter } };
}

impl FrameName {
    /// The name of a text: the digits of a page, and one letter `a` to `z`. `None` exactly when the text
    /// is no such name.
    pub fn of_text(text: &[u8]) -> Option<FrameName>
        ensures found { IfSome result (λ name. IsName name × (text.now ≡ name_text name)) }
        ensures only { (name : Name) → IsName name → text.now ≡ name_text name →
            result ≡ Some name }
    {
        let (letter, digits) = text.split_last()?;
        let page = PageNo::of_digits(digits).ok()?;
        if letter.is_ascii_lowercase() {
            Some(FrameName {
                page,
                letter: *letter,
            })
        } else {
            None
        }
    }

    /// Writes the name's text at the beginning of `into` and returns its length, 2 to 10. The bytes after
    /// the text are as they were.
    #[tactic(auto, using(crate::proofs::Decimals::name_parts))]
    pub fn text(&self, into: &mut [u8; 10]) -> usize
        ensures text { into.new ≡ name_text self.now ++ drop result into.old }
        ensures len { result ≡ length (name_text self.now) }
        ensures within { IsName self.now }
    {
        let mut out = Out::new(into);
        out.put_run(Buffer::new().format(self.page.number()).as_bytes());
        out.put_u8(self.letter);
        out.written()
    }

    /// The name's parts are within their ranges, by its type. A call states this and has no effect.
    pub fn within(&self)
        ensures { IsName self.now }
    {
        let _ = &self.page;
    }

    /// The name of the page's next frame. `None` exactly after the letter `z`.
    pub fn next_letter(&self) -> Option<FrameName>
        ensures missing { IsNone result ↔ (self.now.letter ≡ LAST_LETTER) }
        ensures next { IfSome result (λ name.
            name ≡ record self.now { letter = self.now.letter + 1 }) }
        ensures within { IfSome result IsName }
    {
        if self.letter == LAST_LETTER {
            return None;
        }
        Some(FrameName {
            page: self.page,
            letter: self.letter + 1,
        })
    }
}

/// A law: two names with the same text are the same name.
#[tactic(auto, using(crate::proofs::CallerLemmas::names))]
pub fn one_text_is_one_name()
    ensures { (a b : Name) → IsName a → IsName b → name_text a ≡ name_text b → a ≡ b }
{}

/// A law: what the text of every name looks like, for code that finds names between spaces.
#[tactic(auto, using(crate::proofs::CallerLemmas::names))]
pub fn texts_of_names()
    // It has two to ten bytes.
    ensures len { (name : Name) → IsName name →
        (2 ≤ length (name_text name)) × (length (name_text name) ≤ 10) }
    // Each byte is a digit or a letter a to z, and so never a space.
    ensures bytes { (name : Name) → IsName name →
        All (λ byte. IsAsciiDigit byte ⊎ IsLetter byte) (name_text name) }
    ensures no_space { (name : Name) → IsName name →
        All (λ byte. byte ≢ space) (name_text name) }
{}
