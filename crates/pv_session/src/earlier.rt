ghost use Rattle.std.specs.Prelude.{◌≡◌, [], ◌∷◌, take, drop, slice_get};
ghost use Rattle.pv_session.specs.Earlier.{names_of};

use pv_page::FrameName;

/// How many earlier frames a caller can go back.
pub const EARLIER: usize = 3;

/// The names of the frames to which a caller can go back, the last one first.
#[derive(Clone, Copy, Debug, PartialEq, Eq)]
pub struct Earlier {
    first: Option<FrameName>,
    second: Option<FrameName>,
    third: Option<FrameName>,
}

impl Earlier {
    /// No names.
    pub(crate) fn new() -> Earlier
        ensures { names_of result ≡ [] }
    {
        Earlier {
            first: None,
            second: None,
            third: None,
        }
    }

    /// Puts a name before the others. The oldest of four is dropped.
    pub(crate) fn push(&mut self, name: FrameName)
        ensures { names_of self.new ≡ take EARLIER (name ∷ names_of self.old) }
    {
        self.third = self.second;
        self.second = self.first;
        self.first = Some(name);
    }

    /// Takes the last name off. `None` exactly when there is none.
    pub(crate) fn pop(&mut self) -> Option<FrameName>
        ensures last { result ≡ slice_get (names_of self.old) 0 }
        ensures rest { names_of self.new ≡ drop 1 (names_of self.old) }
    {
        let name = self.first?;
        self.first = self.second;
        self.second = self.third;
        self.third = None;
        Some(name)
    }
}
