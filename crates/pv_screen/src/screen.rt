use crate::grid::{COLUMNS, Grid};
use crate::painting::{BUFFER, LONGEST, message, paint};

/// What a caller is sent at once.
#[derive(Clone, Copy, Debug, PartialEq, Eq)]
pub enum Screen {
    /// A whole screen.
    Whole(Grid),
    /// The cells of row 24; the other rows stay as they are.
    Row([u8; COLUMNS]),
}

impl Screen {
    ghost use Rattle.std.specs.Prelude.{◌≡◌, ◌≤◌, length, take, drop};
    ghost use Rattle.pv_screen.specs.Painting.{screen_bytes};
    ghost use Rattle.pv_screen.specs.Showing.{HasCells, IsShowable, shown_after};
    ghost use Rattle.pv_screen.specs.Terminal.{Display, IsReadyDisplay, terminal_after};

    /// Writes the bytes that show this screen to the beginning of `into`, and returns their number.
    pub fn bytes(&self, into: &mut [u8; BUFFER]) -> usize
        ensures value { take result into.new ≡ screen_bytes self.now }
        ensures count { result ≡ length (screen_bytes self.now) }
        ensures within { result ≤ LONGEST }
        ensures rest { drop result into.new ≡ drop result into.old }

        // A whole screen has cells of 0 to 127; of a row alone that is asked.
        ensures screen { HasCells self.now → IsShowable self.now }

        // The terminal that takes these bytes shows the whole screen, or what it showed with another row 24.
        ensures shows { HasCells self.now → (t : Display) → IsReadyDisplay t
            → (terminal_after t (take result into.new)).cells ≡ shown_after t.cells self.now }
        ensures ready { HasCells self.now → (t : Display) → IsReadyDisplay t
            → IsReadyDisplay (terminal_after t (take result into.new)) }
    {
        match self {
            Screen::Whole(grid) => paint(grid, into),
            Screen::Row(cells) => message(cells, into),
        }
    }
}
