//! What holds over whole runs of bytes. Each of these does nothing: its clause is the law.

ghost use Rattle.std.specs.Prelude.{◌≡◌, ℕ, List, All, fold};
ghost use Rattle.std.specs.List.{flat_map};
ghost use Rattle.pv_screen.specs.Painting.{screen_bytes};
ghost use Rattle.pv_screen.specs.Showing.{IsShowable, shown_after};
ghost use Rattle.pv_screen.specs.Terminal.{Display, IsDisplay, IsReadyDisplay, terminal_after};
ghost use Rattle.pv_screen.specs.declared.screen.Screen.{Screen};

/// Whatever bytes a terminal takes, its cells stay 24 rows of 40 cells of 0 to 127, and its cursor stays on them.
#[tactic(auto, using(crate::proofs::Steps::taking))]
pub fn any_bytes_leave_a_screen()
    ensures { (t : Display) → IsDisplay t → (bytes : List ℕ) → IsDisplay (terminal_after t bytes) }
{}

/// A terminal that is sent screens one after another shows the last whole one, with the last row that was sent alone
/// since then as its row 24.
#[tactic(auto, using(crate::proofs::Runs::screens_shown))]
pub fn screens_are_shown()
    ensures { (screens : List Screen) → All IsShowable screens → (t : Display) → IsReadyDisplay t
        → (terminal_after t (flat_map screen_bytes screens)).cells ≡ fold shown_after t.cells screens }
{}
