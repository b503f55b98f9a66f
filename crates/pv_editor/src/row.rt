ghost use Rattle.std.specs.Prelude.{◌≡◌, ◌↔◌, IsSome, IfSome};
ghost use Rattle.pv_editor.specs.Rows.{IsBodyRow};

use pv_frame::{FIRST_ROW, LAST_ROW};
use std::marker::Model;

/// The number of a row of a frame's body, 2 to 23.
#[derive(Clone, Copy, Debug, PartialEq, Eq)]
pub struct BodyRow {
    number: u8,
}

impl Model for BodyRow {
    ghost use Rattle.std.specs.Prelude.{ℕ};
    ghost use Rattle.pv_editor.specs.Rows.{IsBodyRow};

    ghost Value = { ℕ };

    ghost view = { λ row. row.number };

    ghost invariant = { λ row. IsBodyRow row.number };

    ghost inverse = { λ number. record { number = number } };
}

impl BodyRow {
    /// The row of a number. `None` exactly outside 2 to 23.
    pub fn of_number(number: u8) -> Option<BodyRow>
        ensures found { IsSome result ↔ IsBodyRow number }
        ensures value { IfSome result (λ row. row ≡ number) }
    {
        if FIRST_ROW <= number && number <= LAST_ROW {
            Some(BodyRow { number })
        } else {
            None
        }
    }

    /// The row's number.
    pub fn number(&self) -> u8
        ensures value { result ≡ self.now }
        ensures within { IsBodyRow self.now }
    {
        self.number
    }
}
