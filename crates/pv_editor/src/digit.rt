ghost use Rattle.std.specs.Prelude.{◌≡◌, ◌<◌, ◌↔◌, IsSome, IfSome};
ghost use Rattle.pv_frame.specs.declared.layout.TheConstants.{ROUTES};

use pv_frame::ROUTES;
use std::marker::Model;

/// A digit that a frame may have a route for, 0 to 9.
#[derive(Clone, Copy, Debug, PartialEq, Eq)]
pub struct RouteDigit {
    digit: u8,
}

impl Model for RouteDigit {
    ghost use Rattle.std.specs.Prelude.{ℕ, ◌<◌};
    ghost use Rattle.pv_frame.specs.declared.layout.TheConstants.{ROUTES};

    ghost Value = { ℕ };

    ghost view = { λ route. route.digit };

    ghost invariant = { λ route. route.digit < ROUTES };

    ghost inverse = { λ digit. record { digit = digit } };
}

impl RouteDigit {
    /// The digit of a number. `None` exactly above 9.
    pub fn of_number(digit: u8) -> Option<RouteDigit>
        ensures found { IsSome result ↔ (digit < ROUTES) }
        ensures value { IfSome result (λ route. route ≡ digit) }
    {
        if usize::from(digit) < ROUTES {
            Some(RouteDigit { digit })
        } else {
            None
        }
    }

    /// The index of the digit's route.
    pub fn index(&self) -> usize
        ensures value { result ≡ self.now }
        ensures within { self.now < ROUTES }
    {
        usize::from(self.digit)
    }
}
