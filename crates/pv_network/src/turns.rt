ghost use Rattle.std.specs.Prelude.{◌≡◌, ◌++◌, ◌∷◌, [], IfOk, OnOk};
ghost use Rattle.pv_network.specs.Keying.{screens_in, is_over, turns_answer};

use crate::outcome::{Outcome, Turn};
use pv_screen::Screen;
use pv_session::Why;
use std::alloc::{AllocError, Global};
use std::marker::Model;

/// The screens that a caller is shown for his keys, in order. Contracts see the list of them.
#[derive(Debug, Drop)]
pub struct Turns {
    turns: Vec<Turn>,
}

impl Model for Turns {
    ghost use Rattle.std.specs.Prelude.{List};
    ghost use Rattle.pv_network.specs.declared.outcome.Turn.{Turn};

    ghost Value = { List Turn };

    ghost view = { λ turns. turns.turns.items };
}

impl Turns {
    /// No screen.
    pub(crate) fn new(alloc: Global) -> Turns
        ensures { result ≡ [] }
    {
        Turns {
            turns: Vec::new(alloc),
        }
    }

    /// Adds a screen, which is shown after the others, and why the call ended with it, if it did. The only error is that
    /// memory ran out.
    fn push(&mut self, screen: Screen, ended: Option<Why>) -> Result<(), AllocError>
        ensures { OnOk result (self.new ≡ self.old ++ record { screen = screen; ended = ended } ∷ []) }
    {
        self.turns.reserve(1)?;
        self.turns.push_reserved(Turn { screen, ended });
        Ok(())
    }

    /// Adds the screen that an outcome shows, if it shows one. The only error is that memory ran out.
    fn add(&mut self, outcome: &Outcome) -> Result<(), AllocError>
        ensures { OnOk result (self.new ≡ self.old ++ screens_in outcome.now) }
    {
        match outcome {
            Outcome::Shown(turn) => self.push(turn.screen, turn.ended),
            Outcome::StoreFull { screen, .. } => self.push(*screen, Some(Why::Full)),
            _ => Ok(()),
        }
    }

    /// Adds the screen that an outcome shows, if it shows one, and returns whether the call ended with it. The only error
    /// is that memory ran out.
    pub(crate) fn take(&mut self, outcome: &Outcome) -> Result<bool, AllocError>
        ensures turns { OnOk result (self.new ≡ self.old ++ screens_in outcome.now) }
        ensures over { IfOk result (λ over. over ≡ is_over outcome.now) }
    {
        self.add(outcome)?;
        Ok(outcome.is_over())
    }

    /// The answer to keys that showed these screens.
    pub(crate) fn answer(self) -> Outcome
        ensures { result ≡ turns_answer self }
    {
        if self.turns.is_empty() {
            Outcome::Quiet
        } else {
            Outcome::Turns(self)
        }
    }

    /// The screens.
    pub fn all(&self) -> &[Turn]
        ensures { result.now ≡ self.now }
    {
        &self.turns
    }
}
