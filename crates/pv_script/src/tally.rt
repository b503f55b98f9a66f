ghost use Rattle.std.specs.Prelude.{◌≡◌, ℕ, ◌+◌, ◌^◌, ◌∷◌, []};
ghost use Rattle.pv_script.specs.Tally.{tally_of, AddsOutcomes, IsTallyWithin};

use pv_network::Outcome;

/// What the outcomes of a play add up to. Its numbers have 128 bits, so that the sum of a number
/// of 64 bits for each line of a script always fits.
#[derive(Clone, Copy, Debug, PartialEq, Eq)]
pub struct Tally {
    /// How many screens were shown.
    pub screens: u128,
    /// How many charge lines were listed.
    pub lines: u128,
    /// What the bills came to, in pence.
    pub pence: u128,
}

impl Tally {
    /// The tally of no outcome.
    pub fn new() -> Tally
        ensures { result ≡ tally_of [] }
    {
        Tally {
            screens: 0,
            lines: 0,
            pence: 0,
        }
    }

    /// Adds an outcome.
    pub fn add(&mut self, outcome: &Outcome)
        requires { IsTallyWithin self.old (2 ^ 32) }
        ensures adds { AddsOutcomes self.old self.new (outcome.now ∷ []) }
        ensures within { (count : ℕ) → IsTallyWithin self.old count → IsTallyWithin self.new (count + 1) }
    {
        match outcome {
            Outcome::Shown(_) | Outcome::StoreFull { .. } => self.screens += 1,
            Outcome::Turns(turns) => self.screens += turns.all().len() as u128,
            Outcome::Bill { lines, pence } => {
                self.lines += lines.all().len() as u128;
                self.pence += *pence as u128;
            }
            _ => {}
        }
    }
}
