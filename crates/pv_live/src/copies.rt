//! What passes read: a copy of the node's state, with the records that it stands for. There are two, which
//! take in the same records one after the other.
ghost use Rattle.std.specs.Prelude.{◌≡◌};
ghost use Rattle.pv_live.specs.Entries.{with_opening};
ghost use Rattle.pv_live.specs.Run.{EndsWith, IsStateOf};

use crate::entry::Entry;
use crate::known::Known;
use crate::run::Run;
use left_right::Absorb;
use pv_node::Rules;
use std::alloc::AllocError;
use std::marker::Model;

/// A record that both copies take in, and all records up to it. Contracts see their entries.
#[derive(Drop)]
pub struct Change<R: Rules, N: Run<R::Rec>> {
    entry: Entry<R::Rec>,
    known: Known<R::Rec, N>,
}

impl<R: Rules, N: Run<R::Rec>> Model for Change<R, N> {
    ghost use Rattle.std.specs.Prelude.{List};
    ghost use Rattle.pv_live.specs.declared.entry.Entry.{Entry};
    ghost use Rattle.pv_live.specs.Run.{EndsWith};

    ghost Value = { List (Entry R.Rec) };

    ghost view = { λ c. c.known };

    ghost invariant = { λ c. EndsWith R.Rules N.limits N.opening c.known c.entry };
}

impl<R: Rules, N: Run<R::Rec>> Change<R, N> {
    /// The change by an entry, up to which these are all records.
    pub fn new(entry: Entry<R::Rec>, known: Known<R::Rec, N>) -> Change<R, N>
        requires { EndsWith ⟦<R as Rules>⟧ N.limits N.opening known entry }
        ensures { result ≡ known }
    {
        Change { entry, known }
    }
}

/// A copy of the node's state, and the records that it stands for. Contracts see the entries after the
/// opening.
#[derive(Drop)]
pub struct Published<R: Rules, N: Run<R::Rec>> {
    pub(crate) state: R::State,
    pub(crate) known: Known<R::Rec, N>,
}

impl<R: Rules, N: Run<R::Rec>> Model for Published<R, N> {
    ghost use Rattle.std.specs.Prelude.{List};
    ghost use Rattle.pv_live.specs.declared.entry.Entry.{Entry};
    ghost use Rattle.pv_live.specs.Entries.{with_opening};
    ghost use Rattle.pv_live.specs.Run.{IsStateOf};

    ghost Value = { List (Entry R.Rec) };

    ghost view = { λ p. p.known };

    ghost invariant = { λ p. IsStateOf R.Rules N.limits p.state (with_opening N.opening p.known) };
}

impl<R: Rules, N: Run<R::Rec>> Published<R, N> {
    /// A state, and the records that it stands for.
    pub fn new(state: R::State, known: Known<R::Rec, N>) -> Published<R, N>
        requires { IsStateOf ⟦<R as Rules>⟧ N.limits state (with_opening N.opening known) }
        ensures { result ≡ known }
    {
        Published { state, known }
    }
}

impl<R: Rules, N: Run<R::Rec>> Absorb<Change<R, N>> for Published<R, N> {
    type State = [Entry<R::Rec>; 0];

    ghost state = { λ p. p };

    // A change knows all records up to its own.
    ghost applied = { λ known change. change };

    // The record is the one after those that the copy stands for: changes come in their order. The test costs two
    // comparisons and stands for a proof of that.
    fn absorb_first(
        &mut self,
        operation: &Change<R, N>,
        _other: &Published<R, N>,
    ) -> Result<(), AllocError> {
        let place = operation.known.length() - 1;
        if !self.known.is_prefix_of(&operation.known) || self.known.length() != place {
            return Err(AllocError);
        }
        R::absorb(&mut self.state, &operation.entry.rec, place);
        self.known = operation.known.copy();
        Ok(())
    }
}
