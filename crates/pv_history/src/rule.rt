//! The rule of the book that keeps a history: each entry has used one right to add it.

use logbook::{Gain, Plain, Play, Rule};
use std::marker::PhantomData;

/// Each entry has used one right, in the order of the rights. In the log stand the entries.
pub(crate) struct OneRight<E> {
    of: PhantomData<E>,
}

impl<E> Rule<Option<E>, u64> for OneRight<E> {
    ghost use Rattle.std.specs.Prelude.{[]};
    ghost use base.Fml.{ftrue};
    ghost use Rattle.pv_history.specs.History.{IsKept};

    ghost holds = { λ cells log. IsKept cells log };

    ghost first = { [] };

    ghost hinted = { λ n log. Unit {0} };

    ghost shows = { λ log. [] };

    ghost keeps = { λ names log. ftrue };

    ghost moves = { λ ask before after answer. Unit {0} };
}

/// Whoever makes a step gains nothing by it.
pub(crate) struct NoGain;

impl<E> Gain<E, u64> for NoGain {
    ghost use base.Fml.{ftrue};

    ghost after = { λ names about answer. ftrue };
}

/// The step that gives a right.
pub(crate) struct Give;

impl<E> Play<Option<E>, u64> for Give {
    ghost use Rattle.pv_history.specs.History.{GivesRight};

    ghost then = { GivesRight };
}

/// The step that adds an entry.
pub(crate) struct Add;

impl<E> Play<Option<E>, u64> for Add {
    ghost use Rattle.pv_history.specs.History.{Adds};

    ghost then = { Adds };
}

impl<E> Plain<E, Option<E>, u64> for Add {
    ghost use Rattle.std.specs.Prelude.{None, Some};

    ghost ask = { λ entry. Some entry };

    ghost state = { λ entry. None };
}

/// The step that shows how many entries there are.
pub(crate) struct Bound;

impl<E> Play<Option<E>, u64> for Bound {
    ghost use Rattle.pv_history.specs.History.{Bounds};

    ghost then = { Bounds };
}

/// What a step asks that adds no entry.
pub(crate) struct NoEntry;

impl<E> Plain<NoEntry, Option<E>, u64> for NoEntry {
    ghost use Rattle.std.specs.Prelude.{None};

    ghost ask = { λ none. None };

    ghost state = { λ none. None };
}
