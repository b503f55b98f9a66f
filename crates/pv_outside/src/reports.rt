ghost use Rattle.std.specs.Prelude.{ℕ, List, Option};
ghost use Rattle.pv_outside.specs.Disk.{Budget};

/// What a disk reports to contracts. The head of the trait `Disk`'s file says what it may leave out.
pub trait Reports {
    /// The bytes that it reads as, if it can report them.
    ghost reads: { Self → Option (List ℕ) };

    /// The images that a crash now may leave.
    ghost may_leave: { Self → List ℕ → Type 0 };

    /// How many of its calls have succeeded.
    ghost clock: { Self → ℕ };

    /// The images that a crash at some moment since this time of the clock might have left.
    ghost left_since: { Self → ℕ → List ℕ → Type 0 };

    /// The times since which it no longer knows what a crash might have left, so that any image might.
    ghost has_forgotten: { Self → ℕ → Type 0 };

    /// How much it still takes, if it can report that.
    ghost budget: { Self → Option Budget };

    /// How often a call has failed.
    ghost faults: { Self → ℕ };
}
