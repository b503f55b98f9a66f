ghost use Rattle.std.specs.Prelude.{◌≡◌, ◌≤◌, ℕ, Option, IfSome};
ghost use Rattle.pv_outside.specs.declared.clock.TheConstants.{CLOCK_END};

/// The last moment that a clock shows, in seconds since 1970: the end of the year 2099.
pub const CLOCK_END: u32 = 4_102_444_799;

/// A clock. It never fails.
pub trait Clock {
    /// The moment that it shows, if it can report that.
    ghost moment: { Self → Option ℕ };

    /// The moment now, in seconds since 1970, at most [`CLOCK_END`].
    fn now(&self) -> u32
        ensures range { result ≤ CLOCK_END }
        ensures shown { IfSome (moment self.now) (λ shown. result ≡ shown) };
}
