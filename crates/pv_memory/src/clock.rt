ghost use Rattle.std.specs.Prelude.{◌≡◌, ◌≤◌, Some, IfSome};
ghost use Rattle.pv_outside.specs.declared.clock.TheConstants.{CLOCK_END};

use pv_outside::Clock;

/// A clock that shows the moment that it was set to.
#[derive(Debug, Drop)]
pub struct SetClock {
    moment: u32,
    ghost in_range: { moment ≤ CLOCK_END },
}

impl SetClock {
    /// A clock that shows this moment.
    pub fn new(moment: u32) -> SetClock
        requires { moment ≤ CLOCK_END }
        ensures { result.moment ≡ moment }
    {
        SetClock { moment }
    }

    /// Sets it to this moment, which may lie before the last one.
    pub fn set(&mut self, moment: u32)
        requires { moment ≤ CLOCK_END }
        ensures { self.new.moment ≡ moment }
    {
        self.moment = moment;
    }
}

impl Clock for SetClock {
    ghost moment = { λ c. Some c.moment };

    fn now(&self) -> u32 {
        self.moment
    }
}
