ghost use Rattle.std.specs.Prelude.{◌≡◌, None};
ghost use Rattle.pv_files.specs.Moment.{moment_shown};

use pv_outside::{CLOCK_END, Clock};
use std::time;

/// The clock of the machine, kept within the range of a clock. If the machine cannot say what time it is,
/// it shows 0.
#[derive(Drop)]
pub struct MachineClock<'a, R: time::Clock> {
    rt: &'a R,
}

impl<'a, R: time::Clock> MachineClock<'a, R> {
    /// The clock of this runtime.
    pub fn new(rt: &'a R) -> Self {
        MachineClock { rt }
    }
}

impl<'a, R: time::Clock> Clock for MachineClock<'a, R> {
    ghost moment = { λ _. None };

    fn now(&self) -> u32 {
        let since = self.rt.since_1970().ok();
        moment_of(since.map(|since| since.as_secs()))
    }
}

/// The moment that is this many seconds after 1970 began, or the last that a clock shows. If the machine
/// refused to say, it is 0.
fn moment_of(seconds: Option<u64>) -> u32
    ensures { result ≡ moment_shown seconds }
{
    match seconds {
        Some(seconds) => seconds.min(u64::from(CLOCK_END)) as u32,
        None => 0,
    }
}
