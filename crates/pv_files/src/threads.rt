ghost use Rattle.std.specs.Prelude.{◌≡◌, IsOk};
ghost use Rattle.pv_outside.specs.Counts.{CountsFaults};

use pv_outside::{Failed, Spawner};

/// Threads of this process. It refuses no start: a job that gets no thread is run after another.
#[derive(Debug, Drop)]
pub struct ThreadSpawner {
    refused: u64,
}

impl ThreadSpawner {
    /// A spawner that has refused nothing.
    pub fn new() -> ThreadSpawner
        ensures { result.refused ≡ 0 }
    {
        ThreadSpawner { refused: 0 }
    }
}

impl Spawner for ThreadSpawner {
    ghost refused = { λ s. s.refused };

    fn start(&mut self, _jobs: usize) -> Result<(), Failed>
        ensures account { CountsFaults self.old.refused self.new.refused result }
        ensures never { IsOk result }
        ensures same { self.new ≡ self.old }
    {
        Ok(())
    }
}
