ghost use Rattle.std.specs.Prelude.{◌≡◌, ◌≤◌, ℕ, false, IfOk, IfErr};
ghost use Rattle.pv_outside.specs.Counts.{Rose, CountsFaults};
ghost use Rattle.pv_outside.specs.Job.{EachMayReturn, IsPartRun};

use crate::failed::Failed;
use crate::job::Job;
use crate::slots::run_in;
use std::alloc::Global;
use std::sync::Wait;
use std::thread::Threads;

/// Jobs of which not all were run. Those that were started have ended.
#[derive(Drop)]
pub struct NotRun<J: Job + Drop>
where
    J::Done: Drop,
{
    /// What the first jobs returned, in order.
    pub done: Vec<J::Done>,
    /// The other jobs, in order.
    pub rest: Vec<J>,
    /// Whether memory ran out. If not, the start was refused.
    pub memory: bool,
}

/// What runs jobs side by side, each on a thread of its own.
pub trait Spawner {
    /// How often it has refused to start jobs.
    ghost refused: { Self → ℕ };

    /// Asks leave to start this many jobs.
    fn start(&mut self, jobs: usize) -> Result<(), Failed>
        ensures { CountsFaults (refused self.old) (refused self.new) result };

    /// Runs each job on a thread of its own, waits for all, and returns what they returned, in order. If
    /// the machine gives no further thread, jobs run one after another.
    ///
    /// The memory for all is taken before the first job starts, so that jobs that are not run are all
    /// handed back.
    final fn run_all<J: Job + Send + Drop, R: Wait + Threads + Sync>(
        &mut self,
        rt: &R,
        alloc: Global,
        jobs: Vec<J>,
    ) -> Result<Vec<J::Done>, NotRun<J>>
    where
        J::Done: Send + Drop,
        ensures done { IfOk result (λ done. EachMayReturn J.may_return jobs.items done.items) }
        ensures part { IfErr result
            (λ part. IsPartRun J.may_return jobs.items part.done.items part.rest.items) }

        // The count of refused starts never falls, and a start was refused only if it rose.
        ensures counted { refused self.old ≤ refused self.new }
        ensures start { IfErr result
            (λ part. part.memory ≡ false → Rose (refused self.old) (refused self.new)) }
    {
        let slots = Vec::with_capacity(alloc, jobs.len());
        let done = Vec::with_capacity(alloc, jobs.len());
        let (Ok(slots), Ok(done)) = (slots, done) else {
            return Err(none_run(alloc, jobs, true));
        };
        if self.start(jobs.len()).is_err() {
            return Err(none_run(alloc, jobs, false));
        }
        Ok(run_in(rt, jobs, slots, done))
    }
}

/// No job was run: memory ran out, or the start was refused.
fn none_run<J: Job + Drop>(alloc: Global, jobs: Vec<J>, memory: bool) -> NotRun<J>
where
    J::Done: Drop,
    ensures part { IsPartRun J.may_return jobs.items result.done.items result.rest.items }
    ensures memory { result.memory ≡ memory }
{
    NotRun {
        done: Vec::new(alloc),
        rest: jobs,
        memory,
    }
}
