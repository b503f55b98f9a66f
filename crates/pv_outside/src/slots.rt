ghost use Rattle.std.specs.Prelude.{◌≡◌, ◌≤◌, Some, map, length, All, vec_len, vec_capacity, IsSome};
ghost use Rattle.pv_outside.specs.Job.{EachMayReturn};
ghost use Rattle.pv_outside.specs.Slots.{RunsJob, AllRun, slot_of};

use crate::job::Job;
use std::sync::Wait;
use std::thread;
use std::thread::Threads;

/// A job, and then what it returned.
#[derive(Drop)]
pub struct Slot<J: Drop, T: Drop> {
    job: Option<J>,
    done: Option<T>,
}

/// Runs the jobs in these slots, each on a thread of its own, and collects what they return.
pub(crate) fn run_in<J: Job + Send + Drop, R: Wait + Threads + Sync>(
    rt: &R,
    jobs: Vec<J>,
    slots: Vec<Slot<J, J::Done>>,
    done: Vec<J::Done>,
) -> Vec<J::Done>
where
    J::Done: Send + Drop,
    requires slots { (vec_len slots ≡ 0) × (vec_len jobs ≤ vec_capacity slots) }
    requires done { (vec_len done ≡ 0) × (vec_len jobs ≤ vec_capacity done) }
    ensures { EachMayReturn J.may_return jobs.items result.items }
{
    done_of(fill_all(rt, with_jobs(jobs, slots)), done)
}

/// Puts each job into a slot.
fn with_jobs<J: Job + Drop>(jobs: Vec<J>, mut slots: Vec<Slot<J, J::Done>>) -> Vec<Slot<J, J::Done>>
where
    J::Done: Drop,
    requires { (vec_len slots ≡ 0) × (vec_len jobs ≤ vec_capacity slots) }
    ensures { result.items ≡ map slot_of jobs.items }
{
    for job in jobs {
        let slot = Slot {
            job: Some(job),
            done: None,
        };
        slots.push(slot).unwrap();
    }
    slots
}

/// Runs the job of each slot, each on a thread of its own.
fn fill_all<J: Job + Send + Drop, R: Wait + Threads + Sync>(
    rt: &R,
    mut slots: Vec<Slot<J, J::Done>>,
) -> Vec<Slot<J, J::Done>>
where
    J::Done: Send + Drop,
    ensures run { AllRun J.may_return slots.items result.items }
    ensures count { length result.items ≡ length slots.items }
{
    let threads = slots.len();
    if threads > 0 {
        thread::for_each_mut(rt, &mut slots, threads, &|_, slot| fill(rt, slot));
    }
    slots
}

/// Runs the job of a slot.
fn fill<J: Job + Drop, R: Wait + Sync>(rt: &R, slot: &mut Slot<J, J::Done>)
where
    J::Done: Drop,
    ensures { RunsJob J.may_return slot.old.job slot.new.done }
{
    if let Some(job) = slot.job.take() {
        slot.done = Some(job.run(rt));
    }
}

/// Collects what the jobs of the slots returned.
fn done_of<J: Job + Drop>(slots: Vec<Slot<J, J::Done>>, mut done: Vec<J::Done>) -> Vec<J::Done>
where
    J::Done: Drop,
    requires room { (vec_len done ≡ 0) × (vec_len slots ≤ vec_capacity done) }
    requires run { All (λ s. IsSome s.done) slots.items }
    ensures { map Some result.items ≡ map (λ s. s.done) slots.items }
{
    for slot in slots {
        done.push(slot.done.unwrap()).unwrap();
    }
    done
}
