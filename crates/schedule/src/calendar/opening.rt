//! The calendar at instant 0.

ghost use Rattle.std.specs.Prelude.{◌≡◌, ℕ, ◌≤◌, length, replicate, slice_index_or};
ghost use Rattle.plan.specs.Plans.{tasks_in};
ghost use Rattle.plan.specs.Tasks.{zero_task};
ghost use Rattle.schedule.specs.Calendars.{next_job, no_job};
ghost use Rattle.schedule.specs.Tables.{next_in};

use super::{Calendar, NextJob};
use plan::{MOST_TASKS, Plan};
use std::array;

impl Calendar {
    /// Job 0 of each task comes next.
    pub(crate) fn new(plan: &Plan) -> Self
        ensures plan { result.plan ≡ plan.now }
        ensures clock { result.clock ≡ 0 }
        ensures next { next_in result ≡ replicate 16 0 }
    {
        Calendar {
            plan: *plan,
            clock: 0,
            jobs: first_jobs(plan),
            soonest: 0,
        }
    }
}

/// Job 0 of each task, and of the task of zeros past the last one.
fn first_jobs(plan: &Plan) -> [NextJob; MOST_TASKS]
    ensures size { length result ≡ 16 }
    ensures value { (i : ℕ) → slice_index_or result i no_job ≡ next_job (slice_index_or (tasks_in plan.now) i zero_task) 0 }
{
    array::from_fn(|task| NextJob::first(&plan.task(task)))
}
