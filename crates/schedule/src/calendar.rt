//! When the jobs of the tasks are released, and when they have to be finished.

ghost use Rattle.std.specs.Prelude.{◌≡◌, ℕ, ◌+◌, ◌<◌, ◌≤◌, length, slice_index_or};
ghost use Rattle.plan.specs.Plans.{tasks_in};
ghost use Rattle.plan.specs.Tasks.{zero_task};
ghost use Rattle.schedule.specs.Calendars.{next_job, no_job};

mod next_job;
mod opening;
mod reading;
mod soonest;
mod stepping;
mod writing;

use next_job::NextJob;
use plan::{MOST_TASKS, Plan};

/// The clock, and the next job of each task.
#[derive(Clone, Copy)]
pub(crate) struct Calendar {
    plan: Plan,
    clock: u64,
    jobs: [NextJob; MOST_TASKS],
    /// from the clock to before this instant no job is released and no deadline comes, so that a tick need not ask each task
    soonest: u64,
    ghost ending: { clock ≤ 1000000000000 },
    ghost sized: { length jobs ≡ 16 },
    ghost kept: { (i : ℕ) → slice_index_or jobs i no_job ≡ next_job (slice_index_or (tasks_in plan) i zero_task) (slice_index_or jobs i no_job).number },
    ghost awaited: { (i : ℕ) → i < length (tasks_in plan) → clock ≤ (slice_index_or jobs i no_job).live_deadline → soonest ≤ (slice_index_or jobs i no_job).live_deadline },
    ghost later: { (i : ℕ) → i < length (tasks_in plan) → soonest ≤ (slice_index_or jobs i no_job).release },
    ghost near: { (i : ℕ) → (slice_index_or jobs i no_job).live_deadline ≤ clock + 2097152 },
}
