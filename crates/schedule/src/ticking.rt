//! The schedule of a plan, from one tick to the next.

ghost use Rattle.std.specs.Prelude.{◌≡◌, ℕ, ◌*◌, ◌<◌, ◌≤◌, length, map, slice_index, slice_index_or};
ghost use Rattle.plan.specs.Plans.{tasks_in};
ghost use Rattle.plan.specs.Tasks.{zero_task};
ghost use Rattle.schedule.specs.JobTables.{delay_at, slot_at, until_at};
ghost use Rattle.schedule.specs.Jobs.{shown};
ghost use Rattle.schedule.specs.declared.calendar.next_job.NextJob.{NextJob};

mod choosing;
mod lateness;
mod opening;
mod reading;
mod releasing;
mod serving;
mod states;
mod tick;

use crate::calendar::Calendar;
use crate::jobs::JobTable;

/// The last instant that a schedule comes to.
pub const LAST_INSTANT: u64 = 1_000_000_000_000;

/// The schedule at its clock: which jobs are released next, and the live ones. The marks are the delay model's.
#[derive(Clone, Copy)]
pub struct Schedule {
    calendar: Calendar,
    jobs: JobTable,
    ghost owing: { (i : ℕ) → (slot_at jobs i).owed ≤ 4096 * calendar.clock },
    ghost charging: { (i : ℕ) → delay_at jobs i ≤ 4096 * calendar.clock },
    ghost ahead: { (i : ℕ) → i < length (tasks_in calendar.plan) → until_at jobs i ≡ (shown calendar.clock (slice_index_or (tasks_in calendar.plan) i zero_task) (slice_index (map (λ (j : NextJob). j.number) calendar.jobs) i) (slot_at jobs i)).until },
}
