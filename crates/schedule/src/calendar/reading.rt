//! What the calendar says of a task. A number that no task has is read as the task of zeros.

ghost use Rattle.std.specs.Prelude.{◌≡◌, ◌-◌, ◌≤◌, length, ◌==◌};
ghost use Rattle.plan.specs.Plans.{tasks_in};
ghost use Rattle.schedule.specs.Calendars.{next_job};
ghost use Rattle.schedule.specs.Jobs.{deadline_at, due, live_job, release};
ghost use Rattle.schedule.specs.Tables.{next_at, task_in};

use super::{Calendar, NextJob};
use plan::Task;

impl Calendar {
    /// The instant that has been reached.
    pub(crate) fn clock(&self) -> u64
        ensures value { result ≡ self.now.clock }
        ensures bound { result ≤ 1000000000000 }
    {
        self.clock
    }

    /// The tasks of the plan.
    pub(crate) fn tasks(&self) -> &[Task]
        ensures value { result.now ≡ tasks_in self.now.plan }
        ensures few { length result.now ≤ 16 }
    {
        self.plan.tasks()
    }

    /// The next job of a task.
    fn next(&self, task: usize) -> NextJob
        ensures { result ≡ next_job (task_in self.now task) (next_at self.now task) }
    {
        self.jobs.get(task).copied().unwrap_or_default()
    }

    /// Whether the next job of a task is released now.
    pub(super) fn is_due(&self, task: usize) -> bool
        ensures { result ≡ due self.now.clock (task_in self.now task) (next_at self.now task) }
    {
        self.next(task).release == self.clock
    }

    /// The number of the live job of a task.
    pub(crate) fn live_job(&self, task: usize) -> u64
        ensures { result ≡ live_job (next_at self.now task) }
    {
        self.next(task).number.saturating_sub(1)
    }

    /// How many ticks there are until the deadline of the live job of a task.
    pub(crate) fn until(&self, task: usize) -> u32
        ensures { result ≡ deadline_at (task_in self.now task) (live_job (next_at self.now task)) - self.now.clock }
    {
        self.next(task).live_deadline.saturating_sub(self.clock) as u32
    }

    /// Whether the deadline of the live job of a task is now.
    pub(crate) fn is_deadline(&self, task: usize) -> bool
        ensures { result ≡ (self.now.clock == deadline_at (task_in self.now task) (live_job (next_at self.now task))) }
    {
        self.clock == self.next(task).live_deadline
    }

    /// How long ago the live job of a task was released.
    pub(crate) fn age(&self, task: usize) -> u64
        ensures { result ≡ self.now.clock
            - release (task_in self.now task) (live_job (next_at self.now task)) }
    {
        self.clock.saturating_sub(self.release(task))
    }

    /// The instant at which the live job of a task was released.
    pub(super) fn release(&self, task: usize) -> u64
        ensures { result ≡ release (task_in self.now task) (live_job (next_at self.now task)) }
    {
        self.next(task).live_deadline - u64::from(self.plan.task(task).deadline)
    }
}
