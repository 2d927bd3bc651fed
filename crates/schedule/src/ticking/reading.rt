//! What can be seen of a schedule between two ticks.

ghost use Rattle.std.specs.Prelude.{◌≡◌, []};
ghost use Rattle.schedule.specs.Schedules.{age_in};
ghost use Rattle.schedule.specs.States.{slot_of};
ghost use Rattle.schedule.specs.Tables.{clock_of, moment_of, tasks_of, timed};

use super::Schedule;
use crate::slots::Slot;
use plan::Task;

impl Schedule {
    /// The instant that has been reached.
    pub fn clock(&self) -> u64
        ensures { result ≡ clock_of self.now }
    {
        self.calendar.clock()
    }

    /// The tasks of the plan.
    pub fn tasks(&self) -> &[Task]
        ensures { result.now ≡ tasks_of self.now }
    {
        self.calendar.tasks()
    }

    /// The slot of a task; for a number that no task has, a slot without a live job.
    pub fn slot(&self, task: usize) -> Slot
        ensures { result ≡ slot_of (moment_of self.now []).state task }
    {
        self.jobs.slot(task)
    }

    /// The age of a task's live job: how long ago it was released. 0 where no job is live, and for a number that no task has.
    pub fn age(&self, task: usize) -> u64
        ensures { result ≡ age_in (timed (tasks_of self.now)) (clock_of self.now)
            (moment_of self.now []) task }
    {
        let slot = self.slot(task);
        if slot.live {
            self.calendar.age(task)
        } else {
            0
        }
    }

    /// The running task, if there is one.
    pub fn running(&self) -> Option<usize>
        ensures { result ≡ (moment_of self.now []).state.running }
    {
        self.jobs.running()
    }
}
