//! Whether a job is late.

ghost use Rattle.std.specs.Prelude.{◌≡◌, []};
ghost use Rattle.schedule.specs.JobTables.{slot_at};
ghost use Rattle.schedule.specs.Jobs.{late_job};
ghost use Rattle.schedule.specs.Schedules.{late_first};
ghost use Rattle.schedule.specs.Tables.{clock_of, moment_of, next_at, task_in, tasks_of, timed};

use super::Schedule;
use crate::rows::LateJob;

impl Schedule {
    /// Whether the live job of a task is late at the clock.
    fn is_late(&self, task: usize) -> bool
        ensures { result ≡ late_job self.now.calendar.clock (task_in self.now.calendar task) (next_at self.now.calendar task) (slot_at self.now.jobs task) }
    {
        self.jobs.slot(task).live && self.calendar.is_deadline(task)
    }

    /// The job that is late at the clock; of several, that of the lowest task number.
    pub fn late(&self) -> Option<LateJob>
        ensures { result ≡ late_first (timed (tasks_of self.now)) (clock_of self.now) (moment_of self.now []) }
    {
        if self.calendar.is_quiet() {
            return None;
        }
        let count = self.calendar.tasks().len();
        for task in 0..count {
            if self.is_late(task) {
                let job = self.calendar.live_job(task);
                return Some(LateJob { task, job });
            }
        }
        None
    }
}
