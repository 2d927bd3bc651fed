//! The clock goes on, and jobs are counted as they are released.

ghost use Rattle.std.specs.Prelude.{◌≡◌, ◌+◌, ◌<◌, length, if◌then◌else◌, Some, None, slice_set};
ghost use Rattle.plan.specs.Plans.{tasks_in};
ghost use Rattle.schedule.specs.Jobs.{counted, due};
ghost use Rattle.schedule.specs.Tables.{next_at, next_in, task_in};

use super::Calendar;

impl Calendar {
    /// One instant on.
    pub(crate) fn step(&mut self)
        requires { self.old.clock < 1000000000000 }
        ensures clock { self.new.clock ≡ self.old.clock + 1 }
        ensures next { next_in self.new ≡ next_in self.old }
        ensures plan { self.new.plan ≡ self.old.plan }
    {
        self.clock += 1;
    }

    /// Where the next job of a task is released now, the one after it comes next, and the answer is the work of the released job.
    pub(crate) fn count_release(&mut self, task: usize) -> Option<u32>
        requires { task < length (tasks_in self.old.plan) }
        ensures work { result ≡ (if due self.old.clock (task_in self.old task) (next_at self.old task) then Some (task_in self.old task).work else None) }
        ensures next { next_in self.new ≡ slice_set (next_in self.old) task (counted self.old.clock (task_in self.old task) (next_at self.old task)) }
        ensures clock { self.new.clock ≡ self.old.clock }
        ensures plan { self.new.plan ≡ self.old.plan }
    {
        if !self.is_due(task) {
            return None;
        }
        let released = self.plan.task(task);
        // to be found anew, as both instants of the task change
        self.soonest = 0;
        let job = &mut self.jobs[task];
        job.number += 1;
        job.release += u64::from(released.period);
        job.live_deadline = self.clock + u64::from(released.deadline);
        Some(released.work)
    }
}
