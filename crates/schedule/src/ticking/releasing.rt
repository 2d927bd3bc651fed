//! Step 1 of a tick: jobs are released.

ghost use Rattle.std.specs.Prelude.{◌≡◌, ◌<◌, [], length};
ghost use Rattle.schedule.specs.Tables.{TaskReleased, clock_of, moment_of, plan_of, tasks_of, timed};
ghost use Rattle.schedule.specs.Ticks.{released};

use super::Schedule;

impl Schedule {
    /// Releases the next job of a task, if it is due.
    fn release_task(&mut self, task: usize)
        requires { task < length (tasks_of self.old) }
        ensures plan { plan_of self.new ≡ plan_of self.old }
        ensures clock { clock_of self.new ≡ clock_of self.old }
        ensures moment { TaskReleased (timed (tasks_of self.old)) (clock_of self.old) task (moment_of self.old []) (moment_of self.new []) }
    {
        let Schedule { calendar, jobs } = self;
        if let Some(work) = calendar.count_release(task) {
            let until = calendar.until(task);
            jobs.enter(task, work, until);
        }
    }

    /// Asks each task and releases its job, if that is due.
    fn release_each(&mut self)
        ensures plan { plan_of self.new ≡ plan_of self.old }
        ensures clock { clock_of self.new ≡ clock_of self.old }
        ensures moment { moment_of self.new [] ≡ released (timed (tasks_of self.old)) (clock_of self.old) (moment_of self.old []) }
    {
        let count = self.calendar.tasks().len();
        // nothing is indexed here: the number is what the calendar and the table are told
        for task in 0..count {
            self.release_task(task);
        }
    }
    /// Releases each job that is due.
    pub(super) fn release(&mut self)
        ensures plan { plan_of self.new ≡ plan_of self.old }
        ensures clock { clock_of self.new ≡ clock_of self.old }
        ensures moment { moment_of self.new [] ≡ released (timed (tasks_of self.old)) (clock_of self.old) (moment_of self.old []) }
    {
        if !self.calendar.is_quiet() {
            self.release_each();
            self.calendar.look_ahead();
        }
    }
}
