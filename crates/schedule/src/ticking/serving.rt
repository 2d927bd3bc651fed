//! Steps 3 to 5 of a tick: the chosen task is served, and the clock goes on.

ghost use Rattle.std.specs.Prelude.{◌≡◌, ◌+◌, ◌<◌, List, length, Some, None, IfSome};
ghost use Rattle.delay.specs.declared.mark.Mark.{Mark};
ghost use Rattle.schedule.specs.States.{Setting};
ghost use Rattle.schedule.specs.Tables.{Passed, clock_of, moment_of, plan_of, tasks_of, unruled};

use super::Schedule;
use crate::rows::TickRows;
use delay::DelayModel;

impl Schedule {
    /// A tick in which this task has the core.
    // a hint to the compiler: made a call of, it would write out and copy the rows of every tick
    #[inline(always)]
    fn serve<M: DelayModel>(&mut self, model: &mut M, task: usize) -> TickRows
        requires known { task < length (tasks_of self.old) }
        requires before { clock_of self.old < 1000000000000 }
        ensures same { M.DelayModel.profile model.new ≡ M.DelayModel.profile model.old }
        ensures plan { plan_of self.new ≡ plan_of self.old }
        ensures clock { clock_of self.new ≡ clock_of self.old + 1 }
        ensures passed { Passed (unruled (tasks_of self.old) (M.DelayModel.profile model.old)) (clock_of self.old) (Some task) (moment_of self.old (M.DelayModel.marks model.old)) (moment_of self.new (M.DelayModel.marks model.new)) result }
    {
        let Schedule { calendar, jobs } = self;
        let served = jobs.serve(model, calendar.tasks(), task);
        let switch = calendar.switch_row(task, served.switch);
        let job = calendar.job_row(task, served.finished);
        calendar.step();
        jobs.step(calendar.tasks().len());
        TickRows { switch, job }
    }

    /// A tick in which no task has the core.
    fn idle(&mut self) -> TickRows
        requires before { clock_of self.old < 1000000000000 }
        ensures plan { plan_of self.new ≡ plan_of self.old }
        ensures clock { clock_of self.new ≡ clock_of self.old + 1 }
        ensures passed { (c : Setting) (ms : List Mark) → Passed c (clock_of self.old) None (moment_of self.old ms) (moment_of self.new ms) result }
    {
        let Schedule { calendar, jobs } = self;
        jobs.idle();
        calendar.step();
        jobs.step(calendar.tasks().len());
        TickRows::default()
    }

    /// The rest of a tick after the choice.
    #[inline(always)]
    pub(super) fn pass<M: DelayModel>(&mut self, model: &mut M, choice: Option<usize>) -> TickRows
        requires known { IfSome choice (λ task. task < length (tasks_of self.old)) }
        requires before { clock_of self.old < 1000000000000 }
        ensures same { M.DelayModel.profile model.new ≡ M.DelayModel.profile model.old }
        ensures plan { plan_of self.new ≡ plan_of self.old }
        ensures clock { clock_of self.new ≡ clock_of self.old + 1 }
        ensures passed { Passed (unruled (tasks_of self.old) (M.DelayModel.profile model.old)) (clock_of self.old) choice (moment_of self.old (M.DelayModel.marks model.old)) (moment_of self.new (M.DelayModel.marks model.new)) result }
    {
        match choice {
            Some(task) => self.serve(model, task),
            None => self.idle(),
        }
    }
}
