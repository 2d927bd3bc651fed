//! Steps 4 and 5 of a tick: the task that has the core spends it.

ghost use Rattle.std.specs.Prelude.{◌≡◌, ◌+◌, ◌^◌, ◌<◌, [], if◌then◌else◌, Some, None, ◌==◌, slice_set};
ghost use Rattle.schedule.specs.JobTables.{delay_at, delays_in, slot_at, slots_in, untils_in};
ghost use Rattle.schedule.specs.Rows.{finishes};
ghost use Rattle.schedule.specs.Tables.{state_of, switch_delay, unruled};
ghost use Rattle.schedule.specs.Ticks.{delay_to, served, settled, spent};

use super::JobTable;
use crate::slots::work;
use delay::DelayModel;
use plan::Task;

/// What a tick was for the task that had the core.
#[derive(Clone, Copy)]
pub(crate) struct Served {
    /// the delay answered at the switch, if it was one
    pub(crate) switch: Option<u16>,
    /// all delay that was answered to the job, if it got its last tick
    pub(crate) finished: Option<u64>,
}

impl JobTable {
    /// The task that has the core spends one tick of reload or of work.
    fn spend<M: DelayModel>(&mut self, model: &mut M, task: usize)
        requires { task < 16 }
        ensures same { M.DelayModel.profile model.new ≡ M.DelayModel.profile model.old }
        ensures state { state_of self.new (M.DelayModel.marks model.new) ≡ spent (unruled [] (M.DelayModel.profile model.old)) task (state_of self.old (M.DelayModel.marks model.old)) }
        ensures untils { untils_in self.new ≡ untils_in self.old }
        ensures delays { delays_in self.new ≡ delays_in self.old }
    {
        model.spend(task);
        // the row of the task that has the core, lent as one element of the table
        let row = &mut self.rows[task];
        work(row);
    }

    /// Ends the tick: where no work is left the job finishes, and the answer is its delay; otherwise its task is the running one.
    fn settle<M: DelayModel>(&mut self, model: &mut M, task: usize) -> Option<u64>
        ensures same { M.DelayModel.profile model.new ≡ M.DelayModel.profile model.old }
        ensures state { state_of self.new (M.DelayModel.marks model.new) ≡ settled task (state_of self.old (M.DelayModel.marks model.old)) }
        ensures untils { untils_in self.new ≡ (if (slot_at self.old task).left == 0 then slice_set (untils_in self.old) task 0 else untils_in self.old) }
        ensures delays { delays_in self.new ≡ delays_in self.old }
        ensures finished { result ≡ (if (slot_at self.old task).left == 0 then Some (delay_at self.old task) else None) }
    {
        if self.slot(task).left > 0 {
            self.running = Some(task);
            return None;
        }
        self.clear(task);
        model.finish(task);
        self.running = None;
        Some(self.delay(task))
    }

    /// A tick without a task on the core.
    pub(crate) fn idle(&mut self)
        ensures slots { slots_in self.new ≡ slots_in self.old }
        ensures untils { untils_in self.new ≡ untils_in self.old }
        ensures running { self.new.running ≡ None }
        ensures delays { delays_in self.new ≡ delays_in self.old }
    {
        self.running = None;
    }

    /// Gives the core to a task for one tick.
    // a hint to the compiler, as on `Schedule::serve`: a call would write its answer out at every tick
    #[inline(always)]
    pub(crate) fn serve<M: DelayModel>(
        &mut self,
        model: &mut M,
        tasks: &[Task],
        task: usize,
    ) -> Served
        requires place { task < 16 }
        requires owing { (slot_at self.old task).owed < 2 ^ 63 }
        requires charging { delay_at self.old task < 2 ^ 63 }
        ensures same { M.DelayModel.profile model.new ≡ M.DelayModel.profile model.old }
        ensures state { state_of self.new (M.DelayModel.marks model.new) ≡ served (unruled tasks.now (M.DelayModel.profile model.old)) (Some task) (state_of self.old (M.DelayModel.marks model.old)) }
        ensures untils { untils_in self.new ≡ (if finishes (unruled tasks.now (M.DelayModel.profile model.old)) task (state_of self.old (M.DelayModel.marks model.old)) then slice_set (untils_in self.old) task 0 else untils_in self.old) }
        ensures delays { delays_in self.new ≡ slice_set (delays_in self.old) task (delay_at self.old task + delay_to (unruled tasks.now (M.DelayModel.profile model.old)) task (state_of self.old (M.DelayModel.marks model.old))) }
        ensures switch { result.switch ≡ switch_delay (unruled tasks.now (M.DelayModel.profile model.old)) task (state_of self.old (M.DelayModel.marks model.old)) }
        ensures finished { result.finished ≡ (if finishes (unruled tasks.now (M.DelayModel.profile model.old)) task (state_of self.old (M.DelayModel.marks model.old)) then Some (delay_at self.new task) else None) }
    {
        let switch = self.switch_to(model, tasks, task);
        self.spend(model, task);
        let finished = self.settle(model, task);
        Served { switch, finished }
    }
}
