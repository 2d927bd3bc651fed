//! Step 3 of a tick: the chosen task gets the core.

ghost use Rattle.std.specs.Prelude.{◌≡◌, ◌+◌, ◌^◌, ◌<◌, [], slice_set};
ghost use Rattle.schedule.specs.JobTables.{delay_at, delays_in, slot_at, untils_in};
ghost use Rattle.schedule.specs.Tables.{state_of, switch_delay, unruled};
ghost use Rattle.schedule.specs.Ticks.{delay_to, loses, lost, switched};

use super::JobTable;
use delay::DelayModel;
use plan::Task;

impl JobTable {
    /// Whether a task loses to the one that gets the core.
    fn is_losing(&self, task: usize, to: usize) -> bool
        ensures { result ≡ loses (state_of self.now []) task to }
    {
        let slot = self.slot(task);
        task != to && slot.live && slot.begun
    }

    /// Tells the model of every task that loses, in ascending order.
    fn tell_losses<M: DelayModel>(&self, model: &mut M, count: usize, to: usize)
        requires { to < 16 }
        ensures same { M.DelayModel.profile model.new ≡ M.DelayModel.profile model.old }
        ensures marks { M.DelayModel.marks model.new ≡ lost (M.DelayModel.profile model.old) to count (state_of self.now (M.DelayModel.marks model.old)) }
    {
        // nothing is indexed here: the number is what the model is told
        for task in 0..count {
            if self.is_losing(task, to) {
                model.lose(task, to);
            }
        }
    }

    /// Gives the core to a task. The answer is the delay, or nothing where the task goes on running.
    pub(super) fn switch_to<M: DelayModel>(
        &mut self,
        model: &mut M,
        tasks: &[Task],
        task: usize,
    ) -> Option<u16>
        requires place { task < 16 }
        requires owing { (slot_at self.old task).owed < 2 ^ 63 }
        requires charging { delay_at self.old task < 2 ^ 63 }
        ensures same { M.DelayModel.profile model.new ≡ M.DelayModel.profile model.old }
        ensures state { state_of self.new (M.DelayModel.marks model.new) ≡ switched (unruled tasks.now (M.DelayModel.profile model.old)) task (state_of self.old (M.DelayModel.marks model.old)) }
        ensures untils { untils_in self.new ≡ untils_in self.old }
        ensures delays { delays_in self.new ≡ slice_set (delays_in self.old) task (delay_at self.old task + delay_to (unruled tasks.now (M.DelayModel.profile model.old)) task (state_of self.old (M.DelayModel.marks model.old))) }
        ensures switch { result ≡ switch_delay (unruled tasks.now (M.DelayModel.profile model.old)) task (state_of self.old (M.DelayModel.marks model.old)) }
    {
        if self.is_running(task) {
            return None;
        }
        self.tell_losses(model, tasks.len(), task);
        let mut slot = self.slot(task);
        let delay = if slot.begun {
            model.resume(task)
        } else {
            model.begin(task);
            0
        };
        slot.owed += u64::from(delay);
        slot.begun = true;
        self.put(task, slot);
        self.charge(task, delay);
        Some(delay)
    }
}
