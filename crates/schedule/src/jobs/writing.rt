//! What is written into the table. A number that no task has is passed over.

ghost use Rattle.std.specs.Prelude.{◌≡◌, ◌+◌, ◌^◌, ◌<◌, true, false, slice_set};
ghost use Rattle.schedule.specs.JobTables.{delay_at, delays_in, slots_in, untils_in};
ghost use Rattle.schedule.specs.Jobs.{vacant};

use super::JobTable;
use crate::slots::Slot;
use dispatch::Candidate;
use plan::MOST_TASKS;

impl JobTable {
    /// Puts this in the place of a task's row.
    fn place(&mut self, task: usize, row: Candidate)
        ensures rows { self.new.rows ≡ slice_set self.old.rows task row }
        ensures delays { self.new.delays ≡ self.old.delays }
        ensures running { self.new.running ≡ self.old.running }
    {
        // an index behind a test, not `get_mut`: a proof knows nothing of the table after `get_mut`
        if task < MOST_TASKS {
            self.rows[task] = row;
        }
    }

    /// Puts this in the place of the delay of a task's live job.
    fn set_delay(&mut self, task: usize, delay: u64)
        ensures rows { self.new.rows ≡ self.old.rows }
        ensures delays { self.new.delays ≡ slice_set self.old.delays task delay }
        ensures running { self.new.running ≡ self.old.running }
    {
        if task < MOST_TASKS {
            self.delays[task] = delay;
        }
    }

    /// Puts this in the place of a task's slot. Its deadline is as far away as before.
    pub(super) fn put(&mut self, task: usize, slot: Slot)
        ensures slots { slots_in self.new ≡ slice_set (slots_in self.old) task slot }
        ensures untils { untils_in self.new ≡ untils_in self.old }
        ensures delays { delays_in self.new ≡ delays_in self.old }
        ensures running { self.new.running ≡ self.old.running }
    {
        let until = self.until(task);
        self.place(task, slot.shown(until));
    }

    /// No job of a task is live any more.
    pub(super) fn clear(&mut self, task: usize)
        ensures slots { slots_in self.new ≡ slice_set (slots_in self.old) task vacant }
        ensures untils { untils_in self.new ≡ slice_set (untils_in self.old) task 0 }
        ensures delays { delays_in self.new ≡ delays_in self.old }
        ensures running { self.new.running ≡ self.old.running }
    {
        self.place(task, Candidate::default());
    }

    /// Adds to the delay of a task's live job.
    pub(super) fn charge(&mut self, task: usize, delay: u16)
        requires { delay_at self.old task < 2 ^ 63 }
        ensures slots { slots_in self.new ≡ slots_in self.old }
        ensures untils { untils_in self.new ≡ untils_in self.old }
        ensures delays { delays_in self.new ≡ slice_set (delays_in self.old) task (delay_at self.old task + delay) }
        ensures running { self.new.running ≡ self.old.running }
    {
        self.set_delay(task, self.delay(task) + u64::from(delay));
    }

    /// A job with this work takes the slot of its task, so many ticks before its deadline.
    pub(crate) fn enter(&mut self, task: usize, work: u32, until: u32)
        ensures slots { slots_in self.new ≡ slice_set (slots_in self.old) task (record { live = true; left = work; owed = 0; begun = false }) }
        ensures untils { untils_in self.new ≡ slice_set (untils_in self.old) task until }
        ensures delays { delays_in self.new ≡ slice_set (delays_in self.old) task 0 }
        ensures running { self.new.running ≡ self.old.running }
    {
        let slot = Slot {
            live: true,
            left: work,
            owed: 0,
            begun: false,
        };
        self.place(task, slot.shown(until));
        self.set_delay(task, 0);
    }
}
