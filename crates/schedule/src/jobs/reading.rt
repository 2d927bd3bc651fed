//! What the table says of a task.

ghost use Rattle.std.specs.Prelude.{◌≡◌, ◌≤◌, take};
ghost use Rattle.schedule.specs.JobTables.{delay_at, slot_at, until_at};
ghost use Rattle.schedule.specs.Ticks.{runs};

use super::JobTable;
use crate::slots::Slot;
use dispatch::Candidate;

impl JobTable {
    /// The first so many tasks, as a policy sees them.
    pub(crate) fn rows(&self, count: usize) -> &[Candidate]
        requires { count ≤ 16 }
        ensures { result.now ≡ take count self.now.rows }
    {
        &self.rows[..count]
    }

    /// The slot of a task.
    pub(crate) fn slot(&self, task: usize) -> Slot
        ensures { result ≡ slot_at self.now task }
    {
        let row = self.rows.get(task).copied().unwrap_or_default();
        Slot::of(row)
    }

    /// How many ticks there are until the deadline of the live job of a task.
    pub(super) fn until(&self, task: usize) -> u32
        ensures { result ≡ until_at self.now task }
    {
        self.rows.get(task).map_or(0, |row| row.until)
    }

    /// The delay answered so far to the live job of a task.
    pub(super) fn delay(&self, task: usize) -> u64
        ensures { result ≡ delay_at self.now task }
    {
        self.delays.get(task).copied().unwrap_or(0)
    }

    /// The running task.
    pub(crate) fn running(&self) -> Option<usize>
        ensures { result ≡ self.now.running }
    {
        self.running
    }

    /// Whether this task is the running one.
    pub(super) fn is_running(&self, task: usize) -> bool
        ensures { result ≡ runs self.now.running task }
    {
        self.running == Some(task)
    }
}
