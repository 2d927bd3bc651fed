//! What an admitted plan says.

ghost use Rattle.std.specs.Prelude.{◌≡◌, slice_index_or};
ghost use Rattle.plan.specs.Periods.{IsLcm};
ghost use Rattle.plan.specs.Plans.{content_of, tasks_in};
ghost use Rattle.plan.specs.Tasks.{greatest, offsets, periods, zero_task};

use super::Plan;
use crate::periods::Hyperperiod;
use crate::tasks::Task;

impl Plan {
    /// The tasks, in the order of their rows.
    pub fn tasks(&self) -> &[Task]
        ensures { result.now ≡ tasks_in self.now }
    {
        &self.tasks[0..usize::from(self.head.count)]
    }

    /// The task of a row; the task of zeros for a number that the plan has no row for.
    pub fn task(&self, row: usize) -> Task
        ensures { result ≡ slice_index_or (tasks_in self.now) row zero_task }
    {
        self.tasks().get(row).copied().unwrap_or_default()
    }

    /// How many ticks it takes to reload one block.
    pub fn block_reload_time(&self) -> u8
        ensures { result ≡ (content_of self.now).reload }
    {
        self.head.block_reload_time
    }

    /// The greatest of the tasks' offsets.
    pub fn greatest_offset(&self) -> u32
        ensures { result ≡ greatest (offsets (tasks_in self.now)) }
    {
        self.greatest_offset
    }

    /// The least common multiple of the tasks' periods.
    pub fn hyperperiod(&self) -> Hyperperiod
        ensures value { result ≡ self.now.hyperperiod }
        ensures least { IsLcm result.ticks (periods (tasks_in self.now)) }
    {
        self.hyperperiod
    }
}
