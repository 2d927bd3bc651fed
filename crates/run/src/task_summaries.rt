//! What is told of the tasks of a plan.

ghost use Rattle.std.specs.Prelude.{◌≡◌, ◌≤◌, length};

use plan::MOST_TASKS;
use schedule::Summary;

/// The summary of each task of a plan, in the order of the plan.
#[derive(Clone, Copy)]
pub struct TaskSummaries {
    pub(crate) rows: [Summary; MOST_TASKS],
    pub(crate) count: usize,
    ghost sized: { length rows ≡ 16 },
    ghost few: { count ≤ 16 },
}

impl TaskSummaries {
    ghost use Rattle.run.specs.Runs.{summaries_in};

    /// One summary a task.
    pub fn as_slice(&self) -> &[Summary]
        ensures { result.now ≡ summaries_in self.now }
    {
        &self.rows[..self.count]
    }
}
