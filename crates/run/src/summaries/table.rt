//! The table of the summaries.

ghost use Rattle.std.specs.Prelude.{◌≡◌, replicate, slice_index_or, slice_set};
ghost use Rattle.schedule.specs.Rows.{no_summary};

use super::Summaries;
use plan::MOST_TASKS;
use schedule::Summary;

impl Summaries {
    /// Nothing has happened to any task.
    pub(crate) fn new() -> Self
        ensures { result.rows ≡ replicate 16 no_summary }
    {
        Summaries {
            rows: [Summary::default(); MOST_TASKS],
        }
    }

    /// The summary of a task; for a number that no task has, that of a task to which nothing has happened.
    pub(crate) fn at(&self, task: usize) -> Summary
        ensures { result ≡ slice_index_or self.now.rows task no_summary }
    {
        self.rows.get(task).copied().unwrap_or_default()
    }

    /// Puts a summary in the place of a task's. A number that no task has is passed over.
    pub(super) fn put(&mut self, task: usize, summary: Summary)
        ensures { self.new.rows ≡ slice_set self.old.rows task summary }
    {
        // an index behind a test, not `get_mut`: a proof knows nothing of the table after `get_mut`
        if task < MOST_TASKS {
            self.rows[task] = summary;
        }
    }
}
