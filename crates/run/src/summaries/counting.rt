//! What a tick writes down is counted.

ghost use Rattle.std.specs.Prelude.{◌≡◌, ℕ, ◌<◌, ◌^◌, Some, slice_index_or};
ghost use Rattle.run.specs.Counts.{Small, counted};
ghost use Rattle.schedule.specs.Rows.{delayed, finished, no_summary};

use super::Summaries;
use schedule::{JobRow, SwitchRow, TickRows};

impl Summaries {
    /// The delay of a switch is the task's from then on, whether or not its job finishes.
    fn count_switch(&mut self, row: &SwitchRow)
        requires { (slice_index_or self.old.rows row.now.task no_summary).delay < 2 ^ 63 }
        ensures { self.new.rows ≡ delayed (Some row.now) self.old.rows }
    {
        let mut summary = self.at(row.task);
        summary.delay += u64::from(row.delay);
        self.put(row.task, summary);
    }

    /// One more job of the task has finished.
    fn count_job(&mut self, row: &JobRow)
        requires { (slice_index_or self.old.rows row.now.task no_summary).finished < 2 ^ 63 }
        ensures { self.new.rows ≡ finished (Some row.now) self.old.rows }
    {
        let response = row.finish.saturating_sub(row.release);
        let mut summary = self.at(row.task);
        summary.finished += 1;
        summary.worst = summary.worst.max(response);
        self.put(row.task, summary);
    }

    /// Counts what a tick has written down.
    pub(crate) fn count(&mut self, rows: &TickRows)
        requires { Small self.old.rows }
        ensures { self.new.rows ≡ counted rows.now self.old.rows }
    {
        if let Some(row) = &rows.switch {
            self.count_switch(row);
        }
        if let Some(row) = &rows.job {
            self.count_job(row);
        }
    }
}
