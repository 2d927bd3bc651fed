//! What is written down at an instant.

ghost use Rattle.std.specs.Prelude.{◌≡◌, ◌+◌};
ghost use Rattle.schedule.specs.Jobs.{live_job, release};
ghost use Rattle.schedule.specs.Tables.{next_at, row_of_job, row_of_switch, task_in};

use super::Calendar;
use crate::rows::{JobRow, SwitchRow};

impl Calendar {
    /// What is written down of a switch with this delay, if there was one.
    pub(crate) fn switch_row(&self, task: usize, delay: Option<u16>) -> Option<SwitchRow>
        ensures { result ≡ row_of_switch self.now.clock task (live_job (next_at self.now task)) delay }
    {
        delay.map(|delay| SwitchRow {
            instant: self.clock,
            task,
            job: self.live_job(task),
            delay,
        })
    }

    /// What is written down of the task's job, if it has finished with this tick and with this delay.
    pub(crate) fn job_row(&self, task: usize, delay: Option<u64>) -> Option<JobRow>
        ensures { result ≡ row_of_job task (live_job (next_at self.now task)) (release (task_in self.now task) (live_job (next_at self.now task))) (self.now.clock + 1) delay }
    {
        delay.map(|delay| JobRow {
            task,
            job: self.live_job(task),
            release: self.release(task),
            finish: self.clock + 1,
            delay,
        })
    }
}
