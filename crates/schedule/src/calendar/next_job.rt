//! The next job of a task.

ghost use Rattle.std.specs.Prelude.{◌≡◌, ◌≤◌};
ghost use Rattle.schedule.specs.Calendars.{next_job};

use plan::Task;

/// Which job of a task is released next, and when. Instants are kept so that a tick need not multiply.
#[derive(Clone, Copy, Default)]
pub(crate) struct NextJob {
    pub(super) number: u64,
    /// the instant of its release
    pub(super) release: u64,
    /// the deadline of the live job, which is the one before it; its own where it is job 0
    pub(super) live_deadline: u64,
}

impl NextJob {
    /// Job 0 of a task.
    pub(super) fn first(task: &Task) -> Self
        ensures { result ≡ next_job task.now 0 }
    {
        let release = u64::from(task.offset);
        NextJob {
            number: 0,
            release,
            live_deadline: release + u64::from(task.deadline),
        }
    }

    /// From this instant on, the soonest at which the next job is released or the deadline of the live one comes.
    pub(super) fn soonest(&self, clock: u64) -> u64
        ensures release { result ≤ self.now.release }
        ensures deadline { clock ≤ self.now.live_deadline → result ≤ self.now.live_deadline }
    {
        if clock <= self.live_deadline {
            self.release.min(self.live_deadline)
        } else {
            self.release
        }
    }
}
