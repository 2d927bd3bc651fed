//! The soonest instant at which a job is released or a deadline comes.

ghost use Rattle.std.specs.Prelude.{◌≡◌, ℕ, ◌<◌, ◌≤◌, true, false, length, ◌==◌, slice_index_or};
ghost use Rattle.plan.specs.Plans.{tasks_in};
ghost use Rattle.schedule.specs.Calendars.{no_job};
ghost use Rattle.schedule.specs.Jobs.{deadline_at, due, live_job};
ghost use Rattle.schedule.specs.Tables.{next_at, next_in, task_in};

use super::Calendar;

impl Calendar {
    /// Whether it is known that no job is released now and no deadline is now.
    pub(crate) fn is_quiet(&self) -> bool
        ensures deadlines { result ≡ true → (i : ℕ) → i < length (tasks_in self.now.plan) → (self.now.clock == deadline_at (task_in self.now i) (live_job (next_at self.now i))) ≡ false }
        ensures releases { result ≡ true → (i : ℕ) → i < length (tasks_in self.now.plan) → due self.now.clock (task_in self.now i) (next_at self.now i) ≡ false }
    {
        self.clock < self.soonest
    }

    /// An instant before which, from the clock on, there is neither.
    fn soonest(&self) -> u64
        ensures awaited { (i : ℕ) → i < length (tasks_in self.now.plan) → self.now.clock ≤ (slice_index_or self.now.jobs i no_job).live_deadline → result ≤ (slice_index_or self.now.jobs i no_job).live_deadline }
        ensures later { (i : ℕ) → i < length (tasks_in self.now.plan) → result ≤ (slice_index_or self.now.jobs i no_job).release }
    {
        let count = self.tasks().len();
        let mut soonest = u64::MAX;
        for task in 0..count {
            soonest = soonest.min(self.jobs[task].soonest(self.clock));
        }
        soonest
    }

    /// Finds that instant anew.
    pub(crate) fn look_ahead(&mut self)
        ensures next { next_in self.new ≡ next_in self.old }
        ensures clock { self.new.clock ≡ self.old.clock }
        ensures plan { self.new.plan ≡ self.old.plan }
    {
        self.soonest = self.soonest();
    }
}
