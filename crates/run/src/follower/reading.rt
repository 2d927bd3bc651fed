//! What can be seen of the schedule at its clock.

ghost use Rattle.std.specs.Prelude.{◌≡◌};
ghost use Rattle.run.specs.Followers.{clock_in, followed};
ghost use Rattle.schedule.specs.Schedules.{age_in, late_first, moment, state_at};

use super::Follower;
use delay::DelayModel;
use dispatch::Policy;
use plan::Task;
use schedule::{LateJob, State};

impl<P: Policy, M: DelayModel> Follower<P, M> {
    /// The instant that has been reached.
    pub(crate) fn clock(&self) -> u64
        ensures { result ≡ clock_in self.now }
    {
        self.schedule.clock()
    }

    /// The tasks of the plan.
    pub(crate) fn tasks(&self) -> &[Task]
        ensures { result.now ≡ (followed self.now).tasks }
    {
        self.schedule.tasks()
    }

    /// The age of a task's live job, 0 where it has none.
    pub(crate) fn age(&self, task: usize) -> u64
        ensures { result ≡ age_in (followed self.now) (clock_in self.now)
            (moment (followed self.now) (clock_in self.now)) task }
    {
        self.schedule.age(task)
    }

    /// The late job that counts, if one is late at the clock.
    pub(crate) fn late(&self) -> Option<LateJob>
        ensures { result ≡ late_first (followed self.now) (clock_in self.now) (moment (followed self.now) (clock_in self.now)) }
    {
        self.schedule.late()
    }

    /// The state at the clock.
    pub(crate) fn state(&self) -> State
        ensures { result ≡ state_at (followed self.now) (clock_in self.now) }
    {
        self.schedule.state(&self.model)
    }
}
