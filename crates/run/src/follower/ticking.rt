//! One tick of the schedule.

ghost use Rattle.std.specs.Prelude.{◌≡◌, ◌+◌, ◌<◌};
ghost use Rattle.run.specs.Followers.{clock_in, followed};
ghost use Rattle.run.specs.Written.{job_in, switch_in};

use super::Follower;
use delay::DelayModel;
use dispatch::Policy;
use schedule::TickRows;

impl<P: Policy, M: DelayModel> Follower<P, M> {
    /// Does the tick at the clock, and answers what it writes down.
    pub(crate) fn tick(&mut self) -> TickRows
        requires { clock_in self.old < 1000000000000 }
        ensures setting { followed self.new ≡ followed self.old }
        ensures clock { clock_in self.new ≡ clock_in self.old + 1 }
        ensures switch { result.switch ≡ switch_in (followed self.old) (clock_in self.old) }
        ensures job { result.job ≡ job_in (followed self.old) (clock_in self.old) }
    {
        // a schedule does no tick at the last instant alone, and this one is before it
        self.schedule.tick(&self.policy, &mut self.model).unwrap()
    }
}
