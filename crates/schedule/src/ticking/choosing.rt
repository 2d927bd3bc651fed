//! Step 2 of a tick: the policy is shown the tasks and chooses.

ghost use Rattle.std.specs.Prelude.{◌≡◌, ◌<◌, [], length, IfSome};
ghost use Rattle.schedule.specs.Tables.{clock_of, moment_of, tasks_of, timed};
ghost use Rattle.schedule.specs.Ticks.{candidates};

use super::Schedule;
use dispatch::Policy;

impl Schedule {
    /// The task that the policy names, or nothing for idle.
    pub(super) fn choose<P: Policy>(&self, policy: &P) -> Option<usize>
        ensures value { result ≡ P.Policy.rule policy.now (candidates (timed (tasks_of self.now)) (clock_of self.now) (moment_of self.now [])) self.now.jobs.running }
        ensures known { IfSome result (λ task. task < length (tasks_of self.now)) }
    {
        let count = self.calendar.tasks().len();
        policy.choose(self.jobs.rows(count), self.jobs.running())
    }
}
