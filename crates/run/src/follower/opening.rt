//! The schedule at instant 0.

ghost use Rattle.std.specs.Prelude.{◌≡◌, replicate};
ghost use Rattle.delay.specs.Marks.{zero_mark};
ghost use Rattle.run.specs.Followers.{clock_in, followed};
ghost use Rattle.schedule.specs.States.{setting_of};

use super::Follower;
use delay::DelayModel;
use dispatch::Policy;
use plan::{MOST_TASKS, Plan};
use schedule::Schedule;

impl<P: Policy, M: DelayModel> Follower<P, M> {
    /// The schedule before its first tick. The model is told a finish for each task, so that all marks are zero.
    pub(crate) fn new(plan: &Plan, policy: P, mut model: M) -> Self
        ensures setting { followed result ≡ setting_of plan.now (P.Policy.rule policy) (M.DelayModel.profile model) }
        ensures clock { clock_in result ≡ 0 }
    {
        finish_all(&mut model);
        Follower {
            policy,
            model,
            schedule: Schedule::new(plan),
        }
    }
}

/// Tells the model a finish for each of the 16 tasks.
fn finish_all<M: DelayModel>(model: &mut M)
    ensures same { M.DelayModel.profile model.new ≡ M.DelayModel.profile model.old }
    ensures zero { M.DelayModel.marks model.new ≡ replicate 16 zero_mark }
{
    for task in 0..MOST_TASKS {
        model.finish(task);
    }
}
