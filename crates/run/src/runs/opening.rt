//! A run is opened.

ghost use Rattle.std.specs.Prelude.{◌≡◌};
ghost use Rattle.run.specs.Runs.{opening, setting_in, shown};
ghost use Rattle.schedule.specs.States.{setting_of};

use super::Run;
use crate::examining::compare;
use crate::follower::Follower;
use crate::summaries::Summaries;
use crate::watch::Watch;
use delay::DelayModel;
use dispatch::Policy;
use plan::Plan;
use standing::Standing;

impl<P: Policy, M: DelayModel> Run<P, M> {
    /// A run of this plan under this policy and this delay model, at instant 0. The model is told a finish for each task first.
    pub fn open(plan: &Plan, policy: P, model: M) -> Self
        ensures setting { setting_in result ≡ setting_of plan.now (P.Policy.rule policy) (M.DelayModel.profile model) }
        ensures shown { shown result ≡ opening (setting_in result) }
    {
        let follower = Follower::new(plan, policy, model);
        let mut watch = Watch::new(plan, follower.state());
        // where no task has an offset, sample 0 is taken at instant 0; it is compared with none
        let _ = compare(&follower, &mut watch);
        Run {
            follower,
            watch,
            counts: Summaries::new(),
            standing: Standing::Open,
        }
    }
}
