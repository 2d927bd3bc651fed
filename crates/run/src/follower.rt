//! The schedule of a plan under a policy and a delay model.

ghost use Rattle.std.specs.Prelude.{◌≡◌};
ghost use Rattle.schedule.specs.Schedules.{moment};
ghost use Rattle.schedule.specs.States.{setting_of};
ghost use Rattle.schedule.specs.Tables.{clock_of, moment_of, plan_of};

mod opening;
mod reading;
mod ticking;

use delay::DelayModel;
use dispatch::Policy;
use schedule::Schedule;

/// Who is asked and told at each tick, and the moment that the schedule has come to. It is the schedule's own moment at its clock.
#[derive(Drop)]
pub(crate) struct Follower<P: Policy, M: DelayModel> {
    policy: P,
    model: M,
    schedule: Schedule,
    ghost following: { moment_of schedule (M.DelayModel.marks model) ≡ moment (setting_of (plan_of schedule) (P.Policy.rule policy) (M.DelayModel.profile model)) (clock_of schedule) },
}
