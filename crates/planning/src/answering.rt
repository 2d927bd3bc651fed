//! The run of a plan, for any policy and any delay model.

ghost use Rattle.planning.specs.Runs.{Answers, TrueReport};
ghost use Rattle.schedule.specs.States.{setting_of};

use crate::following::follow;
use delay::DelayModel;
use dispatch::Policy;
use fault::Fault;
use plan::Plan;
use report::write_standing;
use run::Run;

/// Follows a plan's schedule under a policy and a delay model, and writes the report. A buffer that is too short for it is left as it
/// was.
pub(crate) fn answer<P: Policy + Drop, M: DelayModel + Drop>(
    plan: &Plan,
    policy: P,
    model: M,
    out: &mut [u8],
) -> Result<usize, Fault>
    ensures report { Answers (setting_of plan.now
        (P.Policy.rule policy)
        (M.DelayModel.profile model)) out.old out.new result }
    ensures truth { TrueReport (setting_of plan.now
        (P.Policy.rule policy)
        (M.DelayModel.profile model)) }
{
    let mut run = Run::open(plan, policy, model);
    follow(&mut run)?;
    let summaries = run.summaries();
    write_standing(out, run.standing(), run.clock(), summaries.as_slice())
}
