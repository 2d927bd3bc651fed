//! What a job gets of the core.

ghost use Rattle.std.specs.Prelude.{◌≡◌, ◌+◌};
ghost use Rattle.delay.specs.Profiles.{Profile};
ghost use Rattle.dispatch.specs.Rules.{NamesLive, Rule};
ghost use Rattle.laws.specs.Service.{Service, core_ticks, fitting};
ghost use Rattle.plan.specs.Plans.{tasks_in};
ghost use Rattle.schedule.specs.States.{setting_of};

use plan::Plan;
use schedule::JobRow;

/// How many ticks of the core a finished job has had: its work and the delay answered to it.
/// Nothing where the plan has no such task, or where the sum is too great to be told.
///
/// The law in its contract: under every lawful rule and every profile, a job that finishes in the plan's schedule has had just
/// so many ticks, between its release and its finish, and none of them served another job.
pub fn core_ticks(plan: &Plan, row: &JobRow) -> Option<u64>
    ensures value { result ≡ core_ticks (tasks_in plan.now) row.now }
    ensures law { (rule : Rule) (profile : Profile) → NamesLive rule → Service (setting_of plan.now rule profile) }
{
    service_law(plan);
    let task = plan.tasks().get(row.task)?;
    total(task.work, row.delay)
}

/// The sum of work and delay, if it fits.
fn total(work: u32, delay: u64) -> Option<u64>
    ensures { result ≡ fitting (work + delay) }
{
    u64::from(work).checked_add(delay)
}

/// Computes nothing: whoever calls it has the law.
fn service_law(plan: &Plan)
    ensures { (rule : Rule) (profile : Profile) → NamesLive rule → Service (setting_of plan.now rule profile) }
{}
