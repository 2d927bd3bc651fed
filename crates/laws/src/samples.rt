//! The instants of samples, with the laws that make samples worth comparing.

ghost use Rattle.std.specs.Prelude.{◌≡◌, ◌+◌, ◌*◌, ◌≤◌};
ghost use Rattle.delay.specs.Profiles.{Profile};
ghost use Rattle.dispatch.specs.Rules.{Rule};
ghost use Rattle.laws.specs.Bound.{Bound};
ghost use Rattle.laws.specs.Repetition.{Repetition};
ghost use Rattle.plan.specs.Plans.{tasks_in};
ghost use Rattle.plan.specs.Tasks.{greatest, offsets};
ghost use Rattle.schedule.specs.States.{setting_of};

use plan::Plan;

/// The instant of a sample: the greatest offset and so many hyperperiods.
///
/// The law in its contract: under every rule and every profile, equal samples of the plan's schedule have equal futures,
/// and where nothing is late up to the second of them, nothing is ever late.
pub fn sample_instant(plan: &Plan, number: u32) -> u64
    ensures value { result ≡ greatest (offsets (tasks_in plan.now)) + number * plan.now.hyperperiod.ticks }
    ensures law { (rule : Rule) (profile : Profile) → Repetition (setting_of plan.now rule profile) }
{
    repetition_law(plan);
    hyperperiods_on(plan, u64::from(number))
}

/// The instant by which some sample equals the one that it is compared with, if the samples show no more than so many states.
///
/// The law in its contract says so, under every rule and every profile.
pub fn deciding_instant(plan: &Plan, states: u32) -> u64
    ensures value { result ≡ greatest (offsets (tasks_in plan.now)) + 3 * states * plan.now.hyperperiod.ticks }
    ensures law { (rule : Rule) (profile : Profile) → Bound (setting_of plan.now rule profile) }
{
    bound_law(plan);
    hyperperiods_on(plan, 3 * u64::from(states))
}

/// So many hyperperiods after the greatest offset.
fn hyperperiods_on(plan: &Plan, count: u64) -> u64
    requires { count ≤ 12884901885 }
    ensures { result ≡ greatest (offsets (tasks_in plan.now)) + count * plan.now.hyperperiod.ticks }
{
    u64::from(plan.greatest_offset()) + count * plan.hyperperiod().ticks()
}

/// Computes nothing: whoever calls it has the law.
fn repetition_law(plan: &Plan)
    ensures { (rule : Rule) (profile : Profile) → Repetition (setting_of plan.now rule profile) }
{}

/// Computes nothing: whoever calls it has the law.
fn bound_law(plan: &Plan)
    ensures { (rule : Rule) (profile : Profile) → Bound (setting_of plan.now rule profile) }
{}
