//! Before the first sample.

ghost use Rattle.std.specs.Prelude.{◌≡◌};
ghost use Rattle.plan.specs.Plans.{tasks_in};
ghost use Rattle.plan.specs.Tasks.{greatest, offsets};

use super::Watch;
use plan::Plan;
use schedule::State;

impl Watch {
    /// Sample 0 is taken next, at the greatest offset.
    pub(crate) fn new(plan: &Plan, start: State) -> Self
        ensures period { result.period.ticks ≡ plan.now.hyperperiod.ticks }
        ensures next { result.next ≡ greatest (offsets (tasks_in plan.now)) }
        ensures number { result.number ≡ 0 }
        ensures earlier { result.earlier ≡ 0 }
    {
        Watch {
            period: plan.hyperperiod(),
            next: u64::from(plan.greatest_offset()),
            number: 0,
            earlier: 0,
            kept: start,
        }
    }
}
