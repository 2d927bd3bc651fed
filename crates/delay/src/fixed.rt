//! Fixed delay: a job pays the fixed delay of its task when it goes on after it lost the core.

ghost use Rattle.delay.specs.Models.{fixed_delay};
ghost use Rattle.plan.specs.Plans.{content_of};
ghost use Rattle.delay.specs.Bounds.{fixed_bounded};

use crate::mark::Mark;
use crate::mark_model::MarkModel;
use crate::rule::{MarkRule, PlanRule};
use plan::{CacheBlocks, Plan};

/// The model in which a job pays a delay that its task's row names.
pub type FixedDelay = MarkModel<FixedDelayRule>;

/// What the mark of a task keeps once it has lost the core: the set of line 0 alone.
const LOST: CacheBlocks = CacheBlocks { lines: 1 << 63 };

/// A job that lost the core pays the fixed delay of its task, once.
#[derive(Clone, Copy)]
pub struct FixedDelayRule {
    plan: Plan,
}

impl PlanRule for FixedDelayRule {
    ghost rule_for = { fixed_delay };

    fn of(plan: &Plan) -> Self {
        FixedDelayRule { plan: *plan }
    }
}

impl MarkRule for FixedDelayRule {
    ghost profile = { λ r. fixed_delay (content_of r.plan) };

    ghost bounded = { λ r i k. fixed_bounded (content_of r.plan) i k r.plan.keeping };

    fn begin(&self, _task: usize, mark: Mark) -> Mark {
        mark
    }

    fn lose(&self, _task: usize, _to: usize, mark: Mark) -> Mark {
        mark.keeping(LOST)
    }

    fn spend(&self, _task: usize, mark: Mark) -> Mark {
        mark
    }

    fn resume(&self, _task: usize, mark: Mark) -> Mark {
        mark.keeping(CacheBlocks::default())
    }

    fn answer(&self, task: usize, mark: Mark) -> u16 {
        if mark.kept == LOST {
            self.plan.task(task).fixed_delay
        } else {
            0
        }
    }
}
