//! Useful blocks: a job pays for the reload of every useful line that was evicted since it last had the core.

ghost use Rattle.delay.specs.Models.{useful_blocks};
ghost use Rattle.plan.specs.Plans.{content_of};
ghost use Rattle.delay.specs.Bounds.{useful_bounded};

use crate::cache::{evicted, to_reload};
use crate::mark::Mark;
use crate::mark_model::MarkModel;
use crate::rule::{MarkRule, PlanRule};
use crate::ticks::reload_ticks;
use plan::Plan;

/// The model in which a job reloads its useful blocks that were evicted.
pub type UsefulBlocks = MarkModel<UsefulBlocksRule>;

/// A job reloads every useful block that was evicted.
#[derive(Clone, Copy)]
pub struct UsefulBlocksRule {
    plan: Plan,
}

impl PlanRule for UsefulBlocksRule {
    ghost rule_for = { useful_blocks };

    fn of(plan: &Plan) -> Self {
        UsefulBlocksRule { plan: *plan }
    }
}

impl MarkRule for UsefulBlocksRule {
    ghost profile = { λ r. useful_blocks (content_of r.plan) };

    ghost bounded = { λ r i k. useful_bounded (content_of r.plan) i k r.plan.head.reloads };

    fn begin(&self, task: usize, mark: Mark) -> Mark {
        mark.keeping(self.plan.task(task).useful)
    }

    fn lose(&self, _task: usize, to: usize, mark: Mark) -> Mark {
        evicted(&self.plan, to, mark)
    }

    fn spend(&self, _task: usize, mark: Mark) -> Mark {
        mark
    }

    fn resume(&self, task: usize, mark: Mark) -> Mark {
        mark.keeping(self.plan.task(task).useful)
    }

    fn answer(&self, task: usize, mark: Mark) -> u16 {
        let missing = to_reload(&self.plan, task, mark);
        reload_ticks(missing, self.plan.block_reload_time())
    }
}
