//! Loaded blocks: a job pays for the reload of the useful lines that were evicted, but of no more than it can have loaded.

ghost use Rattle.delay.specs.Models.{loaded_blocks};
ghost use Rattle.plan.specs.Plans.{content_of};
ghost use Rattle.delay.specs.Bounds.{loaded_bounded};

use crate::cache::{evicted, to_reload};
use crate::lines::line_count;
use crate::mark::Mark;
use crate::mark_model::MarkModel;
use crate::rule::{MarkRule, PlanRule};
use crate::ticks::{credited, loaded_ticks, reload_ticks};
use plan::Plan;

/// The model in which a job reloads its useful blocks that it had loaded and that were evicted.
pub type LoadedBlocks = MarkModel<LoadedBlocksRule>;

/// A job reloads the useful blocks that were evicted, as far as it can have loaded them.
/// The credit of a mark counts the ticks in which blocks can have been loaded.
#[derive(Clone, Copy)]
pub struct LoadedBlocksRule {
    plan: Plan,
}

impl PlanRule for LoadedBlocksRule {
    ghost rule_for = { loaded_blocks };

    fn of(plan: &Plan) -> Self {
        LoadedBlocksRule { plan: *plan }
    }
}

impl MarkRule for LoadedBlocksRule {
    ghost profile = { λ r. loaded_blocks (content_of r.plan) };

    ghost bounded = { λ r i k. loaded_bounded (content_of r.plan) i k r.plan.head.reloads };

    fn begin(&self, task: usize, _mark: Mark) -> Mark {
        Mark {
            kept: self.plan.task(task).useful,
            credit: 0,
        }
    }

    fn lose(&self, _task: usize, to: usize, mark: Mark) -> Mark {
        evicted(&self.plan, to, mark)
    }

    fn spend(&self, task: usize, mark: Mark) -> Mark {
        let useful = self.plan.task(task).useful;
        let most = reload_ticks(line_count(useful), self.plan.block_reload_time());
        Mark {
            credit: credited(mark.credit, most),
            ..mark
        }
    }

    fn resume(&self, task: usize, mark: Mark) -> Mark {
        self.pay(task, mark).0
    }

    fn answer(&self, task: usize, mark: Mark) -> u16 {
        let missing = to_reload(&self.plan, task, mark);
        loaded_ticks(missing, mark.credit, self.plan.block_reload_time())
    }

    fn pay(&self, task: usize, mark: Mark) -> (Mark, u16) {
        let delay = self.answer(task, mark);
        let after = Mark {
            kept: self.plan.task(task).useful,
            credit: mark.credit - delay,
        };
        (after, delay)
    }
}
