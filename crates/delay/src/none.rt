//! No delay: a resume costs nothing, and nothing is remembered.

ghost use Rattle.delay.specs.Models.{no_delay};
ghost use Rattle.std.proofs.Common.{rules};

use crate::mark::Mark;
use crate::mark_model::MarkModel;
use crate::rule::{MarkRule, PlanRule};
use plan::Plan;

/// The model in which a job pays nothing.
pub type NoDelay = MarkModel<NoDelayRule>;

/// A job pays nothing, whatever the plan says.
#[derive(Clone, Copy)]
pub struct NoDelayRule;

impl PlanRule for NoDelayRule {
    ghost rule_for = { λ _. no_delay };

    fn of(_plan: &Plan) -> Self {
        NoDelayRule
    }
}

impl MarkRule for NoDelayRule {
    ghost profile = { λ _. no_delay };

    ghost bounded = { Prim.search rules };

    fn begin(&self, _task: usize, mark: Mark) -> Mark {
        mark
    }

    fn lose(&self, _task: usize, _to: usize, mark: Mark) -> Mark {
        mark
    }

    fn spend(&self, _task: usize, mark: Mark) -> Mark {
        mark
    }

    fn resume(&self, _task: usize, mark: Mark) -> Mark {
        mark
    }

    fn answer(&self, _task: usize, _mark: Mark) -> u16 {
        0
    }
}
