//! A delay model of one's own: a flat cost for each preemption that a job has seen.

ghost use Rattle.std.specs.Prelude.{◌≡◌, min};
ghost use Rattle.customer.specs.FlatCosts.{flat_cost};
ghost use Rattle.std.proofs.Common.{arith};
ghost use Rattle.std.proofs.lemmas.Nat.{mul-le};

use delay::{Mark, MarkRule, zero_mark};

/// The most preemptions that are counted, and the greatest cost of one.
const MOST: u16 = 64;

/// Each preemption costs the same. The credit of a mark counts those that the job has seen since it last ran.
#[derive(Clone, Copy)]
pub struct FlatCost {
    cost: u16,
}

impl FlatCost {
    /// The rule with this cost for a preemption; a cost above 64 ticks counts as 64.
    pub fn new(cost: u16) -> Self
        ensures { result.cost ≡ min cost 64 }
    {
        FlatCost {
            cost: cost.min(MOST),
        }
    }
}

impl MarkRule for FlatCost {
    ghost profile = { λ r. flat_cost r.cost };

    ghost bounded = { λ r i k. mul-le (min k.credit 64) (min r.cost 64) 64 64 (omega arith) (omega arith) };

    fn begin(&self, _task: usize, _mark: Mark) -> Mark {
        zero_mark()
    }

    fn lose(&self, _task: usize, _to: usize, mark: Mark) -> Mark {
        Mark {
            credit: mark.credit.saturating_add(1).min(MOST),
            ..mark
        }
    }

    fn spend(&self, _task: usize, mark: Mark) -> Mark {
        mark
    }

    fn resume(&self, _task: usize, _mark: Mark) -> Mark {
        zero_mark()
    }

    fn answer(&self, _task: usize, mark: Mark) -> u16 {
        mark.credit.min(MOST) * self.cost.min(MOST)
    }
}
