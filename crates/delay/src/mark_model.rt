//! The delay model that keeps a mark for each task by a rule of marks.

ghost use Rattle.std.specs.Prelude.{◌≡◌, replicate};
ghost use Rattle.std.proofs.Common.{rules};
ghost use Rattle.delay.specs.Marks.{zero_mark};
ghost use Rattle.plan.specs.Plans.{content_of};

use crate::mark::{Mark, zero_mark};
use crate::model::DelayModel;
use crate::rule::{MarkRule, PlanRule};
use crate::table::MarkTable;
use plan::{MOST_TASKS, Plan};

/// The delay model of a rule: a mark for each of 16 tasks, which calls change as the rule says; where a job finishes it is zero again.
#[derive(Clone, Copy)]
pub struct MarkModel<R> {
    rule: R,
    table: MarkTable,
}

impl<R: MarkRule> MarkModel<R> {
    /// The model of this rule, with a zero mark for each task.
    pub fn with(rule: R) -> Self
        ensures rule { ⟦<MarkModel<R> as DelayModel>⟧.profile result ≡ R.profile rule }
        ensures fresh { ⟦<MarkModel<R> as DelayModel>⟧.marks result ≡ replicate 16 zero_mark }
    {
        MarkModel {
            rule,
            table: MarkTable::new(),
        }
    }
}

impl<R: PlanRule> MarkModel<R> {
    /// The model of the rule for this plan, with a zero mark for each task.
    pub fn new(plan: &Plan) -> Self
        ensures rule { ⟦<MarkModel<R> as DelayModel>⟧.profile result ≡ R.rule_for (content_of plan.now) }
        ensures fresh { ⟦<MarkModel<R> as DelayModel>⟧.marks result ≡ replicate 16 zero_mark }
    {
        MarkModel::with(R::of(plan))
    }
}

impl<R: MarkRule> DelayModel for MarkModel<R> {
    ghost profile = { λ m. R.profile m.rule };

    ghost marks = { λ m. m.table.marks };

    ghost sixteen = { Prim.search rules };

    ghost bounded = { λ m. R.bounded m.rule };

    fn begin(&mut self, task: usize) {
        let mark = self.table.at(task);
        self.table.put(task, self.rule.begin(task, mark));
    }

    fn lose(&mut self, task: usize, to: usize) {
        // a `DelayModel` promises that a loss to a number above 15 changes nothing
        if to < MOST_TASKS {
            let mark = self.table.at(task);
            self.table.put(task, self.rule.lose(task, to, mark));
        }
    }

    fn spend(&mut self, task: usize) {
        let mark = self.table.at(task);
        self.table.put(task, self.rule.spend(task, mark));
    }

    fn resume(&mut self, task: usize) -> u16 {
        let mark = self.table.at(task);
        let (after, delay) = self.rule.pay(task, mark);
        self.table.put(task, after);
        // a `DelayModel` promises 0 for a number above 15, whatever the rule answers for it
        if task < MOST_TASKS { delay } else { 0 }
    }

    fn finish(&mut self, task: usize) {
        self.table.put(task, zero_mark());
    }

    fn mark(&self, task: usize) -> Mark {
        self.table.at(task)
    }
}
