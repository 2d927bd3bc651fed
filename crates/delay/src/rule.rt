//! What a rule of marks is.

ghost use Rattle.std.specs.Prelude.{◌≡◌, ℕ, ◌≤◌};
ghost use Rattle.delay.specs.Profiles.{Profile};
ghost use Rattle.delay.specs.declared.mark.Mark.{Mark};
ghost use Rattle.plan.specs.Admission.{Content};
ghost use Rattle.plan.specs.Plans.{content_of};

use crate::mark::Mark;
use plan::Plan;

/// What a delay model makes of one mark; `MarkModel` keeps a mark for each task by it.
///
/// Its meaning is one profile: each call answers what that makes of the mark and the task numbers it is given, so what a rule
/// counts outside of the marks (in a cell, say) changes no answer.
pub trait MarkRule {
    ghost profile: { Self → Profile };

    /// The mark of the task once its job has the core for the first time.
    fn begin(&self, task: usize, mark: Mark) -> Mark
        ensures { result ≡ (profile self.now).begin task mark };

    /// The mark of the task once it has lost the core to the task `to`.
    fn lose(&self, task: usize, to: usize, mark: Mark) -> Mark
        ensures { result ≡ (profile self.now).lose task to mark };

    /// The mark of the task once it has had the core for a tick.
    fn spend(&self, task: usize, mark: Mark) -> Mark
        ensures { result ≡ (profile self.now).spend task mark };

    /// The mark of the task once it has the core again.
    fn resume(&self, task: usize, mark: Mark) -> Mark
        ensures { result ≡ (profile self.now).resume task mark };

    /// The delay in ticks for a task that has the core again, from its mark before that.
    fn answer(&self, task: usize, mark: Mark) -> u16
        ensures { result ≡ (profile self.now).answer task mark };

    /// Both at once, for a rule of which the one needs the other: the mark of the task once it has the core again, and the delay.
    fn pay(&self, task: usize, mark: Mark) -> (Mark, u16)
        ensures { result ≡ (
          (profile self.now).resume task mark,
          (profile self.now).answer task mark,
        ) }
    {
        (self.resume(task, mark), self.answer(task, mark))
    }

    ghost bounded: { (r : Self) (i : ℕ) (k : Mark) → (profile r).answer i k ≤ 4096 };
}

/// A rule that takes its figures from a plan.
pub trait PlanRule: MarkRule {
    ghost rule_for: { Content → Profile };

    /// The rule for this plan.
    fn of(plan: &Plan) -> Self
        ensures { Self.MarkRule.profile result ≡ rule_for (content_of plan.now) };
}
