//! One tick of the schedule.

ghost use Rattle.std.specs.Prelude.{◌≡◌, ◌+◌, MatchOption};
ghost use Rattle.schedule.specs.States.{setting_of};
ghost use Rattle.schedule.specs.Tables.{Ticked, clock_of, moment_of, plan_of};

use super::{LAST_INSTANT, Schedule};
use crate::rows::TickRows;
use delay::DelayModel;
use dispatch::Policy;

impl Schedule {
    /// Does the tick at the clock, and answers what it writes down; or nothing at the last instant, where no tick is done.
    pub fn tick<P: Policy, M: DelayModel>(&mut self, policy: &P, model: &mut M) -> Option<TickRows>
        ensures plan { plan_of self.new ≡ plan_of self.old }
        ensures same { M.DelayModel.profile model.new ≡ M.DelayModel.profile model.old }
        ensures outcome { MatchOption result
            ((clock_of self.old ≡ 1000000000000) × (self.new ≡ self.old) × (model.new ≡ model.old))
            (λ rows. (clock_of self.new ≡ clock_of self.old + 1)
            × Ticked (setting_of (plan_of self.old) (P.Policy.rule policy.now) (M.DelayModel.profile model.old)) (clock_of self.old) (moment_of self.old (M.DelayModel.marks model.old)) (moment_of self.new (M.DelayModel.marks model.new)) rows) }
    {
        if self.calendar.clock() == LAST_INSTANT {
            return None;
        }
        self.release();
        let choice = self.choose(policy);
        let rows = self.pass(model, choice);
        Some(rows)
    }
}
