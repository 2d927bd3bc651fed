//! The policy and the delay model that an order names.

ghost use Rattle.plan.specs.Plans.{content_of};
ghost use Rattle.planning.specs.Runs.{Answers, TrueReport};
ghost use Rattle.planning.specs.Settings.{layered, profile_of, rule_of};
ghost use Rattle.schedule.specs.States.{setting_of};

use super::Request;
use crate::answering::answer;
use delay::{FixedDelay, LoadedBlocks, NoDelay, UsefulBlocks};
use dispatch::{EarliestDeadline, FixedPriority, NonPreemptive, Policy};
use fault::Fault;
use order::{DelayKind, Dispatch, Preemption};

impl Request {
    /// Writes the report of the plan under the order, and answers its length. A buffer that is too short for it is left as it was.
    pub(crate) fn report(&self, out: &mut [u8]) -> Result<usize, Fault>
        ensures report { Answers (setting_of self.now.plan
            (rule_of self.now.order (content_of self.now.plan))
            (profile_of self.now.order (content_of self.now.plan))) out.old out.new result }
        ensures truth { TrueReport (setting_of self.now.plan
            (rule_of self.now.order (content_of self.now.plan))
            (profile_of self.now.order (content_of self.now.plan))) }
    {
        match self.order.dispatch {
            Dispatch::FixedPriority => self.with_layer(FixedPriority::new(&self.plan), out),
            Dispatch::EarliestDeadline => self.with_layer(EarliestDeadline, out),
        }
    }

    /// The same with this policy, as it is or under the layer that the order names.
    fn with_layer<P: Policy + Drop>(&self, policy: P, out: &mut [u8]) -> Result<usize, Fault>
        ensures report { Answers (setting_of self.now.plan
            (layered self.now.order.preemption (P.Policy.rule policy))
            (profile_of self.now.order (content_of self.now.plan))) out.old out.new result }
        ensures truth { TrueReport (setting_of self.now.plan
            (layered self.now.order.preemption (P.Policy.rule policy))
            (profile_of self.now.order (content_of self.now.plan))) }
    {
        match self.order.preemption {
            Preemption::Preemptive => self.with_model(policy, out),
            Preemption::NonPreemptive => self.with_model(NonPreemptive { below: policy }, out),
        }
    }

    /// The same with this policy, and the delay model that the order names.
    fn with_model<P: Policy + Drop>(&self, policy: P, out: &mut [u8]) -> Result<usize, Fault>
        ensures report { Answers (setting_of self.now.plan
            (P.Policy.rule policy)
            (profile_of self.now.order (content_of self.now.plan))) out.old out.new result }
        ensures truth { TrueReport (setting_of self.now.plan
            (P.Policy.rule policy)
            (profile_of self.now.order (content_of self.now.plan))) }
    {
        let plan = &self.plan;
        match self.order.delay {
            DelayKind::NoDelay => answer(plan, policy, NoDelay::new(plan), out),
            DelayKind::FixedDelay => answer(plan, policy, FixedDelay::new(plan), out),
            DelayKind::UsefulBlocks => answer(plan, policy, UsefulBlocks::new(plan), out),
            DelayKind::LoadedBlocks => answer(plan, policy, LoadedBlocks::new(plan), out),
        }
    }
}
