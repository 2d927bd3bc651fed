//! The non-preemptive layer: a job keeps the core until it is finished.

ghost use Rattle.dispatch.specs.Rules.{keeping};
ghost use Rattle.std.proofs.Common.{rules};

use crate::candidates::{Candidate, is_live};
use crate::policy::Policy;

/// The running task while its job is live; otherwise what the policy below answers.
#[derive(Clone, Copy)]
pub struct NonPreemptive<P> {
    pub below: P,
}

impl<P: Policy> Policy for NonPreemptive<P> {
    ghost rule = { λ p. keeping (P.Policy.rule p.below) };

    ghost lawful = { Prim.search rules };

    fn choose(&self, rows: &[Candidate], running: Option<usize>) -> Option<usize> {
        running
            .filter(|task| is_live(rows, *task))
            .or_else(|| self.below.choose(rows, running))
    }
}
