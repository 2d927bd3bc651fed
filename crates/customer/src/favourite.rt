//! A policy of one's own: trigger service goes before everything else.

ghost use Rattle.customer.specs.Favourites.{favourite};
ghost use Rattle.std.proofs.Common.{rules};

use dispatch::{Candidate, Policy, is_live};

/// One task whenever its job is live, and otherwise what another policy answers.
#[derive(Clone, Copy)]
pub struct Favourite<P> {
    pub task: usize,
    pub others: P,
}

impl<P: Policy> Policy for Favourite<P> {
    ghost rule = { λ p. favourite p.task (P.Policy.rule p.others) };

    ghost lawful = { Prim.search rules };

    fn choose(&self, rows: &[Candidate], running: Option<usize>) -> Option<usize> {
        if is_live(rows, self.task) {
            Some(self.task)
        } else {
            self.others.choose(rows, running)
        }
    }
}
