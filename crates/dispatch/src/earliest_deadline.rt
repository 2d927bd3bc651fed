//! Earliest deadline first.

ghost use Rattle.std.specs.Prelude.{◌≡◌, nat_le};
ghost use Rattle.dispatch.specs.Policies.{earliest_deadline, until_at};
ghost use Rattle.std.proofs.Common.{rules};
ghost use Rattle.dispatch.specs.Urgencies.{most_urgent_live};

use crate::candidates::Candidate;
use crate::policy::Policy;
use crate::urgency::{Urgency, most_urgent};

/// The fewest ticks until the deadline among the live tasks, the lowest task number among equals.
#[derive(Clone, Copy)]
pub struct EarliestDeadline;

/// The ticks until the deadline of a task's live job.
fn until(rows: &[Candidate], task: usize) -> u32
    ensures { result ≡ until_at rows.now task }
{
    rows.get(task).map_or(0, |row| row.until)
}

impl Urgency for EarliestDeadline {
    ghost urgent = { λ u rows i k. nat_le (until_at rows i) (until_at rows k) };

    ghost total = { Prim.search rules };

    ghost through = { Prim.search rules };

    fn at_least(&self, rows: &[Candidate], first: usize, second: usize) -> bool {
        until(rows, first) <= until(rows, second)
    }
}

impl Policy for EarliestDeadline {
    ghost rule = { λ p. earliest_deadline };

    ghost lawful = { λ p rows running j e. most_urgent_live _ rows j e };

    fn choose(&self, rows: &[Candidate], running: Option<usize>) -> Option<usize> {
        most_urgent(self, rows)
    }
}
