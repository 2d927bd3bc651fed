//! Fixed priority: the greatest priority first.

ghost use Rattle.std.specs.Prelude.{◌≡◌, length, nat_le, slice_get};
ghost use Rattle.std.specs.Option.{option_map_or};
ghost use Rattle.dispatch.specs.Policies.{fixed_priority, priority_at, priority_table};
ghost use Rattle.plan.specs.Plans.{tasks_in};
ghost use Rattle.std.proofs.Common.{rules};
ghost use Rattle.dispatch.specs.Urgencies.{most_urgent_live};

use crate::candidates::Candidate;
use crate::policy::Policy;
use crate::urgency::{Urgency, most_urgent};
use plan::{MOST_TASKS, Plan, Task};
use std::array;

/// The greatest priority among the live tasks, the lowest task number among equals.
#[derive(Clone, Copy)]
pub struct FixedPriority {
    priorities: [u8; MOST_TASKS],
    ghost sized: { length priorities ≡ 16 },
}

impl FixedPriority {
    /// By the priorities of a plan's tasks.
    pub fn new(plan: &Plan) -> Self
        ensures { result.priorities ≡ priority_table (tasks_in plan.now) }
    {
        let tasks = plan.tasks();
        let priorities = array::from_fn(|task| priority_in(tasks, task));
        FixedPriority { priorities }
    }

    fn priority(&self, task: usize) -> u8
        ensures { result ≡ priority_at self.now.priorities task }
    {
        self.priorities.get(task).copied().unwrap_or(0)
    }
}

/// The priority of this task, or 0 past the last one.
fn priority_in(tasks: &[Task], task: usize) -> u8
    ensures { result ≡ option_map_or (λ t. t.priority) (slice_get tasks.now task) 0 }
{
    tasks.get(task).map_or(0, |task| task.priority)
}

impl Urgency for FixedPriority {
    ghost urgent = { λ u rows i k. nat_le (priority_at u.priorities k) (priority_at u.priorities i) };

    ghost total = { Prim.search rules };

    ghost through = { Prim.search rules };

    fn at_least(&self, rows: &[Candidate], first: usize, second: usize) -> bool {
        self.priority(second) <= self.priority(first)
    }
}

impl Policy for FixedPriority {
    ghost rule = { λ p. fixed_priority p.priorities };

    ghost lawful = { λ p rows running j e. most_urgent_live _ rows j e };

    fn choose(&self, rows: &[Candidate], running: Option<usize>) -> Option<usize> {
        most_urgent(self, rows)
    }
}
