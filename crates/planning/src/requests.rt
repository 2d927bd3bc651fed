//! What an input asks for.

ghost use Rattle.std.specs.Prelude.{◌≡◌, Ok, Err, MatchResult};
ghost use Rattle.plan.specs.Plans.{content_of};
ghost use Rattle.planning.specs.Inputs.{ordered};

mod choosing;

use fault::Fault;
use order::{Order, read_order};
use plan::{Plan, admit};

/// An order, and the plan that it is for.
#[derive(Clone, Copy)]
pub(crate) struct Request {
    order: Order,
    plan: Plan,
}

impl Request {
    /// What these bytes ask for, or the first thing that is wrong with them.
    pub(crate) fn read(input: &[u8]) -> Result<Self, Fault>
        ensures { MatchResult result
            (λ r. ordered input.now ≡ Ok (r.order, content_of r.plan))
            (λ e. ordered input.now ≡ Err e) }
    {
        let (order, bytes) = read_order(input)?;
        let plan = admit(bytes)?;
        Ok(Request { order, plan })
    }
}
