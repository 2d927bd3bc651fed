//! What a mark comes to for a model that follows the cache.

ghost use Rattle.std.specs.Prelude.{◌≡◌};
ghost use Rattle.delay.specs.Models.{evicted, to_reload};
ghost use Rattle.plan.specs.Plans.{content_of};

use crate::lines::{left_of, missing_count};
use crate::mark::Mark;
use plan::Plan;

/// The mark without the lines that the task `to` evicts.
pub(crate) fn evicted(plan: &Plan, to: usize, mark: Mark) -> Mark
    ensures { result ≡ evicted (content_of plan.now) to mark }
{
    mark.keeping(left_of(mark.kept, plan.task(to).evicting))
}

/// How many useful lines of the task its mark does not keep.
pub(crate) fn to_reload(plan: &Plan, task: usize, mark: Mark) -> u8
    ensures { result ≡ to_reload (content_of plan.now) task mark }
{
    missing_count(plan.task(task).useful, mark.kept)
}
