//! An admitted plan. Only admission makes one.

ghost use Rattle.std.specs.Prelude.{◌≡◌, true, length, take};
ghost use Rattle.plan.specs.Periods.{IsLcm};
ghost use Rattle.plan.specs.Tasks.{all_of, lawful, offsets, periods, greatest};

pub mod admission;
mod methods;

use crate::heads::Head;
use crate::periods::Hyperperiod;
use crate::tasks::Task;

/// The most tasks that a plan has.
pub const MOST_TASKS: usize = 16;

/// What an admitted plan says, with the greatest offset and the hyperperiod of its tasks.
#[derive(Clone, Copy)]
pub struct Plan {
    head: Head,
    tasks: [Task; MOST_TASKS],
    greatest_offset: u32,
    hyperperiod: Hyperperiod,
    ghost sized: { length tasks ≡ 16 },
    ghost keeping: { all_of lawful (take head.count tasks) ≡ true },
    ghost farthest: { greatest_offset ≡ greatest (offsets (take head.count tasks)) },
    ghost repeating: { IsLcm hyperperiod.ticks (periods (take head.count tasks)) },
}
