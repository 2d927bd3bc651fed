//! What the rows of the ticks tell of the tasks.

ghost use Rattle.std.specs.Prelude.{◌≡◌, length};

mod counting;
mod table;

use plan::MOST_TASKS;
use schedule::Summary;

/// Of each task, by its number, what its rows tell: its finished jobs and all delay. The age of a live job comes in where it is asked for.
#[derive(Drop)]
pub(crate) struct Summaries {
    rows: [Summary; MOST_TASKS],
    ghost sized: { length rows ≡ 16 },
}
