//! The live jobs of the tasks.

ghost use Rattle.std.specs.Prelude.{◌≡◌, length};

mod opening;
mod reading;
mod serving;
mod stepping;
mod switching;
mod writing;

use dispatch::Candidate;
use plan::MOST_TASKS;
pub(crate) use serving::Served;

/// The live job of each task, and the running task.
#[derive(Clone, Copy)]
pub(crate) struct JobTable {
    /// what a policy is shown of each task, kept so that a tick need not write it out
    rows: [Candidate; MOST_TASKS],
    /// the delay answered so far to the live job of each task, which stays when the job has finished until the next release
    delays: [u64; MOST_TASKS],
    running: Option<usize>,
    ghost sized: { length rows ≡ 16 },
    ghost paired: { length delays ≡ 16 },
}
