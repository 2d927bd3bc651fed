//! A table before the first tick.

ghost use Rattle.std.specs.Prelude.{◌≡◌, replicate, None};
ghost use Rattle.schedule.specs.JobTables.{delays_in, slots_in, untils_in};
ghost use Rattle.schedule.specs.Jobs.{vacant};

use super::JobTable;
use dispatch::Candidate;
use plan::MOST_TASKS;

impl JobTable {
    /// No job is live, and no task is running.
    pub(crate) fn new() -> Self
        ensures slots { slots_in result ≡ replicate 16 vacant }
        ensures untils { untils_in result ≡ replicate 16 0 }
        ensures running { result.running ≡ None }
        ensures delays { delays_in result ≡ replicate 16 0 }
    {
        JobTable {
            rows: [Candidate::default(); MOST_TASKS],
            delays: [0; MOST_TASKS],
            running: None,
        }
    }
}
