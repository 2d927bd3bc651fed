//! The schedule before its first tick.

ghost use Rattle.std.specs.Prelude.{◌≡◌, replicate};
ghost use Rattle.delay.specs.Marks.{zero_mark};
ghost use Rattle.schedule.specs.States.{start_moment};
ghost use Rattle.schedule.specs.Tables.{clock_of, moment_of, plan_of};

use super::Schedule;
use crate::calendar::Calendar;
use crate::jobs::JobTable;
use plan::Plan;

impl Schedule {
    /// The schedule of a plan at instant 0.
    pub fn new(plan: &Plan) -> Self
        ensures plan { plan_of result ≡ plan.now }
        ensures clock { clock_of result ≡ 0 }
        ensures moment { moment_of result (replicate 16 zero_mark) ≡ start_moment }
    {
        Schedule {
            calendar: Calendar::new(plan),
            jobs: JobTable::new(),
        }
    }
}
