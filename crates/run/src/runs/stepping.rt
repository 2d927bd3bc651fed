//! One tick of a run.

ghost use Rattle.std.specs.Prelude.{◌≡◌, ◌+◌, ◌<◌, ◌++◌, false};
ghost use Rattle.row_log.specs.Entries.{entries, full};
ghost use Rattle.run.specs.Followers.{clock_in, followed};
ghost use Rattle.run.specs.Written.{SameMemory, job_in, row_list, switch_in};

use super::Run;
use crate::examining::examine;
use delay::DelayModel;
use dispatch::Policy;
use row_log::Log;
use schedule::{JobRow, SwitchRow};

impl<P: Policy, M: DelayModel> Run<P, M> {
    /// Does one tick, writes its rows down, and examines the instant after it.
    pub(super) fn step(&mut self, jobs: &mut Log<'_, JobRow>, switches: &mut Log<'_, SwitchRow>)
        requires before { clock_in self.old.follower < 1000000000000 }
        requires job_room { full jobs.old ≡ false }
        requires switch_room { full switches.old ≡ false }
        ensures setting { followed self.new.follower ≡ followed self.old.follower }
        ensures clock { clock_in self.new.follower ≡ clock_in self.old.follower + 1 }
        ensures jobs { entries jobs.new ≡ entries jobs.old ++ row_list (job_in (followed self.old.follower) (clock_in self.old.follower)) }
        ensures switches { entries switches.new ≡ entries switches.old ++ row_list (switch_in (followed self.old.follower) (clock_in self.old.follower)) }
        ensures job_memory { SameMemory jobs.old jobs.new }
        ensures switch_memory { SameMemory switches.old switches.new }
    {
        let Run {
            follower,
            watch,
            counts,
            standing,
        } = self;
        let rows = follower.tick();
        counts.count(&rows);
        write(jobs, rows.job);
        write(switches, rows.switch);
        let event = examine(follower, watch);
        standing.see(follower.clock(), event);
    }
}

/// Writes a row into a log that has a free one, if there is a row.
fn write<T: Copy>(log: &mut Log<'_, T>, row: Option<T>)
    requires { full log.old ≡ false }
    ensures entries { entries log.new ≡ entries log.old ++ row_list row }
    ensures memory { SameMemory log.old log.new }
{
    if let Some(row) = row {
        let _ = log.push(row);
    }
}
