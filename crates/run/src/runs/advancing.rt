//! A run goes on.

ghost use Rattle.std.specs.Prelude.{◌≡◌, ◌+◌, ◌≤◌, ◌++◌, true, false, Some, None, IfErr, MatchResult};
ghost use Rattle.row_log.specs.Entries.{entries, full};
ghost use Rattle.run.specs.Advances.{Answered, Went, asking, refusal, stop_of, ticks_in};
ghost use Rattle.run.specs.Runs.{setting_in, shown};
ghost use Rattle.run.specs.Written.{SameMemory, job_in, switch_in, written};
ghost use Rattle.standing.specs.Standings.{is_open};

use super::Run;
use crate::advances::{Advance, Stop};
use delay::DelayModel;
use dispatch::Policy;
use fault::{Cause, Fault, Layer};
use row_log::Log;
use schedule::{JobRow, LAST_INSTANT, SwitchRow};

/// The most ticks that one advance can be asked for.
const MOST_TICKS: u64 = 1_000_000_000;

impl<P: Policy, M: DelayModel> Run<P, M> {
    /// Does up to so many ticks, writes their rows into the logs, and answers how many it has done and why it has stopped.
    /// One that is refused changes nothing.
    pub fn advance(
        &mut self,
        ticks: u64,
        jobs: &mut Log<'_, JobRow>,
        switches: &mut Log<'_, SwitchRow>,
    ) -> Result<Advance, Fault>
        ensures setting { setting_in self.new ≡ setting_in self.old }
        ensures answered { Answered (setting_in self.old) (asking ticks jobs.old switches.old) (shown self.old) (shown self.new) result }
        ensures jobs { entries jobs.new ≡ entries jobs.old ++ written (job_in (setting_in self.old)) (shown self.old).clock (ticks_in result) }
        ensures switches { entries switches.new ≡ entries switches.old ++ written (switch_in (setting_in self.old)) (shown self.old).clock (ticks_in result) }
        ensures job_memory { SameMemory jobs.old jobs.new }
        ensures switch_memory { SameMemory switches.old switches.new }
        ensures refused { IfErr result (λ _. (self.new ≡ self.old) × (jobs.new ≡ jobs.old) × (switches.new ≡ switches.old)) }
    {
        self.permit(ticks)?;
        Ok(self.go_on(ticks, jobs, switches))
    }

    /// Whether the run can be asked for so many ticks.
    fn permit(&self, ticks: u64) -> Result<(), Fault>
        ensures { MatchResult result (λ _. refusal ticks (shown self.now) ≡ None) (λ f. refusal ticks (shown self.now) ≡ Some f) }
    {
        if ticks > MOST_TICKS {
            return Err(Fault::new(Layer::Run, Cause::AdvanceTooLong));
        }
        if !self.standing.is_open() {
            return Err(Fault::new(Layer::Run, Cause::RunClosed));
        }
        // both are small, so that the sum fits
        if self.follower.clock() + ticks > LAST_INSTANT {
            return Err(Fault::new(Layer::Run, Cause::PastLastInstant));
        }
        Ok(())
    }

    /// Why the run does no further tick, or nothing where it goes on.
    fn stop(&self, jobs: &Log<'_, JobRow>, switches: &Log<'_, SwitchRow>) -> Option<Stop>
        ensures { result ≡ stop_of (is_open self.now.standing) false (full jobs.now) (full switches.now) }
    {
        if !self.standing.is_open() {
            Some(Stop::Closed)
        } else if jobs.is_full() {
            Some(Stop::JobLogFull)
        } else if switches.is_full() {
            Some(Stop::SwitchLogFull)
        } else {
            None
        }
    }

    /// Why the run does no further tick when all that it was asked for are done.
    fn last_stop(&self) -> Stop
        ensures { Some result ≡ stop_of (is_open self.now.standing) true true true }
    {
        if self.standing.is_open() {
            Stop::CountReached
        } else {
            Stop::Closed
        }
    }

    /// Goes on tick by tick.
    fn go_on(
        &mut self,
        ticks: u64,
        jobs: &mut Log<'_, JobRow>,
        switches: &mut Log<'_, SwitchRow>,
    ) -> Advance
        requires { (shown self.old).clock + ticks ≤ 1000000000000 }
        ensures setting { setting_in self.new ≡ setting_in self.old }
        ensures gone { Went (setting_in self.old) (asking ticks jobs.old switches.old) (shown self.old) (shown self.new) result }
        ensures jobs { entries jobs.new ≡ entries jobs.old ++ written (job_in (setting_in self.old)) (shown self.old).clock result.ticks }
        ensures switches { entries switches.new ≡ entries switches.old ++ written (switch_in (setting_in self.old)) (shown self.old).clock result.ticks }
        ensures job_memory { SameMemory jobs.old jobs.new }
        ensures switch_memory { SameMemory switches.old switches.new }
    {
        for done in 0..ticks {
            if let Some(stop) = self.stop(jobs, switches) {
                return Advance { ticks: done, stop };
            }
            self.step(jobs, switches);
        }
        Advance {
            ticks,
            stop: self.last_stop(),
        }
    }
}
