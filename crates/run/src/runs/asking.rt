//! What a run can be asked.

ghost use Rattle.std.specs.Prelude.{◌≡◌, ◌<◌, List, false, length, IfOk, MatchResult, nat_lt, slice_index_or};
ghost use Rattle.row_log.specs.Entries.{no_such_entry};
ghost use Rattle.run.specs.Lives.{Call, Guarantee, Life};
ghost use Rattle.run.specs.Runs.{setting_in, shown, summaries_in};
ghost use Rattle.run.specs.Truth.{WorstShown};
ghost use Rattle.schedule.specs.Responses.{IsWorst};
ghost use Rattle.schedule.specs.Rows.{no_summary};
ghost use Rattle.schedule.specs.Schedules.{age_in, aged, moment};

use super::Run;
use crate::task_summaries::TaskSummaries;
use delay::DelayModel;
use dispatch::Policy;
use fault::{Cause, Fault, Layer};
use schedule::Summary;
use standing::Standing;
use std::array;

impl<P: Policy, M: DelayModel> Run<P, M> {
    /// How the run stands.
    ///
    /// The guarantee in its contract, whatever calls the run has known since it was opened: MISSES names the schedule's first late job,
    /// and the summary of that task shows at least its deadline. HOLDS means that no job is ever late. Where none is and the samples show
    /// no more than V different states, the run is not OPEN from 3 × V hyperperiods after the greatest offset on. Each worst response
    /// is the greatest that is known at the clock. No advance was refused, and none stopped, without a cause.
    pub fn standing(&self) -> Standing
        ensures value { result ≡ (shown self.now).standing }
        ensures guarantee { (calls : List Call) → Life (setting_in self.now) calls (shown self.now)
            → Guarantee (setting_in self.now) calls (shown self.now) }
    {
        self.standing
    }

    /// The instant that has been reached.
    pub fn clock(&self) -> u64
        ensures { result ≡ (shown self.now).clock }
    {
        self.follower.clock()
    }

    /// The summary of a task: what has finished of it, and the age of its live job where that is greater than any response.
    fn summary_of(&self, task: usize) -> Summary
        ensures { result ≡ aged (age_in (setting_in self.now) (shown self.now).clock
            (moment (setting_in self.now) (shown self.now).clock) task)
            (slice_index_or self.now.counts.rows task no_summary) }
    {
        let mut summary = self.counts.at(task);
        summary.worst = summary.worst.max(self.follower.age(task));
        summary
    }

    /// The summaries of the tasks, in the order of the plan.
    // a hint to the compiler: inlined beside the loop of a caller, it makes every tick of that loop slower by a tenth
    #[inline(never)]
    pub fn summaries(&self) -> TaskSummaries
        ensures value { summaries_in result ≡ (shown self.now).summaries }
        ensures worst { WorstShown (setting_in self.now) (shown self.now) }
    {
        TaskSummaries {
            rows: array::from_fn(|task| self.summary_of(task)),
            count: self.follower.tasks().len(),
        }
    }

    /// The summary of a task of the plan.
    pub fn summary(&self, task: usize) -> Result<Summary, Fault>
        ensures value { MatchResult result
            (λ x. (task < length (shown self.now).summaries)
            × (x ≡ slice_index_or (shown self.now).summaries task x))
            (λ e. (e ≡ no_such_entry) × (nat_lt task (length (shown self.now).summaries) ≡ false)) }
        ensures worst { IfOk result (λ x.
            IsWorst (setting_in self.now) (shown self.now).clock task x.worst) }
    {
        if task < self.follower.tasks().len() {
            Ok(self.summary_of(task))
        } else {
            Err(Fault::new(Layer::Run, Cause::NoSuchEntry))
        }
    }
}
