//! What a delay model is.

ghost use Rattle.std.specs.Prelude.{◌≡◌, ℕ, ◌≤◌, List, length, if◌then◌else◌, nat_lt, slice_index_or};
ghost use Rattle.delay.specs.Marks.{changed, zero_mark};
ghost use Rattle.delay.specs.Profiles.{Profile};
ghost use Rattle.delay.specs.declared.mark.Mark.{Mark};

use crate::mark::Mark;

/// What a job pays when it goes on after a preemption, and what is remembered of each task for that.
///
/// Its meaning is one profile, which no call changes, and a mark for each of 16 tasks: a call changes the mark of its task
/// by the profile, and no other mark. A call with a task number above 15 changes nothing.
pub trait DelayModel {
    ghost profile: { Self → Profile };

    ghost marks: { Self → List Mark };

    /// A job of the task gets the core for the first time.
    fn begin(&mut self, task: usize)
        ensures same { profile self.new ≡ profile self.old }
        ensures after { marks self.new ≡ changed (marks self.old) task ((profile self.old).begin task) };

    /// The task `to` gets the core by a switch while a begun job of `task` is live.
    fn lose(&mut self, task: usize, to: usize)
        ensures same { profile self.new ≡ profile self.old }
        ensures after { marks self.new ≡ (if nat_lt to 16 then changed (marks self.old) task ((profile self.old).lose task to) else marks self.old) };

    /// The task has the core for a tick.
    fn spend(&mut self, task: usize)
        ensures same { profile self.new ≡ profile self.old }
        ensures after { marks self.new ≡ changed (marks self.old) task ((profile self.old).spend task) };

    /// A begun job of the task gets the core again by a switch. The answer is the delay in ticks.
    fn resume(&mut self, task: usize) -> u16
        ensures same { profile self.new ≡ profile self.old }
        ensures after { marks self.new ≡ changed (marks self.old) task ((profile self.old).resume task) }
        ensures answer { result ≡ (if nat_lt task 16 then (profile self.old).answer task (slice_index_or (marks self.old) task zero_mark) else 0) };

    /// A job of the task finishes.
    fn finish(&mut self, task: usize)
        ensures same { profile self.new ≡ profile self.old }
        ensures after { marks self.new ≡ changed (marks self.old) task (λ _. zero_mark) };

    /// The mark of the task.
    fn mark(&self, task: usize) -> Mark
        ensures { result ≡ slice_index_or (marks self.now) task zero_mark };

    ghost sixteen: { (m : Self) → length (marks m) ≡ 16 };

    ghost bounded: { (m : Self) (i : ℕ) (k : Mark) → (profile m).answer i k ≤ 4096 };
}
