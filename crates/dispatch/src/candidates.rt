//! What a policy is shown of a task.

ghost use Rattle.std.specs.Prelude.{◌≡◌};
ghost use Rattle.dispatch.specs.Rules.{live_at};

/// One task, as a policy sees it. Where no job of it is live, all is zero.
#[derive(Clone, Copy, PartialEq, Eq, Debug, Default)]
pub struct Candidate {
    /// a job of the task is live
    pub live: bool,
    /// ticks of work that it still needs
    pub left: u32,
    /// reload ticks that it still owes
    pub owed: u64,
    /// it has had the core before
    pub begun: bool,
    /// ticks until its deadline
    pub until: u32,
}

/// Whether this task is shown with a live job; a number past the last row is no task.
pub fn is_live(rows: &[Candidate], task: usize) -> bool
    ensures { result ≡ live_at rows.now task }
{
    rows.get(task).is_some_and(|row| row.live)
}
