//! What a tick writes down.

/// A switch: a task that was not running gets the core.
#[derive(Clone, Copy, Default, PartialEq, Eq)]
pub struct SwitchRow {
    /// the instant at which the tick begins
    pub instant: u64,
    pub task: usize,
    /// the number of the task's live job
    pub job: u64,
    /// the delay that the model answered, 0 for a begin
    pub delay: u16,
}

/// A job that has finished.
#[derive(Clone, Copy, Default, PartialEq, Eq)]
pub struct JobRow {
    pub task: usize,
    pub job: u64,
    pub release: u64,
    pub finish: u64,
    /// all delay that was answered to the job
    pub delay: u64,
}

/// What one tick writes down.
#[derive(Clone, Copy, Default, PartialEq, Eq)]
pub struct TickRows {
    /// its switch, if it is one
    pub switch: Option<SwitchRow>,
    /// the job that finishes with it, if one does
    pub job: Option<JobRow>,
}

/// A job that is late.
#[derive(Clone, Copy, PartialEq, Eq, Debug)]
pub struct LateJob {
    pub task: usize,
    pub job: u64,
}
