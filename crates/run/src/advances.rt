//! What an advance answers.

/// Why an advance has stopped.
#[derive(Clone, Copy, PartialEq, Eq, Debug)]
pub enum Stop {
    /// the run is decided
    Closed,
    /// all ticks that were asked for are done
    CountReached,
    /// the job log has no free row
    JobLogFull,
    /// the switch log has no free row
    SwitchLogFull,
}

/// What an advance has done.
#[derive(Clone, Copy, PartialEq, Eq, Debug)]
pub struct Advance {
    pub ticks: u64,
    pub stop: Stop,
}
