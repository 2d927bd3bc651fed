//! The state of a schedule at an instant.

use crate::slots::Slot;
use delay::Mark;
use plan::MOST_TASKS;

/// What a schedule is at an instant: all that decides what its ticks do from there on, but for the numbers of the next jobs, which
/// depend on the instant alone. Samples are compared by these three parts, and by nothing else.
#[derive(Clone, Copy, PartialEq, Eq)]
pub struct State {
    /// by task number
    pub slots: [Slot; MOST_TASKS],
    /// the marks of the delay model, by task number
    pub marks: [Mark; MOST_TASKS],
    pub running: Option<usize>,
}
