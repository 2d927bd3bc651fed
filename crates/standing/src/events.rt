//! What an instant shows.

use schedule::LateJob;

/// A sample that equals the one it is compared with.
#[derive(Clone, Copy, PartialEq, Eq, Debug)]
pub struct Repeat {
    /// the number of the sample
    pub sample: u64,
    /// the number of the one that it is compared with
    pub earlier: u64,
}

/// What is seen at an instant, before its tick.
#[derive(Clone, Copy, PartialEq, Eq, Debug)]
pub enum Event {
    /// a job is late: this one counts
    Late(LateJob),
    /// no job is late, and the sample taken now equals the one that it is compared with
    Repeats(Repeat),
    /// neither
    Nothing,
}
