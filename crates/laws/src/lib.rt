//! The laws of the schedule without end: why it repeats, why the samples decide, and what a job gets of the core.

#![tactic(auto)]

mod core_time;
mod samples;

pub use core_time::core_ticks;
pub use samples::{deciding_instant, sample_instant};
