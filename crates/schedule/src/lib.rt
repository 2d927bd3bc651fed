//! The schedule without end, and one tick of it in code.

#![tactic(auto)]

mod calendar;
mod jobs;
mod rows;
mod slots;
mod states;
mod summaries;
mod ticking;

pub use rows::{JobRow, LateJob, SwitchRow, TickRows};
pub use slots::Slot;
pub use states::State;
pub use summaries::Summary;
pub use ticking::{LAST_INSTANT, Schedule};
