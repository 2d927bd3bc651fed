//! How a schedule stands at an instant: decided by a late job, decided by equal samples, or open.

#![tactic(auto)]

mod events;
mod standings;

pub use events::{Event, Repeat};
pub use standings::Standing;
