//! A run: the schedule of a plan under a policy and a delay model, followed tick by tick until it is decided.

#![tactic(auto)]

mod advances;
mod examining;
mod follower;
mod runs;
mod summaries;
mod task_summaries;
mod watch;

pub use advances::{Advance, Stop};
pub use runs::Run;
pub use task_summaries::TaskSummaries;
