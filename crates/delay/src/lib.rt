//! Delay models: what a job pays when it goes on after a preemption.

#![tactic(auto)]

mod cache;
mod fixed;
mod lines;
mod loaded;
mod mark;
mod mark_model;
mod model;
mod none;
mod rule;
mod table;
mod ticks;
mod useful;

pub use fixed::{FixedDelay, FixedDelayRule};
pub use loaded::{LoadedBlocks, LoadedBlocksRule};
pub use mark::{Mark, zero_mark};
pub use mark_model::MarkModel;
pub use model::DelayModel;
pub use none::{NoDelay, NoDelayRule};
pub use rule::{MarkRule, PlanRule};
pub use table::MarkTable;
pub use useful::{UsefulBlocks, UsefulBlocksRule};
