//! Plans.

#![tactic(auto)]

mod admitted;
mod blocks;
mod heads;
mod periods;
mod rows;
mod tasks;

pub use admitted::admission::admit;
pub use admitted::{MOST_TASKS, Plan};
pub use blocks::CacheBlocks;
pub use heads::{HEAD_BYTES, Head, LONGEST_RELOAD, REVISION};
pub use periods::Hyperperiod;
pub use rows::ROW_BYTES;
pub use tasks::{Flaw, Task};
