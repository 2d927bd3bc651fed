//! The text of a report: how a run stands and what its tasks did, or a refusal.

#![tactic(auto)]

mod line;
mod refusal;
mod sink;
mod standings;
mod summary;
mod text;
mod word;

pub use refusal::write_refusal;
pub use standings::write_standing;
