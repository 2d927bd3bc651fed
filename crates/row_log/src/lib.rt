//! Logs: rows of one kind in memory that the caller lends.

#![tactic(auto)]

mod journal;

pub use journal::Log;
