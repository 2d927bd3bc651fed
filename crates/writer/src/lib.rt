//! Writing a plan row by row into a buffer of one's own.

#![tactic(auto)]

mod fill;
mod token;

pub use token::PlanWriter;
