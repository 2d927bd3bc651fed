//! What a camera maker writes to bring a dispatch rule or a delay model of his own, and what he knows of the models that a plan opens.

#![tactic(auto)]

mod favourite;
mod flat_cost;
mod opened;

pub use favourite::Favourite;
pub use flat_cost::FlatCost;

#[cfg(test)]
mod tests;
