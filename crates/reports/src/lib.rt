//! Trials of the call from an input to its report.

#![tactic(auto)]

#[cfg(test)]
mod tests;
