//! Trials of the tick and of the run, apart from their crates so that they do not prove them twice.

#![tactic(auto)]

#[cfg(test)]
mod tests;
