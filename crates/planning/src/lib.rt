//! The whole way from an input to its report: the order line, admission, and the answer.

#![tactic(auto)]

mod answering;
mod following;
mod requests;
mod whole;

pub use whole::{LONGEST_REPORT, report_on, whole_report};
