//! Dispatch policies: which task has the core next.

#![tactic(auto)]

mod candidates;
mod earliest_deadline;
mod fixed_priority;
mod non_preemptive;
mod policy;
mod urgency;

pub use candidates::{Candidate, is_live};
pub use earliest_deadline::EarliestDeadline;
pub use fixed_priority::FixedPriority;
pub use non_preemptive::NonPreemptive;
pub use policy::Policy;
