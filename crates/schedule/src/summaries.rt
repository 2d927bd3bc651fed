//! What is told of a task.

/// The summary of a task's jobs. The default is that of a task to which nothing has happened.
#[derive(Clone, Copy, Default, PartialEq, Eq, Debug)]
pub struct Summary {
    /// how many have finished
    pub finished: u64,
    /// the greatest response time of these, finish minus release, or the age of the live job where that is greater
    pub worst: u64,
    /// all delay that was answered, also to a job that has not finished
    pub delay: u64,
}
