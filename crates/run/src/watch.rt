//! Which samples are taken and compared.

mod comparing;
mod opening;

use plan::Hyperperiod;
use schedule::State;

/// The sample that is kept, and the one that is taken next.
#[derive(Drop)]
pub(crate) struct Watch {
    period: Hyperperiod,
    /// the instant of the next sample
    next: u64,
    /// its number
    number: u64,
    /// the number of the sample that it is compared with
    earlier: u64,
    /// that sample; before sample 0 is taken, what stands here is compared with nothing
    kept: State,
}
