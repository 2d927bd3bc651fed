//! What a log holds.

ghost use Rattle.std.specs.Prelude.{◌≡◌, ◌<◌, false, length, MatchResult, nat_lt, slice_index_or};
ghost use Rattle.row_log.specs.Entries.{entries, full, no_such_entry};

use super::Log;
use fault::{Cause, Fault, Layer};

impl<'a, T: Copy> Log<'a, T> {
    /// How many rows were written since the last clearing.
    pub fn len(&self) -> usize
        ensures { result ≡ length (entries self.now) }
    {
        self.used
    }

    /// Whether no row is free.
    pub fn is_full(&self) -> bool
        ensures { result ≡ full self.now }
    {
        self.rows.len() <= self.used
    }

    /// The row with this number, counted from 0 in the order in which they were written.
    pub fn row(&self, number: usize) -> Result<T, Fault>
        ensures { MatchResult result
            (λ x. (number < length (entries self.now)) × (x ≡ slice_index_or (entries self.now) number x))
            (λ e. (e ≡ no_such_entry) × (nat_lt number (length (entries self.now)) ≡ false)) }
    {
        let rows = &self.rows[..self.used];
        rows.get(number)
            .copied()
            .ok_or(Fault::new(Layer::Run, Cause::NoSuchEntry))
    }
}
