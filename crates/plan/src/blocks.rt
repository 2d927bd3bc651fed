//! Sets of cache lines.

ghost use Rattle.std.specs.Prelude.{◌≡◌};
ghost use Rattle.plan.specs.Blocks.{within};

/// A set of the 64 lines of the instruction cache. Line 0 is the most significant bit. The default is the empty set.
#[derive(Clone, Copy, PartialEq, Eq, Default, Debug)]
pub struct CacheBlocks {
    pub lines: u64,
}

impl CacheBlocks {
    /// Whether every line of this set is a line of `other`.
    pub fn is_within(self, other: CacheBlocks) -> bool
        ensures { result ≡ within self.lines other.lines }
    {
        self.lines & other.lines == self.lines
    }
}
