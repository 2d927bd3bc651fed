//! The mark of one task.

ghost use Rattle.std.specs.Prelude.{◌≡◌};
ghost use Rattle.delay.specs.Marks.{keeping, zero_mark};

use plan::CacheBlocks;

/// What a delay model remembers of one task. Each model says what the two parts stand for.
#[derive(Clone, Copy, PartialEq, Eq, Default)]
pub struct Mark {
    pub kept: CacheBlocks,
    pub credit: u16,
}

/// The mark of a task of which nothing is known.
pub fn zero_mark() -> Mark
    ensures { result ≡ zero_mark }
{
    Mark::default()
}

impl Mark {
    /// The mark with these lines in the place of those it keeps.
    pub fn keeping(self, kept: CacheBlocks) -> Mark
        ensures { result ≡ keeping kept.lines self }
    {
        Mark { kept, ..self }
    }
}
