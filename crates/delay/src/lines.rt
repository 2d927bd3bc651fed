//! Sets of cache lines: what is left of one, and how many lines are in it.

ghost use Rattle.std.specs.Prelude.{◌≡◌, ℕ, ◌<◌, not, ◌&&◌};
ghost use Rattle.delay.specs.Lines.{count_lines, missing, without};
ghost use Rattle.plan.specs.Blocks.{holds};

use plan::CacheBlocks;

/// The lines of `blocks` that are not lines of `others`.
pub(crate) fn left_of(blocks: CacheBlocks, others: CacheBlocks) -> CacheBlocks
    ensures whole { result.lines ≡ without blocks.lines others.lines }
    ensures each { (l : ℕ) → l < 64 → holds result.lines l ≡ (holds blocks.lines l && not (holds others.lines l)) }
{
    CacheBlocks {
        lines: blocks.lines & !others.lines,
    }
}

/// How many lines there are in `blocks`.
pub(crate) fn line_count(blocks: CacheBlocks) -> u8
    ensures { result ≡ count_lines blocks.lines }
{
    blocks.lines.count_ones() as u8
}

/// How many lines of `useful` are not in `kept`.
pub(crate) fn missing_count(useful: CacheBlocks, kept: CacheBlocks) -> u8
    ensures { result ≡ missing useful.lines kept.lines }
{
    line_count(left_of(useful, kept))
}
