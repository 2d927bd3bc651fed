//! Why a finite run can speak of an unending schedule: a machine whose rules repeat shows equal samples, and they prove that nothing is ever late.
//!
//! A function whose contract is a theorem computes nothing: whoever calls it has the theorem for its own type of states.

#![tactic(auto)]

ghost use Rattle.std.specs.Prelude.{◌≡◌};
ghost use Rattle.cycle.specs.Comparisons.{next_compared};
ghost use Rattle.cycle.specs.Theorems.{EqualFutures, ComparedRight, FoundSoon, NeverLate};

/// Equal samples have equal futures: from two equal samples on, the machine runs through the same states.
pub fn equal_futures<S>()
    ensures { EqualFutures S }
{}

/// Sample 1 is compared with sample 0, and every later one with the sample of the greatest power of two below its number.
pub fn compared_right()
    ensures { ComparedRight }
{}

/// If the samples are no more than V different states, one of the samples 1 to 3 × V equals the one that it is compared with.
pub fn found_soon<S>()
    ensures { FoundSoon S }
{}

/// If a sample equals an earlier one, and nothing is late up to and including its instant, then nothing is ever late.
/// This is for lateness that repeats with the ticks (`LateRepeats`), which the caller has to show.
pub fn never_late<S>()
    ensures { NeverLate S }
{}

/// With which sample number k + 1 is compared, where number k is compared with number p.
pub fn next_compared(k: u64, p: u64) -> u64
    ensures { result ≡ next_compared k p }
{
    if p == 0 && k == 1 || p < k && k - p == p {
        k
    } else {
        p
    }
}
