//! The most urgent of the live tasks, for any order of urgency.

ghost use Rattle.std.specs.Prelude.{◌≡◌, ℕ, Bool, true, ◌||◌, List};
ghost use Rattle.dispatch.specs.declared.candidates.Candidate.{Candidate};
ghost use Rattle.dispatch.specs.Rules.{better, most_urgent};

use crate::candidates::{Candidate, is_live};

/// An order of urgency among the tasks that are shown.
// A trait with two laws, and not a key for `min_by_key`: the clause of a function over any key
// would have to speak of all that the key computes, and says less plainly who is chosen.
pub(crate) trait Urgency {
    /// The first task is at least as urgent as the second.
    ghost urgent: { Self → List Candidate → ℕ → ℕ → Bool };

    fn at_least(&self, rows: &[Candidate], first: usize, second: usize) -> bool
        ensures { result ≡ urgent self.now rows.now first second };

    /// Of two tasks one is at least as urgent as the other.
    ghost total: { (u : Self) (rows : List Candidate) (i k : ℕ) → (urgent u rows i k || urgent u rows k i) ≡ true };

    ghost through: { (u : Self) (rows : List Candidate) (i j k : ℕ) → urgent u rows i j ≡ true → urgent u rows j k ≡ true → urgent u rows i k ≡ true };
}

/// The most urgent of the live tasks, the first of several.
pub(crate) fn most_urgent<U: Urgency>(by: &U, rows: &[Candidate]) -> Option<usize>
    ensures { result ≡ most_urgent (U.urgent by.now rows.now) rows.now }
{
    (0..rows.len()).fold(None, |best, task| better_of(by, rows, best, task))
}

/// The more urgent of the best so far and one task more.
fn better_of<U: Urgency>(
    by: &U,
    rows: &[Candidate],
    best: Option<usize>,
    task: usize,
) -> Option<usize>
    ensures { result ≡ better (U.urgent by.now rows.now) rows.now best task }
{
    match best {
        _ if !is_live(rows, task) => best,
        Some(first) if by.at_least(rows, first, task) => best,
        _ => Some(task),
    }
}
