//! The meaning of a dispatch policy.

ghost use Rattle.std.specs.Prelude.{◌≡◌};
ghost use Rattle.dispatch.specs.Rules.{NamesLive, Rule};

use crate::candidates::Candidate;

/// A dispatch policy is a fixed rule: what it answers depends on what it is shown, and on nothing else.
pub trait Policy {
    /// The rule that this policy follows.
    ghost rule: { Self → Rule };

    /// The task to run, or nothing for idle.
    fn choose(&self, rows: &[Candidate], running: Option<usize>) -> Option<usize>
        ensures { result ≡ rule self.now rows.now running };

    /// It names only a task with a live job.
    ghost lawful: { (p : Self) → NamesLive (rule p) };
}
