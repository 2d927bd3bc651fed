//! The live job of a task.

ghost use Rattle.std.specs.Prelude.{◌≡◌};
ghost use Rattle.schedule.specs.JobTables.{row_of, slot_in};
ghost use Rattle.schedule.specs.Ticks.{worked};

use dispatch::Candidate;

/// What is known of a task's live job. Where no job is live, all is zero.
#[derive(Clone, Copy, Default, PartialEq, Eq)]
pub struct Slot {
    /// a job of the task is live
    pub live: bool,
    /// ticks of work that it still needs
    pub left: u32,
    /// reload ticks that it still owes
    pub owed: u64,
    /// it has had the core before
    pub begun: bool,
}

impl Slot {
    /// What a row shows of the live job.
    pub(crate) fn of(row: Candidate) -> Self
        ensures { result ≡ slot_in row }
    {
        Slot {
            live: row.live,
            left: row.left,
            owed: row.owed,
            begun: row.begun,
        }
    }

    /// The row of a live job so many ticks before its deadline.
    pub(crate) fn shown(self, until: u32) -> Candidate
        ensures { result ≡ row_of self until }
    {
        Candidate {
            live: self.live,
            left: self.left,
            owed: self.owed,
            begun: self.begun,
            until,
        }
    }
}

/// One tick for the live job that a row shows: reload that is owed comes before work.
pub(crate) fn work(row: &mut Candidate)
    ensures { row.new ≡ row_of (worked (slot_in row.old)) row.old.until }
{
    if row.owed > 0 {
        row.owed -= 1;
    } else {
        row.left = row.left.saturating_sub(1);
    }
}
