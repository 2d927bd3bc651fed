//! The clock goes on.

ghost use Rattle.std.specs.Prelude.{◌≡◌, ◌-◌, ◌≤◌};
ghost use Rattle.schedule.specs.Each.{each};
ghost use Rattle.schedule.specs.JobTables.{delays_in, slots_in, untils_in};

use super::JobTable;

impl JobTable {
    /// One instant on: the deadlines of the first so many tasks come nearer.
    pub(crate) fn step(&mut self, count: usize)
        requires { count ≤ 16 }
        ensures slots { slots_in self.new ≡ slots_in self.old }
        ensures untils { untils_in self.new ≡ each 0 count (λ _ n. n - 1) (untils_in self.old) }
        ensures running { self.new.running ≡ self.old.running }
        ensures delays { delays_in self.new ≡ delays_in self.old }
    {
        // by index: a proof knows nothing of what a loop writes through an iterator
        for task in 0..count {
            let row = &mut self.rows[task];
            row.until = row.until.saturating_sub(1);
        }
    }
}
