//! A sample is taken.

ghost use Rattle.std.specs.Prelude.{◌≡◌, ◌≤◌};
ghost use Rattle.run.specs.Watches.{shown_by, taken_by};

use super::Watch;
use cycle::next_compared;
use schedule::State;
use standing::{Event, Repeat};

impl Watch {
    /// The instant of the next sample.
    pub(crate) fn next(&self) -> u64
        ensures { result ≡ self.now.next }
    {
        self.next
    }

    /// What the next sample shows. Sample 0 is compared with none.
    fn compare(&self, taken: &State) -> Event
        ensures { result ≡ shown_by self.now taken.now }
    {
        if self.number > 0 && *taken == self.kept {
            Event::Repeats(Repeat {
                sample: self.number,
                earlier: self.earlier,
            })
        } else {
            Event::Nothing
        }
    }

    /// Takes the next sample, and answers what it shows.
    pub(crate) fn take(&mut self, taken: State) -> Event
        requires near { self.old.next ≤ 1000000000000 }
        requires few { self.old.number ≤ 1000000000000 }
        ensures event { result ≡ shown_by self.old taken }
        ensures after { self.new ≡ taken_by self.old taken }
    {
        let event = self.compare(&taken);
        self.earlier = next_compared(self.number, self.earlier);
        if self.earlier == self.number {
            self.kept = taken;
        }
        self.number += 1;
        self.next += self.period.ticks();
        event
    }
}
