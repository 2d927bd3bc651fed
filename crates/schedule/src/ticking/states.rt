//! The state between two ticks.

ghost use Rattle.std.specs.Prelude.{◌≡◌};
ghost use Rattle.schedule.specs.Tables.{moment_of};

use super::Schedule;
use crate::states::State;
use delay::DelayModel;
use std::array;

impl Schedule {
    /// The state at the clock, with the marks of the delay model.
    pub fn state<M: DelayModel>(&self, model: &M) -> State
        ensures { result ≡ (moment_of self.now (M.DelayModel.marks model.now)).state }
    {
        State {
            slots: array::from_fn(|task| self.slot(task)),
            marks: array::from_fn(|task| model.mark(task)),
            running: self.running(),
        }
    }
}
