//! One task of a plan, and the rules that it keeps.

ghost use Rattle.std.specs.Prelude.{◌≡◌};
ghost use Rattle.plan.specs.Admission.{unless};
ghost use Rattle.plan.specs.Checks.{first_wrong};
ghost use Rattle.plan.specs.Flaws.{flaw_at, rule_checks};

use crate::blocks::CacheBlocks;
use fault::Cause;

/// A periodic task, as its row in the plan has it. Times are in ticks.
/// The default has no times and no cache lines.
#[derive(Clone, Copy, PartialEq, Eq, Default, Debug)]
pub struct Task {
    pub offset: u32,
    pub period: u32,
    pub deadline: u32,
    pub work: u32,
    pub priority: u8,
    pub fixed_delay: u16,
    pub useful: CacheBlocks,
    pub evicting: CacheBlocks,
}

/// A rule that a task breaks, and the first bit in a row of the field that is named for it.
#[derive(Clone, Copy, PartialEq, Eq, Debug)]
pub struct Flaw {
    pub cause: Cause,
    pub first: u8,
}

impl Task {
    /// Refuses a task that breaks a rule by itself, with the first rule that it breaks.
    pub fn check(self) -> Result<(), Flaw>
        ensures { result ≡ unless (first_wrong (rule_checks flaw_at self)) tt }
    {
        if self.period == 0 {
            return Err(Flaw {
                cause: Cause::ZeroPeriod,
                first: 20,
            });
        }
        if self.work < 1 || self.work > self.deadline || self.deadline > self.period {
            return Err(Flaw {
                cause: Cause::TimesOutOfOrder,
                first: 60,
            });
        }
        if !self.useful.is_within(self.evicting) {
            return Err(Flaw {
                cause: Cause::UsefulNotEvicting,
                first: 100,
            });
        }
        Ok(())
    }
}
