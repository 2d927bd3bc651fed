//! The head of a plan: its first two bytes.

ghost use Rattle.std.specs.Prelude.{◌<◌, ◌≤◌};

pub(crate) mod reading;

/// The bytes of a head.
pub const HEAD_BYTES: usize = 2;

/// The one revision of plans.
pub const REVISION: u8 = 1;

/// The longest block reload time, in ticks.
pub const LONGEST_RELOAD: u8 = 63;

/// What the head says: how many tasks the plan has, and how many ticks it takes to reload one block.
#[derive(Clone, Copy, PartialEq, Eq, Debug)]
pub struct Head {
    pub count: u8,
    pub block_reload_time: u8,
    ghost some: { 1 ≤ count },
    ghost few: { count ≤ 16 },
    ghost reloads: { block_reload_time < 64 },
}
