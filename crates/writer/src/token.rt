//! A plan writer: a token that is neither copied nor let go, only finished.

ghost use Rattle.std.specs.Prelude.{◌≤◌};

mod methods;

use plan::Hyperperiod;

/// What a plan writer remembers: how many rows the plan has, how many were written, and their common period.
/// It holds no buffer: it is lent one at each call.
pub struct PlanWriter {
    count: u8,
    next: u8,
    hyperperiod: Hyperperiod,
    ghost some: { 1 ≤ count },
    ghost few: { count ≤ 16 },
    ghost within: { next ≤ count },
}
