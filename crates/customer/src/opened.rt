//! What a caller knows of the models that a plan opens, by each name that the crate `delay` gives them.

ghost use Rattle.std.specs.Prelude.{◌≡◌, replicate};
ghost use Rattle.delay.specs.Marks.{zero_mark};
ghost use Rattle.delay.specs.Models.{fixed_delay, loaded_blocks, no_delay, useful_blocks};
ghost use Rattle.plan.specs.Plans.{content_of};

use delay::{DelayModel, FixedDelay, LoadedBlocks, NoDelay, UsefulBlocks};
use plan::Plan;

/// No delay, with no mark made yet.
pub fn open_no_delay(plan: &Plan) -> NoDelay
    ensures rule { ⟦<NoDelay as DelayModel>⟧.profile result ≡ no_delay }
    ensures fresh { ⟦<NoDelay as DelayModel>⟧.marks result ≡ replicate 16 zero_mark }
{
    NoDelay::new(plan)
}

/// Fixed delay, with no mark made yet.
pub fn open_fixed_delay(plan: &Plan) -> FixedDelay
    ensures rule { ⟦<FixedDelay as DelayModel>⟧.profile result ≡ fixed_delay (content_of plan.now) }
    ensures fresh { ⟦<FixedDelay as DelayModel>⟧.marks result ≡ replicate 16 zero_mark }
{
    FixedDelay::new(plan)
}

/// Useful blocks, with no mark made yet.
pub fn open_useful_blocks(plan: &Plan) -> UsefulBlocks
    ensures rule { ⟦<UsefulBlocks as DelayModel>⟧.profile result ≡ useful_blocks (content_of plan.now) }
    ensures fresh { ⟦<UsefulBlocks as DelayModel>⟧.marks result ≡ replicate 16 zero_mark }
{
    UsefulBlocks::new(plan)
}

/// Loaded blocks, with no mark made yet.
pub fn open_loaded_blocks(plan: &Plan) -> LoadedBlocks
    ensures rule { ⟦<LoadedBlocks as DelayModel>⟧.profile result ≡ loaded_blocks (content_of plan.now) }
    ensures fresh { ⟦<LoadedBlocks as DelayModel>⟧.marks result ≡ replicate 16 zero_mark }
{
    LoadedBlocks::new(plan)
}
