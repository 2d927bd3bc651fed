//! A run.

ghost use Rattle.std.specs.Prelude.{◌≡◌, ◌+◌, length, take};
ghost use Rattle.run.specs.Counts.{Within};
ghost use Rattle.run.specs.Followers.{clock_in, followed};
ghost use Rattle.run.specs.Watches.{Watching};
ghost use Rattle.schedule.specs.Schedules.{row_summaries};
ghost use Rattle.standing.specs.Standings.{standing_at};

mod advancing;
mod asking;
mod opening;
mod stepping;

use crate::follower::Follower;
use crate::summaries::Summaries;
use crate::watch::Watch;
use delay::DelayModel;
use dispatch::Policy;
use standing::Standing;

/// A plan's schedule under a policy and a delay model, up to the instant that it has been followed to, and what is known of it there.
#[derive(Drop)]
pub struct Run<P: Policy, M: DelayModel> {
    follower: Follower<P, M>,
    watch: Watch,
    counts: Summaries,
    standing: Standing,
    ghost watching: { Watching (followed follower) (clock_in follower + 1) watch },
    ghost decided: { standing ≡ standing_at (followed follower) (clock_in follower) },
    ghost counted: { take (length (followed follower).tasks) counts.rows
        ≡ row_summaries (followed follower) (clock_in follower) },
    ghost within: { Within (clock_in follower) counts.rows },
}
