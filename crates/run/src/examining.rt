//! What an instant shows.

ghost use Rattle.std.specs.Prelude.{◌≡◌, ◌+◌};
ghost use Rattle.run.specs.Followers.{clock_in, followed};
ghost use Rattle.run.specs.Watches.{Watching};
ghost use Rattle.standing.specs.Standings.{compared, examined, sample_at};

use crate::follower::Follower;
use crate::watch::Watch;
use delay::DelayModel;
use dispatch::Policy;
use standing::Event;

/// Takes the sample of the instant at the clock, if there is one, and answers what it shows.
pub(crate) fn compare<P: Policy, M: DelayModel>(
    follower: &Follower<P, M>,
    watch: &mut Watch,
) -> Event
    requires { Watching (followed follower.now) (clock_in follower.now) watch.old }
    ensures event { result ≡ compared (followed follower.now) (sample_at (followed follower.now) (clock_in follower.now)) }
    ensures watching { Watching (followed follower.now) (clock_in follower.now + 1) watch.new }
{
    if follower.clock() == watch.next() {
        watch.take(follower.state())
    } else {
        Event::Nothing
    }
}

/// What the instant at the clock shows. A late job comes before what a sample shows.
pub(crate) fn examine<P: Policy, M: DelayModel>(
    follower: &Follower<P, M>,
    watch: &mut Watch,
) -> Event
    requires { Watching (followed follower.now) (clock_in follower.now) watch.old }
    ensures event { result ≡ examined (followed follower.now) (clock_in follower.now) }
    ensures watching { Watching (followed follower.now) (clock_in follower.now + 1) watch.new }
{
    let comparison = compare(follower, watch);
    follower.late().map_or(comparison, Event::Late)
}
