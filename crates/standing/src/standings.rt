//! How a schedule stands.

ghost use Rattle.std.specs.Prelude.{◌≡◌};
ghost use Rattle.standing.specs.Standings.{is_open, moved};

use crate::events::Event;

/// What is known of the schedule without end at an instant. Once it is decided, it stays so.
#[derive(Clone, Copy, PartialEq, Eq, Debug)]
pub enum Standing {
    /// not decided
    Open,
    /// this is the first late job, and the instant at which it is late
    Misses {
        instant: u64,
        task: usize,
        job: u64,
    },
    /// no job is ever late: at this instant a sample equals the one that it is compared with
    Holds {
        instant: u64,
        sample: u64,
        earlier: u64,
    },
}

impl Standing {
    /// Whether nothing is decided yet.
    pub fn is_open(self) -> bool
        ensures { result ≡ is_open self }
    {
        match self {
            Standing::Open => true,
            Standing::Misses { .. } | Standing::Holds { .. } => false,
        }
    }

    /// Moves the standing by what has been seen at an instant. Nothing is written where it stays.
    pub fn see(&mut self, instant: u64, event: Event)
        ensures { self.new ≡ moved instant self.old event }
    {
        match (*self, event) {
            (Standing::Open, Event::Late(late)) => {
                *self = Standing::Misses {
                    instant,
                    task: late.task,
                    job: late.job,
                };
            }
            (Standing::Open, Event::Repeats(repeat)) => {
                *self = Standing::Holds {
                    instant,
                    sample: repeat.sample,
                    earlier: repeat.earlier,
                };
            }
            (Standing::Open, Event::Nothing)
            | (Standing::Misses { .. } | Standing::Holds { .. }, _) => {}
        }
    }
}
