//! The hyperperiod: the least common multiple of periods.

ghost use Rattle.std.specs.Prelude.{◌≡◌, ◌<◌, ◌≤◌, false, [], ◌∷◌, MatchOption};
ghost use Rattle.plan.specs.Periods.{IsGcd, Joins, common_up_to, hyperperiod_limit};

/// The longest hyperperiod of an admitted plan, in ticks.
const LIMIT: u64 = 1_000_000_000;

/// A hyperperiod within the limit.
#[derive(Clone, Copy)]
pub struct Hyperperiod {
    ticks: u64,
    ghost positive: { 0 < ticks },
    ghost limited: { ticks ≤ 1000000000 },
}

impl Hyperperiod {
    /// The hyperperiod of no task at all.
    pub fn of_none() -> Self
        ensures { result.ticks ≡ 1 }
    {
        Hyperperiod { ticks: 1 }
    }

    /// The hyperperiod with one period more, or nothing where it passes the limit.
    pub fn join(self, period: u32) -> Option<Hyperperiod>
        ensures { MatchOption result
            (common_up_to hyperperiod_limit (self.ticks ∷ period ∷ []) ≡ false)
            (λ h. Joins h.ticks self.ticks period) }
    {
        if period == 0 {
            return None;
        }
        let ticks = self.lcm(period);
        if ticks > LIMIT {
            None
        } else {
            Some(Hyperperiod { ticks })
        }
    }

    /// The least common multiple of its length and a period.
    fn lcm(self, period: u32) -> u64
        requires { 0 < period }
        ensures { Joins result self.ticks period }
    {
        let period = u64::from(period);
        let times = self.ticks / gcd(self.ticks, period);
        times * period
    }

    /// Its length in ticks.
    pub fn ticks(self) -> u64
        ensures value { result ≡ self.ticks }
        ensures bounds { (0 < result) × (result ≤ hyperperiod_limit) }
    {
        self.ticks
    }
}

fn gcd(a: u64, b: u64) -> u64
    ensures { IsGcd result a b }
{
    let mut x = a;
    let mut y = b;
    while y > 0 {
        (x, y) = (y, x % y);
    }
    x
}
