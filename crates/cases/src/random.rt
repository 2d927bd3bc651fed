//! Numbers that look random, and are the same for the same seed.

ghost use Rattle.std.specs.Prelude.{◌<◌, ◌≤◌, length};

/// Xorshift of 64 bits.
#[derive(Drop)]
pub(crate) struct Random {
    state: u64,
}

impl Random {
    /// The state is odd, since zero would stay zero.
    pub(crate) fn new(seed: u64) -> Self {
        Random {
            state: seed.wrapping_mul(0x9e37_79b9_7f4a_7c15) | 1,
        }
    }

    /// The next 64 bits.
    pub(crate) fn bits(&mut self) -> u64 {
        self.state ^= self.state << 13;
        self.state ^= self.state >> 7;
        self.state ^= self.state << 17;
        self.state
    }

    /// A number from 0 to `most`.
    pub(crate) fn up_to(&mut self, most: u64) -> u64
        ensures { result ≤ most }
    {
        self.bits() % most.saturating_add(1)
    }

    /// One of these.
    pub(crate) fn one_of<T: Copy>(&mut self, choices: &[T]) -> T
        requires { 0 < length choices.now }
    {
        let place = self.up_to(choices.len() as u64 - 1);
        choices[place as usize]
    }
}
