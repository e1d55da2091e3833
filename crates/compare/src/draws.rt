//! Numbers drawn by a rule, so that every run draws the same ones.
ghost use Rattle.std.specs.Prelude.{◌≡◌, ◌-◌, ◌≤◌};

/// A linear congruential generator.
#[derive(Clone, Copy, Debug)]
pub struct Draws {
    state: u64,
}

impl Draws {
    pub fn new(seed: u64) -> Draws
        ensures { result.state ≡ seed }
    {
        Draws { state: seed }
    }

    /// A number below the limit, which is at most 2^32; zero where there is none.
    pub fn below(&mut self, limit: u64) -> u64
        ensures { result ≤ limit - 1 }
    {
        self.state = self
            .state
            .wrapping_mul(6_364_136_223_846_793_005)
            .wrapping_add(1_442_695_040_888_963_407);
        (self.state >> 32).checked_rem(limit).unwrap_or(0)
    }

    /// One of so many numbers, from 0.
    pub fn index(&mut self, count: usize) -> usize
        ensures { result ≤ count - 1 }
    {
        self.below(count as u64) as usize
    }

    /// Whether one in so many comes up.
    pub fn one_in(&mut self, count: u64) -> bool {
        self.below(count) == 0
    }
}
