//! Numbers at random, which are the same for the same seed.

/// Numbers at random: each is the one before, three times shifted and added to itself without carry.
#[derive(Clone, Copy)]
pub struct Random {
    state: u64,
}

impl Random {
    pub fn new(seed: u64) -> Random {
        let state = seed.wrapping_mul(0x9e37_79b9_7f4a_7c15) | 1 << 63;
        Random { state }
    }

    /// A number below a bound, or 0.
    pub fn below(&mut self, bound: usize) -> usize {
        self.state ^= self.state << 13;
        self.state ^= self.state >> 7;
        self.state ^= self.state << 17;
        (self.state >> 33) as usize % bound.max(1)
    }

    /// One time in so many.
    pub fn is_one_in(&mut self, bound: usize) -> bool {
        self.below(bound) == 0
    }
}
