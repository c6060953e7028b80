//! Random numbers from a seed.

/// A generator of random numbers: SplitMix64.
#[derive(Drop)]
pub struct Random {
    state: u64,
}

impl Random {
    pub fn new(seed: u64) -> Self {
        Random { state: seed }
    }

    /// The next number.
    pub fn number(&mut self) -> u64 {
        self.state = self.state.wrapping_add(0x9e37_79b9_7f4a_7c15);
        let mixed = (self.state ^ (self.state >> 30)).wrapping_mul(0xbf58_476d_1ce4_e5b9);
        let mixed = (mixed ^ (mixed >> 27)).wrapping_mul(0x94d0_49bb_1331_11eb);
        mixed ^ (mixed >> 31)
    }

    /// A number below this one; 0 if there is none.
    pub fn below(&mut self, end: u32) -> u32 {
        ((self.number() >> 32).wrapping_mul(u64::from(end)) >> 32) as u32
    }

    /// Any byte.
    pub fn byte(&mut self) -> u8 {
        (self.number() >> 56) as u8
    }

    /// One of `count` numbers from the first on.
    pub fn from(&mut self, first: u32, count: u32) -> u32 {
        first.wrapping_add(self.below(count))
    }

    /// One of these numbers; 0 if there are none.
    pub fn one_of(&mut self, numbers: &[u32]) -> u32 {
        let count = u32::try_from(numbers.len()).unwrap_or(u32::MAX);
        let place = self.below(count) as usize;
        numbers.get(place).copied().unwrap_or(0)
    }
}
