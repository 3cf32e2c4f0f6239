//! Pseudorandom numbers, determined by the seed (splitmix64, by Steele, Lea and Flood).

/// The increment of the state for each number.
const STEP: u64 = 0x9e37_79b9_7f4a_7c15;

/// The first factor that mixes a state.
const FIRST: u64 = 0xbf58_476d_1ce4_e5b9;

/// The second factor that mixes a state.
const SECOND: u64 = 0x94d0_49bb_1331_11eb;

/// A generator of pseudorandom numbers.
#[derive(Drop)]
pub struct Draws {
    state: u64,
}

impl Draws {
    /// Returns the generator with this seed.
    pub fn new(seed: u64) -> Draws {
        Draws { state: seed }
    }

    /// Returns the next 64-bit number.
    pub fn number(&mut self) -> u64 {
        self.state = self.state.wrapping_add(STEP);
        let mixed = (self.state ^ (self.state >> 30)).wrapping_mul(FIRST);
        let mixed = (mixed ^ (mixed >> 27)).wrapping_mul(SECOND);
        mixed ^ (mixed >> 31)
    }

    /// Returns the next 32-bit number.
    pub fn word(&mut self) -> u32 {
        (self.number() >> 32) as u32
    }

    /// Returns a number below `limit`, or 0 if `limit` is 0.
    pub fn below(&mut self, limit: u32) -> u32 {
        let drawn = u64::from(self.word());
        (drawn.wrapping_mul(u64::from(limit)) >> 32) as u32
    }

    /// Returns the low byte of a number below `limit`, or 0 if `limit` is 0.
    pub fn byte(&mut self, limit: u32) -> u8 {
        (self.below(limit) & 0xff) as u8
    }

    /// Returns a number from `first` to `last`, both included.
    pub fn within(&mut self, first: u32, last: u32) -> u32 {
        first.saturating_add(self.below(last.saturating_sub(first).saturating_add(1)))
    }

    /// Returns a number below `limit`. Small numbers are more frequent.
    pub fn small(&mut self, limit: u32) -> u32 {
        let bound = self.below(limit).saturating_add(1);
        let bound = self.below(bound).saturating_add(1);
        self.below(bound)
    }

    /// Returns `true` once in `count` draws on average.
    pub fn one_in(&mut self, count: u32) -> bool {
        self.below(count) == 0
    }

    /// Returns one of the elements of `from`, or `other` if there are none.
    pub fn pick<T: Copy>(&mut self, from: &[T], other: T) -> T {
        let len = from.len().min(256) as u32;
        let index = self.below(len);
        from.get(index as usize).copied().unwrap_or(other)
    }
}
