//! Numbers that a seed chooses.

/// A generator of numbers.
#[derive(Drop)]
pub struct Seed {
    /// The state of the generator.
    pub state: u64,
}

impl Seed {
    /// A number below a limit; 0 where that is 0.
    pub fn below(&mut self, limit: u16) -> u16 {
        self.state = self
            .state
            .wrapping_mul(6_364_136_223_846_793_005)
            .wrapping_add(1_442_695_040_888_963_407);
        if limit == 0 {
            return 0;
        }
        ((self.state >> 33) % u64::from(limit)) as u16
    }

    /// Whether one in so many is met.
    pub fn is_one_of(&mut self, limit: u16) -> bool {
        self.below(limit) == 0
    }
}
