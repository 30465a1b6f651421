//! Numbers at random for tests, the same on each run.
#![tactic(auto)]

ghost use Rattle.std.specs.Prelude.{◌<◌};

/// A linear congruential generator.
#[derive(Drop)]
pub struct Random {
    state: u64,
}

impl Random {
    /// The numbers that follow this one.
    pub fn after(state: u64) -> Self {
        Random { state }
    }

    /// The next number, of 31 bits.
    fn step(&mut self) -> u64 {
        self.state = self
            .state
            .wrapping_mul(6_364_136_223_846_793_005)
            .wrapping_add(1_442_695_040_888_963_407);
        self.state >> 33
    }

    /// A number below `most`.
    pub fn draw(&mut self, most: u64) -> u64
        requires { 0 < most }
        ensures { result < most }
    {
        self.step() % most
    }

    /// The same of 32 bits.
    pub fn below(&mut self, most: u32) -> u32
        requires { 0 < most }
        ensures { result < most }
    {
        self.draw(u64::from(most)) as u32
    }

    /// Whether one chance of so many is drawn.
    pub fn hits(&mut self, chances: u64) -> bool
        requires { 0 < chances }
    {
        self.draw(chances) == 0
    }
}
