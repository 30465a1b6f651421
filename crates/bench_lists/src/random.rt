//! Candidates at random, the same on each run.

ghost use Rattle.std.specs.Prelude.{◌≤◌, ◌<◌, ◌+◌, ◌*◌, ◌^◌, pos, ◌≤ℤ◌, ◌<ℤ◌};

/// How many candidates a list may have here.
pub const MOST: u32 = 1_000_000;

/// The most that the time of a list gains from one candidate to the next, but for what is drawn.
pub const MOST_GAIN: u64 = 1 << 18;

/// What was drawn so far.
#[derive(Drop)]
pub struct Random {
    state: u64,
}

/// The numbers of a candidate.
#[derive(Clone, Copy)]
pub struct Point {
    pub q: i128,
    pub c: u64,
}

/// The numbers of a candidate above others.
#[derive(Clone, Copy)]
pub struct Top {
    pub q: u64,
    pub c: u64,
}

impl Random {
    pub fn new() -> Self {
        Random { state: 1 }
    }

    /// A number below 2^31.
    fn draw(&mut self) -> u64
        ensures { result < 2 ^ 31 }
    {
        self.state = self
            .state
            .wrapping_mul(6_364_136_223_846_793_005)
            .wrapping_add(1_442_695_040_888_963_407);
        self.state >> 33
    }

    /// The candidate at this place of a list, in which q and c rise strictly.
    pub fn point(&mut self, at: u32) -> Point
        ensures from_q { pos (16384 * at) ≤ℤ result.q }
        ensures to_q { result.q <ℤ pos (16384 * at + 16384) }
        ensures from_c { 256 * at ≤ result.c }
        ensures to_c { result.c < 256 * at + 256 }
    {
        let bits = self.draw();
        let (step, noise) = (bits & 255, bits >> 8 & 4095);
        let at = u64::from(at);
        Point {
            q: i128::from(at * 16_384 + step * 48 + noise),
            c: at * 256 + step,
        }
    }

    /// The candidate after this one, where q and c rise strictly and q gains this much and some more.
    pub fn above(&mut self, top: Top, gain: u64) -> Top
        requires gain { gain ≤ 2 ^ 18 }
        requires early { top.q ≤ 2 ^ 40 }
        requires light { top.c ≤ 2 ^ 40 }
        ensures from_q { top.q < result.q }
        ensures to_q { result.q ≤ top.q + 2 ^ 19 }
        ensures from_c { top.c < result.c }
        ensures to_c { result.c ≤ top.c + 256 }
    {
        let bits = self.draw();
        Top {
            q: top.q + 1 + gain + (bits >> 8 & 1023),
            c: top.c + 128 + (bits & 127),
        }
    }
}
