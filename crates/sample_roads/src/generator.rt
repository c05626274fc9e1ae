//! The random numbers of a sample.
ghost use Rattle.std.specs.Prelude.{◌≡◌, ◌/◌, ◌%◌, ◌^◌, ◌<◌};
ghost use Rattle.spot_terms.specs.Samples.{next_state};

const FACTOR: u64 = 6_364_136_223_846_793_005;

const SUMMAND: u64 = 1_442_695_040_888_963_407;

/// A generator of random numbers, by its state.
#[derive(Drop)]
pub(crate) struct Generator {
    pub(crate) state: u64,
}

impl Generator {
    /// Begins with a seed.
    pub(crate) fn new(seed: u32) -> Generator
        ensures { result.state ≡ seed }
    {
        Generator {
            state: u64::from(seed),
        }
    }

    /// The next number below n, which isn't 0.
    pub(crate) fn draw(&mut self, n: u64) -> u64
        requires { 0 < n }
        ensures state { self.new.state ≡ next_state self.old.state }
        ensures drawn { result ≡ self.new.state / 2 ^ 33 % n }
    {
        self.state = self.state.wrapping_mul(FACTOR).wrapping_add(SUMMAND);
        (self.state >> 33) % n
    }
}
