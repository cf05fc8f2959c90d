//! Numbers from a seed.
ghost use Rattle.std.specs.Prelude.{◌<◌};

use rand_core::{Rng, SeedableRng};
use rand_xoshiro::SplitMix64;

/// Throws numbers, the same ones for the same seed.
#[derive(Drop)]
pub struct Dice {
    random: SplitMix64,
}

impl Dice {
    /// The dice of a seed.
    pub fn new(seed: u64) -> Dice {
        Dice {
            random: SplitMix64::seed_from_u64(seed),
        }
    }

    /// A number below a limit.
    pub fn below(&mut self, limit: u32) -> u32
        requires { 0 < limit }
        ensures { result < limit }
    {
        (self.random.next_u64() % u64::from(limit)) as u32
    }

    /// A throw that succeeds once in so many times.
    pub fn once_in(&mut self, times: u32) -> bool
        requires { 0 < times }
    {
        self.below(times) == 0
    }
}
