//! Numbers from a seed.

/// Gives numbers, the same ones for the same seed (SplitMix64).
#[derive(Clone, Copy, Debug)]
pub struct Generator {
    state: u64,
}

/// The bits of a number, mixed: distinct numbers give distinct ones.
pub fn mixed(number: u64) -> u64 {
    let bits = (number ^ (number >> 30)).wrapping_mul(0xbf58_476d_1ce4_e5b9);
    let bits = (bits ^ (bits >> 27)).wrapping_mul(0x94d0_49bb_1331_11eb);
    bits ^ (bits >> 31)
}

/// The lower half of a number's bits.
pub fn lower(bits: u64) -> u32 {
    (bits & 0xffff_ffff) as u32
}

impl Generator {
    /// The generator of a seed, for one of its uses.
    pub fn new(seed: u32, purpose: u32) -> Generator {
        Generator {
            state: mixed(u64::from(seed).wrapping_mul(1_000_003)).wrapping_add(u64::from(purpose)),
        }
    }

    /// The next 64 bits.
    #[inline(always)]
    pub fn bits(&mut self) -> u64 {
        self.state = self.state.wrapping_add(0x9e37_79b9_7f4a_7c15);
        mixed(self.state)
    }

    /// The next number.
    pub fn number(&mut self) -> u32 {
        lower(self.bits())
    }
}

/// A number below a limit, from the lower half of some bits: each about as often. 0 where the limit is 0.
#[inline(always)]
pub fn below(bits: u64, limit: u32) -> u32 {
    lower((bits & 0xffff_ffff).wrapping_mul(u64::from(limit)) >> 32)
}
