//! The hash by a key.
ghost use Rattle.std.specs.Prelude.{◌≡◌, ◌<◌, ◌≤◌, length};
ghost use Rattle.std.specs.Hash.FoldHasher.{folded_multiply as folded};
ghost use Rattle.connection_table.specs.Hashing.{mixed, mixed_rest};

use byteorder::{ByteOrder, LittleEndian};
use std::hash::Hasher;

/// How many bytes are mixed in at once.
pub(crate) const PIECE: usize = 16;

/// What the hash is multiplied by at the end. It spreads what a few bits of the product differ in.
pub(crate) const MULTIPLIER: u64 = 0x9e37_79b9_7f4a_7c15;

/// The hash of what is written, begun by a key of two words. Of each piece of 16 bytes one half meets the one word of the key
/// and the other half the other, each by xor, and both are multiplied: see [`TableKey`](crate::TableKey).
#[derive(Clone, Copy)]
pub struct KeyedHasher {
    // What the second half of each piece meets.
    pub(crate) secret: u64,
    // What the first half of the next piece meets: the key's other word, and then the hash of the pieces so far.
    pub(crate) state: u64,
}

// The two halves of the product, joined by xor.
#[inline(always)]
fn folded_multiply(a: u64, b: u64) -> u64
    ensures { result ≡ folded a b }
{
    let product = a as u128 * b as u128;
    (product & 0xFFFF_FFFF_FFFF_FFFF) as u64 ^ (product >> 64) as u64
}

impl KeyedHasher {
    // Mixes the first piece in.
    #[inline(always)]
    fn mix(&mut self, bytes: &[u8])
        requires { PIECE ≤ length bytes.now }
        ensures { self.new ≡ mixed self.old bytes.now }
    {
        let first = LittleEndian::read_u64(bytes);
        let second = LittleEndian::read_u64(&bytes[8..]);
        self.state = folded_multiply(first ^ self.state, second ^ self.secret);
    }

    // Mixes the last bytes in, with zeros after them, and how many they are.
    #[inline(always)]
    fn mix_rest(&mut self, rest: &[u8])
        requires { length rest.now < PIECE }
        ensures { self.new ≡ mixed_rest self.old rest.now }
    {
        if rest.is_empty() {
            return;
        }
        let mut piece = [0; PIECE];
        piece[..rest.len()].copy_from_slice(rest);
        self.state ^= rest.len() as u64;
        self.mix(&piece);
    }
}

impl Hasher for KeyedHasher {
    ghost use Rattle.connection_table.specs.Hashing.{finished, written};

    ghost write = { written };

    ghost finish = { finished };

    #[inline(always)]
    fn finish(&self) -> u64 {
        self.state.wrapping_mul(MULTIPLIER)
    }

    #[inline(always)]
    fn write(&mut self, bytes: &[u8]) {
        let count = bytes.len() / PIECE;
        for number in 0..count {
            self.mix(&bytes[PIECE * number..]);
        }
        self.mix_rest(&bytes[PIECE * count..]);
    }
}
