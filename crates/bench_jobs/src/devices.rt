//! A sink that keeps a digest alone.
ghost use Rattle.std.specs.Prelude.{None};

use crate::generator::mixed;
use pcap_file::{CallCounts, DeviceFault, Sink};

/// Takes all bytes. Its digest depends on the stream of bytes, and not on how it is cut into writes.
#[derive(Clone, Copy, Debug)]
pub struct Digest {
    state: u64,
    partial: u64,
    bytes: u64,
    counts: CallCounts,
}

impl Digest {
    /// That of no bytes.
    pub fn new() -> Digest {
        Digest {
            state: 0,
            partial: 0,
            bytes: 0,
            counts: CallCounts::none(),
        }
    }

    /// The digest of all bytes so far.
    pub fn value(&self) -> u64 {
        let last = mixed(self.partial ^ mixed(self.bytes));
        mixed(self.state ^ last)
    }

    #[inline(always)]
    fn fold(&mut self, word: u64) {
        let word = (word ^ 0x5851_f42d_4c95_7f2d).wrapping_mul(0x9e37_79b9_7f4a_7c15);
        self.state = self.state.rotate_left(23).wrapping_add(word);
    }

    fn take_byte(&mut self, byte: u8) {
        self.partial = self.partial.wrapping_shl(8) | u64::from(byte);
        self.bytes = self.bytes.wrapping_add(1);
        if self.bytes % 8 == 0 {
            self.fold(self.partial);
            self.partial = 0;
        }
    }

    fn take_bytes(&mut self, bytes: &[u8]) {
        for byte in bytes {
            self.take_byte(*byte);
        }
    }

    #[inline(always)]
    fn take_words(&mut self, bytes: &[u8]) {
        let (words, rest) = bytes.as_chunks::<8>();
        for word in words {
            self.fold(u64::from_be_bytes(*word));
        }
        self.bytes = self
            .bytes
            .wrapping_add((words.len() as u64).wrapping_mul(8));
        if !rest.is_empty() {
            self.take_bytes(rest);
        }
    }

    // Bytes up to the end of the word that was begun, and then whole words.
    fn take_cut(&mut self, bytes: &[u8]) {
        let missing = (8 - self.bytes % 8) as usize;
        let (front, rest) = bytes.split_at(missing.min(bytes.len()));
        self.take_bytes(front);
        self.take_words(rest);
    }

    /// Takes some bytes.
    #[inline(always)]
    pub fn take(&mut self, bytes: &[u8]) {
        if self.bytes % 8 == 0 {
            self.take_words(bytes);
        } else {
            self.take_cut(bytes);
        }
    }
}

impl Sink for Digest {
    ghost use Rattle.pcap_file.specs.Host.{taped};

    ghost tape = { λ s. taped None s.counts };

    #[inline(always)]
    fn write(&mut self, buf: &[u8]) -> Result<usize, DeviceFault> {
        let mut counts = self.counts;
        counts.call();
        self.take(buf);
        self.counts = counts;
        Ok(buf.len())
    }
}
