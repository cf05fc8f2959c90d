//! Captures that are made while they are read.
ghost use Rattle.std.specs.Prelude.{◌≤◌, ◌≡◌, None, length};

use crate::generator::{Generator, below, lower};
use crate::packets::{Ends, HEAD, RECORD, record_of};
use pcap_file::{CallCounts, DeviceFault, Source};

/// Which clients send.
#[derive(Clone, Copy, Debug)]
pub enum Law {
    /// Seven of ten packets are of few clients, by a law like Zipf's, and three are of any.
    Few,
    /// One of two packets is of a client that never came before, and one is of any of those that are known.
    Scan,
}

/// The packets of a capture. The first and the last are of client 0.
#[derive(Clone, Copy, Debug)]
pub struct Traffic {
    /// How many there are.
    pub packets: u32,
    /// Which clients send.
    pub law: Law,
    /// How many clients are known.
    pub clients: u32,
    /// To how many destinations.
    pub destinations: u32,
}

/// A capture of some traffic, as its bytes.
#[derive(Clone, Copy, Debug)]
pub struct MadeCapture {
    traffic: Traffic,
    generator: Generator,
    key: u32,
    start: u32,
    number: u32,
    room: [u8; RECORD],
    at: usize,
    counts: CallCounts,
    ghost within: { at ≤ 56 },
}

impl MadeCapture {
    /// The capture of some traffic that a seed gives, for one of its uses.
    pub fn new(seed: u32, purpose: u32, traffic: Traffic) -> MadeCapture {
        let mut generator = Generator::new(seed, purpose);
        let mut room = [0; RECORD];
        room[32..].copy_from_slice(&HEAD);
        MadeCapture {
            traffic,
            key: generator.number(),
            start: 1_700_000_000u32.wrapping_add(below(generator.bits(), 1_000_000)),
            generator,
            number: 0,
            room,
            at: 32,
            counts: CallCounts::none(),
        }
    }

    // A client by a law like Zipf's: a number of up to so many bits, where each count of bits is as likely.
    #[inline(always)]
    fn frequent(&self, bits: u64) -> u32 {
        let clients = self.traffic.clients.max(2);
        let most = 32u32.saturating_sub(clients.leading_zeros());
        let shift = 31u32.saturating_sub(below(bits >> 16, most.max(1)));
        lower(bits >> 32).wrapping_shr(shift) % clients
    }

    #[inline(always)]
    fn client(&mut self) -> u32 {
        let clients = self.traffic.clients.max(1);
        let bits = self.generator.bits();
        match self.traffic.law {
            Law::Few if bits & 0x3ff < 717 => self.frequent(bits),
            Law::Scan if bits & 1 == 0 => clients.wrapping_add(self.number),
            _ => below(bits >> 32, clients),
        }
    }

    // A destination: those of small numbers are more frequent.
    #[inline(always)]
    fn destination(&mut self) -> u32 {
        if self.traffic.destinations <= 1 {
            return 0;
        }
        let bits = self.generator.bits();
        let limit = below(bits, self.traffic.destinations).wrapping_add(1);
        below(bits >> 32, limit)
    }

    #[inline(always)]
    fn is_at_end(&self) -> bool {
        self.number == 0 || self.number == self.traffic.packets.wrapping_sub(1)
    }

    #[inline(always)]
    fn ends(&mut self) -> Ends {
        let (client, destination) = (self.client(), self.destination());
        if self.is_at_end() {
            return Ends::new(self.key, 0, 0);
        }
        Ends::new(self.key, client, destination)
    }

    // Makes the next packet, if there is one.
    #[inline(always)]
    fn advance(&mut self) {
        if self.number >= self.traffic.packets {
            return;
        }
        let ends = self.ends();
        let seconds = self.start.wrapping_add(self.number / 100_000);
        let micros = (self.number % 100_000).wrapping_mul(10);
        self.room = record_of(seconds, micros, ends);
        self.at = 0;
        self.number = self.number.wrapping_add(1);
    }

    #[inline(always)]
    fn give(&mut self, buf: &mut [u8]) -> usize
        ensures bound { result ≤ length buf.new }
        ensures counts { self.new.counts ≡ self.old.counts }
    {
        let left = &self.room[self.at..];
        let count = left.len().min(buf.len());
        buf[..count].copy_from_slice(&left[..count]);
        self.at += count;
        count
    }
}

impl Source for MadeCapture {
    ghost use Rattle.pcap_file.specs.Host.{taped};

    ghost tape = { λ s. taped None s.counts };

    #[inline(always)]
    fn read(&mut self, buf: &mut [u8]) -> Result<usize, DeviceFault> {
        let mut counts = self.counts;
        counts.call();
        if self.at >= RECORD {
            self.advance();
        }
        let count = self.give(buf);
        self.counts = counts;
        Ok(count)
    }
}
