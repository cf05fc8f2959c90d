//! A gate that gives the processor up at random.
use crate::dice::Dice;
use node_threads::Gate;
use stats_book::Stats;
use std::thread::yield_now;

/// Round each serving, before a version is prepared and where a node stops, it yields up to three times. How often depends
/// on its seed and on what is served or prepared.
#[derive(Drop)]
pub struct Jitter {
    pub seed: u64,
}

impl Jitter {
    fn pause(&self, node: u16, worker: u16, nth: u64) {
        let place = u64::from(node) * 65_537 + u64::from(worker);
        let seed = self.seed ^ nth.wrapping_mul(31) ^ place.wrapping_mul(65_537);
        for _ in 0..Dice::new(seed).below(4) {
            yield_now();
        }
    }
}

impl Gate for Jitter {
    fn preparing(&self, node: u16, version: u32) {
        self.pause(node, 65_535, u64::from(version));
    }

    fn stopping(&self, node: u16) {
        self.pause(node, 65_534, 0);
    }

    fn before(&self, node: u16, worker: u16, nth: u64) {
        self.pause(node, worker, nth);
    }

    fn counted(&self, node: u16, worker: u16, stats: Stats) {
        self.pause(node, worker, stats.forwarded);
    }

    fn after(&self, node: u16, worker: u16, nth: u64) {
        self.pause(node, worker, nth.wrapping_add(7));
    }
}
