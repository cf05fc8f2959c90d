//! A gate that takes the time.
use node_threads::Gate;
use stats_book::Stats;
use std::sync::atomic::{AtomicU64, Ordering};
use std::time::{Clock, Instant};

/// Takes the time when versions are prepared, and round each serving.
#[derive(Drop)]
pub struct Timed<'a, R> {
    clock: &'a R,
    start: Option<Instant>,
    // In nanoseconds from the start: when the first version was prepared, and the last.
    first: AtomicU64,
    last: AtomicU64,
    // The sums of the times at which servings began and ended, which may wrap.
    began: AtomicU64,
    ended: AtomicU64,
    served: AtomicU64,
}

impl<'a, R: Clock> Timed<'a, R> {
    /// A gate that was not called.
    pub fn new(clock: &'a R) -> Timed<'a, R> {
        Timed {
            clock,
            start: Instant::now(clock).ok(),
            first: AtomicU64::new(0),
            last: AtomicU64::new(0),
            began: AtomicU64::new(0),
            ended: AtomicU64::new(0),
            served: AtomicU64::new(0),
        }
    }

    // Nanoseconds since the start; 0 where the clock can't be read.
    fn now(&self) -> u64 {
        let Some(start) = self.start else {
            return 0;
        };
        match start.elapsed(self.clock) {
            Ok(time) => u64::try_from(time.as_nanos()).unwrap_or(0),
            Err(_) => 0,
        }
    }

    /// From the first version that was prepared to the last one.
    pub fn window(&self) -> u64 {
        let first = self.first.load(Ordering::SeqCst);
        self.last.load(Ordering::SeqCst).saturating_sub(first)
    }

    /// All that workers took to serve.
    pub fn busy(&self) -> u64 {
        let began = self.began.load(Ordering::SeqCst);
        self.ended.load(Ordering::SeqCst).wrapping_sub(began)
    }

    /// How many packets were served.
    pub fn served(&self) -> u64 {
        self.served.load(Ordering::SeqCst)
    }
}

impl<'a, R: Clock> Gate for Timed<'a, R> {
    fn preparing(&self, _node: u16, version: u32) {
        let now = self.now();
        if version == 1 {
            self.first.store(now, Ordering::SeqCst);
        }
        self.last.store(now, Ordering::SeqCst);
    }

    fn stopping(&self, _node: u16) {}

    fn before(&self, _node: u16, _worker: u16, _nth: u64) {
        self.began.fetch_add(self.now(), Ordering::SeqCst);
    }

    fn counted(&self, _node: u16, _worker: u16, _stats: Stats) {}

    fn after(&self, _node: u16, _worker: u16, _nth: u64) {
        self.ended.fetch_add(self.now(), Ordering::SeqCst);
        self.served.fetch_add(1, Ordering::SeqCst);
    }
}
