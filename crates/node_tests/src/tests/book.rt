//! What a gate is shown of the counts while a run goes on.
use super::{counts, is, run, setup};
use connection_table::PlainTable;
use hash_laws::SumHash;
use node_threads::Gate;
use stats_book::Stats;
use std::sync::atomic::{AtomicU64, Ordering};
use thread_records::Command;

/// How often each call came, and what was not as it should be.
#[derive(Drop)]
struct Shown {
    counted: AtomicU64,
    after: AtomicU64,
    missed: AtomicU64,
}

impl Gate for Shown {
    fn preparing(&self, _node: u16, _version: u32) {}

    fn stopping(&self, _node: u16) {}

    fn before(&self, _node: u16, _worker: u16, _nth: u64) {}

    // The counts have this serving, and none after it.
    fn counted(&self, _node: u16, _worker: u16, stats: Stats) {
        let nth = self.counted.fetch_add(1, Ordering::SeqCst).wrapping_add(1);
        let came = nth <= stats.received && stats.received <= 3;
        let before = self.after.load(Ordering::SeqCst).wrapping_add(1) == nth;
        if stats.forwarded != nth || !came || !before {
            self.missed.store(1, Ordering::SeqCst);
        }
    }

    fn after(&self, _node: u16, _worker: u16, nth: u64) {
        self.after.store(nth.wrapping_add(1), Ordering::SeqCst);
    }
}

static THREE: [Command; 4] = [
    Command::Publish(1),
    Command::Offer(2),
    Command::Offer(2),
    Command::Offer(2),
];

// One worker serves three packets of one flow. After each the counts have moved by it, and its last call comes after that.
#[test]
fn the_counts_move_while_the_threads_run(rt: HostRuntime) {
    let setup = setup(&rt, rt.alloc(), SumHash, 1);
    let gate = Shown {
        counted: AtomicU64::new(0),
        after: AtomicU64::new(0),
        missed: AtomicU64::new(0),
    };
    let run = run::<PlainTable, _, _, _>(&rt, rt.alloc(), &setup, &THREE, 16, &gate);
    is(&rt, &gate.missed, 0, "missed");
    is(&rt, &gate.counted, 3, "counted");
    is(&rt, &gate.after, 3, "after");
    counts(&rt, &run.stats(), (3, 3, 0));
}
