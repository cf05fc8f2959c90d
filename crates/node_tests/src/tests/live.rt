//! A version that is prepared and shown while the workers run.
use super::{forwarded, holds, is, run, sends, setup, x_to_a};
use connection_table::PlainTable;
use hash_laws::SumHash;
use node_threads::Gate;
use stats_book::Stats;
use std::sync::atomic::{AtomicU64, Ordering};
use std::thread;
use thread_records::Command;

// How often a call waits for another thread before it gives up.
const TURNS: u64 = 10_000_000;

/// How often each call came, and what never came.
#[derive(Drop)]
pub(super) struct Held {
    // The last version that the driver was about to prepare.
    prepared: AtomicU64,
    served: AtomicU64,
    pub(super) missed: AtomicU64,
    // The version before which the driver waits for the first serving, and the one for which that serving waits.
    waits: u32,
    awaits: u32,
}

impl Held {
    pub(super) fn new(waits: u32, awaits: u32) -> Held {
        Held {
            prepared: AtomicU64::new(0),
            served: AtomicU64::new(0),
            missed: AtomicU64::new(0),
            waits,
            awaits,
        }
    }

    // Waits until the number is there.
    fn wait(&self, number: &AtomicU64, least: u64) {
        for _ in 0..TURNS {
            if number.load(Ordering::SeqCst) >= least {
                return;
            }
            thread::yield_now();
        }
        self.missed.store(1, Ordering::SeqCst);
    }
}

impl Gate for Held {
    fn preparing(&self, _node: u16, version: u32) {
        self.prepared.store(u64::from(version), Ordering::SeqCst);
        if version == self.waits {
            self.wait(&self.served, 1);
        }
    }

    fn stopping(&self, _node: u16) {}

    fn before(&self, _node: u16, _worker: u16, _nth: u64) {}

    fn counted(&self, _node: u16, _worker: u16, _stats: Stats) {}

    fn after(&self, _node: u16, _worker: u16, nth: u64) {
        self.served.store(nth.wrapping_add(1), Ordering::SeqCst);
        if nth == 0 {
            self.wait(&self.prepared, u64::from(self.awaits));
        }
    }
}

static PREPARED: [Command; 4] = [
    Command::Publish(1),
    Command::Offer(2),
    Command::Publish(2),
    Command::Offer(2),
];

// The driver prepares version 2 only once the first packet was served, so that packet was served while version 2 wasn't
// prepared. The entry of x remains, and x goes where it went.
#[test]
fn a_version_is_prepared_while_workers_run(rt: HostRuntime) {
    let setup = setup(&rt, rt.alloc(), SumHash, 1);
    let gate = Held::new(2, 0);
    let run = run::<PlainTable, _, _, _>(&rt, rt.alloc(), &setup, &PREPARED, 1, &gate);
    is(&rt, &gate.missed, 0, "missed");
    is(&rt, &gate.prepared, 2, "prepared");
    sends(&rt, &run, 1, &[x_to_a(&rt), x_to_a(&rt)]);
}

static SHOWN: [Command; 6] = [
    Command::Publish(1),
    Command::Offer(2),
    Command::Publish(2),
    Command::Publish(3),
    Command::Publish(4),
    Command::Offer(2),
];

// A serving waits for the driver, which shows two more versions meanwhile: so the worker holds nothing that it reads while
// it waits.
#[test]
fn nothing_is_held_over_a_wait(rt: HostRuntime) {
    let setup = setup(&rt, rt.alloc(), SumHash, 1);
    let gate = Held::new(0, 4);
    let run = run::<PlainTable, _, _, _>(&rt, rt.alloc(), &setup, &SHOWN, 16, &gate);
    is(&rt, &gate.missed, 0, "missed");
    is(&rt, &gate.prepared, 4, "prepared");
    holds(&rt, forwarded(&run) == 2, "two were sent");
}

static NEWER: [Command; 5] = [
    Command::Publish(2),
    Command::Publish(1),
    Command::Publish(2),
    Command::Publish(77),
    Command::Offer(2),
];

// A version that is unknown or not newer is not prepared.
#[test]
fn only_newer_versions_are_prepared(rt: HostRuntime) {
    let setup = setup(&rt, rt.alloc(), SumHash, 1);
    let gate = Held::new(0, 0);
    let run = run::<PlainTable, _, _, _>(&rt, rt.alloc(), &setup, &NEWER, 16, &gate);
    is(&rt, &gate.missed, 0, "missed");
    is(&rt, &gate.prepared, 2, "prepared");
    holds(&rt, forwarded(&run) == 1, "one was sent");
}
