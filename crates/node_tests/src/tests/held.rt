//! A driver that is held up before it steers a packet, so that the schedule is known.
ghost use Rattle.std.specs.Prelude.{true, refl, nat_eq};
ghost use Rattle.std.proofs.Common.{rules};
ghost use Rattle.std.specs.Cmp.Rules.{comparing};
ghost use Rattle.std.specs.Ordering.{on};

use super::{forward, holds, is, placed, run, sends, setup, x_to_a};
use cluster_node::Outcome;
use connection_table::PlaceTable;
use hash_laws::FlowHash;
use node_threads::Gate;
use stats_book::Stats;
use std::process::Abort;
use std::sync::atomic::{AtomicU64, Ordering};
use std::thread;
use thread_records::Command;

/// How many packets the driver steered, how often the gate was called before and after a serving, and what was missed.
#[derive(Drop)]
struct Counts {
    steered: AtomicU64,
    before: AtomicU64,
    after: AtomicU64,
    missed: AtomicU64,
}

impl Gate for Counts {
    fn preparing(&self, _node: u16, _version: u32) {}

    fn stopping(&self, _node: u16) {}

    fn before(&self, _node: u16, _worker: u16, nth: u64) {
        if self.before.fetch_add(1, Ordering::SeqCst) != nth {
            self.missed.store(1, Ordering::SeqCst);
        }
    }

    fn counted(&self, _node: u16, _worker: u16, _stats: Stats) {}

    fn after(&self, _node: u16, _worker: u16, nth: u64) {
        if self.after.fetch_add(1, Ordering::SeqCst) != nth {
            self.missed.store(1, Ordering::SeqCst);
        }
    }
}

// A hash by which every flow is at home at worker 0. A driver of several workers asks it once for each packet that it steers,
// and it answers once all packets before it were served.
#[derive(Clone, Copy)]
struct Holding<'a> {
    counts: &'a Counts,
}

impl PartialEq for Holding<'_> {
    ghost eq = { on (λ _. 0) nat_eq };

    ghost laws = { Prim.search (comparing, rules) };

    fn eq(&self, _other: &Self) -> bool {
        true
    }
}

impl Eq for Holding<'_> {
    ghost laws = { Prim.search (comparing, rules) };
}

impl FlowHash for Holding<'_> {
    ghost plain = { λ _ _. 0 };

    ghost equal_values_hash_alike = { λ x y e message. refl };

    fn hash(&self, _tag: u8, _bytes: &[u8]) -> u64 {
        let steered = self.counts.steered.fetch_add(1, Ordering::SeqCst);
        for _ in 0..10_000_000u64 {
            if self.counts.after.load(Ordering::SeqCst) >= steered {
                return 0;
            }
            thread::yield_now();
        }
        self.counts.missed.store(1, Ordering::SeqCst);
        0
    }
}

// Three times x under the entry of version 1, and z under version 2.
fn sent(rt: &impl Abort) -> [Outcome; 4] {
    let z = forward(rt, 0, 1, 1001, 0, 2);
    [x_to_a(rt), x_to_a(rt), x_to_a(rt), z]
}

static COMMANDS: [Command; 6] = [
    Command::Publish(1),
    Command::Offer(2),
    Command::Offer(2),
    Command::Publish(2),
    Command::Offer(2),
    Command::Offer(1),
];

// A ring of one place takes a packet again once the one before it was taken out. The gate is called round each serving,
// and a worker looks anew for each packet.
#[test]
fn a_full_ring_takes_again(rt: HostRuntime) {
    let counts = Counts {
        steered: AtomicU64::new(0),
        before: AtomicU64::new(0),
        after: AtomicU64::new(0),
        missed: AtomicU64::new(0),
    };
    let setup = setup(&rt, rt.alloc(), Holding { counts: &counts }, 2);
    let run = run::<PlaceTable, _, _, _>(&rt, rt.alloc(), &setup, &COMMANDS, 1, &counts);
    is(&rt, &counts.missed, 0, "missed");
    is(&rt, &counts.before, 4, "before");
    is(&rt, &counts.after, 4, "after");
    holds(&rt, placed(&run) == 4, "placed");
    sends(&rt, &run, 1, &sent(&rt));
}
