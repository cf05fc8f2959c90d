//! A node that stops while a packet is served and others wait.
use super::{agrees, counts, forward, holds, is, packets, run, same_outcomes, sends, setup};
use cluster_node::Outcome;
use connection_table::{PlaceTable, PlainTable};
use hash_laws::SumHash;
use node_threads::{Gate, NodeRun};
use stats_book::Stats;
use std::process::Abort;
use std::sync::atomic::{AtomicU64, Ordering};
use std::thread;
use thread_records::Command;

// How often a call waits for another thread before it gives up.
const TURNS: u64 = 10_000_000;

/// How many servings were entered and how often the node was stopped, and what never came.
#[derive(Drop)]
struct Stopped {
    entered: AtomicU64,
    stopped: AtomicU64,
    missed: AtomicU64,
}

impl Stopped {
    fn new() -> Stopped {
        Stopped {
            entered: AtomicU64::new(0),
            stopped: AtomicU64::new(0),
            missed: AtomicU64::new(0),
        }
    }

    // Waits until the number isn't 0.
    fn wait(&self, number: &AtomicU64) {
        for _ in 0..TURNS {
            if number.load(Ordering::SeqCst) > 0 {
                return;
            }
            thread::yield_now();
        }
        self.missed.store(1, Ordering::SeqCst);
    }
}

// Version 2 is prepared once the first serving was entered, and that one goes on once the node stops.
impl Gate for Stopped {
    fn preparing(&self, _node: u16, version: u32) {
        if version == 2 {
            self.wait(&self.entered);
        }
    }

    fn stopping(&self, _node: u16) {
        self.stopped.fetch_add(1, Ordering::SeqCst);
    }

    fn before(&self, _node: u16, _worker: u16, _nth: u64) {
        if self.entered.fetch_add(1, Ordering::SeqCst) == 0 {
            self.wait(&self.stopped);
        }
    }

    fn counted(&self, _node: u16, _worker: u16, _stats: Stats) {}

    fn after(&self, _node: u16, _worker: u16, _nth: u64) {}
}

fn placed(floor: u32) -> Outcome {
    Outcome::Placed { worker: 0, floor }
}

// Packet 2 as worker 0 sends it where version 2 chose.
fn x_to_c(rt: &impl Abort) -> Outcome {
    forward(rt, 0, 2, 1006, 2, 2)
}

// Four packets came. In each life one was sent, where version 2 chose, and two were lost at the stop.
fn expect_two_lost(rt: &impl Abort, gate: &Stopped, run: &NodeRun) {
    is(rt, &gate.missed, 0, "missed");
    is(rt, &gate.stopped, 1, "stopped");
    is(rt, &gate.entered, 2, "entered");
    sends(rt, run, 2, &[x_to_c(rt)]);
    let stats = run.stats();
    counts(rt, &stats, (4, 2, 0));
    let dropped = [0, 0, 0, 0, 0, 0, 0, 0, 0, 0, 0, 0, 2];
    holds(rt, stats.dropped == dropped, "drops");
}

// Three packets are placed under version 1, and version 2 is published before the first of them looks at the board.
fn stopped_early(rt: &impl Abort) -> [Outcome; 9] {
    [
        Outcome::Installed,
        placed(1),
        placed(1),
        placed(1),
        Outcome::Installed,
        x_to_c(rt),
        Outcome::Restarted { lost: 2 },
        placed(2),
        x_to_c(rt),
    ]
}

static EARLY: [Command; 7] = [
    Command::Publish(1),
    Command::Offer(2),
    Command::Offer(2),
    Command::Offer(2),
    Command::Publish(2),
    Command::Stop,
    Command::Offer(2),
];

// Of three packets the first is held in its serving until the node stops. It is served, and the others are lost. The next
// life knows the newest version.
#[test]
fn a_stop_loses_what_was_not_taken(rt: HostRuntime) {
    let setup = setup(&rt, rt.alloc(), SumHash, 1);
    let gate = Stopped::new();
    let run = run::<PlainTable, _, _, _>(&rt, rt.alloc(), &setup, &EARLY, 16, &gate);
    expect_two_lost(&rt, &gate, &run);
    same_outcomes(&rt, run.outcomes(), &stopped_early(&rt));
    let agreed = agrees::<PlainTable>(&rt, rt.alloc(), &setup, &run, &packets());
    holds(&rt, agreed, "the audit");
}

// One packet is placed under version 1 and two under version 2.
fn stopped_full(rt: &impl Abort) -> [Outcome; 9] {
    [
        Outcome::Installed,
        placed(1),
        Outcome::Installed,
        placed(2),
        placed(2),
        x_to_c(rt),
        Outcome::Restarted { lost: 2 },
        placed(2),
        x_to_c(rt),
    ]
}

static FULL: [Command; 7] = [
    Command::Publish(1),
    Command::Offer(2),
    Command::Publish(2),
    Command::Offer(2),
    Command::Offer(2),
    Command::Stop,
    Command::Offer(2),
];

// While the first packet is served its worker's ring is filled, and then the node stops. The ring has no room for a mark,
// and takes none.
#[test]
fn a_full_ring_holds_no_stop_up(rt: HostRuntime) {
    let setup = setup(&rt, rt.alloc(), SumHash, 1);
    let gate = Stopped::new();
    let run = run::<PlaceTable, _, _, _>(&rt, rt.alloc(), &setup, &FULL, 2, &gate);
    expect_two_lost(&rt, &gate, &run);
    same_outcomes(&rt, run.outcomes(), &stopped_full(&rt));
}
