//! One node of a cluster that stops while a packet is served and others wait, and what its neighbour does meanwhile.

use super::stop::catalogue;
use super::{cluster, flow, is_audited, list, packet};
use crate::checks::{holds, same_outcomes};
use backend_names::Name;
use cluster_core::Setup;
use cluster_node::Outcome;
use connection_table::PlainTable;
use hash_laws::SumHash;
use node_threads::{ClusterRun, Gate, run_cluster};
use pool_versions::Backend;
use selection::Maglev;
use stats_book::Stats;
use std::alloc::Global;
use std::process::Abort;
use std::sync::atomic::{AtomicU64, Ordering};
use std::thread;
use thread_records::Command;

// How often a call waits for another thread before it gives up.
const TURNS: u64 = 10_000_000;

/// The node that stops, how many of its servings were entered, how often it was stopped, and what never came.
#[derive(Drop)]
struct Stopped {
    node: u16,
    entered: AtomicU64,
    stopped: AtomicU64,
    missed: AtomicU64,
}

impl Stopped {
    fn new(node: u16) -> Stopped {
        Stopped {
            node,
            entered: AtomicU64::new(0),
            stopped: AtomicU64::new(0),
            missed: AtomicU64::new(0),
        }
    }

    // Waits until the number isn't 0.
    fn wait(&self, number: &AtomicU64) {
        for _ in 0..TURNS {
            if number.load(Ordering::SeqCst) > 0 {
                return;
            }
            thread::yield_now();
        }
        self.missed.store(1, Ordering::SeqCst);
    }
}

// On that node version 2 is prepared once the first serving was entered, and that one goes on once the node stops.
impl Gate for Stopped {
    fn preparing(&self, node: u16, version: u32) {
        if node == self.node && version == 2 {
            self.wait(&self.entered);
        }
    }

    // No other node is stopped.
    fn stopping(&self, node: u16) {
        if node == self.node {
            self.stopped.fetch_add(1, Ordering::SeqCst);
        } else {
            self.missed.store(1, Ordering::SeqCst);
        }
    }

    fn before(&self, node: u16, _worker: u16, _nth: u64) {
        if node == self.node && self.entered.fetch_add(1, Ordering::SeqCst) == 0 {
            self.wait(&self.stopped);
        }
    }

    fn counted(&self, _node: u16, _worker: u16, _stats: Stats) {}

    fn after(&self, _node: u16, _worker: u16, _nth: u64) {}
}

static STOPS: [Command; 7] = [
    Command::Publish(1),
    Command::Offer(0),
    Command::Offer(0),
    Command::Offer(0),
    Command::Publish(2),
    Command::Stop,
    Command::Offer(0),
];

static GOES_ON: [Command; 3] = [Command::Publish(1), Command::Offer(0), Command::Offer(0)];

// The lists of two nodes, of which this one stops.
fn lists(rt: &impl Abort, alloc: Global, node: u16) -> [Vec<Command>; 2] {
    if node == 0 {
        [list(rt, alloc, &STOPS), list(rt, alloc, &GOES_ON)]
    } else {
        [list(rt, alloc, &GOES_ON), list(rt, alloc, &STOPS)]
    }
}

fn placed(floor: u32) -> Outcome {
    Outcome::Placed { worker: 0, floor }
}

// The packet as a node sends it: to A under version 1, and to C under version 2.
fn sent(rt: &impl Abort, node: u16, name: u8, origin: u32) -> Outcome {
    Outcome::Forward {
        node,
        worker: 0,
        packet: 0,
        flow: flow(1006),
        backend: Backend {
            name: Name::new(&[name]).expect(rt, "a name"),
            addr: if name == b'A' {
                0x0a08_0001
            } else {
                0x0a08_0003
            },
        },
        origin,
    }
}

// Three packets are placed under version 1, and version 2 is published before the first of them looks at the board. Of them
// one is sent and two are lost; the next life knows the newest version.
fn outcomes_of_a_stop(rt: &impl Abort, node: u16) -> [Outcome; 9] {
    [
        Outcome::Installed,
        placed(1),
        placed(1),
        placed(1),
        Outcome::Installed,
        sent(rt, node, b'C', 2),
        Outcome::Restarted { lost: 2 },
        placed(2),
        sent(rt, node, b'C', 2),
    ]
}

fn went_on(rt: &impl Abort, node: u16) -> [Outcome; 5] {
    [
        Outcome::Installed,
        placed(1),
        placed(1),
        sent(rt, node, b'A', 1),
        sent(rt, node, b'A', 1),
    ]
}

// What each node came to, by its record.
fn is_stopped(rt: &impl Abort, run: &ClusterRun, node: u16) {
    assert!(rt; run.nodes.len() == 2);
    for (at, record) in run.nodes.iter().enumerate() {
        if at == usize::from(node) {
            same_outcomes(
                rt,
                record.outcomes.as_slice(),
                &outcomes_of_a_stop(rt, node),
            );
        } else {
            same_outcomes(
                rt,
                record.outcomes.as_slice(),
                &went_on(rt, 1 - node.min(1)),
            );
        }
    }
}

// Four packets came to the node that stops, of which two were lost, and two to the other.
fn is_counted(rt: &impl Abort, run: &ClusterRun) {
    let stats = run.stats();
    let numbers = (stats.received, stats.forwarded, stats.waiting);
    holds(rt, numbers == (6, 4, 0), "the counts");
    let dropped = [0, 0, 0, 0, 0, 0, 0, 0, 0, 0, 0, 0, 2];
    holds(rt, stats.dropped == dropped, "the drops");
}

fn came(rt: &impl Abort, gate: &Stopped) {
    let counts = (
        gate.missed.load(Ordering::SeqCst),
        gate.stopped.load(Ordering::SeqCst),
        gate.entered.load(Ordering::SeqCst),
    );
    holds(rt, counts == (0, 1, 2), "the calls");
}

// Whichever of two nodes stops, what it hadn't taken is lost, and its neighbour goes on.
#[test]
fn a_stop_of_either_node(rt: HostRuntime) {
    let alloc: Global = rt.alloc();
    let setup: Setup<Maglev<SumHash>, SumHash> = cluster(
        &rt,
        alloc,
        &[0x0a09_0001, 0x0a09_0002],
        1,
    );
    let catalogue = catalogue(&rt, alloc);
    let packets = [packet(1006)];
    for node in [0u16, 1] {
        let gate = Stopped::new(node);
        let lists = lists(&rt, alloc, node);
        let run = run_cluster::<_, _, PlainTable, _, _>(
            &rt, alloc, &setup, &catalogue, &packets, &lists, 16, &gate,
        ).expect(&rt, "a run");
        came(&rt, &gate);
        is_stopped(&rt, &run, node);
        is_counted(&rt, &run);
        let agrees = is_audited(&rt, alloc, &setup, &catalogue, &run, &packets);
        holds(&rt, agrees, "the audit");
    }
}
