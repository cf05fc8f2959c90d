//! What a gate is called with, on each node and by each worker.

use super::stop::{catalogue, packets};
use super::{cluster, list};
use crate::checks::holds;
use cluster_node::Event;
use connection_table::PlaceTable;
use node_threads::{Gate, run_cluster};
use stats_book::Stats;
use std::alloc::Global;
use std::process::Abort;
use std::sync::atomic::{AtomicU64, Ordering};
use std::sync::{Mutex, Wait};
use thread_records::Command;

/// Which method of a gate was called, with a version or the number of a serving.
#[derive(Clone, Copy, Debug, PartialEq, Eq)]
enum Method {
    Preparing(u32),
    Stopping,
    Before(u64),
    Counted,
    After(u64),
}

/// A call of a gate: by a node's driver, or by one of its workers.
#[derive(Clone, Copy, Debug, PartialEq, Eq)]
struct Call {
    node: u16,
    worker: Option<u16>,
    method: Method,
}

/// Writes each call down, and the counts that it was shown, with the node whose they are.
#[derive(Drop)]
struct Recorder<'r, R: Wait> {
    rt: &'r R,
    calls: Mutex<Vec<Call>>,
    shown: Mutex<Vec<(u16, Stats)>>,
    // What there was no memory for.
    missed: AtomicU64,
}

impl<R: Wait> Recorder<'_, R> {
    fn write(&self, node: u16, worker: Option<u16>, method: Method) {
        let mut calls = self.calls.lock(self.rt);
        let call = Call {
            node,
            worker,
            method,
        };
        if calls.push(call).is_err() {
            self.missed.store(1, Ordering::SeqCst);
        }
    }
}

impl<R: Wait> Gate for Recorder<'_, R> {
    fn preparing(&self, node: u16, version: u32) {
        self.write(node, None, Method::Preparing(version));
    }

    fn stopping(&self, node: u16) {
        self.write(node, None, Method::Stopping);
    }

    fn before(&self, node: u16, worker: u16, nth: u64) {
        self.write(node, Some(worker), Method::Before(nth));
    }

    fn counted(&self, node: u16, worker: u16, stats: Stats) {
        self.write(node, Some(worker), Method::Counted);
        let mut shown = self.shown.lock(self.rt);
        if shown.push((node, stats)).is_err() {
            self.missed.store(1, Ordering::SeqCst);
        }
    }

    fn after(&self, node: u16, worker: u16, nth: u64) {
        self.write(node, Some(worker), Method::After(nth));
    }
}

// What one thread called.
fn called(
    rt: &impl Abort,
    alloc: Global,
    calls: &[Call],
    node: u16,
    worker: Option<u16>,
) -> Vec<Method> {
    let mut found = Vec::new(alloc);
    for call in calls {
        if call.node == node && call.worker == worker {
            found.push(call.method).expect(rt, "memory");
        }
    }
    found
}

// What a driver is to call: each version here is newer than those before it.
fn driven(rt: &impl Abort, alloc: Global, commands: &[Command]) -> Vec<Method> {
    let mut wanted = Vec::new(alloc);
    for command in commands {
        match *command {
            Command::Publish(version) => wanted
                .push(Method::Preparing(version))
                .expect(rt, "memory"),
            Command::Stop => wanted.push(Method::Stopping).expect(rt, "memory"),
            _ => (),
        }
    }
    wanted
}

fn add_serving(rt: &impl Abort, wanted: &mut Vec<Method>, nth: u64) {
    for method in [Method::Before(nth), Method::Counted, Method::After(nth)] {
        wanted.push(method).expect(rt, "memory");
    }
}

// What a worker is to call by the history, where its servings are counted from 0 in each life of its node.
fn served(
    rt: &impl Abort,
    alloc: Global,
    events: &[Event],
    of_node: u16,
    of_worker: u16,
) -> Vec<Method> {
    let mut wanted = Vec::new(alloc);
    let mut nth = 0u64;
    for event in events {
        match *event {
            Event::Restart { node } if node == of_node => nth = 0,
            Event::Serve { node, worker, .. } if (node, worker) == (of_node, of_worker) => {
                add_serving(rt, &mut wanted, nth);
                nth = nth.wrapping_add(1);
            }
            _ => (),
        }
    }
    wanted
}

fn same_methods(
    rt: &impl Abort,
    found: &[Method],
    wanted: &[Method],
    node: u16,
    worker: Option<u16>,
) {
    assert_eq!(rt; found, wanted, "node {node} worker {worker:?}");
}

// What node 1's second worker is to call: two servings in its first life, and one in the next.
static SECOND_OF_SECOND: [Method; 9] = [
    Method::Before(0),
    Method::Counted,
    Method::After(0),
    Method::Before(1),
    Method::Counted,
    Method::After(1),
    Method::Before(0),
    Method::Counted,
    Method::After(0),
];

// Each driver and each worker called what it is to call, in that order.
fn are_called(
    rt: &impl Abort,
    alloc: Global,
    calls: &[Call],
    lists: &[Vec<Command>],
    events: &[Event],
) {
    for (node, commands) in (0u16..).zip(lists) {
        let found = called(rt, alloc, calls, node, None);
        let wanted = driven(rt, alloc, commands.as_slice());
        same_methods(rt, found.as_slice(), wanted.as_slice(), node, None);
        for worker in 0..2u16 {
            let found = called(rt, alloc, calls, node, Some(worker));
            let wanted = served(rt, alloc, events, node, worker);
            same_methods(rt, found.as_slice(), wanted.as_slice(), node, Some(worker));
        }
    }
    let found = called(rt, alloc, calls, 1, Some(1));
    same_methods(rt, found.as_slice(), &SECOND_OF_SECOND, 1, Some(1));
}

// How often a node's counts with so many forwarded were shown.
fn times_shown(shown: &[(u16, Stats)], of_node: u16, forwarded: u64) -> usize {
    shown
        .iter()
        .filter(|(node, stats)| *node == of_node && stats.forwarded == forwarded)
        .count()
}

// Each serving of a node was shown the counts of its node with itself: from one forwarded packet to all of them, each once. The
// answer is how many there were.
fn are_shown_of(rt: &impl Abort, shown: &[(u16, Stats)], node: u16) -> u64 {
    let all = shown.iter().filter(|one| one.0 == node).count() as u64;
    for forwarded in 0..all {
        let times = times_shown(shown, node, forwarded.wrapping_add(1));
        holds(rt, times == 1, "each count once");
    }
    all
}

// So were those of all nodes, which come to the counts of the run. Each shows counts of one moment, which add up.
fn are_shown(rt: &impl Abort, shown: &[(u16, Stats)], last: &Stats) {
    let mut all = 0u64;
    for node in 0..3u16 {
        all = all.wrapping_add(are_shown_of(rt, shown, node));
    }
    holds(rt, all == last.forwarded, "a count each");
    holds(rt, shown.len() as u64 == all, "no other count");
    for (_, stats) in shown {
        let lost = stats.dropped[12];
        let left = stats
            .received
            .wrapping_sub(stats.forwarded)
            .wrapping_sub(lost);
        let is_whole = left == stats.waiting && stats.received <= last.received;
        holds(rt, is_whole, "counts of one moment");
    }
}

// Three nodes of two workers: the first goes on, the second restarts, and the third stops. The flows are at home at worker 0
// and worker 1 in turn.
static LISTS: [&[Command]; 3] = [
    &[
        Command::Publish(1),
        Command::Offer(0),
        Command::Offer(1),
        Command::Publish(2),
        Command::Offer(2),
        Command::Offer(3),
    ],
    &[
        Command::Publish(2),
        Command::Offer(0),
        Command::Offer(1),
        Command::Offer(2),
        Command::Offer(3),
        Command::Restart,
        Command::Offer(4),
        Command::Offer(5),
    ],
    &[
        Command::Publish(1),
        Command::Offer(0),
        Command::Offer(1),
        Command::Publish(2),
        Command::Offer(2),
        Command::Offer(3),
        Command::Stop,
        Command::Offer(4),
        Command::Offer(5),
    ],
];

// Each call names the node, the worker and the serving that it is of.
#[test]
fn a_gate_is_told_who_calls(rt: HostRuntime) {
    let alloc: Global = rt.alloc();
    let nodes = [0x0a09_0001, 0x0a09_0002, 0x0a09_0003];
    let setup = cluster(&rt, alloc, &nodes, 2);
    let catalogue = catalogue(&rt, alloc);
    let packets = packets();
    let lists = [
        list(&rt, alloc, LISTS[0]),
        list(&rt, alloc, LISTS[1]),
        list(&rt, alloc, LISTS[2]),
    ];
    let gate = Recorder {
        rt: &rt,
        calls: Mutex::new(Vec::new(alloc)),
        shown: Mutex::new(Vec::new(alloc)),
        missed: AtomicU64::new(0),
    };
    let run = run_cluster::<_, _, PlaceTable, _, _>(
        &rt, alloc, &setup, &catalogue, &packets, &lists, 16, &gate,
    ).expect(&rt, "a run");
    holds(&rt, gate.missed.load(Ordering::SeqCst) == 0, "memory");
    let calls = gate.calls.lock(&rt);
    are_called(&rt, alloc, calls.as_slice(), &lists, run.history());
    let shown = gate.shown.lock(&rt);
    are_shown(&rt, shown.as_slice(), &run.stats());
}
