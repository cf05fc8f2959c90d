//! Drivers that wait at full rings: nothing is refused, and the run ends.
ghost use Rattle.std.specs.Prelude.{◌≡◌, ◌<◌, ◌≤◌, None, length};

use super::{Sums, catalogue, holds, packets, seven};
use cluster_core::Setup;
use cluster_node::{Event, Outcome};
use connection_table::{ConnTable, Entry, PlaceTable, PlainTable};
use five_tuple::Flow;
use hash_laws::SumHash;
use node_threads::{Gate, NodesRun, RingRules, RunFault, run_each};
use selection::Maglev;
use shared_versions::SharedVersions;
use stats_book::Stats;
use std::alloc::{AllocError, Global};
use std::process::Abort;
use std::sync::Wait;
use std::thread;
use std::thread::Threads;
use thread_records::{Command, LeanRecord};

/// A gate that holds each serving up, so that drivers come to full rings.
#[derive(Drop)]
struct Slow;

impl Gate for Slow {
    fn preparing(&self, _node: u16, _version: u32) {}

    fn stopping(&self, _node: u16) {}

    fn before(&self, _node: u16, _worker: u16, _nth: u64) {
        for _ in 0..300u64 {
            thread::yield_now();
        }
    }

    fn counted(&self, _node: u16, _worker: u16, _stats: Stats) {}

    fn after(&self, _node: u16, _worker: u16, _nth: u64) {}
}

// A cluster of three nodes of two workers.
fn cluster(rt: &impl Abort, alloc: Global) -> Setup<Sums, SumHash>
    ensures { length result.nodes ≡ 3 }
{
    let addresses = [0x0a09_0001, 0x0a09_0002, 0x0a09_0003];
    let nodes = Vec::from_slice(alloc, &addresses).expect(rt, "memory");
    let maglev = Maglev { hash: SumHash };
    Setup::new(SumHash, maglev, seven(rt), nodes, 2, 2, None).expect(rt, "a setup")
}

// Packets 0 and 2 are at home at worker 0, and packet 1 at worker 1.
static HOMES: [u16; 3] = [0, 1, 0];

// Three lives, of which the first ends with a restart and the second with a stop.
static LIVES: [Command; 19] = [
    Command::Publish(1),
    Command::Offer(0),
    Command::Offer(2),
    Command::Offer(0),
    Command::Offer(2),
    Command::Offer(1),
    Command::Restart,
    Command::Offer(1),
    Command::Offer(1),
    Command::Publish(2),
    Command::Offer(1),
    Command::Offer(0),
    Command::Stop,
    Command::Offer(0),
    Command::Offer(0),
    Command::Offer(1),
    Command::Publish(3),
    Command::Offer(2),
    Command::Offer(2),
];

// Four lives with rings of more places: in the first, the second and the last only one worker can get a packet, in the third none.
static LONE: [Command; 8] = [
    Command::Publish(1),
    Command::Offer(1),
    Command::Restart,
    Command::Offer(0),
    Command::Stop,
    Command::Restart,
    Command::Offer(1),
    Command::Offer(1),
];

fn list(rt: &impl Abort, alloc: Global, commands: &[Command]) -> Vec<Command> {
    Vec::from_slice(alloc, commands).expect(rt, "memory")
}

// A run of three nodes by these commands, with rings of so many places.
fn paced<T: ConnTable + Send, R: Abort + Threads + Wait + Sync>(
    rt: &R,
    alloc: Global,
    commands: &[Command],
    places: u32,
) -> Result<NodesRun, RunFault>
    requires some { 0 < places }
    requires limit { places ≤ 65536 }
{
    let setup = cluster(rt, alloc);
    let catalogue = catalogue(rt, alloc);
    let packets = packets();
    let lists = [
        list(rt, alloc, commands),
        list(rt, alloc, commands),
        list(rt, alloc, commands),
    ];
    let rings = RingRules {
        places,
        paced: true,
    };
    let prepared = SharedVersions::none(alloc);
    run_each::<_, _, T, _, _>(
        rt, alloc, &setup, &catalogue, &prepared, &packets, &lists, rings, &Slow,
    )
}

// An arrival marks nobody, and went to its home worker.
fn is_at_home(event: &Event, outcome: &Outcome) -> bool {
    match (event, outcome) {
        (
            Event::Arrive {
                packet,
                refused,
                ..
            },
            Outcome::Placed { worker, .. },
        ) => *refused == [false; 16] && HOMES.get(*packet as usize) == Some(worker),
        (Event::Arrive { .. }, _) => false,
        _ => true,
    }
}

fn all_at_home(node: &LeanRecord) -> bool {
    let outcomes = node.outcomes();
    node.events().iter().enumerate().all(|(place, event)| match outcomes.get(place) {
        Some(outcome) => is_at_home(event, &outcome),
        None => false,
    })
}

// Slow workers, rings of one place, restarts and stops: no driver waits for ever, each packet went to its home worker, and
// none was dropped but for those that a stop left.
#[test]
fn paced_drivers_wait_at_full_rings(rt: HostRuntime) {
    let run = match paced::<PlaceTable, _>(&rt, rt.alloc(), &LIVES, 1) {
        Ok(run) => run,
        Err(fault) => panic!(&rt; "{fault:?}"),
    };
    holds(&rt, run.nodes.len() == 3, "nodes");
    for node in run.nodes.iter() {
        holds(&rt, all_at_home(node), "at home");
        holds(&rt, node.sent().len() == 3, "lives");
    }
    let stats = run.stats;
    let lost = stats.dropped[12];
    let dropped = [0, 0, 0, 0, 0, 0, 0, 0, 0, 0, 0, 0, lost];
    holds(&rt, stats.dropped == dropped, "drops");
    assert_eq!(rt; (stats.received, stats.waiting), (42, 0));
    assert_eq!(rt; stats.forwarded.checked_add(lost), Some(42));
}

// How many packets a life sent.
fn sent_in(node: &LeanRecord, life: usize) -> usize {
    match node.sent().get(life) {
        Some(sent) => sent.len(),
        None => 0,
    }
}

// Lives in which one worker alone can get a packet, or none can. That one gets all of them, though the other has no ring, and only
// a stop loses one.
#[test]
fn paced_drivers_reach_a_lone_worker(rt: HostRuntime) {
    let run = match paced::<PlaceTable, _>(&rt, rt.alloc(), &LONE, 8) {
        Ok(run) => run,
        Err(fault) => panic!(&rt; "{fault:?}"),
    };
    for node in run.nodes.iter() {
        holds(&rt, all_at_home(node), "at home");
        holds(&rt, node.sent().len() == 4, "lives");
        assert_eq!(rt;
            (sent_in(node, 0), sent_in(node, 2), sent_in(node, 3)),
            (1, 0, 2)
        );
    }
    let stats = run.stats;
    let lost = stats.dropped[12];
    holds(&rt, lost <= 3, "lost at the stops");
    assert_eq!(rt; stats.received, 12);
    assert_eq!(rt; stats.forwarded.checked_add(lost), Some(12));
}

/// A table that no worker gets, since memory for it is refused.
#[derive(Drop)]
struct RefusedTable {
    kept: PlainTable,
}

impl ConnTable for RefusedTable {
    ghost capacity = { λ t. t.kept.limit };

    ghost entries = { λ t. t.kept.pairs };

    ghost hashes_by = { λ _. None };

    fn make(_alloc: Global, _limit: u32) -> Result<RefusedTable, AllocError> {
        Err(AllocError)
    }

    fn peek(&self, flow: &Flow) -> Option<Entry> {
        self.kept.peek(flow)
    }

    fn store(&mut self, flow: Flow, entry: Entry) -> Result<(), AllocError> {
        self.kept.store(flow, entry)
    }

    fn clear(&mut self) {
        self.kept.clear();
    }

    fn len(&self) -> usize {
        self.kept.len()
    }
}

// Workers that are refused memory at once go on taking, so no driver waits for ever at their rings.
#[test]
fn no_driver_waits_for_a_worker_that_failed(rt: HostRuntime) {
    let fault = paced::<RefusedTable, _>(&rt, rt.alloc(), &LIVES, 1).err();
    holds(&rt, fault == Some(RunFault::Memory), "memory");
}
