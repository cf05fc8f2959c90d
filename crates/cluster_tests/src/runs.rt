//! Runs of two nodes, and of two workers, at once.
ghost use Rattle.std.specs.Prelude.{◌≡◌, ℕ, Some, length, slice_get};
ghost use Rattle.cluster_node.specs.declared.packets.Packet.{Packet};
ghost use Rattle.cluster_node.specs.Records.{WasRead};

use crate::checks::{holds, same_outcomes};
use backend_names::{Name, TableSize, Weight};
use cluster_core::Setup;
use cluster_node::{Outcome, Packet};
use connection_table::PlainTable;
use five_tuple::Flow;
use hash_laws::SumHash;
use node_threads::{ClusterRun, Gate, run_cluster};
use pool_versions::{Backend, Catalogue, Member, Service, Version};
use selection::Maglev;
use stats_book::Stats;
use std::alloc::Global;
use std::process::Abort;
use std::sync::atomic::{AtomicU64, Ordering};
use std::thread;
use std::thread::Threads;
use thread_records::Command;

mod gates;
mod held;
mod shared;
mod stop;

const VIP: u32 = 0xc000_0201;

// The flow from a port to the service.
fn flow(sport: u16) -> Flow {
    Flow {
        src: 0x0a00_0001,
        dst: VIP,
        sport,
        dport: 80,
        proto: 6,
    }
}

fn backend(rt: &impl Abort) -> Backend {
    Backend {
        name: Name::new(b"A").expect(rt, "a name"),
        addr: 0x0a08_0001,
    }
}

// Version 1 has one service of one backend.
fn catalogue(rt: &impl Abort, alloc: Global) -> Catalogue
    ensures { result.size ≡ 7 }
{
    let size = TableSize::new(7).expect(rt, "a size");
    let member = Member {
        backend: backend(rt),
        up: true,
        draining: false,
        weight: Weight::one(),
    };
    let mut services = Vec::new(alloc);
    services
        .push(Service {
            vip: VIP,
            proto: 6,
            port: 80,
            members: Vec::from_slice(alloc, &[member]).expect(rt, "memory"),
        })
        .expect(rt, "memory");
    let mut all = Catalogue::new(alloc, size);
    let version = Version {
        number: 1,
        services,
    };
    all.add(version).expect(rt, "a version");
    all
}

// A cluster of these nodes, each of so many workers.
fn cluster(
    rt: &impl Abort,
    alloc: Global,
    nodes: &[u32],
    workers: u16,
) -> Setup<Maglev<SumHash>, SumHash>
    ensures nodes { length result.nodes ≡ length nodes.now }
    ensures size { result.size ≡ 7 }
{
    let nodes = Vec::from_slice(alloc, nodes).expect(rt, "memory");
    let size = TableSize::new(7).expect(rt, "a size");
    Setup::new(
        SumHash,
        Maglev { hash: SumHash },
        size,
        nodes,
        workers,
        2,
        None,
    )
    .expect(rt, "a setup")
}

// Of two workers, of one node or of two, each waits in its first call for the other.
#[derive(Drop)]
struct Meet {
    came: [AtomicU64; 2],
    missed: AtomicU64,
}

impl Meet {
    fn new() -> Meet {
        Meet {
            came: [AtomicU64::new(0), AtomicU64::new(0)],
            missed: AtomicU64::new(0),
        }
    }
}

impl Gate for Meet {
    fn preparing(&self, _node: u16, _version: u32) {}

    fn stopping(&self, _node: u16) {}

    fn before(&self, node: u16, worker: u16, nth: u64) {
        let me = usize::from(node | worker);
        if nth > 0 || me > 1 {
            return;
        }
        self.came[me].store(1, Ordering::SeqCst);
        for _ in 0..10_000_000u64 {
            if self.came[1 - me].load(Ordering::SeqCst) == 1 {
                return;
            }
            thread::yield_now();
        }
        self.missed.store(1, Ordering::SeqCst);
    }

    fn counted(&self, _node: u16, _worker: u16, _stats: Stats) {}

    fn after(&self, _node: u16, _worker: u16, _nth: u64) {}
}

fn placed(worker: u16) -> Outcome {
    Outcome::Placed { worker, floor: 1 }
}

// What a worker sends of the packet of this flow.
fn sent_by(rt: &impl Abort, node: u16, worker: u16, packet: u32, flow: Flow) -> Outcome {
    Outcome::Forward {
        node,
        worker,
        packet,
        flow,
        backend: backend(rt),
        origin: 1,
    }
}

// The history of two nodes, node by node.
fn by_nodes(rt: &impl Abort) -> [Outcome; 6] {
    [
        Outcome::Installed,
        placed(0),
        sent_by(rt, 0, 0, 0, flow(1000)),
        Outcome::Installed,
        placed(0),
        sent_by(rt, 1, 0, 0, flow(1000)),
    ]
}

// The history of two workers, the servings worker by worker.
fn by_workers(rt: &impl Abort) -> [Outcome; 5] {
    [
        Outcome::Installed,
        placed(0),
        placed(1),
        sent_by(rt, 0, 0, 0, flow(1000)),
        sent_by(rt, 0, 1, 1, flow(1001)),
    ]
}

// The packet of the flow from a port.
fn packet(sport: u16) -> Packet
    ensures { WasRead (Some result) }
{
    Packet::Good {
        flow: flow(sport),
        len: 40,
        at: 0,
    }
}

fn met(rt: &impl Abort, gate: &Meet) {
    holds(rt, gate.missed.load(Ordering::SeqCst) == 0, "each came");
}

// The history and what node 1 sent of it.
fn is_by_nodes(rt: &impl Abort, run: &ClusterRun) {
    holds(rt, run.history().len() == 6, "six events");
    same_outcomes(rt, run.outcomes(), &by_nodes(rt));
    assert!(rt; run.nodes.len() == 2);
    holds(rt, run.sent(1).len() == 1, "one life");
    for life in run.sent(1) {
        same_outcomes(rt, life.as_slice(), &[sent_by(rt, 1, 0, 0, flow(1000))]);
    }
}

fn is_audited<R: Abort + Threads + Sync>(
    rt: &R,
    alloc: Global,
    setup: &Setup<Maglev<SumHash>, SumHash>,
    catalogue: &Catalogue,
    run: &ClusterRun,
    packets: &[Packet],
) -> bool
    requires size { catalogue.now.size ≡ setup.now.size }
    requires read { (k : ℕ) (p : Packet) → slice_get packets.now k ≡ Some p → WasRead (Some p) }
{
    run.audit_nodes::<_, _, PlainTable, _>(rt, alloc, setup, catalogue, packets)
        .expect(rt, "memory")
}

fn list(rt: &impl Abort, alloc: Global, commands: &[Command]) -> Vec<Command> {
    Vec::from_slice(alloc, commands).expect(rt, "memory")
}

// Two nodes run at the same time: each one's worker waits in its serving for the other's.
#[test]
fn two_nodes_serve_at_once(rt: HostRuntime) {
    let alloc: Global = rt.alloc();
    let setup = cluster(&rt, alloc, &[0x0a09_0001, 0x0a09_0002], 1);
    let catalogue = catalogue(&rt, alloc);
    let packets = [packet(1000)];
    let gate = Meet::new();
    let commands = [Command::Publish(1), Command::Offer(0)];
    let lists = [list(&rt, alloc, &commands), list(&rt, alloc, &commands)];
    let run = run_cluster::<_, _, PlainTable, _, _>(
        &rt, alloc, &setup, &catalogue, &packets, &lists, 16, &gate,
    ).expect(&rt, "a run");
    met(&rt, &gate);
    is_by_nodes(&rt, &run);
    let agrees = is_audited(&rt, alloc, &setup, &catalogue, &run, &packets);
    holds(&rt, agrees, "the audit");
    // where the packet isn't there nothing is placed
    let agrees = is_audited(&rt, alloc, &setup, &catalogue, &run, &[]);
    holds(&rt, !agrees, "the audit without packets");
}

// So do two workers of one node, whose homes the two flows are.
#[test]
fn two_workers_serve_at_once(rt: HostRuntime) {
    let alloc: Global = rt.alloc();
    let setup = cluster(&rt, alloc, &[0x0a09_0001], 2);
    let catalogue = catalogue(&rt, alloc);
    let packets = [packet(1000), packet(1001)];
    let gate = Meet::new();
    let commands = [Command::Publish(1), Command::Offer(0), Command::Offer(1)];
    let lists = [list(&rt, alloc, &commands)];
    let run = run_cluster::<_, _, PlainTable, _, _>(
        &rt, alloc, &setup, &catalogue, &packets, &lists, 16, &gate,
    ).expect(&rt, "a run");
    met(&rt, &gate);
    same_outcomes(&rt, run.outcomes(), &by_workers(&rt));
}
