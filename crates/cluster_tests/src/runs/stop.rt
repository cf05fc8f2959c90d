//! A cluster of two nodes, of which one stops in full traffic.
ghost use Rattle.std.specs.Prelude.{◌≡◌, ℕ, Some, length, slice_get};
ghost use Rattle.cluster_node.specs.declared.packets.Packet.{Packet};
ghost use Rattle.cluster_node.specs.Records.{WasRead};

use super::{VIP, packet};
use crate::checks::holds;
use backend_names::{Name, TableSize, Weight};
use cluster_core::Setup;
use cluster_node::{Outcome, Packet};
use connection_table::{PlaceTable, PlainTable};
use hash_laws::SumHash;
use node_threads::{ClusterRun, OpenGate, run_cluster};
use pool_versions::{Backend, Catalogue, Member, Service, Version};
use selection::Maglev;
use std::alloc::{AllocError, Global};
use std::process::Abort;
use thread_records::Command;

// How often the cluster runs.
const RUNS: u32 = 20;

fn member(rt: &impl Abort, name: &[u8], addr: u32, up: bool) -> Member {
    let name = Name::new(name).expect(rt, "a name");
    Member {
        backend: Backend { name, addr },
        up,
        draining: false,
        weight: Weight::one(),
    }
}

// The backends A, B and C, of which B is up or not.
fn version(rt: &impl Abort, alloc: Global, number: u32, up: bool) -> Version {
    let members = [
        member(rt, b"A", 0x0a08_0001, true),
        member(rt, b"B", 0x0a08_0002, up),
        member(rt, b"C", 0x0a08_0003, true),
    ];
    let service = Service {
        vip: VIP,
        proto: 6,
        port: 80,
        members: Vec::from_slice(alloc, &members).expect(rt, "memory"),
    };
    let mut services = Vec::new(alloc);
    services.push(service).expect(rt, "memory");
    Version { number, services }
}

// In version 1 all are up, and in version 2 B is down.
pub(super) fn catalogue(rt: &impl Abort, alloc: Global) -> Catalogue
    ensures { result.size ≡ 7 }
{
    let size = TableSize::new(7).expect(rt, "a size");
    let mut all = Catalogue::new(alloc, size);
    all.add(version(rt, alloc, 1, true)).expect(rt, "a version");
    all.add(version(rt, alloc, 2, false))
        .expect(rt, "a version");
    all
}

// Two nodes of two workers each, whose tables keep eight entries.
fn cluster(rt: &impl Abort, alloc: Global) -> Setup<Maglev<SumHash>, SumHash>
    ensures nodes { length result.nodes ≡ 2 }
    ensures size { result.size ≡ 7 }
{
    let nodes = Vec::from_slice(alloc, &[0x0a09_0001, 0x0a09_0002]).expect(rt, "memory");
    let size = TableSize::new(7).expect(rt, "a size");
    Setup::new(SumHash, Maglev { hash: SumHash }, size, nodes, 2, 8, None).expect(rt, "a setup")
}

// Two flows in turn.
pub(super) fn packets() -> [Packet; 8]
    ensures { (k : ℕ) (p : Packet) → slice_get result k ≡ Some p → WasRead (Some p) }
{
    [
        packet(1000),
        packet(1001),
        packet(1000),
        packet(1001),
        packet(1000),
        packet(1001),
        packet(1000),
        packet(1001),
    ]
}

// Eight records go to the two nodes in turn: 0, 1 and 2, 0 again (3 is lost), 4 and 5 under the next version, and 6 and 7
// once node 0 has stopped.
fn commands(alloc: Global) -> Result<[Vec<Command>; 2], AllocError> {
    let first = [
        Command::Publish(1),
        Command::Offer(0),
        Command::Offer(2),
        Command::Publish(2),
        Command::Offer(4),
        Command::Stop,
        Command::Offer(6),
    ];
    let second = [
        Command::Publish(1),
        Command::Offer(1),
        Command::Offer(0),
        Command::Publish(2),
        Command::Offer(5),
        Command::Offer(7),
    ];
    Ok([
        Vec::from_slice(alloc, &first)?,
        Vec::from_slice(alloc, &second)?,
    ])
}

// What was lost where the one life ended that did.
fn lost_of(outcomes: &[Outcome]) -> Option<u64> {
    let mut found = None;
    for outcome in outcomes {
        if let Outcome::Restarted { lost } = *outcome {
            found = Some(lost);
        }
    }
    found
}

// All came, at most three were lost, and the others were sent.
fn is_counted(run: &ClusterRun) -> bool {
    let stats = run.stats();
    let lost = stats.dropped[12];
    let dropped = [0, 0, 0, 0, 0, 0, 0, 0, 0, 0, 0, 0, lost];
    lost <= 3
        && lost_of(run.outcomes()) == Some(lost)
        && stats.dropped == dropped
        && (stats.received, stats.forwarded, stats.waiting) == (8, 8 - lost, 0)
}

// Whenever the stop comes, what wasn't taken by then is lost and all else is sent.
#[test]
fn a_node_stops_in_full_traffic(rt: HostRuntime) {
    let alloc: Global = rt.alloc();
    let setup = cluster(&rt, alloc);
    let catalogue = catalogue(&rt, alloc);
    let packets = packets();
    let lists = commands(alloc).expect(&rt, "memory");
    for _ in 0..RUNS {
        let run = run_cluster::<_, _, PlainTable, _, _>(
            &rt, alloc, &setup, &catalogue, &packets, &lists, 16, &OpenGate,
        )
        .expect(&rt, "a run");
        holds(&rt, is_counted(&run), "the counts");
        let agrees = run
            .audit_nodes::<_, _, PlaceTable, _>(&rt, alloc, &setup, &catalogue, &packets)
            .expect(&rt, "memory");
        holds(&rt, agrees, "the audit");
    }
}
