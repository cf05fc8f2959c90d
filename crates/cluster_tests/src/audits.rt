//! Audits of a history whose outcomes are known.
ghost use Rattle.std.specs.Prelude.{◌≡◌, ℕ, Some, slice_get};
ghost use Rattle.cluster_node.specs.declared.packets.Packet.{Packet};
ghost use Rattle.cluster_node.specs.Records.{WasRead};

use crate::checks::holds;
use backend_names::TableSize;
use cluster_core::Setup;
use cluster_node::{Cause, Event, Outcome, Packet, Reason};
use connection_table::PlainTable;
use five_tuple::Flow;
use hash_laws::SumHash;
use pool_versions::Catalogue;
use selection::RoundRobin;
use std::alloc::Global;
use std::process::Abort;
use thread_records::{History, NodeRecord};

// One packet, of a flow.
fn packets() -> [Packet; 1]
    ensures { (k : ℕ) (p : Packet) → slice_get result k ≡ Some p → WasRead (Some p) }
{
    let flow = Flow {
        src: 1,
        dst: 2,
        sport: 3,
        dport: 4,
        proto: 6,
    };
    [Packet::Good {
        flow,
        len: 40,
        at: 0,
    }]
}

// A cluster of one node.
fn setup(rt: &impl Abort, alloc: Global) -> Setup<RoundRobin, SumHash>
    ensures { result.size ≡ 7 }
{
    let size = TableSize::new(7).expect(rt, "a size");
    let nodes = Vec::from_slice(alloc, &[9]).expect(rt, "memory");
    Setup::new(SumHash, RoundRobin, size, nodes, 1, 2, None).expect(rt, "a setup")
}

// Two events: a version that isn't there is installed, and then a packet arrives.
const EVENTS: [Event; 2] = [
    Event::Install {
        node: 0,
        version: 1,
    },
    Event::Arrive {
        node: 0,
        packet: 0,
        refused: [false; 16],
    },
];

// No versions.
fn catalogue(rt: &impl Abort, alloc: Global) -> Catalogue
    ensures { result.size ≡ 7 }
{
    Catalogue::new(alloc, TableSize::new(7).expect(rt, "a size"))
}

// A history audits the two events that came to these outcomes.
fn history_audits(rt: &impl Abort, alloc: Global, outcomes: &[Outcome]) -> bool {
    let history = History {
        events: Vec::from_slice(alloc, &EVENTS).expect(rt, "memory"),
        outcomes: Vec::from_slice(alloc, outcomes).expect(rt, "memory"),
    };
    let (setup, catalogue) = (setup(rt, alloc), catalogue(rt, alloc));
    history
        .audit::<_, _, PlainTable>(alloc, &setup, &catalogue, &packets())
        .expect(rt, "memory")
}

// So does the record of the node.
fn record_audits(rt: &impl Abort, alloc: Global, outcomes: &[Outcome]) -> bool {
    let record = NodeRecord {
        events: Vec::from_slice(alloc, &EVENTS).expect(rt, "memory"),
        outcomes: Vec::from_slice(alloc, outcomes).expect(rt, "memory"),
        sent: Vec::new(alloc),
    };
    let (setup, catalogue) = (setup(rt, alloc), catalogue(rt, alloc));
    record
        .audit::<_, _, PlainTable>(alloc, &setup, &catalogue, &packets())
        .expect(rt, "memory")
}

// What the two events result in, the second with a cause that may be another.
fn come_to(cause: Cause) -> [Outcome; 2] {
    [
        Outcome::Refused(Reason::UnknownVersion),
        Outcome::Dropped { packet: 0, cause },
    ]
}

fn audits(rt: &impl Abort, alloc: Global, outcomes: &[Outcome], wanted: bool) {
    holds(
        rt,
        history_audits(rt, alloc, outcomes) == wanted,
        "the history",
    );
    holds(
        rt,
        record_audits(rt, alloc, outcomes) == wanted,
        "the record",
    );
}

#[test]
fn an_honest_history_is_audited(rt: HostRuntime) {
    let honest = come_to(Cause::NoVersion);
    audits(&rt, rt.alloc(), &honest, true);
    audits(&rt, rt.alloc(), &come_to(Cause::RingsFull), false);
    audits(&rt, rt.alloc(), &honest[..1], false);
}
