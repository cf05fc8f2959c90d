//! Two nodes take the version that was prepared for both.
use crate::checks::{holds, same_outcomes};
use crate::runs::{by_nodes, catalogue, cluster, list, packet};
use connection_table::PlainTable;
use hash_laws::SumHash;
use node_threads::{NodesRun, OpenGate, RingRules, run_each};
use selection::Maglev;
use shared_versions::{Auditor, SharedVersions, audit_nodes};
use std::alloc::Global;
use std::process::Abort;
use thread_records::{Command, LeanRecord};

// The outcomes of two nodes, one after the other.
fn are_by_nodes(rt: &impl Abort, alloc: Global, nodes: &[LeanRecord]) {
    let mut all = Vec::new(alloc);
    for node in nodes {
        let outcomes = node.outcomes().open(alloc).expect(rt, "memory");
        all.extend_from_slice(outcomes.as_slice())
            .expect(rt, "memory");
    }
    same_outcomes(rt, all.as_slice(), &by_nodes(rt));
}

// What was prepared is the catalogue's version that is installed, and no other.
fn is_first_alone(rt: &impl Abort, prepared: &SharedVersions<Maglev<SumHash>>) {
    match prepared.find(1) {
        Some(version) => holds(rt, version.number() == 1, "its number"),
        None => holds(rt, false, "version 1"),
    }
    holds(rt, prepared.find(0).is_none(), "no version 0");
    holds(rt, prepared.find(2).is_none(), "no version 2");
}

// Both nodes install a version that the catalogue has. Audits stand on what was prepared for them, or on nothing.
#[test]
fn two_nodes_take_one_version(rt: HostRuntime) {
    let alloc: Global = rt.alloc();
    let setup = cluster(&rt, alloc, &[0x0a09_0001, 0x0a09_0002], 1);
    let catalogue = catalogue(&rt, alloc);
    let packets = [packet(1000)];
    let commands = [Command::Publish(1), Command::Offer(0)];
    let lists = [list(&rt, alloc, &commands), list(&rt, alloc, &commands)];
    let prepared = SharedVersions::prepare(alloc, &setup, &catalogue, &lists).expect(&rt, "memory");
    is_first_alone(&rt, &prepared);
    let rings = RingRules {
        places: 16,
        paced: false,
    };
    let run: NodesRun = run_each::<_, _, PlainTable, _, _>(
        &rt, alloc, &setup, &catalogue, &prepared, &packets, &lists, rings, &OpenGate,
    )
    .expect(&rt, "a run");
    are_by_nodes(&rt, alloc, run.nodes.as_slice());
    let none = SharedVersions::none(alloc);
    for shared in [&prepared, &none] {
        let auditor = Auditor::new(alloc, &setup, &catalogue, shared).expect(&rt, "memory");
        let nodes = run.nodes.as_slice();
        let agrees = audit_nodes::<_, _, PlainTable, _, _>(&rt, alloc, nodes, &auditor, &packets);
        holds(&rt, agrees.expect(&rt, "memory"), "the audit");
        let agrees = audit_nodes::<_, _, PlainTable, _, _>(&rt, alloc, nodes, &auditor, &[]);
        holds(
            &rt,
            !agrees.expect(&rt, "memory"),
            "the audit without packets",
        );
    }
}
