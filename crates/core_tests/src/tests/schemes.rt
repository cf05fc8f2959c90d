//! What explaining two outcomes tells, and the other schemes, on all three tables.
ghost use Rattle.std.specs.Prelude.{◌≡◌, ℕ, Some, slice_get};
ghost use Rattle.cluster_node.specs.Records.{WasRead};

use super::{Act, EventRow, FIRST, SECOND, THIRD, catalogue, events_of, packet, setup, shows};
use cluster_core::{Packet, Setup, Verdict, explain, replay};
use connection_table::{ConnTable, LruTable, PlaceTable, PlainTable};
use hash_laws::SumHash;
use pool_versions::Catalogue;
use selection::{Maglev, PlainHash, RoundRobin, Scheme};
use std::alloc::Global;
use std::process::Abort;

pub(super) type Explained = (&'static str, [u32; 5]);

// What explaining two outcomes tells: the slot, the versions, and the last bytes of the backends' addresses.
fn told_of(verdict: Verdict) -> Explained {
    match verdict {
        Verdict::NotSent => ("not sent", [0; 5]),
        Verdict::OtherFlow => ("other flow", [0; 5]),
        Verdict::Same => ("same", [0; 5]),
        Verdict::Split {
            slot,
            v1,
            v2,
            b1,
            b2,
        } => ("split", [slot, v1, v2, b1.addr % 256, b2.addr % 256]),
    }
}

// The events of two nodes, of which the first has version 1 and the second version 2, and each is sent one packet.
const THIRD_ON_TWO: [Act; 6] = [
    Act::Install(0, 1),
    Act::Install(1, 2),
    Act::Arrive(0, THIRD),
    Act::Serve(0, 1),
    Act::Arrive(1, THIRD),
    Act::Serve(1, 2),
];

const FIRST_ON_TWO: [Act; 6] = [
    Act::Install(0, 1),
    Act::Install(1, 2),
    Act::Arrive(0, FIRST),
    Act::Serve(0, 1),
    Act::Arrive(1, FIRST),
    Act::Serve(1, 2),
];

// The events of one node, whose entry for the third flow remains until packets of two others were sent.
const EVICTING: [Act; 16] = [
    Act::Install(0, 1),
    Act::Arrive(0, THIRD),
    Act::Serve(0, 1),
    Act::Install(0, 2),
    Act::Arrive(0, FIRST),
    Act::Serve(0, 2),
    Act::Arrive(0, FIRST),
    Act::Serve(0, 2),
    Act::Arrive(0, THIRD),
    Act::Serve(0, 2),
    Act::Arrive(0, FIRST),
    Act::Serve(0, 2),
    Act::Arrive(0, SECOND),
    Act::Serve(0, 2),
    Act::Arrive(0, THIRD),
    Act::Serve(0, 2),
];

// The events of two nodes with one version, of which the first is sent another flow before the third.
const IN_TURNS: [Act; 8] = [
    Act::Install(0, 1),
    Act::Install(1, 1),
    Act::Arrive(0, FIRST),
    Act::Serve(0, 1),
    Act::Arrive(1, THIRD),
    Act::Serve(1, 1),
    Act::Arrive(0, THIRD),
    Act::Serve(0, 1),
];

pub(super) fn explained_of<S: Scheme, T: ConnTable>(
    rt: &impl Abort,
    alloc: Global,
    setup: &Setup<S, SumHash>,
    catalogue: &Catalogue,
    packets: &[Packet],
    acts: &[Act],
    places: (usize, usize),
) -> Explained
    requires size { catalogue.now.size ≡ setup.now.size }
    requires read { (k : ℕ) (p : Packet) → slice_get packets.now k ≡ Some p → WasRead (Some p) }
{
    let events = events_of(rt, alloc, acts);
    let outcomes = replay::<S, SumHash, T>(
        alloc,
        setup,
        catalogue,
        packets,
        events.as_slice(),
    ).expect(rt, "memory");
    let one = outcomes.get(places.0).expect(rt, "an outcome");
    let other = outcomes.get(places.1).expect(rt, "an outcome");
    told_of(explain(setup, catalogue, one, other))
}

fn explained<S: Scheme, T: ConnTable>(
    rt: &impl Abort,
    alloc: Global,
    setup: &Setup<S, SumHash>,
    acts: &[Act],
    places: (usize, usize),
) -> Explained
    requires { setup.now.size ≡ 7 }
{
    let packets = [packet(1000), packet(1001), packet(1006)];
    explained_of::<S, T>(
        rt,
        alloc,
        setup,
        &catalogue(rt, alloc),
        &packets,
        acts,
        places,
    )
}

// Events, the places of two outcomes, and what explaining these tells.
type Pair = (&'static [Act], (usize, usize), Explained);

// Two nodes with two versions split the third flow, and not the first; an entry that was evicted splits the third flow
// on one node.
static BY_MAGLEV: [Pair; 5] = [
    (&THIRD_ON_TWO, (3, 5), ("split", [5, 1, 2, 1, 3])),
    (&FIRST_ON_TWO, (3, 5), ("same", [0; 5])),
    (&FIRST_ON_TWO, (2, 5), ("not sent", [0; 5])),
    (&EVICTING, (9, 15), ("split", [5, 1, 2, 1, 3])),
    (&EVICTING, (9, 5), ("other flow", [0; 5])),
];

// By a plain hash one backend takes the flow under both versions.
static BY_PLAIN_HASH: [Pair; 1] = [(&FIRST_ON_TWO, (3, 5), ("same", [0; 5]))];

static PLAIN_STEPS: [EventRow; 6] = [
    (Act::Install(0, 1), ("installed", 0, 0)),
    (Act::Install(1, 2), ("installed", 0, 0)),
    (Act::Arrive(0, FIRST), ("placed", 0, 1)),
    (Act::Serve(0, 1), ("forward", 3, 1)),
    (Act::Arrive(1, FIRST), ("placed", 0, 2)),
    (Act::Serve(1, 2), ("forward", 3, 2)),
];

// In turns one version sends a flow to two.
static BY_TURNS: [Pair; 1] = [(&IN_TURNS, (7, 5), ("split", [5, 1, 1, 2, 1]))];

static TURN_STEPS: [EventRow; 8] = [
    (Act::Install(0, 1), ("installed", 0, 0)),
    (Act::Install(1, 1), ("installed", 0, 0)),
    (Act::Arrive(0, FIRST), ("placed", 0, 1)),
    (Act::Serve(0, 1), ("forward", 1, 1)),
    (Act::Arrive(1, THIRD), ("placed", 0, 1)),
    (Act::Serve(1, 1), ("forward", 1, 1)),
    (Act::Arrive(0, THIRD), ("placed", 0, 1)),
    (Act::Serve(0, 1), ("forward", 2, 1)),
];

pub(super) fn same_explained(rt: &impl Abort, found: Explained, wanted: Explained) {
    assert_eq!(rt; found, wanted);
}

fn explains<S: Scheme, T: ConnTable>(rt: &impl Abort, alloc: Global, scheme: S, pairs: &[Pair]) {
    let setup = setup(rt, alloc, scheme, 1);
    for (acts, places, wanted) in pairs {
        let found = explained::<S, T>(rt, alloc, &setup, acts, *places);
        same_explained(rt, found, *wanted);
    }
}

fn shows_by<S: Scheme, T: ConnTable>(
    rt: &impl Abort,
    alloc: Global,
    scheme: S,
    steps: &[EventRow],
) {
    let setup = setup(rt, alloc, scheme, 1);
    shows::<S, T>(rt, alloc, &setup, steps);
}

fn each_scheme<T: ConnTable>(rt: &impl Abort, alloc: Global) {
    explains::<_, T>(rt, alloc, Maglev { hash: SumHash }, &BY_MAGLEV);
    let plain = PlainHash { hash: SumHash };
    shows_by::<_, T>(rt, alloc, plain, &PLAIN_STEPS);
    explains::<_, T>(rt, alloc, plain, &BY_PLAIN_HASH);
    shows_by::<_, T>(rt, alloc, RoundRobin, &TURN_STEPS);
    explains::<_, T>(rt, alloc, RoundRobin, &BY_TURNS);
}

#[test]
fn schemes_with_a_plain_table(rt: HostRuntime) {
    each_scheme::<PlainTable>(&rt, rt.alloc());
}

#[test]
fn schemes_with_a_table_over_links(rt: HostRuntime) {
    each_scheme::<LruTable>(&rt, rt.alloc());
}

#[test]
fn schemes_with_a_table_over_places(rt: HostRuntime) {
    each_scheme::<PlaceTable>(&rt, rt.alloc());
}
