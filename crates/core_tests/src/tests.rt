//! The worked examples as lists of events, on all three tables.
mod draining;
mod frames;
mod idle;
mod schemes;

ghost use Rattle.std.specs.Prelude.{◌≡◌, ℕ, Some, option_copied, slice_get};
ghost use Rattle.cluster_node.specs.Records.{WasRead};

use crate::checks::{OutcomeRow, holds, same_count, same_told};
use backend_names::{Name, TableSize, Weight};
use cluster_core::{
    Cause, Event, Outcome, Packet, Reason, Run, Setup, replay, replay_maglev, totals,
};
use connection_table::{ConnTable, LruTable, PlaceTable, PlainTable};
use five_tuple::Flow;
use hash_laws::SumHash;
use pool_versions::{Backend, Catalogue, Member, Service, Version};
use selection::{Maglev, Scheme};
use std::alloc::Global;
use std::process::Abort;

fn flow(sport: u16) -> Flow {
    Flow {
        src: 0x0a000001,
        dst: 0xc0000201,
        sport,
        dport: 80,
        proto: 6,
    }
}

fn member(rt: &impl Abort, name: &[u8], addr: u32, up: bool) -> Member {
    let name = Name::new(name).expect(rt, "a name");
    Member {
        backend: Backend { name, addr },
        up,
        draining: false,
        weight: Weight::one(),
    }
}

fn seven(rt: &impl Abort) -> TableSize
    ensures { result ≡ 7 }
{
    TableSize::new(7).expect(rt, "a size")
}

fn version(rt: &impl Abort, alloc: Global, number: u32, a: u8, up: [bool; 3]) -> Version {
    let members = [
        member(rt, b"A", 0x0a080000 + u32::from(a), up[0]),
        member(rt, b"B", 0x0a080002, up[1]),
        member(rt, b"C", 0x0a080003, up[2]),
    ];
    let members = Vec::from_slice(alloc, &members).expect(rt, "memory");
    let mut services = Vec::new(alloc);
    services
        .push(Service {
            vip: 0xc0000201,
            proto: 6,
            port: 80,
            members,
        })
        .expect(rt, "memory");
    Version { number, services }
}

// Versions by number, the last byte of A's address, and which of A, B and C are up.
fn catalogue_of(rt: &impl Abort, alloc: Global, versions: &[(u32, u8, [bool; 3])]) -> Catalogue
    ensures { result.size ≡ 7 }
{
    let mut all = Catalogue::new(alloc, seven(rt));
    for (number, a, up) in versions {
        all.add(version(rt, alloc, *number, *a, *up))
            .expect(rt, "a version");
    }
    assert!(rt; all.size().slots() == 7);
    all
}

// The versions 1 all up; 2 without B; 3 all up, A at another address; 4 without A; 5 all up.
static VERSIONS: [(u32, u8, [bool; 3]); 5] = [
    (1, 1, [true, true, true]),
    (2, 1, [true, false, true]),
    (3, 9, [true, true, true]),
    (4, 1, [false, true, true]),
    (5, 1, [true, true, true]),
];

fn catalogue(rt: &impl Abort, alloc: Global) -> Catalogue
    ensures { result.size ≡ 7 }
{
    catalogue_of(rt, alloc, &VERSIONS)
}

// With an idle limit in microseconds, if there is one.
fn limited<S: Scheme>(
    rt: &impl Abort,
    alloc: Global,
    scheme: S,
    workers: u16,
    idle: Option<u64>,
) -> Setup<S, SumHash>
    ensures size { result.size ≡ 7 }
    ensures scheme { result.scheme ≡ scheme }
{
    let nodes = Vec::from_slice(alloc, &[0x0a090001, 0x0a090002]).expect(rt, "memory");
    Setup::new(SumHash, scheme, seven(rt), nodes, workers, 2, idle).expect(rt, "a setup")
}

fn setup<S: Scheme>(rt: &impl Abort, alloc: Global, scheme: S, workers: u16) -> Setup<S, SumHash>
    ensures size { result.size ≡ 7 }
    ensures scheme { result.scheme ≡ scheme }
{
    limited(rt, alloc, scheme, workers, None)
}

// A packet from a port, at a time in seconds.
fn packet_at(sport: u16, second: u32) -> Packet
    ensures { WasRead (Some result) }
{
    Packet::Good {
        flow: flow(sport),
        len: 40,
        at: u64::from(second) * 1_000_000,
    }
}

fn packet(sport: u16) -> Packet
    ensures { WasRead (Some result) }
{
    packet_at(sport, 0)
}

fn arrive(node: u16, packet: u32, refused: [bool; 16]) -> Event {
    Event::Arrive {
        node,
        packet,
        refused,
    }
}

fn serve(node: u16, version: u32, refused: bool) -> Event {
    Event::Serve {
        node,
        worker: 0,
        version,
        refused,
    }
}

// What an outcome tells: a word and two numbers. Of a Forward the last byte of the backend's address and the origin.
fn told(outcome: &Outcome) -> OutcomeRow {
    match outcome {
        Outcome::Installed => ("installed", 0, 0),
        Outcome::Placed { worker, floor } => ("placed", u64::from(*worker), *floor),
        Outcome::Forward {
            backend,
            origin,
            ..
        } => ("forward", u64::from(backend.addr % 256), *origin),
        Outcome::Dropped { packet, cause } => (word_of_cause(*cause), u64::from(*packet), 0),
        Outcome::Restarted { lost } => ("restarted", *lost % 256, 0),
        Outcome::Refused(reason) => (word_of_reason(*reason), 0, 0),
    }
}

fn word_of_cause(cause: Cause) -> &'static str {
    match cause {
        Cause::NoVersion => "no version",
        Cause::RingsFull => "rings full",
        Cause::NoBackend => "no backend",
        _ => "dropped",
    }
}

fn word_of_reason(reason: Reason) -> &'static str {
    match reason {
        Reason::NoNode => "no node",
        Reason::NoWorker => "no worker",
        Reason::NoPacket => "no packet",
        Reason::UnknownVersion => "unknown version",
        Reason::NotNewer => "not newer",
        Reason::Idle => "idle",
        Reason::VersionRange => "version range",
    }
}

/// An event, as the rows have it: of a node and a version, or of a node and a packet.
#[derive(Clone, Copy)]
enum Act {
    Install(u16, u32),
    Arrive(u16, u32),
    /// Of node 0, where these workers refuse.
    Refusing(u32, [bool; 16]),
    Serve(u16, u32),
    /// A serving whose entry is refused.
    Unstored(u16, u32),
    Restart(u16),
}

fn event_of(act: Act) -> Event {
    match act {
        Act::Install(node, version) => Event::Install { node, version },
        Act::Arrive(node, packet) => arrive(node, packet, [false; 16]),
        Act::Refusing(packet, refused) => arrive(0, packet, refused),
        Act::Serve(node, version) => serve(node, version, false),
        Act::Unstored(node, version) => serve(node, version, true),
        Act::Restart(node) => Event::Restart { node },
    }
}

// An event, and what it results in.
type EventRow = (Act, OutcomeRow);

fn events_of(rt: &impl Abort, alloc: Global, acts: &[Act]) -> Vec<Event> {
    let mut events = Vec::new(alloc);
    for act in acts {
        events.push(event_of(*act)).expect(rt, "memory");
    }
    events
}

fn acts_of(rt: &impl Abort, alloc: Global, steps: &[EventRow]) -> Vec<Act> {
    let mut acts = Vec::new(alloc);
    for (act, _) in steps {
        acts.push(*act).expect(rt, "memory");
    }
    acts
}

fn result_in(rt: &impl Abort, outcomes: &[Outcome], steps: &[EventRow]) {
    same_count(rt, outcomes.len(), steps.len(), "how many events");
    for (event, (outcome, step)) in outcomes.iter().zip(steps.iter()).enumerate() {
        same_told(rt, told(outcome), step.1, event);
    }
}

fn shows_of<S: Scheme, T: ConnTable>(
    rt: &impl Abort,
    alloc: Global,
    setup: &Setup<S, SumHash>,
    catalogue: &Catalogue,
    packets: &[Packet],
    steps: &[EventRow],
)
    requires size { catalogue.now.size ≡ setup.now.size }
    requires read { (k : ℕ) (p : Packet) → slice_get packets.now k ≡ Some p → WasRead (Some p) }
{
    let acts = acts_of(rt, alloc, steps);
    let events = events_of(rt, alloc, acts.as_slice());
    let outcomes = replay::<S, SumHash, T>(
        alloc,
        setup,
        catalogue,
        packets,
        events.as_slice(),
    ).expect(rt, "memory");
    result_in(rt, outcomes.as_slice(), steps);
}

// The packets are of source ports 1000, 1001 and 1006, in this order.
fn shows<S: Scheme, T: ConnTable>(
    rt: &impl Abort,
    alloc: Global,
    setup: &Setup<S, SumHash>,
    steps: &[EventRow],
)
    requires { setup.now.size ≡ 7 }
{
    let packets = [packet(1000), packet(1001), packet(1006)];
    shows_of::<S, T>(rt, alloc, setup, &catalogue(rt, alloc), &packets, steps);
}

const FIRST: u32 = 0;

const SECOND: u32 = 1;

const THIRD: u32 = 2;

// Examples on one worker.
static EXAMPLES: [&[EventRow]; 9] = [
    // A backend that is down is left.
    &[
        (Act::Install(0, 1), ("installed", 0, 0)),
        (Act::Arrive(0, SECOND), ("placed", 0, 1)),
        (Act::Serve(0, 1), ("forward", 2, 1)),
        (Act::Install(0, 2), ("installed", 0, 0)),
        (Act::Arrive(0, SECOND), ("placed", 0, 2)),
        (Act::Serve(0, 2), ("forward", 1, 2)),
    ],
    // Another address is another backend.
    &[
        (Act::Install(0, 1), ("installed", 0, 0)),
        (Act::Arrive(0, FIRST), ("placed", 0, 1)),
        (Act::Serve(0, 1), ("forward", 1, 1)),
        (Act::Install(0, 3), ("installed", 0, 0)),
        (Act::Arrive(0, FIRST), ("placed", 0, 3)),
        (Act::Serve(0, 3), ("forward", 9, 3)),
    ],
    // What was not served under a version leaves no trace.
    &[
        (Act::Install(0, 1), ("installed", 0, 0)),
        (Act::Arrive(0, FIRST), ("placed", 0, 1)),
        (Act::Serve(0, 1), ("forward", 1, 1)),
        (Act::Install(0, 4), ("installed", 0, 0)),
        (Act::Install(0, 5), ("installed", 0, 0)),
        (Act::Arrive(0, FIRST), ("placed", 0, 5)),
        (Act::Serve(0, 5), ("forward", 1, 1)),
    ],
    // An entry that was refused is not there.
    &[
        (Act::Install(0, 1), ("installed", 0, 0)),
        (Act::Arrive(0, THIRD), ("placed", 0, 1)),
        (Act::Unstored(0, 1), ("forward", 1, 1)),
        (Act::Install(0, 2), ("installed", 0, 0)),
        (Act::Arrive(0, THIRD), ("placed", 0, 2)),
        (Act::Serve(0, 2), ("forward", 3, 2)),
    ],
    // Refusals in their order.
    &[
        (Act::Arrive(0, THIRD), ("no version", 2, 0)),
        (Act::Install(0, 1), ("installed", 0, 0)),
        (Act::Install(0, 2), ("installed", 0, 0)),
        (Act::Install(0, 2), ("not newer", 0, 0)),
        (Act::Install(0, 9), ("unknown version", 0, 0)),
        (Act::Arrive(0, THIRD), ("placed", 0, 2)),
        (Act::Serve(0, 1), ("version range", 0, 0)),
        (Act::Serve(0, 2), ("forward", 3, 2)),
        (Act::Serve(0, 2), ("idle", 0, 0)),
        (Act::Install(2, 1), ("no node", 0, 0)),
        (Act::Arrive(0, 3), ("no packet", 0, 0)),
    ],
    // The version between the floor and the newest may be used.
    &[
        (Act::Install(0, 1), ("installed", 0, 0)),
        (Act::Arrive(0, THIRD), ("placed", 0, 1)),
        (Act::Install(0, 2), ("installed", 0, 0)),
        (Act::Serve(0, 1), ("forward", 1, 1)),
    ],
    // The packets of a flow on two nodes with different versions, and the entry that remains until two others came.
    &[
        (Act::Install(0, 1), ("installed", 0, 0)),
        (Act::Install(1, 2), ("installed", 0, 0)),
        (Act::Arrive(0, THIRD), ("placed", 0, 1)),
        (Act::Serve(0, 1), ("forward", 1, 1)),
        (Act::Arrive(1, THIRD), ("placed", 0, 2)),
        (Act::Serve(1, 2), ("forward", 3, 2)),
    ],
    &[
        (Act::Install(0, 1), ("installed", 0, 0)),
        (Act::Arrive(0, THIRD), ("placed", 0, 1)),
        (Act::Serve(0, 1), ("forward", 1, 1)),
        (Act::Install(0, 2), ("installed", 0, 0)),
        (Act::Arrive(0, FIRST), ("placed", 0, 2)),
        (Act::Serve(0, 2), ("forward", 1, 2)),
        (Act::Arrive(0, FIRST), ("placed", 0, 2)),
        (Act::Serve(0, 2), ("forward", 1, 2)),
        (Act::Arrive(0, THIRD), ("placed", 0, 2)),
        (Act::Serve(0, 2), ("forward", 1, 1)),
        (Act::Arrive(0, FIRST), ("placed", 0, 2)),
        (Act::Serve(0, 2), ("forward", 1, 2)),
        (Act::Arrive(0, SECOND), ("placed", 0, 2)),
        (Act::Serve(0, 2), ("forward", 1, 2)),
        (Act::Arrive(0, THIRD), ("placed", 0, 2)),
        (Act::Serve(0, 2), ("forward", 3, 2)),
    ],
    // The backend that is taken when the first is down is kept when the first is up again.
    &[
        (Act::Install(0, 1), ("installed", 0, 0)),
        (Act::Arrive(0, FIRST), ("placed", 0, 1)),
        (Act::Serve(0, 1), ("forward", 1, 1)),
        (Act::Install(0, 4), ("installed", 0, 0)),
        (Act::Arrive(0, FIRST), ("placed", 0, 4)),
        (Act::Serve(0, 4), ("forward", 2, 4)),
        (Act::Install(0, 5), ("installed", 0, 0)),
        (Act::Arrive(0, FIRST), ("placed", 0, 5)),
        (Act::Serve(0, 5), ("forward", 2, 4)),
    ],
];

const ONE_REFUSES: [bool; 16] = [
    false, true, false, false, false, false, false, false, false, false, false, false, false,
    false, false, false,
];

// A home, of three workers, that refuses, four times, and then all.
static ROUND: [EventRow; 6] = [
    (Act::Install(0, 1), ("installed", 0, 0)),
    (Act::Refusing(FIRST, ONE_REFUSES), ("placed", 0, 1)),
    (Act::Refusing(FIRST, ONE_REFUSES), ("placed", 2, 1)),
    (Act::Refusing(FIRST, ONE_REFUSES), ("placed", 2, 1)),
    (Act::Refusing(FIRST, ONE_REFUSES), ("placed", 0, 1)),
    (Act::Refusing(FIRST, [true; 16]), ("rings full", 0, 0)),
];

fn shows_all<T: ConnTable>(rt: &impl Abort, alloc: Global) {
    let setup = setup(rt, alloc, Maglev { hash: SumHash }, 1);
    for steps in EXAMPLES.iter() {
        shows::<Maglev<SumHash>, T>(rt, alloc, &setup, steps);
    }
}

fn goes_round<T: ConnTable>(rt: &impl Abort, alloc: Global) {
    let setup = setup(rt, alloc, Maglev { hash: SumHash }, 3);
    shows::<Maglev<SumHash>, T>(rt, alloc, &setup, &ROUND);
}

#[test]
fn examples_with_a_plain_table(rt: HostRuntime) {
    shows_all::<PlainTable>(&rt, rt.alloc());
    goes_round::<PlainTable>(&rt, rt.alloc());
    counts::<PlainTable>(&rt, rt.alloc());
}

#[test]
fn examples_with_a_table_over_links(rt: HostRuntime) {
    shows_all::<LruTable>(&rt, rt.alloc());
    goes_round::<LruTable>(&rt, rt.alloc());
    counts::<LruTable>(&rt, rt.alloc());
}

#[test]
fn examples_with_a_table_over_places(rt: HostRuntime) {
    shows_all::<PlaceTable>(&rt, rt.alloc());
    goes_round::<PlaceTable>(&rt, rt.alloc());
    counts::<PlaceTable>(&rt, rt.alloc());
}

// A list of outcomes that no run has: what was received was forwarded, dropped for one of the causes, or waits.
#[test]
fn every_drop_is_counted(rt: HostRuntime) {
    let outcomes = [
        Outcome::Dropped {
            packet: 0,
            cause: Cause::LostAtRestart,
        },
        Outcome::Dropped {
            packet: 1,
            cause: Cause::TooLarge,
        },
    ];
    let found = totals(&outcomes);
    let numbers = (found.received, found.forwarded, found.waiting);
    holds(&rt, numbers == (2, 0, 0), "two were received");
    let dropped = [0, 0, 0, 0, 0, 0, 0, 1, 0, 0, 0, 0, 1];
    holds(&rt, found.dropped == dropped, "and dropped");
}

// Two packets wait when the node restarts.
static COUNTED: [Act; 7] = [
    Act::Install(0, 1),
    Act::Arrive(0, 0),
    Act::Arrive(0, 0),
    Act::Restart(0),
    Act::Arrive(0, 0),
    Act::Serve(0, 1),
    Act::Serve(0, 1),
];

fn counts<T: ConnTable>(rt: &impl Abort, alloc: Global) {
    let setup = setup(rt, alloc, Maglev { hash: SumHash }, 1);
    let packets = [packet(1000)];
    let events = events_of(rt, alloc, &COUNTED);
    let outcomes = replay_maglev::<SumHash, T>(
        alloc,
        &setup,
        &catalogue(rt, alloc),
        &packets,
        events.as_slice(),
    )
    .expect(rt, "memory");
    let found = totals(outcomes.as_slice());
    let numbers = (
        found.received,
        found.forwarded,
        found.waiting,
        found.refused,
    );
    holds(rt, numbers == (3, 1, 0, 1), "three were received");
    let dropped = [0, 0, 0, 0, 0, 0, 0, 0, 0, 0, 0, 0, 2];
    holds(rt, found.dropped == dropped, "and two lost");
}

// Node 0's newest version, what waits at its worker, and node 1's newest version.
fn has_state(rt: &impl Abort, run: &Run<Maglev<SumHash>, PlaceTable>, wanted: (u32, usize, u32)) {
    let found = (run.newest(0), run.waiting(0, 0), run.newest(1));
    assert_eq!(rt; found, wanted);
}

// What an event results in.
fn stepped(
    rt: &impl Abort,
    run: &mut Run<Maglev<SumHash>, PlaceTable>,
    setup: &Setup<Maglev<SumHash>, SumHash>,
    catalogue: &Catalogue,
    act: Act,
    packet: Option<&Packet>,
) -> OutcomeRow
    requires size { catalogue.now.size ≡ setup.now.size }
    requires read { WasRead (option_copied packet) }
{
    let outcome = run.step(setup, catalogue, &event_of(act), packet);
    told(&outcome.expect(rt, "memory"))
}

// One event after another, with the reads between them.
#[test]
fn a_run_tells_what_waits(rt: HostRuntime) {
    let setup = setup(&rt, rt.alloc(), Maglev { hash: SumHash }, 1);
    let catalogue = catalogue(&rt, rt.alloc());
    let mut run: Run<Maglev<SumHash>, PlaceTable> = Run::make(rt.alloc(), &setup).expect(
        &rt, "memory",
    );
    has_state(&rt, &run, (0, 0, 0));
    let found = stepped(&rt, &mut run, &setup, &catalogue, Act::Install(0, 2), None);
    same_told(&rt, found, ("installed", 0, 0), 0);
    let good = packet(1000);
    let found = stepped(
        &rt,
        &mut run,
        &setup,
        &catalogue,
        Act::Arrive(0, 7),
        Some(&good),
    );
    same_told(&rt, found, ("placed", 0, 2), 1);
    has_state(&rt, &run, (2, 1, 0));
}
