//! Runs of one node on threads.
ghost use Rattle.std.specs.Prelude.{◌≡◌, ◌<◌, ◌≤◌, ℕ, Some, length, slice_get};
ghost use Rattle.cluster_node.specs.declared.packets.Packet.{Packet};
ghost use Rattle.cluster_node.specs.Records.{WasRead};

use backend_names::{Name, TableSize, Weight};
use cluster_core::Setup;
use cluster_node::{Cause, Outcome, Packet, Reason};
use connection_table::{ConnTable, PlaceTable, PlainTable};
use five_tuple::Flow;
use hash_laws::{FlowHash, SumHash};
use node_threads::{Gate, NodeRun, OpenGate, run_node};
use pool_versions::{Backend, Catalogue, Member, Service, Version};
use selection::Maglev;
use stats_book::Stats;
use std::alloc::Global;
use std::process::Abort;
use std::sync::Wait;
use std::sync::atomic::{AtomicU64, Ordering};
use std::thread;
use std::thread::Threads;
use thread_records::Command;

mod boards;
mod book;
mod held;
mod live;
mod paced;
mod shown;
mod stop;
mod unstored;

type Sums = Maglev<SumHash>;

fn flow(sport: u16) -> Flow {
    Flow {
        src: 0x0a00_0001,
        dst: 0xc000_0201,
        sport,
        dport: 80,
        proto: 6,
    }
}

fn good(sport: u16) -> Packet
    ensures { WasRead (Some result) }
{
    Packet::Good {
        flow: flow(sport),
        len: 40,
        at: 0,
    }
}

// The flows y, z, x, and one cause.
fn packets() -> [Packet; 4]
    ensures { (k : ℕ) (p : Packet) → slice_get result k ≡ Some p → WasRead (Some p) }
{
    [
        good(1000),
        good(1001),
        good(1006),
        Packet::Bad(Cause::Fragment),
    ]
}

fn backend(rt: &impl Abort, place: u8) -> Backend {
    let name = Name::new(&[b'A' + place % 3]).expect(rt, "a name");
    Backend {
        name,
        addr: 0x0a08_0001 + u32::from(place % 3),
    }
}

fn member(rt: &impl Abort, place: u8, up: bool, turns: u8) -> Member {
    Member {
        backend: backend(rt, place),
        up,
        draining: false,
        weight: Weight::new(turns).expect(rt, "a weight"),
    }
}

// A version's number, the last byte of A's address, which of A, B and C are up, and how often each of them takes a turn.
type Row = (u32, u8, [bool; 3], u8);

fn members(rt: &impl Abort, alloc: Global, row: &Row) -> Vec<Member> {
    let (_, address, ups, turns) = *row;
    let mut a = member(rt, 0, ups[0], turns);
    a.backend.addr = 0x0a08_0000 + u32::from(address);
    let all = [
        a,
        member(rt, 1, ups[1], turns),
        member(rt, 2, ups[2], turns),
    ];
    Vec::from_slice(alloc, &all).expect(rt, "memory")
}

fn version(rt: &impl Abort, alloc: Global, row: &Row) -> Version {
    let service = Service {
        vip: 0xc000_0201,
        proto: 6,
        port: 80,
        members: members(rt, alloc, row),
    };
    let mut services = Vec::new(alloc);
    services.push(service).expect(rt, "memory");
    Version {
        number: row.0,
        services,
    }
}

// In version 1 all are up; in 2 B is down; in 3 A is at another address; in 4 A is down; and in 5 all are up.
static VERSIONS: [Row; 5] = [
    (1, 1, [true, true, true], 1),
    (2, 1, [true, false, true], 1),
    (3, 9, [true, true, true], 1),
    (4, 1, [false, true, true], 1),
    (5, 1, [true, true, true], 1),
];

fn seven(rt: &impl Abort) -> TableSize
    ensures { result ≡ 7 }
{
    TableSize::new(7).expect(rt, "a size")
}

fn catalogue(rt: &impl Abort, alloc: Global) -> Catalogue
    ensures { result.size ≡ 7 }
{
    let mut all = Catalogue::new(alloc, seven(rt));
    for row in VERSIONS.iter() {
        let version = version(rt, alloc, row);
        all.add(version).expect(rt, "a version");
    }
    assert!(rt; all.size().slots() == 7);
    all
}

// A cluster of one node, whose tables keep two entries.
fn setup<H: FlowHash>(rt: &impl Abort, alloc: Global, hash: H, workers: u16) -> Setup<Sums, H>
    ensures nodes { 0 < length result.nodes }
    ensures size { result.size ≡ 7 }
{
    let nodes = Vec::from_slice(alloc, &[0x0a09_0001]).expect(rt, "memory");
    let maglev = Maglev { hash: SumHash };
    Setup::new(hash, maglev, seven(rt), nodes, workers, 2, None).expect(rt, "a setup")
}

// A run of node 0 with rings of so many places.
fn run<
    T: ConnTable + Send,
    H: FlowHash + Send + Sync,
    G: Gate + Sync,
    R: Abort + Threads + Wait + Sync,
>(
    rt: &R,
    alloc: Global,
    setup: &Setup<Sums, H>,
    commands: &[Command],
    ring: u32,
    gate: &G,
) -> NodeRun
    requires node { 0 < length setup.now.nodes }
    requires some { 0 < ring }
    requires limit { ring ≤ 65536 }
{
    let catalogue = catalogue(rt, alloc);
    let packets = packets();
    match run_node::<_, _, T, _, _>(
        rt, alloc, setup, &catalogue, &packets, 0, commands, ring, gate,
    ) {
        Ok(run) => run,
        Err(fault) => panic!(rt; "{fault:?}"),
    }
}

fn forward(
    rt: &impl Abort,
    worker: u16,
    packet: u32,
    sport: u16,
    place: u8,
    origin: u32,
) -> Outcome {
    Outcome::Forward {
        node: 0,
        worker,
        packet,
        flow: flow(sport),
        backend: backend(rt, place),
        origin,
    }
}

// Packet 2 as worker 0 sends it under version 1.
fn x_to_a(rt: &impl Abort) -> Outcome {
    forward(rt, 0, 2, 1006, 0, 1)
}

const PLACED: Outcome = Outcome::Placed {
    worker: 0,
    floor: 1,
};

// What the commands of the next test result in.
fn expected(rt: &impl Abort) -> [Outcome; 11] {
    [
        Outcome::Dropped {
            packet: 2,
            cause: Cause::NoVersion,
        },
        Outcome::Refused(Reason::UnknownVersion),
        Outcome::Installed,
        Outcome::Refused(Reason::NotNewer),
        Outcome::Refused(Reason::NoPacket),
        Outcome::Dropped {
            packet: 3,
            cause: Cause::Fragment,
        },
        PLACED,
        x_to_a(rt),
        Outcome::Restarted { lost: 0 },
        PLACED,
        x_to_a(rt),
    ]
}

fn holds(rt: &impl Abort, fact: bool, what: &str) {
    assert!(rt; fact, "{what}");
}

fn same_outcomes(rt: &impl Abort, found: &[Outcome], wanted: &[Outcome]) {
    assert!(rt; found == wanted, "outcomes");
}

// In each of so many lives this was sent.
fn sends(rt: &impl Abort, run: &NodeRun, lives: usize, wanted: &[Outcome]) {
    holds(rt, run.sent().len() == lives, "lives");
    for list in run.sent() {
        same_outcomes(rt, list.as_slice(), wanted);
    }
}

// So many were received, forwarded, and wait.
fn counts(rt: &impl Abort, stats: &Stats, wanted: (u64, u64, u64)) {
    assert_eq!(rt; (stats.received, stats.forwarded, stats.waiting), wanted);
}

fn is(rt: &impl Abort, count: &AtomicU64, wanted: u64, what: &str) {
    let found = count.load(Ordering::SeqCst);
    assert_eq!(rt; found, wanted, "{what}");
}

// Whether a run's audit agrees, over these packets.
fn agrees<T: ConnTable>(
    rt: &impl Abort,
    alloc: Global,
    setup: &Setup<Sums, SumHash>,
    run: &NodeRun,
    packets: &[Packet],
) -> bool
    requires size { setup.now.size ≡ 7 }
    requires read { (k : ℕ) (p : Packet) → slice_get packets.now k ≡ Some p → WasRead (Some p) }
{
    let catalogue = catalogue(rt, alloc);
    run.audit::<_, _, T>(alloc, setup, &catalogue, packets)
        .expect(rt, "memory")
}

// What results in nothing is recorded, and what is placed is served: with one worker and room for all, the history is
// known beforehand.
static ALL_SORTS: [Command; 9] = [
    Command::Offer(2),
    Command::Publish(7),
    Command::Publish(1),
    Command::Publish(1),
    Command::Offer(9),
    Command::Offer(3),
    Command::Offer(2),
    Command::Restart,
    Command::Offer(2),
];

#[test]
fn each_command_comes_to_what_it_should(rt: HostRuntime) {
    let setup = setup(&rt, rt.alloc(), SumHash, 1);
    let run = run::<PlainTable, _, _, _>(&rt, rt.alloc(), &setup, &ALL_SORTS, 16, &OpenGate);
    same_outcomes(&rt, run.outcomes(), &expected(&rt));
    sends(&rt, &run, 2, &[x_to_a(&rt)]);
    let stats = run.stats();
    counts(&rt, &stats, (4, 2, 0));
    // A fragment, and a packet that came before any version.
    let dropped = [0, 0, 0, 0, 1, 0, 0, 0, 0, 0, 1, 0, 0];
    holds(&rt, stats.dropped == dropped, "drops");
}

static AUDITED: [Command; 3] = [Command::Publish(1), Command::Offer(0), Command::Offer(3)];

// An audit agrees with a run of these packets, and doesn't once the packets are others.
#[test]
fn an_audit_knows_its_run(rt: HostRuntime) {
    let setup = setup(&rt, rt.alloc(), SumHash, 2);
    let run = run::<PlaceTable, _, _, _>(&rt, rt.alloc(), &setup, &AUDITED, 16, &OpenGate);
    let agreed = agrees::<PlainTable>(&rt, rt.alloc(), &setup, &run, &packets());
    holds(&rt, agreed && run.history().len() == 4, "its packets");
    let agreed = agrees::<PlainTable>(&rt, rt.alloc(), &setup, &run, &[good(1001)]);
    holds(&rt, !agreed, "other packets");
}

fn placed(run: &NodeRun) -> usize {
    run.outcomes()
        .iter()
        .filter(|outcome| matches!(**outcome, Outcome::Placed { .. }))
        .count()
}

fn forwarded(run: &NodeRun) -> usize {
    run.outcomes()
        .iter()
        .filter(|outcome| matches!(**outcome, Outcome::Forward { .. }))
        .count()
}

fn refused(run: &NodeRun) -> usize {
    run.outcomes()
        .iter()
        .filter(|outcome| {
            matches!(
                **outcome,
                Outcome::Dropped {
                    cause: Cause::RingsFull,
                    ..
                }
            )
        })
        .count()
}

// Three lives with two workers and rings of one place: a ring that is full takes the closing mark once there is room, a
// new life's workers know the newest version, and what was placed was sent.
static THREE_LIVES: [Command; 10] = [
    Command::Publish(1),
    Command::Offer(0),
    Command::Offer(1),
    Command::Offer(2),
    Command::Restart,
    Command::Publish(2),
    Command::Offer(1),
    Command::Restart,
    Command::Offer(2),
    Command::Offer(0),
];

#[test]
fn every_life_serves_what_was_placed(rt: HostRuntime) {
    let setup = setup(&rt, rt.alloc(), SumHash, 2);
    let run = run::<PlaceTable, _, _, _>(&rt, rt.alloc(), &setup, &THREE_LIVES, 1, &OpenGate);
    holds(&rt, run.sent().len() == 3, "lives");
    let placed = placed(&run);
    holds(
        &rt,
        placed >= 3 && placed == forwarded(&run),
        "what was placed",
    );
}

// Each worker waits in its first call for the other's, for a limited number of turns.
#[derive(Drop)]
struct Meet {
    came: [AtomicU64; 2],
    missed: AtomicU64,
}

impl Meet {
    fn new() -> Meet {
        Meet {
            came: [AtomicU64::new(0), AtomicU64::new(0)],
            missed: AtomicU64::new(0),
        }
    }
}

impl Gate for Meet {
    fn preparing(&self, _node: u16, _version: u32) {}

    fn stopping(&self, _node: u16) {}

    fn before(&self, _node: u16, worker: u16, nth: u64) {
        if nth > 0 || worker > 1 {
            return;
        }
        let me = usize::from(worker);
        self.came[me].store(1, Ordering::SeqCst);
        for _ in 0..10_000_000u64 {
            if self.came[1 - me].load(Ordering::SeqCst) == 1 {
                return;
            }
            thread::yield_now();
        }
        self.missed.store(1, Ordering::SeqCst);
    }

    fn counted(&self, _node: u16, _worker: u16, _stats: Stats) {}

    fn after(&self, _node: u16, _worker: u16, _nth: u64) {}
}

fn met(rt: &impl Abort) -> [Outcome; 5] {
    [
        Outcome::Installed,
        PLACED,
        Outcome::Placed {
            worker: 1,
            floor: 1,
        },
        forward(rt, 0, 0, 1000, 0, 1),
        forward(rt, 1, 1, 1001, 1, 1),
    ]
}

static TWO_AT_ONCE: [Command; 3] = [Command::Publish(1), Command::Offer(0), Command::Offer(1)];

// Two workers serve at the same time: each waits in its serving for the other's. The flow y is at home at worker 0, and z
// at worker 1.
#[test]
fn two_workers_serve_at_once(rt: HostRuntime) {
    let setup = setup(&rt, rt.alloc(), SumHash, 2);
    let gate = Meet::new();
    let run = run::<PlainTable, _, _, _>(&rt, rt.alloc(), &setup, &TWO_AT_ONCE, 16, &gate);
    is(&rt, &gate.missed, 0, "missed");
    same_outcomes(&rt, run.outcomes(), &met(&rt));
}

static AT_HOME: [Command; 4] = [
    Command::Publish(1),
    Command::Offer(0),
    Command::Offer(0),
    Command::Offer(0),
];

// Rings of one place, workers that wait for each other in their first serving, and three packets that are at home at worker 0:
// two or three are sent, each other one found both rings full, and the history is what the run came to.
#[test]
fn rings_of_one_place_refuse(rt: HostRuntime) {
    let setup = setup(&rt, rt.alloc(), SumHash, 2);
    let gate = Meet::new();
    let run = run::<PlaceTable, _, _, _>(&rt, rt.alloc(), &setup, &AT_HOME, 1, &gate);
    is(&rt, &gate.missed, 0, "missed");
    let sent = forwarded(&run);
    holds(&rt, sent == 2 || sent == 3, "two or three");
    holds(
        &rt,
        refused(&run) == 3usize.saturating_sub(sent),
        "the others",
    );
    let agreed = agrees::<PlainTable>(&rt, rt.alloc(), &setup, &run, &packets());
    holds(&rt, agreed, "the audit");
}
