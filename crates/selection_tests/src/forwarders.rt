//! Packets served one after another, on all three tables, with the backends that the worked examples give.
use crate::checks::{VIP, flow, flow_to, holds, same_count, same_pair, seven, version_of};
use connection_table::{ConnTable, LruTable, PlaceTable, PlainTable};
use forwarder::{Choice, Forwarder};
use hash_laws::SumHash;
use selection::{Maglev, PreparedVersion};
use std::alloc::Global;
use std::process::Abort;

type Sums = Maglev<SumHash>;

const SUMS: Sums = Maglev { hash: SumHash };

// A version with the backends A, B and C at 10.8.0.1, .2 and .3, or A at another address; which are up is given.
fn version(
    rt: &impl Abort,
    alloc: Global,
    number: u32,
    a: u32,
    up: [bool; 3],
) -> PreparedVersion<Sums> {
    let rows = [
        (b"A".as_slice(), a, up[0], 1),
        (b"B", 0x0a08_0002, up[1], 1),
        (b"C", 0x0a08_0003, up[2], 1),
    ];
    let version = version_of(rt, alloc, number, VIP, &rows);
    PreparedVersion::make(alloc, &SUMS, seven(rt), &version).expect(rt, "a prepared version")
}

// The versions of the examples: 1 all up; 2 without B; 3 all up, A at another address; 4 without A; 5 all up; 6 nobody.
static VERSIONS: [(u32, u32, [bool; 3]); 6] = [
    (1, 0x0a08_0001, [true, true, true]),
    (2, 0x0a08_0001, [true, false, true]),
    (3, 0x0a08_0009, [true, true, true]),
    (4, 0x0a08_0001, [false, true, true]),
    (5, 0x0a08_0001, [true, true, true]),
    (6, 0x0a08_0001, [false, false, false]),
];

fn versions(rt: &impl Abort, alloc: Global) -> Vec<PreparedVersion<Sums>> {
    let mut all = Vec::new(alloc);
    for (number, a, up) in VERSIONS.iter() {
        let version = version(rt, alloc, *number, *a, *up);
        all.push(version).expect(rt, "memory");
    }
    all
}

// What came of a packet: the last byte of the backend's address, 0 for none, 255 for no service, and the origin.
fn told(choice: Choice) -> (u32, u32) {
    match choice {
        Choice::Forward { backend, origin } => (backend.addr % 256, origin),
        Choice::NoService => (255, 0),
        Choice::NoBackend => (0, 0),
    }
}

// A step: the second, a source port, the version, the last byte of the backend's address and the origin that are wanted.
type ServingRow = (u64, u16, usize, u32, u32);

// A forwarder of so many entries, with a limit in microseconds or without one, and its steps.
struct Example {
    capacity: u32,
    idle: Option<u64>,
    steps: &'static [ServingRow],
}

const FIVE_SECONDS: Option<u64> = Some(5_000_000);

static EXAMPLES: [Example; 11] = [
    // One place: each other flow takes it. Two places: a hit renews.
    Example {
        capacity: 1,
        idle: None,
        steps: &[
            (0, 1006, 1, 1, 1),
            (0, 1000, 2, 1, 2),
            (0, 1006, 2, 3, 2),
            (0, 1006, 2, 3, 2),
        ],
    },
    Example {
        capacity: 2,
        idle: None,
        steps: &[
            (0, 1006, 1, 1, 1),
            (0, 1000, 2, 1, 2),
            (0, 1006, 2, 1, 1),
            (0, 1001, 2, 1, 2),
            (0, 1006, 2, 1, 1),
        ],
    },
    // A backend that is down is left.
    Example {
        capacity: 2,
        idle: None,
        steps: &[(0, 1001, 1, 2, 1), (0, 1001, 2, 1, 2)],
    },
    // An entry remains while fewer than two distinct other flows came after it.
    Example {
        capacity: 2,
        idle: None,
        steps: &[
            (0, 1006, 1, 1, 1),
            (0, 1000, 2, 1, 2),
            (0, 1000, 2, 1, 2),
            (0, 1006, 2, 1, 1),
            (0, 1000, 2, 1, 2),
            (0, 1001, 2, 1, 2),
            (0, 1006, 2, 3, 2),
        ],
    },
    // The same name at another address is another backend.
    Example {
        capacity: 2,
        idle: None,
        steps: &[(0, 1000, 1, 1, 1), (0, 1000, 3, 9, 3)],
    },
    // A version under which nothing was served leaves no trace; one under which a packet was served does.
    Example {
        capacity: 2,
        idle: None,
        steps: &[(0, 1000, 1, 1, 1), (0, 1000, 5, 1, 1)],
    },
    Example {
        capacity: 2,
        idle: None,
        steps: &[(0, 1000, 1, 1, 1), (0, 1000, 4, 2, 4), (0, 1000, 5, 2, 4)],
    },
    // Where nobody is up the entry remains as it was.
    Example {
        capacity: 2,
        idle: None,
        steps: &[(0, 1000, 1, 1, 1), (0, 1000, 6, 0, 0), (0, 1000, 5, 1, 1)],
    },
    // Five seconds are within the limit, six aren't, and a clock that steps back is no time.
    Example {
        capacity: 2,
        idle: FIVE_SECONDS,
        steps: &[
            (10, 1006, 1, 1, 1),
            (15, 1006, 2, 1, 1),
            (21, 1006, 2, 3, 2),
            (3, 1006, 2, 3, 2),
        ],
    },
    // The clock is that of the forwarder, not of the packet.
    Example {
        capacity: 2,
        idle: FIVE_SECONDS,
        steps: &[
            (10, 1006, 1, 1, 1),
            (30, 1000, 2, 1, 2),
            (12, 1006, 2, 3, 2),
        ],
    },
    // An entry past the limit isn't touched where nobody is up, and so is the one that is pushed out.
    Example {
        capacity: 2,
        idle: FIVE_SECONDS,
        steps: &[
            (0, 1006, 1, 1, 1),
            (5, 1000, 1, 1, 1),
            (6, 1006, 6, 0, 0),
            (6, 1001, 2, 1, 2),
            (6, 1000, 2, 1, 1),
        ],
    },
];

fn made<T: ConnTable>(
    rt: &impl Abort,
    alloc: Global,
    capacity: u32,
    idle: Option<u64>,
) -> Forwarder<Sums, T> {
    assert!(rt; 0 < capacity && capacity <= 1000);
    Forwarder::make(alloc, SUMS, capacity, idle).expect(rt, "room")
}

fn shows<T: ConnTable>(
    rt: &impl Abort,
    alloc: Global,
    versions: &[PreparedVersion<Sums>],
    example: &Example,
) {
    let mut forwarder: Forwarder<Sums, T> = made(rt, alloc, example.capacity, example.idle);
    for (step, (second, port, version, backend, origin)) in example.steps.iter().enumerate() {
        let prepared = versions
            .get(version.wrapping_sub(1))
            .expect(rt, "a version");
        let at = second.wrapping_mul(1_000_000);
        let served = forwarder.serve(prepared, &flow(*port), at, false);
        same_pair(rt, told(served.choice), (*backend, *origin), step);
        holds(rt, !served.unstored, "stored");
    }
}

fn shows_all<T: ConnTable>(rt: &impl Abort, alloc: Global) {
    let versions = versions(rt, alloc);
    for example in EXAMPLES.iter() {
        shows::<T>(rt, alloc, versions.as_slice(), example);
    }
}

#[test]
fn the_examples_with_a_plain_table(rt: HostRuntime) {
    shows_all::<PlainTable>(&rt, rt.alloc());
}

#[test]
fn the_examples_with_a_table_over_links(rt: HostRuntime) {
    shows_all::<LruTable>(&rt, rt.alloc());
}

#[test]
fn the_examples_with_a_table_over_places(rt: HostRuntime) {
    shows_all::<PlaceTable>(&rt, rt.alloc());
}

// A packet in a forwarder's lives, or a restart, where the version is 0: the time in microseconds, the two ports, the
// version, and whether a new entry is refused. After it: what is wanted of the packet, whether an entry was due and wasn't
// made, and how many there are.
struct PacketRow {
    at: u64,
    ports: (u16, u16),
    version: usize,
    refused: bool,
    told: (u32, u32),
    unstored: bool,
    entries: usize,
}

const RESTART: PacketRow = PacketRow {
    at: 0,
    ports: (0, 0),
    version: 0,
    refused: false,
    told: (0, 0),
    unstored: false,
    entries: 0,
};

// A packet of the flow from port 1006 to the service, for which there is one entry afterwards.
const X: PacketRow = PacketRow {
    at: 0,
    ports: (1006, 80),
    version: 1,
    refused: false,
    told: (1, 1),
    unstored: false,
    entries: 1,
};

// A packet without a service moves the clock, replacing an entry past the limit may be refused, and a restart sets the clock
// back.
static CLOCK: [PacketRow; 7] = [
    PacketRow { at: 10, ..X },
    PacketRow {
        at: 16,
        ports: (1006, 81),
        told: (255, 0),
        ..X
    },
    PacketRow {
        at: 10,
        version: 2,
        refused: true,
        told: (3, 2),
        unstored: true,
        ..X
    },
    PacketRow {
        at: 10,
        version: 2,
        told: (3, 2),
        ..X
    },
    RESTART,
    X,
    PacketRow {
        at: 6,
        version: 2,
        told: (3, 2),
        ..X
    },
];

// A packet of the flow from port 1000 to the service, whose entry is refused.
const REFUSED: PacketRow = PacketRow {
    ports: (1000, 80),
    refused: true,
    ..X
};

// A flow without a service touches nothing, a refused entry isn't made, and a restart forgets all.
static REFUSALS: [PacketRow; 5] = [
    PacketRow {
        ports: (1000, 81),
        told: (255, 0),
        entries: 0,
        ..REFUSED
    },
    PacketRow {
        unstored: true,
        entries: 0,
        ..REFUSED
    },
    PacketRow {
        refused: false,
        ..REFUSED
    },
    REFUSED,
    RESTART,
];

fn lives(rt: &impl Abort, alloc: Global, idle: Option<u64>, packets: &[PacketRow]) {
    let versions = versions(rt, alloc);
    let mut forwarder: Forwarder<Sums, PlaceTable> = made(rt, alloc, 2, idle);
    for (step, packet) in packets.iter().enumerate() {
        match versions.get(packet.version.wrapping_sub(1)) {
            None => forwarder.restart(),
            Some(prepared) => {
                let flow = flow_to(packet.ports.0, packet.ports.1);
                let served = forwarder.serve(prepared, &flow, packet.at, packet.refused);
                same_pair(rt, told(served.choice), packet.told, step);
                holds(rt, served.unstored == packet.unstored, "unstored");
            },
        }
        same_count(rt, forwarder.len(), packet.entries, "entries");
    }
}

#[test]
fn the_clock_of_a_life(rt: HostRuntime) {
    lives(&rt, rt.alloc(), Some(5), &CLOCK);
}

#[test]
fn refusals_and_restart(rt: HostRuntime) {
    lives(&rt, rt.alloc(), None, &REFUSALS);
}

// Serves 100,000 packets of so many flows in turn, from port 1000 on: how many had version 1 as their origin.
fn flooded(
    forwarder: &mut Forwarder<Sums, PlaceTable>,
    prepared: &PreparedVersion<Sums>,
    flows: u32,
) -> usize {
    let mut by_one = 0usize;
    for i in 0..100_000u32 {
        let place = u16::try_from(i.checked_rem(flows).unwrap_or(0)).unwrap_or(0);
        let served = forwarder.serve(prepared, &flow(place.wrapping_add(1000)), 0, false);
        if told(served.choice).1 == 1 {
            by_one = by_one.wrapping_add(1);
        }
    }
    by_one
}

// 100,000 packets of one flow, and of 60,000 flows, on a table of 1,000 entries.
#[test]
fn a_flood_keeps_to_the_capacity(rt: HostRuntime) {
    let prepared = version(&rt, rt.alloc(), 1, 0x0a08_0001, [true; 3]);
    let mut forwarder: Forwarder<Sums, PlaceTable> = made(&rt, rt.alloc(), 1000, None);
    for (flows, entries) in [(1, 1), (60_000, 1000)] {
        let by_one = flooded(&mut forwarder, &prepared, flows);
        same_count(&rt, by_one, 100_000, "origins");
        same_count(&rt, forwarder.len(), entries, "entries");
    }
}
