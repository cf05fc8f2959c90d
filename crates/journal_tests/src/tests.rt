//! What drivers and workers record, and what it comes to.
ghost use Rattle.std.specs.Prelude.{◌≡◌, ◌<◌, ℕ, Some, slice_get};
ghost use Rattle.cluster_node.specs.declared.packets.Packet.{Packet};
ghost use Rattle.cluster_node.specs.Records.{WasRead};

use backend_names::{Name, TableSize, Weight};
use cluster_node::{Cause, Outcome, Packet};
use five_tuple::Flow;
use hash_laws::SumHash;
use pool_versions::{Backend, Catalogue, Member, Service, Version};
use selection::Maglev;
use std::alloc::Global;
use std::process::Abort;

mod endings;
mod journals;
mod rehearsals;

type Sums = Maglev<SumHash>;

fn flow(sport: u16) -> Flow {
    Flow {
        src: 0x0a00_0001,
        dst: 0xc000_0201,
        sport,
        dport: 80,
        proto: 6,
    }
}

fn good(sport: u16) -> Packet
    ensures { WasRead (Some result) }
{
    Packet::Good {
        flow: flow(sport),
        len: 40,
        at: 0,
    }
}

// The flows y, z, x, and one cause.
fn packets() -> [Packet; 4]
    ensures { (k : ℕ) (p : Packet) → slice_get result k ≡ Some p → WasRead (Some p) }
{
    [
        good(1000),
        good(1001),
        good(1006),
        Packet::Bad(Cause::Fragment),
    ]
}

fn backend(rt: &impl Abort, place: u8) -> Backend {
    let name = Name::new(&[b'A' + place % 3]).expect(rt, "a name");
    Backend {
        name,
        addr: 0x0a08_0001 + u32::from(place % 3),
    }
}

fn member(rt: &impl Abort, place: u8, up: bool, turns: u8) -> Member {
    Member {
        backend: backend(rt, place),
        up,
        draining: false,
        weight: Weight::new(turns).expect(rt, "a weight"),
    }
}

// A version's number, the last byte of A's address, which of A, B and C are up, and how often each of them takes a turn.
type Row = (u32, u8, [bool; 3], u8);

fn members(rt: &impl Abort, alloc: Global, row: &Row) -> Vec<Member> {
    let (_, address, ups, turns) = *row;
    let mut a = member(rt, 0, ups[0], turns);
    a.backend.addr = 0x0a08_0000 + u32::from(address);
    let all = [
        a,
        member(rt, 1, ups[1], turns),
        member(rt, 2, ups[2], turns),
    ];
    Vec::from_slice(alloc, &all).expect(rt, "memory")
}

fn version(rt: &impl Abort, alloc: Global, row: &Row) -> Version {
    let service = Service {
        vip: 0xc000_0201,
        proto: 6,
        port: 80,
        members: members(rt, alloc, row),
    };
    let mut services = Vec::new(alloc);
    services.push(service).expect(rt, "memory");
    Version {
        number: row.0,
        services,
    }
}

// In version 1 all are up; in 2 B is down; in 3 A is at another address; in 4 A is down; and in 5 all are up.
static VERSIONS: [Row; 5] = [
    (1, 1, [true, true, true], 1),
    (2, 1, [true, false, true], 1),
    (3, 9, [true, true, true], 1),
    (4, 1, [false, true, true], 1),
    (5, 1, [true, true, true], 1),
];

fn seven(rt: &impl Abort) -> TableSize
    ensures { result ≡ 7 }
{
    TableSize::new(7).expect(rt, "a size")
}

fn catalogue(rt: &impl Abort, alloc: Global) -> Catalogue
    ensures { result.size ≡ 7 }
{
    let mut all = Catalogue::new(alloc, seven(rt));
    for row in VERSIONS.iter() {
        let version = version(rt, alloc, row);
        all.add(version).expect(rt, "a version");
    }
    assert!(rt; all.size().slots() == 7);
    all
}

fn forward(
    rt: &impl Abort,
    worker: u16,
    packet: u32,
    sport: u16,
    place: u8,
    origin: u32,
) -> Outcome {
    Outcome::Forward {
        node: 0,
        worker,
        packet,
        flow: flow(sport),
        backend: backend(rt, place),
        origin,
    }
}

fn holds(rt: &impl Abort, fact: bool, what: &str) {
    assert!(rt; fact, "{what}");
}

fn same_outcomes(rt: &impl Abort, found: &[Outcome], wanted: &[Outcome]) {
    assert!(rt; found == wanted, "outcomes");
}
