use crate::checks::{Row, VIP, backend, flow, flow_to, holds, members_of, seven, version_of};
use backend_names::{TableSize, Weight};
use five_tuple::Flow;
use hash_laws::{AnyHash, Fnv, SumHash};
use pool_versions::{Backend, Service, Version};
use selection::{
    Maglev, MaglevTable, PlainHash, PrepareFault, PreparedVersion, PreparedVersions, RoundRobin,
    Scheme, TableStore, maglev_and_plain_hash_are_steady,
};
use std::alloc::Global;
use std::process::Abort;

const A: u32 = 0x0a08_0001;

const B: u32 = 0x0a08_0002;

const C: u32 = 0x0a08_0003;

const ALL: [bool; 3] = [true; 3];

const WITHOUT_B: [bool; 3] = [true, false, true];

const NOBODY: [bool; 3] = [false; 3];

// Version 3 of C, A and B, with a weight of A.
fn weighed_version(rt: &impl Abort, alloc: Global, ups: [bool; 3], turns: u8) -> Version {
    let rows: [Row<'_>; 3] = [
        (b"C", C, ups[2], 1),
        (b"A", A, ups[0], turns),
        (b"B", B, ups[1], 1),
    ];
    version_of(rt, alloc, 3, VIP, &rows)
}

fn prepared<S: Scheme>(
    rt: &impl Abort,
    alloc: Global,
    scheme: S,
    version: &Version,
) -> PreparedVersion<S> {
    PreparedVersion::make(alloc, &scheme, seven(rt), version).expect(rt, "a prepared version")
}

fn prepared_after<S: Scheme>(
    rt: &impl Abort,
    alloc: Global,
    scheme: S,
    version: &Version,
    before: &PreparedVersion<S>,
) -> PreparedVersion<S> {
    PreparedVersion::make_after(alloc, &scheme, seven(rt), version, before).expect(
        rt,
        "a prepared version",
    )
}

fn backends(rt: &impl Abort, alloc: Global, rows: &[(&[u8], u32)]) -> Vec<Backend> {
    let mut all = Vec::new(alloc);
    for (name, addr) in rows {
        all.push(backend(rt, name, *addr)).expect(rt, "memory");
    }
    all
}

// The table of backends that weigh alike.
fn unweighed<H: hash_laws::FlowHash>(
    rt: &impl Abort,
    alloc: Global,
    hash: H,
    size: TableSize,
    ups: &[Backend],
) -> Result<MaglevTable, PrepareFault> {
    let weights = vec![in alloc; Weight::one(); ups.len()].expect(rt, "memory");
    Maglev { hash }.table(alloc, size, ups, weights.as_slice())
}

// The address that a table gives a slot.
fn address_at(table: &MaglevTable, slot: u32) -> Option<u32> {
    if slot >= table.size().slots() {
        return None;
    }
    Some(table.backend_at(slot)?.addr)
}

// The backends of a table of 7 slots, and the address that each slot has, 0 for none.
static TABLES: [(&[(&[u8], u32)], [u32; 7]); 3] = [
    (&[(b"A", A), (b"B", B), (b"C", C)], [B, A, B, C, C, A, A]),
    (&[(b"A", A), (b"C", C)], [A, A, A, C, C, C, A]),
    (&[], [0; 7]),
];

fn has_slots(rt: &impl Abort, table: &MaglevTable, addrs: &[u32; 7]) {
    for (slot, addr) in addrs.iter().enumerate() {
        let found = address_at(table, slot as u32).unwrap_or(0);
        assert_eq!(rt; found, *addr, "at {slot}");
    }
}

fn shows_table(rt: &impl Abort, alloc: Global, rows: &[(&[u8], u32)], addrs: &[u32; 7]) {
    let ups = backends(rt, alloc, rows);
    let table = unweighed(rt, alloc, SumHash, seven(rt), ups.as_slice()).expect(rt, "a table");
    holds(rt, table.size().slots() == 7, "seven slots");
    holds(rt, table.ups() == ups.as_slice(), "the backends");
    has_slots(rt, &table, addrs);
}

#[test]
fn tables_by_the_sum_hash(rt: HostRuntime) {
    for (rows, addrs) in TABLES.iter() {
        shows_table(&rt, rt.alloc(), rows, addrs);
    }
}

// As many backends as slots have a table, and one more is too many.
#[test]
fn eight_backends_for_seven_slots(rt: HostRuntime) {
    let eight = [backend(&rt, b"A", A); 8];
    let made = unweighed(&rt, rt.alloc(), SumHash, seven(&rt), &eight[..7]);
    holds(&rt, made.is_ok(), "seven");
    let refused = unweighed(&rt, rt.alloc(), SumHash, seven(&rt), &eight);
    assert_eq!(rt; refused.err(), Some(PrepareFault::TooMany));
}

// The addresses that a scheme chooses at the turns 0, 1 and 2, through its bound, 0 for none.
fn chosen<S: Scheme>(
    rt: &impl Abort,
    alloc: Global,
    scheme: S,
    ups: [bool; 3],
    sport: u16,
) -> [u32; 3] {
    let version = weighed_version(rt, alloc, ups, 1);
    let prepared = prepared(rt, alloc, scheme, &version);
    holds(rt, prepared.number() == 3, "the number");
    holds(rt, prepared.size().slots() == 7, "the size");
    holds(rt, prepared.scheme() == scheme, "the scheme");
    holds(
        rt,
        prepared.find(&flow(sport)).is_some(),
        "what was prepared",
    );
    let ready = prepared.ready(&flow(sport)).expect(rt, "a service");
    let _ = ready.prepared();
    let mut addrs = [0; 3];
    for turn in 0..3u64 {
        if let Some(backend) = ready.choose(&flow(sport), turn) {
            addrs[turn as usize] = backend.addr;
        }
    }
    addrs
}

// Which backends are up, a source port, and the addresses at the turns 0, 1 and 2.
type Choices = ([bool; 3], u16, [u32; 3]);

static BY_MAGLEV: [Choices; 6] = [
    (ALL, 1000, [A; 3]),
    (ALL, 1001, [B; 3]),
    (WITHOUT_B, 1001, [A; 3]),
    (ALL, 1006, [A; 3]),
    (WITHOUT_B, 1006, [C; 3]),
    (NOBODY, 1000, [0; 3]),
];

static BY_PLAIN_HASH: [Choices; 3] = [
    (ALL, 1000, [C; 3]),
    (WITHOUT_B, 1000, [C; 3]),
    (NOBODY, 1000, [0; 3]),
];

static BY_TURNS: [Choices; 3] = [
    (ALL, 1000, [A, B, C]),
    (WITHOUT_B, 1000, [A, C, A]),
    (NOBODY, 1000, [0; 3]),
];

fn chooses<S: Scheme>(rt: &impl Abort, alloc: Global, scheme: S, rows: &[Choices]) {
    for (at, (ups, sport, addrs)) in rows.iter().enumerate() {
        let found = chosen(rt, alloc, scheme, *ups, *sport);
        assert_eq!(rt; found, *addrs, "choice {at}");
    }
}

#[test]
fn each_scheme_chooses(rt: HostRuntime) {
    chooses(&rt, rt.alloc(), Maglev { hash: SumHash }, &BY_MAGLEV);
    chooses(&rt, rt.alloc(), PlainHash { hash: SumHash }, &BY_PLAIN_HASH);
    chooses(&rt, rt.alloc(), RoundRobin, &BY_TURNS);
    let steady = maglev_and_plain_hash_are_steady::<Fnv>() && !RoundRobin::STEADY;
    holds(&rt, steady, "which are steady");
}

// A port of the service's address, a backend's name and address, and whether it is up where B is down.
static PAIRS: [(u16, &[u8], u32, bool); 6] = [
    (80, b"A", A, true),
    (80, b"A", B, false),
    (80, b"C", A, false),
    (80, b"B", B, false),
    (80, b"C", C, true),
    (81, b"A", A, false),
];

#[test]
fn a_pair_is_up(rt: HostRuntime) {
    let version = weighed_version(&rt, rt.alloc(), WITHOUT_B, 1);
    let prepared = prepared(&rt, rt.alloc(), Maglev { hash: SumHash }, &version);
    for (dport, name, addr, up) in PAIRS.iter() {
        let backend = backend(&rt, name, *addr);
        let found = prepared.is_up(&flow_to(1000, *dport), &backend);
        holds(&rt, found == *up, "a pair");
    }
    let elsewhere = flow_to(1000, 81);
    holds(&rt, prepared.find(&elsewhere).is_none(), "nothing is found");
    holds(
        &rt,
        prepared.ready(&elsewhere).is_none(),
        "nothing is ready",
    );
}

// A version of one service of eight members of the addresses 0 to 7, of which the first ones are up.
fn version_of_eight(rt: &impl Abort, alloc: Global, names: &[u8; 8], ups: usize) -> Version {
    let mut rows: [Row<'_>; 8] = [(&[], 0, false, 1); 8];
    for (number, name) in names.chunks(1).enumerate() {
        if number < 8 {
            rows[number] = (name, number as u32, number < ups, 1);
        }
    }
    version_of(rt, alloc, 1, 1, &rows)
}

#[test]
fn more_up_backends_than_slots(rt: HostRuntime) {
    for (ups, refused) in [(7usize, None), (8, Some(PrepareFault::TooMany))] {
        let version = version_of_eight(&rt, rt.alloc(), b"abcdefgh", ups);
        let made = PreparedVersion::make(rt.alloc(), &RoundRobin, seven(&rt), &version);
        assert_eq!(rt; made.err(), refused);
    }
}

// Which of eight pairs of a name and a number are up.
fn which_are_up(rt: &impl Abort, alloc: Global, names: &[u8; 8], pairs: &[u8; 8]) -> [bool; 8] {
    let version = version_of_eight(rt, alloc, names, 7);
    let prepared = prepared(rt, alloc, RoundRobin, &version);
    let flow = Flow {
        dst: 1,
        ..flow(1000)
    };
    let mut are_up = [false; 8];
    for (number, name) in pairs.iter().enumerate() {
        are_up[number] = prepared.is_up(&flow, &backend(rt, &[*name], number as u32));
    }
    are_up
}

const BUT_THE_LAST: [bool; 8] = [true, true, true, true, true, true, true, false];

// Names of eight backends, names of eight pairs, and which of the pairs are up.
static EIGHTS: [(&[u8; 8], &[u8; 8], [bool; 8]); 11] = [
    (b"abcdefgh", b"abcdefgh", BUT_THE_LAST),
    (b"hgfedcba", b"hgfedcba", BUT_THE_LAST),
    (b"dbfaceg0", b"dbfaceg0", BUT_THE_LAST),
    (b"zzzzzzzz", b"zzzzzzzz", BUT_THE_LAST),
    (b"bbbaaacc", b"bbbaaacc", BUT_THE_LAST),
    (b"abcdefgh", b"ZZZZZZZZ", [false; 8]),
    (b"hgfedcba", b"ZZZZZZZZ", [false; 8]),
    (b"dbfaceg0", b"ZZZZZZZZ", [false; 8]),
    (b"zzzzzzzz", b"ZZZZZZZZ", [false; 8]),
    (b"bbbaaacc", b"ZZZZZZZZ", [false; 8]),
    (
        b"bbbaaacc",
        b"bcbaaaac",
        [true, false, true, true, true, true, false, false],
    ),
];

// Version 3 of A, which is up, B, which drains, and C, which is down.
fn draining_version(rt: &impl Abort, alloc: Global) -> Version {
    let rows: [Row<'_>; 3] = [(b"C", C, false, 1), (b"A", A, true, 1), (b"B", B, false, 1)];
    let mut version = version_of(rt, alloc, 3, VIP, &rows);
    if let Some(service) = version.services.as_mut_slice().get_mut(0) {
        if let Some(member) = service.members.as_mut_slice().get_mut(2) {
            member.draining = true;
        }
    }
    version
}

// Who drains is never chosen, and a flow that has it keeps it.
#[test]
fn a_draining_backend_is_kept_and_not_chosen(rt: HostRuntime) {
    let version = draining_version(&rt, rt.alloc());
    let prepared = prepared(&rt, rt.alloc(), Maglev { hash: SumHash }, &version);
    has_addresses(&rt, &prepared, [A; 3]);
    let ready = prepared.ready(&flow(1000)).expect(&rt, "a service");
    let states = [
        (b"A", A, true, true),
        (b"B", B, false, true),
        (b"C", C, false, false),
    ];
    for (name, addr, is_up, keeps) in states {
        let backend = backend(&rt, name, addr);
        holds(&rt, ready.is_up(&backend) == is_up, "up");
        holds(&rt, ready.keeps(&backend) == keeps, "kept");
    }
    holds(&rt, !ready.keeps(&backend(&rt, b"B", A)), "another address");
}

#[test]
fn each_up_backend_is_found(rt: HostRuntime) {
    for (names, pairs, are_up) in EIGHTS.iter() {
        let found = which_are_up(&rt, rt.alloc(), names, pairs);
        assert_eq!(rt; found, *are_up);
    }
}

// The address that a flow has under a prepared version.
fn address_of<S: Scheme>(prepared: &PreparedVersion<S>, flow: &Flow) -> Option<u32> {
    let backend = prepared.ready(flow)?.choose(flow, 0)?;
    Some(backend.addr)
}

// The addresses that the flows of the ports 1000, 1001 and 1006 have under a prepared version.
fn addresses<S: Scheme>(prepared: &PreparedVersion<S>) -> [u32; 3] {
    [
        address_of(prepared, &flow(1000)).unwrap_or(0),
        address_of(prepared, &flow(1001)).unwrap_or(0),
        address_of(prepared, &flow(1006)).unwrap_or(0),
    ]
}

fn has_addresses<S: Scheme>(rt: &impl Abort, prepared: &PreparedVersion<S>, wanted: [u32; 3]) {
    assert_eq!(rt; addresses(prepared), wanted);
}

// Versions one after another: which backends are up, how often A takes a turn, and the addresses of three flows.
type Chain = ([bool; 3], u8, [u32; 3]);

// By the tables of the sum hash for 7 slots: B A B C C A A of all, A A A C C C A without B, and A A B C A B A where A counts
// three times.
static CHAIN: [Chain; 7] = [
    (ALL, 1, [A, B, A]),
    (ALL, 1, [A, B, A]),
    (WITHOUT_B, 1, [A, A, C]),
    (ALL, 1, [A, B, A]),
    (ALL, 3, [A, A, B]),
    (ALL, 3, [A, A, B]),
    (ALL, 1, [A, B, A]),
];

// Each version is prepared after the one before it, which stays as it was, and keeps what it shares with that one when that
// one is gone.
#[test]
fn a_version_after_another(rt: HostRuntime) {
    let maglev = Maglev { hash: SumHash };
    let all = weighed_version(&rt, rt.alloc(), ALL, 1);
    let mut before = prepared(&rt, rt.alloc(), maglev, &all);
    let mut last = [A, B, A];
    for (ups, turns, wanted) in CHAIN.iter() {
        let version = weighed_version(&rt, rt.alloc(), *ups, *turns);
        let after = prepared_after(&rt, rt.alloc(), maglev, &version, &before);
        has_addresses(&rt, &before, last);
        has_addresses(&rt, &after, *wanted);
        before = after;
        last = *wanted;
    }
    has_addresses(&rt, &before, last);
}

// The same from one store: what was prepared of a list serves it when it comes back after others.
#[test]
fn versions_from_one_store(rt: HostRuntime) {
    let maglev = Maglev { hash: SumHash };
    let mut store = TableStore::new(rt.alloc());
    for (ups, turns, wanted) in CHAIN.iter() {
        let version = weighed_version(&rt, rt.alloc(), *ups, *turns);
        let made = PreparedVersion::make_from(
            rt.alloc(),
            &maglev,
            seven(&rt),
            &version,
            &mut store,
        ).expect(&rt, "a prepared version");
        has_addresses(&rt, &made, *wanted);
    }
}

// Version 3 of C, B, and A at another address.
fn moved_version(rt: &impl Abort, alloc: Global) -> Version {
    let rows: [Row<'_>; 3] = [(b"C", C, true, 1), (b"A", 99, true, 1), (b"B", B, true, 1)];
    version_of(rt, alloc, 3, VIP, &rows)
}

// A table is of names: the flows of A go to its new address, and the version before stays as it was.
fn an_address_moves<S: Scheme>(
    rt: &impl Abort,
    alloc: Global,
    scheme: S,
    old: [u32; 3],
    new: [u32; 3],
) {
    let all = weighed_version(rt, alloc, ALL, 1);
    let moved = moved_version(rt, alloc);
    let before = prepared(rt, alloc, scheme, &all);
    let after = prepared_after(rt, alloc, scheme, &moved, &before);
    has_addresses(rt, &before, old);
    has_addresses(rt, &after, new);
    let back = prepared_after(rt, alloc, scheme, &all, &after);
    has_addresses(rt, &back, old);
}

#[test]
fn an_address_moves_and_the_slots_stay(rt: HostRuntime) {
    let maglev = Maglev { hash: SumHash };
    an_address_moves(&rt, rt.alloc(), maglev, [A, B, A], [99, B, 99]);
    an_address_moves(&rt, rt.alloc(), RoundRobin, [A; 3], [99; 3]);
}

// Versions are prepared one after another. One with more up backends than slots is refused, and leaves them as they were.
#[test]
fn versions_prepared_in_one_place(rt: HostRuntime) {
    let maglev = Maglev { hash: SumHash };
    let mut versions = PreparedVersions::new(rt.alloc());
    let long = version_of_eight(&rt, rt.alloc(), b"abcdefgh", 8);
    for (ups, turns, wanted) in CHAIN.iter() {
        let version = weighed_version(&rt, rt.alloc(), *ups, *turns);
        let put = versions.prepare(rt.alloc(), &maglev, seven(&rt), &version);
        holds(&rt, put.is_ok(), "a prepared version");
        let refused = versions.prepare(rt.alloc(), &maglev, seven(&rt), &long);
        assert_eq!(rt; refused.err(), Some(PrepareFault::TooMany));
        has_addresses(&rt, versions.last().expect(&rt, "a version"), *wanted);
    }
    holds(&rt, versions.find(1).is_none(), "no refused version");
}

#[test]
fn a_version_of_another_size(rt: HostRuntime) {
    let maglev = Maglev { hash: SumHash };
    let all = weighed_version(&rt, rt.alloc(), ALL, 1);
    let before = prepared(&rt, rt.alloc(), maglev, &all);
    let thirteen = TableSize::new(13).expect(&rt, "a size");
    let larger = PreparedVersion::make_after(rt.alloc(), &maglev, thirteen, &all, &before).expect(
        &rt, "memory",
    );
    let table = larger.find(&flow(1000)).expect(&rt, "a table");
    holds(&rt, table.size().slots() == 13, "thirteen slots");
}

// A plain hash knows no weights.
#[test]
fn weights_of_a_plain_hash(rt: HostRuntime) {
    let plain = PlainHash { hash: SumHash };
    let all = weighed_version(&rt, rt.alloc(), ALL, 1);
    let heavy = weighed_version(&rt, rt.alloc(), ALL, 3);
    let light = prepared(&rt, rt.alloc(), plain, &all);
    let weighty = prepared(&rt, rt.alloc(), plain, &heavy);
    has_addresses(&rt, &light, addresses(&weighty));
}

fn is_made_from(rt: &impl Abort, found: &Version, version: &Version, other: &Version) {
    holds(rt, found.same(version), "the version");
    holds(rt, !found.same(other), "no other version");
}

// What a version was made from is known by it, also where it shares tables with the one before, and outlives it.
#[test]
fn a_version_tells_what_it_was_made_from(rt: HostRuntime) {
    let maglev = Maglev { hash: SumHash };
    let all = weighed_version(&rt, rt.alloc(), ALL, 1);
    let heavy = weighed_version(&rt, rt.alloc(), ALL, 3);
    let first = prepared(&rt, rt.alloc(), maglev, &all);
    is_made_from(&rt, first.version(), &all, &heavy);
    let second = prepared_after(&rt, rt.alloc(), maglev, &heavy, &first);
    is_made_from(&rt, second.version(), &heavy, &all);
    let third = prepared_after(&rt, rt.alloc(), maglev, &heavy, &second);
    let kept = third.share_version().expect(&rt, "an owner more");
    drop(first);
    drop(second);
    drop(third);
    is_made_from(&rt, &kept, &heavy, &all);
}

// Hashes of two kinds: what one prepared doesn't serve the other.
#[test]
fn a_version_after_one_of_another_hash(rt: HostRuntime) {
    let all = weighed_version(&rt, rt.alloc(), ALL, 1);
    let first = prepared(&rt, rt.alloc(), Maglev { hash: AnyHash::Fnv }, &all);
    let by_sum = Maglev { hash: AnyHash::Sum };
    let second = prepared_after(&rt, rt.alloc(), by_sum, &all, &first);
    has_addresses(&rt, &second, [A, B, A]);
}

// A service whose only backend has its number as its address.
fn service(rt: &impl Abort, alloc: Global, number: u32) -> Service {
    let key = if number % 3 == 2 { number - 1 } else { number };
    Service {
        vip: key / 4,
        proto: (key % 2) as u8,
        port: (key / 2 % 2) as u16,
        members: members_of(rt, alloc, &[(b"A", number, true, 1)]),
    }
}

// 600 services, of which each third has the key of the one before it.
fn many_services(rt: &impl Abort, alloc: Global) -> Version {
    let mut services = Vec::new(alloc);
    for number in 0..600u32 {
        services
            .push(service(rt, alloc, number))
            .expect(rt, "memory");
    }
    Version {
        number: 1,
        services,
    }
}

// What a flow is wanted to have, whose key is this number: a third's key is no service's.
fn wanted_of(key: u32) -> Option<u32> {
    if key % 3 == 2 || key >= 600 {
        None
    } else {
        Some(key)
    }
}

#[test]
fn a_service_among_many(rt: HostRuntime) {
    let version = many_services(&rt, rt.alloc());
    let prepared = prepared(&rt, rt.alloc(), RoundRobin, &version);
    for key in 0..604u32 {
        let flow = Flow {
            src: 1,
            dst: key / 4,
            sport: 1,
            dport: (key / 2 % 2) as u16,
            proto: (key % 2) as u8,
        };
        assert_eq!(rt; address_of(&prepared, &flow), wanted_of(key), "key {key}");
    }
}

// The preparation of a version of this number, without services.
fn numbered(rt: &impl Abort, alloc: Global, number: u32) -> PreparedVersion<RoundRobin> {
    let version = Version {
        number,
        services: Vec::new(alloc),
    };
    prepared(rt, alloc, RoundRobin, &version)
}

fn has_number(rt: &impl Abort, found: Option<&PreparedVersion<RoundRobin>>, wanted: Option<u32>) {
    assert_eq!(rt; found.map(|version| version.number()), wanted);
}

fn puts(rt: &impl Abort, alloc: Global, versions: &mut PreparedVersions<RoundRobin>, number: u32) {
    let prepared = numbered(rt, alloc, number);
    versions.put(prepared).expect(rt, "memory");
    has_number(rt, versions.last(), Some(number));
}

static PUT: [u32; 5] = [700, 3, 4_294_967_295, 9, 3];

static FOUND: [(u32, Option<u32>); 6] = [
    (3, Some(3)),
    (9, Some(9)),
    (700, Some(700)),
    (4_294_967_295, Some(4_294_967_295)),
    (0, None),
    (8, None),
];

#[test]
fn versions_by_number(rt: HostRuntime) {
    let mut versions = PreparedVersions::new(rt.alloc());
    has_number(&rt, versions.last(), None);
    for number in PUT.iter() {
        puts(&rt, rt.alloc(), &mut versions, *number);
    }
    for (number, found) in FOUND.iter() {
        has_number(&rt, versions.find(*number), *found);
    }
}

// As many backends as the largest table has slots, each with its number as its address.
fn numerous(rt: &impl Abort, alloc: Global) -> Vec<Backend> {
    let mut ups = Vec::new(alloc);
    for number in 0..65537u32 {
        let letters = [
            b'a' + (number % 16) as u8,
            b'a' + (number / 16 % 16) as u8,
            b'a' + (number / 256 % 16) as u8,
            b'a' + (number / 4096 % 16) as u8,
            b'a' + (number / 65536) as u8,
        ];
        ups.push(backend(rt, &letters, number)).expect(rt, "memory");
    }
    ups
}

// One more backend than two bytes can number: each has one slot.
#[test]
fn more_backends_than_two_bytes_tell_apart(rt: HostRuntime) {
    let size = TableSize::new(65537).expect(&rt, "a size");
    let ups = numerous(&rt, rt.alloc());
    let table = unweighed(&rt, rt.alloc(), Fnv, size, ups.as_slice()).expect(&rt, "a table");
    let mut named = vec![in rt.alloc(); false; 65537].expect(&rt, "memory");
    for slot in 0..65537u32 {
        let place = address_at(&table, slot).expect(&rt, "a backend") as usize;
        holds(
            &rt,
            named.get(place) == Some(&false),
            "a backend with one slot",
        );
        if let Some(named) = named.as_mut_slice().get_mut(place) {
            *named = true;
        }
    }
}
