//! Splits of short histories, worked out by hand.
use crate::checks::{holds, same_text};
use backend_names::{Name, TableSize, Weight};
use cluster_node::{Cause, Event, Outcome};
use connection_table::TableKey;
use five_tuple::Flow;
use hash_laws::SumHash;
use pool_versions::{Backend, Catalogue, Member, Service, Version};
use run_report::{SplitBook, SplitCause, cause_of, push_splits};
use std::alloc::Global;
use std::process::Abort;

const VIP: u32 = 0xc000_0201;

fn backend(rt: &impl Abort, name: &[u8], addr: u32) -> Backend {
    let name = Name::new(name).expect(rt, "a name");
    Backend { name, addr }
}

#[derive(Clone, Copy, PartialEq, Eq)]
enum State {
    Up,
    Draining,
    Down,
}

// A member, by a letter, at the address of its place.
fn member(rt: &impl Abort, name: &[u8], addr: u32, state: State) -> Member {
    Member {
        backend: backend(rt, name, addr),
        up: state == State::Up,
        draining: state == State::Draining,
        weight: Weight::one(),
    }
}

// A, B and C under a version, C up.
fn version(rt: &impl Abort, alloc: Global, number: u32, a: State, b: State) -> Version {
    let members = [
        member(rt, b"A", 0x0a08_0001, a),
        member(rt, b"B", 0x0a08_0002, b),
        member(rt, b"C", 0x0a08_0003, State::Up),
    ];
    let service = Service {
        vip: VIP,
        proto: 6,
        port: 80,
        members: Vec::from_slice(alloc, &members).expect(rt, "memory"),
    };
    let mut services = Vec::new(alloc);
    services.push(service).expect(rt, "memory");
    Version { number, services }
}

// The versions of A and B in these states, numbered from 1.
fn catalogue_of(rt: &impl Abort, alloc: Global, states: &[(State, State); 3]) -> Catalogue {
    let size = TableSize::new(7).expect(rt, "a size");
    let mut all = Catalogue::new(alloc, size);
    let mut number = 0u32;
    for (a, b) in states {
        number = number.wrapping_add(1);
        let version = version(rt, alloc, number, *a, *b);
        all.add(version).expect(rt, "a version");
    }
    all
}

// All are up under version 1, B is down under version 2, and A under version 3.
fn catalogue(rt: &impl Abort, alloc: Global) -> Catalogue {
    let states = [
        (State::Up, State::Up),
        (State::Up, State::Down),
        (State::Down, State::Up),
    ];
    catalogue_of(rt, alloc, &states)
}

// B is up under version 1, drains under version 2, and is down under version 3.
fn leaving(rt: &impl Abort, alloc: Global) -> Catalogue {
    let states = [
        (State::Up, State::Up),
        (State::Up, State::Draining),
        (State::Up, State::Down),
    ];
    catalogue_of(rt, alloc, &states)
}

// The flow from this port.
fn flow(port: u16) -> Flow {
    Flow {
        src: 0x0a00_0001,
        dst: VIP,
        sport: port,
        dport: 80,
        proto: 6,
    }
}

fn serve(version: u32) -> Event {
    Event::Serve {
        node: 0,
        worker: 0,
        version,
        refused: false,
    }
}

fn forward(port: u16, backend: Backend, origin: u32) -> Outcome {
    Outcome::Forward {
        node: 0,
        worker: 0,
        packet: 0,
        flow: flow(port),
        backend,
        origin,
    }
}

// A serving: its version, the port from which its packet came, the backend's name and address, and the origin; no name where
// the packet was dropped.
type Row = (u32, u16, &'static str, u32, u32);

fn outcome_of(rt: &impl Abort, row: &Row) -> Outcome {
    let (_, port, name, addr, origin) = *row;
    if name.is_empty() {
        return Outcome::Dropped {
            packet: 3,
            cause: Cause::NoBackend,
        };
    }
    forward(port, backend(rt, name.as_bytes(), addr), origin)
}

// The book of these servings, noted one by one.
fn book_of(rt: &impl Abort, alloc: Global, rows: &[Row]) -> SplitBook<()> {
    let mut book = SplitBook::new(alloc, TableKey::fixed());
    for row in rows {
        let outcome = outcome_of(rt, row);
        book.note(&serve(row.0), &outcome, ()).expect(rt, "memory");
    }
    book
}

fn tells_by(
    rt: &impl Abort,
    alloc: Global,
    catalogue: &Catalogue,
    book: &SplitBook<()>,
    lines: &str,
) {
    let mut text = String::new(alloc);
    push_splits(&mut text, &SumHash, catalogue, book).expect(rt, "memory");
    same_text(rt, text.as_str(), lines);
}

fn tells(rt: &impl Abort, alloc: Global, book: &SplitBook<()>, lines: &str) {
    tells_by(rt, alloc, &catalogue(rt, alloc), book, lines);
}

#[test]
fn nothing_was_sent(rt: HostRuntime) {
    let mut book = SplitBook::new(rt.alloc(), TableKey::fixed());
    let counts = "flows 0\nsplit 0\ndown 0\nmoved 0\n";
    tells(&rt, rt.alloc(), &book, counts);
    let installed = Event::Install {
        node: 0,
        version: 1,
    };
    book.note(&installed, &Outcome::Installed, ())
        .expect(&rt, "memory");
    tells(&rt, rt.alloc(), &book, counts);
    holds(&rt, book.flows() == 0, "no flows");
    holds(&rt, book.splits().is_empty(), "no splits");
}

// One flow is split twice, its packets of another flow and a drop in between; the other remains.
static TWO_SPLITS: [Row; 7] = [
    (1, 1006, "A", 0x0a08_0001, 1),
    (1, 1000, "A", 0x0a08_0001, 1),
    (2, 1006, "C", 0x0a08_0003, 2),
    (2, 0, "", 0, 0),
    (2, 1006, "C", 0x0a08_0003, 2),
    (2, 1000, "A", 0x0a08_0001, 1),
    (3, 1006, "A", 0x0a08_0001, 1),
];

#[test]
fn two_splits_of_one_flow(rt: HostRuntime) {
    let book = book_of(&rt, rt.alloc(), &TWO_SPLITS);
    let lines =
        "split tcp 10.0.0.1:1006>192.0.2.1:80 events 0 2 slot 5 version 1 A@10.8.0.1 version 2 C@10.8.0.3 moved
split tcp 10.0.0.1:1006>192.0.2.1:80 events 4 6 slot 5 version 2 C@10.8.0.3 version 1 A@10.8.0.1 moved
flows 2
split 2
down 0
moved 2
";
    tells(&rt, rt.alloc(), &book, lines);
}

// The same name at another address is another backend, and the old one isn't up; nor is one that is down under the version
// of the later serving, whatever its origin says.
static ALL_DOWN: [Row; 4] = [
    (1, 1000, "B", 0x0a08_0009, 1),
    (1, 1000, "B", 0x0a08_0002, 1),
    (2, 1000, "C", 0x0a08_0003, 1),
    (9, 1000, "B", 0x0a08_0002, 3),
];

#[test]
fn causes(rt: HostRuntime) {
    let book = book_of(&rt, rt.alloc(), &ALL_DOWN);
    let catalogue = catalogue(&rt, rt.alloc());
    holds(&rt, book.flows() == 1, "one flow");
    holds(&rt, book.splits().len() == 3, "three splits");
    for (place, split) in book.splits().iter().enumerate() {
        holds(&rt, cause_of(&catalogue, split) == SplitCause::Down, "down");
        holds(&rt, split.first.number == place as u64, "the first");
        holds(&rt, split.later.number > split.first.number, "the later");
    }
}

// What a serving of two flows did. The flow of the even ones changes its backend at each, and the other never.
fn outcome_at(rt: &impl Abort, number: u32) -> Outcome {
    match number % 4 {
        0 => forward(1006, backend(rt, b"A", 0x0a08_0001), 1),
        2 => forward(1006, backend(rt, b"C", 0x0a08_0003), 1),
        _ => forward(1000, backend(rt, b"A", 0x0a08_0001), 1),
    }
}

// A book that keeps a number beside each send, of so many of these servings.
fn book_with_numbers(rt: &impl Abort, alloc: Global, servings: u32) -> SplitBook<u32> {
    let mut book = SplitBook::new(alloc, TableKey::fixed());
    for number in 0..servings {
        let outcome = outcome_at(rt, number);
        book.note(&serve(1), &outcome, number).expect(rt, "memory");
    }
    book
}

// Many sends: each is compared once, in order, with what was kept beside it.
#[test]
fn many_sends(rt: HostRuntime) {
    let book = book_with_numbers(&rt, rt.alloc(), 3000);
    holds(&rt, book.flows() == 2, "two flows");
    holds(&rt, book.splits().len() == 1499, "all splits");
    for (place, beside) in book.besides().iter().enumerate() {
        let first = (place as u64).wrapping_mul(2);
        holds(&rt, u64::from(beside.first) == first, "beside the first");
        holds(
            &rt,
            u64::from(beside.later) == first.wrapping_add(2),
            "beside the later",
        );
    }
    for (place, split) in book.splits().iter().enumerate() {
        let first = (place as u64).wrapping_mul(2);
        holds(&rt, split.first.number == first, "the first");
    }
}

// The book of a history is that of its events noted one by one, as far as both lists go.
#[test]
fn a_history(rt: HostRuntime) {
    let events = [serve(1), serve(2), serve(3)];
    let a = backend(&rt, b"A", 0x0a08_0001);
    let c = backend(&rt, b"C", 0x0a08_0003);
    let outcomes = [forward(1006, a, 1), forward(1006, c, 2)];
    let book = SplitBook::of_history(rt.alloc(), TableKey::fixed(), &events, &outcomes).expect(
        &rt, "memory",
    );
    let lines =
        "split tcp 10.0.0.1:1006>192.0.2.1:80 events 0 1 slot 5 version 1 A@10.8.0.1 version 2 C@10.8.0.3 moved
flows 1
split 1
down 0
moved 1
";
    tells(&rt, rt.alloc(), &book, lines);
}

// While B drains its flow may have been sent elsewhere. Version 3 has it down: it drained after version 1 chose it, and not
// after version 3 did.
static LEAVING: [Row; 6] = [
    (1, 1006, "B", 0x0a08_0002, 1),
    (2, 1006, "A", 0x0a08_0001, 2),
    (2, 1006, "B", 0x0a08_0002, 2),
    (3, 1006, "A", 0x0a08_0001, 3),
    (3, 1006, "B", 0x0a08_0002, 3),
    (3, 1006, "C", 0x0a08_0003, 3),
];

#[test]
fn a_server_that_drained(rt: HostRuntime) {
    let book = book_of(&rt, rt.alloc(), &LEAVING);
    let lines =
        "split tcp 10.0.0.1:1006>192.0.2.1:80 events 0 1 slot 5 version 1 B@10.8.0.2 version 2 A@10.8.0.1 moved
split tcp 10.0.0.1:1006>192.0.2.1:80 events 1 2 slot 5 version 2 A@10.8.0.1 version 2 B@10.8.0.2 moved
split tcp 10.0.0.1:1006>192.0.2.1:80 events 2 3 slot 5 version 2 B@10.8.0.2 version 3 A@10.8.0.1 drained
split tcp 10.0.0.1:1006>192.0.2.1:80 events 3 4 slot 5 version 3 A@10.8.0.1 version 3 B@10.8.0.2 moved
split tcp 10.0.0.1:1006>192.0.2.1:80 events 4 5 slot 5 version 3 B@10.8.0.2 version 3 C@10.8.0.3 down
flows 1
split 5
down 1
moved 3
drained 1
";
    tells_by(&rt, rt.alloc(), &leaving(&rt, rt.alloc()), &book, lines);
}

// A count of those that drained is printed as soon as somebody drains in some version.
#[test]
fn nothing_was_sent_while_some_drain(rt: HostRuntime) {
    let book = SplitBook::new(rt.alloc(), TableKey::fixed());
    let lines = "flows 0\nsplit 0\ndown 0\nmoved 0\ndrained 0\n";
    tells_by(&rt, rt.alloc(), &leaving(&rt, rt.alloc()), &book, lines);
}
