//! Sequences of touches and stores, on all three tables.
use crate::checks::{backend, flow, holds, same_count, same_pair};
use connection_table::{ConnTable, Entry, LruTable, PlaceTable, PlainTable};
use std::alloc::Global;
use std::process::Abort;

fn entry(rt: &impl Abort, version: u32, last: u64) -> Entry {
    Entry {
        backend: backend(rt, b"A", 0x0a08_0001),
        version,
        last,
    }
}

fn made<T: ConnTable>(rt: &impl Abort, alloc: Global, limit: u32) -> T {
    assert!(rt; 0 < limit && limit <= 1000);
    T::make(alloc, limit).expect(rt, "a table")
}

// The version of an entry, 0 for none.
fn version_of(found: Option<Entry>) -> u32 {
    match found {
        Some(found) => found.version,
        None => 0,
    }
}

// A step: a port, and a version to store, or 0 to look. What it gives: the version found, or 0 for none; how many
// entries there are after it.
type LookupRow = (u16, u32, u32, usize);

static EXAMPLES: [(u32, &[LookupRow]); 4] = [
    // With one place each new flow pushes the one before out.
    (
        1,
        &[
            (1006, 1, 0, 1),
            (1000, 2, 0, 1),
            (1006, 0, 0, 1),
            (1000, 0, 2, 1),
        ],
    ),
    // With two, a hit renews: the flow that was touched stays and the other one goes.
    (
        2,
        &[
            (1006, 1, 0, 1),
            (1000, 2, 0, 2),
            (1006, 0, 1, 2),
            (1001, 2, 0, 2),
            (1000, 0, 0, 2),
            (1006, 0, 1, 2),
        ],
    ),
    // One other flow twice is one other flow.
    (
        2,
        &[
            (1006, 1, 0, 1),
            (1000, 2, 0, 2),
            (1000, 3, 0, 2),
            (1000, 0, 3, 2),
            (1006, 0, 1, 2),
        ],
    ),
    // A flow that is there is renewed by a store, and its entry replaced.
    (
        2,
        &[
            (1006, 1, 0, 1),
            (1000, 2, 0, 2),
            (1006, 3, 0, 2),
            (1001, 4, 0, 2),
            (1000, 0, 0, 2),
            (1006, 0, 3, 2),
        ],
    ),
];

// What one step gives: what a peek finds, and what a look does.
fn stepped<T: ConnTable>(
    rt: &impl Abort,
    table: &mut T,
    port: u16,
    stored: u32,
    at: u64,
) -> (u32, u32) {
    if stored > 0 {
        table
            .store(flow(port), entry(rt, stored, at))
            .expect(rt, "room");
        return (0, 0);
    }
    let shown = version_of(table.peek(&flow(port)));
    (shown, version_of(table.look(&flow(port))))
}

fn shows<T: ConnTable>(rt: &impl Abort, alloc: Global, limit: u32, steps: &[LookupRow]) {
    let mut table: T = made(rt, alloc, limit);
    for (at, (port, stored, want, count)) in steps.iter().enumerate() {
        let found = stepped(rt, &mut table, *port, *stored, at as u64);
        same_pair(rt, found, (*want, *want), at);
        same_count(rt, table.len(), *count, "length");
    }
    table.clear();
    same_count(rt, table.len(), 0, "length when cleared");
    holds(
        rt,
        table.touch(&flow(1000), 0).is_none(),
        "nothing is touched",
    );
}

fn shows_all<T: ConnTable>(rt: &impl Abort, alloc: Global) {
    for (limit, steps) in EXAMPLES.iter() {
        shows::<T>(rt, alloc, *limit, steps);
    }
}

#[derive(Clone, Copy)]
enum Call {
    Store(u32, u64),
    Peek,
    Look,
    Touch(u64),
}

// What a call gives for the flow of a port: the version and the clock of the entry, or nothing.
fn called<T: ConnTable>(
    rt: &impl Abort,
    table: &mut T,
    port: u16,
    call: Call,
) -> Option<(u32, u64)> {
    let flow = flow(port);
    let found = match call {
        Call::Store(version, last) => {
            table
                .store(flow, entry(rt, version, last))
                .expect(rt, "room");
            None
        },
        Call::Peek => table.peek(&flow),
        Call::Look => table.look(&flow),
        Call::Touch(clock) => table.touch(&flow, clock),
    };
    let found = found?;
    Some((found.version, found.last))
}

// A peek leaves the order and the clock; a look moves the entry and leaves its clock; a touch gives the entry as it stood,
// moves it and sets its clock; and a miss changes nothing.
static CALLS: [(u16, Call, Option<(u32, u64)>); 14] = [
    (1006, Call::Store(1, 10), None),
    (1000, Call::Store(2, 20), None),
    (1006, Call::Peek, Some((1, 10))),
    (1001, Call::Touch(25), None),
    (1006, Call::Touch(30), Some((1, 10))),
    (1006, Call::Peek, Some((1, 30))),
    // 1000 was peeked at last, and goes as the one that was touched first.
    (1000, Call::Peek, Some((2, 20))),
    (1001, Call::Store(3, 40), None),
    (1000, Call::Peek, None),
    (1006, Call::Peek, Some((1, 30))),
    (1001, Call::Look, Some((3, 40))),
    (1001, Call::Peek, Some((3, 40))),
    // A clock that a touch brings is set also where it is less.
    (1006, Call::Touch(5), Some((1, 30))),
    (1006, Call::Peek, Some((1, 5))),
];

fn shows_touches<T: ConnTable>(rt: &impl Abort, alloc: Global) {
    let mut table: T = made(rt, alloc, 2);
    for (at, (port, call, want)) in CALLS.iter().enumerate() {
        let found = called(rt, &mut table, *port, *call);
        assert_eq!(rt; found, *want, "call {at}");
    }
}

#[test]
fn plain_table(rt: HostRuntime) {
    shows_all::<PlainTable>(&rt, rt.alloc());
    shows_touches::<PlainTable>(&rt, rt.alloc());
}

#[test]
fn lru_table(rt: HostRuntime) {
    shows_all::<LruTable>(&rt, rt.alloc());
    shows_touches::<LruTable>(&rt, rt.alloc());
}

#[test]
fn place_table(rt: HostRuntime) {
    shows_all::<PlaceTable>(&rt, rt.alloc());
    shows_touches::<PlaceTable>(&rt, rt.alloc());
}
