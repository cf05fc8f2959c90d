//! The three tables over many made operations: all say the same each time. With ample memory no entry is refused.
ghost use Rattle.std.specs.Prelude.{◌<◌, ◌≤◌};

use backend_names::Name;
use connection_table::{ConnTable, Entry, LruTable, PlaceTable, PlainTable, Renewed, TableKey};
use five_tuple::Flow;
use pool_versions::Backend;
use rand_core::{Rng, SeedableRng};
use rand_xoshiro::SplitMix64;
use std::alloc::Global;
use std::hash::BuildHasher;
use std::process::Abort;

// A number below a limit.
fn below(dice: &mut SplitMix64, limit: u32) -> u32 {
    (dice.next_u64() % u64::from(limit.max(1))) as u32
}

fn flow(number: u32) -> Flow {
    Flow {
        src: 0x0a00_0001u32.wrapping_add(number / 7),
        dst: 0xc000_0201,
        sport: (number % 7) as u16,
        dport: 80,
        proto: 6,
    }
}

// So many flows.
fn flows(rt: &impl Abort, alloc: Global, count: u32) -> Vec<Flow> {
    let mut flows = Vec::new(alloc);
    for number in 0..count {
        flows.push(flow(number)).expect(rt, "memory");
    }
    flows
}

// So many flows whose hashes under the fixed key have the same lowest bits, as many as are named. In a table over places they
// share one bucket, until there are more buckets than those bits tell apart.
fn crowd(rt: &impl Abort, alloc: Global, count: usize, bits: u32) -> Vec<Flow>
    requires { bits < 32 }
{
    let key = TableKey::fixed();
    let mut flows = Vec::new(alloc);
    for number in 0..1_000_000u32 {
        let hash = key.hash_one(flow(number));
        if flows.len() < count && (hash ^ (hash >> 32)) & ((1u64 << bits) - 1) == 0 {
            flows.push(flow(number)).expect(rt, "memory");
        }
    }
    assert_eq!(rt; flows.len(), count);
    flows
}

fn entry(rt: &impl Abort, addr: u32, last: u64) -> Entry {
    let name = Name::new(b"A").expect(rt, "a name");
    Entry {
        backend: Backend { name, addr },
        version: 3,
        last,
    }
}

// What is told of a renewal: the entry, and whether it was kept or stored.
fn told(renewed: Renewed) -> (Entry, bool, bool) {
    match renewed {
        Renewed::Kept(entry) => (entry, true, false),
        Renewed::Made { entry, stored } => (entry, false, stored),
    }
}

// One operation on a table, and what it says: an entry, whether it was there, and whether it was stored. A renewal keeps seven
// of eight addresses.
fn operate<T: ConnTable>(
    table: &mut T,
    kind: u32,
    flow: Flow,
    new: &Entry,
) -> Option<(Entry, bool, bool)> {
    match kind {
        0 => {
            let stored = table.store(flow, *new).is_ok();
            Some((*new, false, stored))
        }
        1 => table
            .touch(&flow, new.last)
            .map(|entry| (entry, true, false)),
        2 => table.look(&flow).map(|entry| (entry, true, false)),
        3 => table.peek(&flow).map(|entry| (entry, true, false)),
        _ => {
            let keeps = |held: &Entry| held.backend.addr % 8 != 0;
            Some(told(table.renew(flow, new.last, keeps, || *new)))
        }
    }
}

// Two tables do the same operation.
fn both<A: ConnTable, B: ConnTable>(
    rt: &impl Abort,
    tables: &mut (A, B),
    kind: u32,
    flow: Flow,
    new: &Entry,
) {
    assert_eq!(rt;
        operate(&mut tables.0, kind, flow, new),
        operate(&mut tables.1, kind, flow, new)
    );
    assert_eq!(rt; tables.0.len(), tables.1.len());
}

// Operations that are drawn, of flows that are drawn.
fn mix<A: ConnTable, B: ConnTable>(
    rt: &impl Abort,
    tables: &mut (A, B),
    flows: &[Flow],
    turns: u32,
) {
    let mut dice = SplitMix64::seed_from_u64(flows.len() as u64);
    for turn in 0..turns {
        let place = dice.next_u64() % flows.len().max(1) as u64;
        let flow = *flows.get(place as usize).expect(rt, "a flow");
        let kind = below(&mut dice, 12);
        let new = entry(rt, below(&mut dice, 100), u64::from(turn / 3));
        both(rt, tables, kind, flow, &new);
    }
}

fn made<A: ConnTable, B: ConnTable>(rt: &impl Abort, alloc: Global, limit: u32) -> (A, B)
    requires some { 0 < limit }
    requires few { limit ≤ 1000000 }
{
    let one = A::make(alloc, limit).expect(rt, "a table");
    let other = B::make(alloc, limit).expect(rt, "a table");
    (one, other)
}

// Tables of so many entries, under some flows: more than they keep, or fewer. They are emptied three times.
fn agree<A: ConnTable, B: ConnTable>(rt: &impl Abort, alloc: Global, limit: u32, flows: &[Flow])
    requires some { 0 < limit }
    requires few { limit ≤ 1000000 }
{
    let mut tables: (A, B) = made(rt, alloc, limit);
    for _ in 0..3 {
        mix(rt, &mut tables, flows, 2000);
        tables.0.clear();
        tables.1.clear();
    }
}

// The table over places beside the two others.
fn each_agrees(rt: &impl Abort, alloc: Global, limit: u32, flows: &[Flow])
    requires some { 0 < limit }
    requires few { limit ≤ 1000000 }
{
    agree::<PlaceTable, PlainTable>(rt, alloc, limit, flows);
    agree::<PlaceTable, LruTable>(rt, alloc, limit, flows);
}

#[test]
fn tables_agree(rt: HostRuntime) {
    for (limit, count) in [
        (1, 3),
        (2, 5),
        (7, 8),
        (8, 40),
        (64, 60),
        (100, 150),
        (300, 2000),
    ] {
        let flows = flows(&rt, rt.alloc(), count);
        assert!(&rt; 0 < limit && limit <= 1000);
        each_agrees(&rt, rt.alloc(), limit, flows.as_slice());
    }
}

// Flows that share one bucket, of which a group keeps twelve in lanes and the others in a chain. A full table takes the oldest
// out of the midst of a chain.
#[test]
fn tables_agree_on_one_chain(rt: HostRuntime) {
    let flows = crowd(&rt, rt.alloc(), 60, 6);
    let flows = flows.as_slice();
    each_agrees(&rt, rt.alloc(), 13, flows);
    each_agrees(&rt, rt.alloc(), 16, flows);
    each_agrees(&rt, rt.alloc(), 40, flows);
    each_agrees(&rt, rt.alloc(), 60, flows);
}

// Flows that share one bucket of 8, and at 16 and more buckets have some each: the chains are parted as the table grows.
#[test]
fn tables_agree_where_chains_grow(rt: HostRuntime) {
    let flows = crowd(&rt, rt.alloc(), 900, 3);
    each_agrees(&rt, rt.alloc(), 500, flows.as_slice());
    each_agrees(&rt, rt.alloc(), 1000, flows.as_slice());
}

// Tables of so many entries, which some more flows fill in turn.
fn fill(rt: &impl Abort, alloc: Global, limit: u32, more: u32)
    requires some { 0 < limit }
    requires few { limit ≤ 1000000 }
    requires more { more ≤ 1000000 }
{
    let flows = flows(rt, alloc, limit + more);
    let mut tables: (PlaceTable, LruTable) = made(rt, alloc, limit);
    for number in 0..limit + more {
        let new = entry(rt, number, u64::from(number));
        both(rt, &mut tables, 4, flow(number), &new);
    }
    assert_eq!(rt; tables.0.len(), limit as usize);
    mix(rt, &mut tables, flows.as_slice(), 20_000);
}

#[test]
fn large_tables_agree(rt: HostRuntime) {
    fill(&rt, rt.alloc(), 65_537, 10_000);
}

// Built, this takes two seconds; under `rt try`, which checks each step, some minutes.
#[test]
fn tables_of_a_million_entries_agree(rt: HostRuntime) {
    fill(&rt, rt.alloc(), 1_000_000, 10_000);
}
