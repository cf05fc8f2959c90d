//! A flow's entry is renewed with one look-up: where the caller keeps it, it is touched, otherwise a new one is stored.
use backend_names::Name;
use connection_table::{ConnTable, Entry, LruTable, PlaceTable, PlainTable, Renewed};
use five_tuple::Flow;
use pool_versions::Backend;
use std::alloc::Global;
use std::process::Abort;

fn flow(sport: u16) -> Flow {
    Flow {
        src: 0x0a00_0001,
        dst: 0xc000_0201,
        sport,
        dport: 80,
        proto: 6,
    }
}

fn entry(rt: &impl Abort, addr: u32, last: u64) -> Entry {
    let name = Name::new(b"A").expect(rt, "a name");
    Entry {
        backend: Backend { name, addr },
        version: 3,
        last,
    }
}

// The address and the clock of what is there.
fn told(held: Option<Entry>) -> Option<(u32, u64)> {
    match held {
        Some(held) => Some((held.backend.addr, held.last)),
        None => None,
    }
}

// A table of two entries: each turn names a flow's port, the address of the entry that is kept, the address of a new one, the
// clock, what is kept, and what is there afterwards. Where a third flow comes, the least recently renewed goes.
type Turn = (u16, u32, u32, u64, Option<(u32, u64)>, (u32, u64));

static TURNS: [Turn; 8] = [
    (1, 10, 10, 100, None, (10, 100)),
    (2, 10, 20, 101, None, (20, 101)),
    // Another address than that which is kept: a new entry in its place.
    (1, 11, 11, 102, None, (11, 102)),
    // What is kept is touched, and is handed out as it was.
    (1, 11, 99, 103, Some((11, 102)), (11, 103)),
    (3, 0, 30, 104, None, (30, 104)),
    (1, 11, 99, 105, Some((11, 103)), (11, 105)),
    (2, 20, 21, 106, None, (21, 106)),
    // A clock that steps back is written as it is.
    (2, 21, 99, 90, Some((21, 106)), (21, 90)),
];

fn renews<T: ConnTable>(rt: &impl Abort, alloc: Global) {
    let mut table = T::make(alloc, 2).expect(rt, "a table");
    for (sport, kept, addr, clock, before, after) in TURNS {
        let new = entry(rt, addr, clock);
        let keeps = |held: &Entry| held.backend.addr == kept;
        let answer = match table.renew(flow(sport), clock, keeps, || new) {
            Renewed::Kept(held) => told(Some(held)),
            Renewed::Made { entry, stored } => {
                assert!(rt; stored && entry == new);
                None
            }
        };
        assert_eq!(rt; answer, before);
        assert_eq!(rt; told(table.peek(&flow(sport))), Some(after));
        assert!(rt; table.len() <= 2);
    }
    assert_eq!(rt; told(table.peek(&flow(1))), Some((11, 105)));
    assert_eq!(rt; told(table.peek(&flow(3))), None);
}

#[test]
fn an_entry_is_renewed(rt: HostRuntime) {
    renews::<PlainTable>(&rt, rt.alloc());
    renews::<LruTable>(&rt, rt.alloc());
    renews::<PlaceTable>(&rt, rt.alloc());
}
