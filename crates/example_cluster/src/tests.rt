//! The first backend that is up, under two versions, with the tables of `connection_table` and with one of one's own.
ghost use Rattle.std.specs.Prelude.{◌≡◌, None};

use super::*;
use backend_names::{Name, TableSize, Weight};
use connection_table::{Entry, LruTable, PlaceTable, PlainTable};
use five_tuple::Flow;
use hash_laws::SumHash;
use pool_versions::{Backend, Member, Service, Version};
use std::process::Abort;

/// A table of one's own. It has what a table must write, and leaves the rest of [`ConnTable`] as it is given.
#[derive(Drop)]
struct OwnTable {
    kept: PlainTable,
}

impl ConnTable for OwnTable {
    ghost capacity = { λ t. t.kept.limit };

    ghost entries = { λ t. t.kept.pairs };

    ghost hashes_by = { λ _. None };

    fn make(alloc: Global, limit: u32) -> Result<OwnTable, AllocError> {
        Ok(OwnTable {
            kept: PlainTable::make(alloc, limit)?,
        })
    }

    fn peek(&self, flow: &Flow) -> Option<Entry> {
        self.kept.peek(flow)
    }

    fn look(&mut self, flow: &Flow) -> Option<Entry> {
        self.kept.look(flow)
    }

    fn store(&mut self, flow: Flow, entry: Entry) -> Result<(), AllocError> {
        self.kept.store(flow, entry)
    }

    fn clear(&mut self) {
        self.kept.clear();
    }

    fn len(&self) -> usize {
        self.kept.len()
    }
}

fn member(rt: &impl Abort, name: &[u8], addr: u32, up: bool) -> Member {
    let name = Name::new(name).expect(rt, "a name");
    Member {
        backend: Backend { name, addr },
        up,
        draining: false,
        weight: Weight::one(),
    }
}

fn seven(rt: &impl Abort) -> TableSize
    ensures { result ≡ 7 }
{
    TableSize::new(7).expect(rt, "a size")
}

// Version 1 has A and B up, version 2 B alone.
fn catalogue(rt: &impl Abort, alloc: Global) -> Catalogue
    ensures { result.size ≡ 7 }
{
    let mut all = Catalogue::new(alloc, seven(rt));
    for (number, up) in [(1, true), (2, false)] {
        let members = [member(rt, b"A", 1, up), member(rt, b"B", 2, true)];
        let members = Vec::from_slice(alloc, &members).expect(rt, "memory");
        let mut services = Vec::new(alloc);
        services
            .push(Service {
                vip: 9,
                proto: 17,
                port: 53,
                members,
            })
            .expect(rt, "memory");
        all.add(Version { number, services })
            .expect(rt, "a version");
    }
    assert!(rt; all.size().slots() == 7);
    all
}

fn sends<T: ConnTable>(rt: &impl Abort, alloc: Global) {
    let nodes = Vec::from_slice(alloc, &[1, 2]).expect(rt, "memory");
    let setup = Setup::new(SumHash, First, seven(rt), nodes, 1, 4, None).expect(rt, "a setup");
    let packets = [Packet::Good {
        flow: Flow {
            src: 5,
            dst: 9,
            sport: 6,
            dport: 53,
            proto: 17,
        },
        len: 28,
        at: 0,
    }];
    let mut events = Vec::new(alloc);
    for node in [0u16, 1] {
        let version = u32::from(node) + 1;
        for event in [
            Event::Install { node, version },
            Event::Arrive {
                node,
                packet: 0,
                refused: [false; 16],
            },
            Event::Serve {
                node,
                worker: 0,
                version,
                refused: false,
            },
        ] {
            events.push(event).expect(rt, "memory");
        }
    }
    let outcomes = replay_first::<SumHash, T>(
        alloc,
        &setup,
        &catalogue(rt, alloc),
        &packets,
        events.as_slice(),
    )
    .expect(rt, "memory");
    for (at, want) in [(2usize, 1), (5, 2)] {
        match outcomes.get(at).expect(rt, "an outcome") {
            Outcome::Forward { backend, .. } => assert_eq!(rt; backend.addr, want),
            _ => assert!(rt; false),
        }
    }
}

#[test]
fn two_versions_begin_with_two_backends(rt: HostRuntime) {
    sends::<PlainTable>(&rt, rt.alloc());
    sends::<LruTable>(&rt, rt.alloc());
    sends::<PlaceTable>(&rt, rt.alloc());
    sends::<OwnTable>(&rt, rt.alloc());
}
