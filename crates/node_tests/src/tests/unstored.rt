//! A worker that is refused the memory for an entry.
ghost use Rattle.std.specs.Prelude.{None};

use super::live::Held;
use super::{agrees, forward, holds, is, packets, run, same_outcomes, setup, x_to_a};
use cluster_node::{Event, Outcome};
use connection_table::{ConnTable, Entry, LruTable, PlaceTable, PlainTable};
use five_tuple::Flow;
use hash_laws::SumHash;
use std::alloc::{AllocError, Global};
use std::process::Abort;
use thread_records::Command;

/// A table that is refused the memory for the first flow that isn't there.
#[derive(Drop)]
struct ScarceTable {
    kept: PlainTable,
    refused: bool,
}

impl ConnTable for ScarceTable {
    ghost capacity = { λ t. t.kept.limit };

    ghost entries = { λ t. t.kept.pairs };

    ghost hashes_by = { λ _. None };

    fn make(alloc: Global, limit: u32) -> Result<ScarceTable, AllocError> {
        Ok(ScarceTable {
            kept: PlainTable::make(alloc, limit)?,
            refused: false,
        })
    }

    fn peek(&self, flow: &Flow) -> Option<Entry> {
        self.kept.peek(flow)
    }

    fn store(&mut self, flow: Flow, entry: Entry) -> Result<(), AllocError> {
        if !self.refused && self.kept.peek(&flow).is_none() {
            self.refused = true;
            return Err(AllocError);
        }
        self.kept.store(flow, entry)
    }

    fn clear(&mut self) {
        self.kept.clear();
    }

    fn len(&self) -> usize {
        self.kept.len()
    }
}

static COMMANDS: [Command; 4] = [
    Command::Publish(1),
    Command::Offer(2),
    Command::Publish(2),
    Command::Offer(2),
];

const ARRIVAL: Event = Event::Arrive {
    node: 0,
    packet: 2,
    refused: [false; 16],
};

const HINDERED: Event = Event::Serve {
    node: 0,
    worker: 0,
    version: 1,
    refused: true,
};

const SERVED: Event = Event::Serve {
    node: 0,
    worker: 0,
    version: 2,
    refused: false,
};

// The first serving has no entry made, and the second makes its own.
static EVENTS: [Event; 6] = [
    Event::Install {
        node: 0,
        version: 1,
    },
    ARRIVAL,
    Event::Install {
        node: 0,
        version: 2,
    },
    ARRIVAL,
    HINDERED,
    SERVED,
];

// So the flow goes where each version sends it: there is no entry that keeps it where it was.
fn expected(rt: &impl Abort) -> [Outcome; 6] {
    [
        Outcome::Installed,
        Outcome::Placed {
            worker: 0,
            floor: 1,
        },
        Outcome::Installed,
        Outcome::Placed {
            worker: 0,
            floor: 2,
        },
        x_to_a(rt),
        forward(rt, 0, 2, 1006, 2, 2),
    ]
}

fn same_events(rt: &impl Abort, found: &[Event], wanted: &[Event]) {
    assert!(rt; found == wanted, "events");
}

// The packet is sent all the same, and its serving is marked. The replay, on tables with ample memory, agrees.
#[test]
fn a_refused_entry_is_marked(rt: HostRuntime) {
    let setup = setup(&rt, rt.alloc(), SumHash, 1);
    let gate = Held::new(2, 0);
    let run = run::<ScarceTable, _, _, _>(&rt, rt.alloc(), &setup, &COMMANDS, 16, &gate);
    is(&rt, &gate.missed, 0, "missed");
    same_events(&rt, run.history(), &EVENTS);
    same_outcomes(&rt, run.outcomes(), &expected(&rt));
    let agreed = agrees::<PlainTable>(&rt, rt.alloc(), &setup, &run, &packets())
        && agrees::<LruTable>(&rt, rt.alloc(), &setup, &run, &packets())
        && agrees::<PlaceTable>(&rt, rt.alloc(), &setup, &run, &packets());
    holds(&rt, agreed, "the audit");
}
