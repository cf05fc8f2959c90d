//! How lives end: records that don't fit, lives that aren't drained, and what was gathered.
use super::journals::{
    Act, Node, Reply, does, empty_queues, fresh_node, fresh_workers, handles, same_told, setup_of,
    shared, told,
};
use super::{Row, Sums, catalogue, flow, forward, good, holds, packets, version};
use backend_names::TableSize;
use cluster_node::{Item, Outcome};
use connection_table::{PlaceTable, PlainTable};
use hash_laws::{AnyHash, SumHash};
use selection::{Maglev, PreparedVersion};
use std::alloc::Global;
use std::mem;
use std::process::Abort;
use thread_records::{Journal, LifeFault, Rings, WorkerRecord, are_of};

fn same_fault(rt: &impl Abort, found: Option<LifeFault>, wanted: Option<LifeFault>, at: usize) {
    assert_eq!(rt; found, wanted, "row {at}");
}

// Rings that refuse as these marks say, and have no room.
#[derive(Drop)]
struct Refusing {
    refused: [bool; 16],
}

impl Rings for Refusing {
    ghost use Rattle.std.specs.Prelude.{false};

    ghost paced = { false };

    fn offer(&mut self, worker: u16, _item: Item) -> bool {
        !self.refused.get(worker as usize).copied().unwrap_or(true)
    }
}

fn arrives(rt: &impl Abort, journal: &mut Journal, rings: &mut Refusing, wanted: Reply) {
    let outcome = journal.arrive(&SumHash, &[good(1000)], 0, rings);
    same_told(rt, told(&outcome.expect(rt, "memory")), wanted, 0);
}

// Five packets at home at worker 1 of three, whose ring refuses; the last time all do.
fn driven(rt: &impl Abort, alloc: Global, ring: u32) -> Journal {
    let mut journal = Journal::new(alloc, 0, ring, 3).expect(rt, "memory");
    journal.install(true, 1).expect(rt, "memory");
    let mut rings = Refusing {
        refused: [false; 16],
    };
    rings.refused[1] = true;
    for wanted in [0, 2, 2, 0] {
        arrives(rt, &mut journal, &mut rings, ("placed", wanted, 1));
    }
    rings.refused = [true; 16];
    arrives(rt, &mut journal, &mut rings, ("rings full", 0, 0));
    journal
}

// A ring of no places may always refuse; one of sixteen refused too early, and then the run is none.
#[test]
fn full_home_goes_round(rt: HostRuntime) {
    let journal = driven(&rt, rt.alloc(), 0);
    holds(&rt, !journal.refused_early(), "in time");
    let journal = driven(&rt, rt.alloc(), 16);
    holds(&rt, journal.refused_early(), "early");
    let fault = journal.finish(Vec::new(rt.alloc())).err();
    same_fault(&rt, fault, Some(LifeFault::RingLost), 0);
}

// A life in which these packets were placed under version 1, and these workers handled these packets under these versions.
// What its end says, where it is drained and where it isn't.
struct Life {
    workers: u16,
    placed: &'static [u32],
    handled: &'static [(u16, u32, u32)],
    drained: Option<LifeFault>,
    stopped: Option<LifeFault>,
}

const FOREIGN: Option<LifeFault> = Some(LifeFault::Foreign);

const LOST: Option<LifeFault> = Some(LifeFault::RingLost);

// As it was placed, under a version that was not installed, another packet, one too many, one after another. Then a foreign
// version, which comes first, wherever it was used, and a packet that nobody handled.
static LIVES: [Life; 7] = [
    Life {
        workers: 1,
        placed: &[0, 2],
        handled: &[(0, 0, 1), (0, 2, 1)],
        drained: None,
        stopped: None,
    },
    Life {
        workers: 1,
        placed: &[0],
        handled: &[(0, 0, 2)],
        drained: FOREIGN,
        stopped: FOREIGN,
    },
    Life {
        workers: 1,
        placed: &[0],
        handled: &[(0, 2, 1)],
        drained: LOST,
        stopped: LOST,
    },
    Life {
        workers: 1,
        placed: &[0],
        handled: &[(0, 0, 1), (0, 0, 1)],
        drained: LOST,
        stopped: LOST,
    },
    Life {
        workers: 1,
        placed: &[0, 2],
        handled: &[(0, 2, 1), (0, 0, 1)],
        drained: LOST,
        stopped: LOST,
    },
    Life {
        workers: 2,
        placed: &[0],
        handled: &[(0, 2, 1), (1, 1, 2)],
        drained: FOREIGN,
        stopped: FOREIGN,
    },
    Life {
        workers: 1,
        placed: &[0, 2],
        handled: &[(0, 0, 1)],
        drained: LOST,
        stopped: None,
    },
];

// The flows of the packets 0, 1 and 2.
static PORTS: [u16; 3] = [1000, 1001, 1006];

fn item(number: u32) -> Item {
    let port = PORTS.get(number as usize).copied().unwrap_or(0);
    Item {
        packet: number,
        flow: flow(port),
        at: 0,
        floor: 1,
    }
}

fn places(rt: &impl Abort, node: &mut Node<Sums, PlainTable>, placed: &[u32]) {
    for number in placed {
        let queues = &mut node.queues;
        let outcome = node.journal.arrive(&SumHash, &packets(), *number, queues);
        let _ = outcome.expect(rt, "memory");
    }
}

fn handles_all(rt: &impl Abort, node: &mut Node<Sums, PlainTable>, all: &[(u16, u32, u32)]) {
    for (worker, number, under) in all {
        let _ = handles(rt, node, *worker, &item(*number), *under);
    }
}

// What the end of a life says. After a fault nothing was written.
fn fault_after(rt: &impl Abort, alloc: Global, life: &Life, drained: bool) -> Option<LifeFault> {
    let setup = setup_of(rt, alloc, Maglev { hash: SumHash }, life.workers, 2);
    let mut node = fresh_node::<Sums, PlainTable>(rt, alloc, &setup, 16);
    let _ = node.journal.install(true, 1).expect(rt, "memory");
    places(rt, &mut node, life.placed);
    handles_all(rt, &mut node, life.handled);
    let before = node.journal.events().len();
    let Node {
        mut journal,
        workers,
        ..
    } = node;
    let fault = journal.end_life(workers, drained).err();
    let is_kept = journal.events().len() == before;
    holds(rt, fault.is_none() || is_kept, "nothing is written");
    fault
}

#[test]
fn records_that_do_not_fit(rt: HostRuntime) {
    for (at, life) in LIVES.iter().enumerate() {
        let drained = fault_after(&rt, rt.alloc(), life, true);
        same_fault(&rt, drained, life.drained, at);
        let stopped = fault_after(&rt, rt.alloc(), life, false);
        same_fault(&rt, stopped, life.stopped, at);
    }
}

// A version that was used, prepared by this hash and for so many slots; the entries of a cluster's tables, which is by the
// sum hash and has 7 slots; and whether the worker, whose table keeps two entries, is one of that cluster.
struct Use {
    hash: AnyHash,
    slots: u32,
    version: Row,
    capacity: u32,
    own: bool,
}

const OWN: Use = Use {
    hash: AnyHash::Sum,
    slots: 7,
    version: (1, 1, [true; 3], 1),
    capacity: 2,
    own: true,
};

const OTHER: Use = Use { own: false, ..OWN };

static USES: [Use; 8] = [
    OWN,
    // Another table's capacity, another hash, another size.
    Use {
        capacity: 3,
        ..OTHER
    },
    Use {
        hash: AnyHash::Fnv,
        ..OTHER
    },
    Use { slots: 13, ..OTHER },
    // A number that the catalogue hasn't, and versions of number 1 with another address, a member that is down, and other
    // weights.
    Use {
        version: (6, 1, [true; 3], 1),
        ..OTHER
    },
    Use {
        version: (1, 9, [true; 3], 1),
        ..OTHER
    },
    Use {
        version: (1, 1, [true, true, false], 1),
        ..OTHER
    },
    Use {
        version: (1, 1, [true; 3], 2),
        ..OTHER
    },
];

type Any = Maglev<AnyHash>;

fn prepared_for(rt: &impl Abort, alloc: Global, used: &Use) -> PreparedVersion<Any> {
    let size = TableSize::new(used.slots).expect(rt, "a size");
    let version = version(rt, alloc, &used.version);
    let scheme = Maglev { hash: used.hash };
    PreparedVersion::make(alloc, &scheme, size, &version).expect(rt, "memory")
}

// A worker that handled a packet under this version.
fn worker_after(rt: &impl Abort, alloc: Global, used: &Use) -> WorkerRecord<Any, PlainTable> {
    let own = setup_of(rt, alloc, Maglev { hash: AnyHash::Sum }, 1, 2);
    let version = shared(rt, alloc, prepared_for(rt, alloc, used));
    let mut worker = WorkerRecord::make(alloc, &own).expect(rt, "memory");
    let _ = worker.handle(&version, &item(0)).expect(rt, "memory");
    holds(rt, worker.handled().len() == 1, "one packet");
    worker
}

fn is_own(rt: &impl Abort, alloc: Global, used: &Use) -> bool {
    let sums = Maglev { hash: AnyHash::Sum };
    let cluster = setup_of(rt, alloc, sums, 1, used.capacity);
    let worker = worker_after(rt, alloc, used);
    let workers = Vec::from_array(alloc, [worker]).expect(rt, "memory");
    are_of(&cluster, &catalogue(rt, alloc), workers.as_slice())
}

#[test]
fn records_under_other_versions(rt: HostRuntime) {
    for used in USES.iter() {
        let found = is_own(&rt, rt.alloc(), used);
        holds(&rt, found == used.own, "whose worker it is");
    }
}

static TWO_PLACED: [(Act, Reply); 3] = [
    (Act::Install(1), ("installed", 0, 0)),
    (Act::Arrive(0), ("placed", 0, 1)),
    (Act::Arrive(0), ("placed", 0, 1)),
];

static ONE_SERVED: [(Act, Reply); 2] = [
    (Act::Arrive(0), ("placed", 0, 1)),
    (Act::Serve(0, 1), ("forward", 1, 1)),
];

fn is_last(rt: &impl Abort, outcomes: &[Outcome], wanted: Reply) {
    let last = outcomes.last().expect(rt, "an outcome");
    same_told(rt, told(last), wanted, 0);
}

// What was sent in two lives, by the numbers of events: in the first nothing, and then that of the sixth event.
fn sent_later(rt: &impl Abort, alloc: Global) -> Vec<Vec<u32>> {
    let list = [5].to_vec(alloc).expect(rt, "memory");
    let mut sent = Vec::new(alloc);
    sent.push(Vec::new(alloc)).expect(rt, "memory");
    sent.push(list).expect(rt, "memory");
    sent
}

// Packets that were placed and not served when a life ends are lost, and the node's version stays. What was sent is reported
// life by life: of the first nothing.
#[test]
fn a_life_that_is_not_drained(rt: HostRuntime) {
    let setup = setup_of(&rt, rt.alloc(), Maglev { hash: SumHash }, 1, 2);
    let mut node = fresh_node::<Sums, PlainTable>(&rt, rt.alloc(), &setup, 16);
    does(&rt, &mut node, &TWO_PLACED);
    let workers = fresh_workers(&rt, rt.alloc(), &setup);
    let ended = mem::replace(&mut node.workers, workers);
    node.journal
        .end_life(ended, false)
        .expect(&rt, "records that fit");
    let outcomes = node.journal.outcomes().open(rt.alloc());
    let outcomes = outcomes.expect(&rt, "memory");
    is_last(&rt, outcomes.as_slice(), ("restarted", 2, 0));
    node.queues = empty_queues(&rt, rt.alloc(), 1, 16);
    does(&rt, &mut node, &ONE_SERVED);
    let Node {
        mut journal,
        workers,
        ..
    } = node;
    journal.end(workers, true).expect(&rt, "records that fit");
    let fault = journal.finish(sent_later(&rt, rt.alloc())).err();
    same_fault(&rt, fault, None, 0);
}

static TWO_SERVED: [(Act, Reply); 5] = [
    (Act::Install(1), ("installed", 0, 0)),
    (Act::Arrive(0), ("placed", 0, 1)),
    (Act::Arrive(1), ("placed", 0, 1)),
    (Act::Serve(0, 1), ("forward", 1, 1)),
    (Act::Serve(0, 1), ("forward", 2, 1)),
];

// What was gathered in a life, by the numbers of events.
fn gathered(rt: &impl Abort, alloc: Global, numbers: &[u32]) -> Vec<Vec<u32>> {
    let list = numbers.to_vec(alloc).expect(rt, "memory");
    let mut sent = Vec::new(alloc);
    sent.push(list).expect(rt, "memory");
    sent
}

// The fault of a run of one life in which two packets were sent, and these were gathered.
fn finished(rt: &impl Abort, alloc: Global, numbers: &[u32]) -> Option<LifeFault> {
    let setup = setup_of(rt, alloc, Maglev { hash: SumHash }, 1, 2);
    let mut node = fresh_node::<Sums, PlaceTable>(rt, alloc, &setup, 16);
    does(rt, &mut node, &TWO_SERVED);
    let Node {
        mut journal,
        workers,
        ..
    } = node;
    journal.end(workers, true).expect(rt, "records that fit");
    journal.finish(gathered(rt, alloc, numbers)).err()
}

// The servings are the events 3 and 4. The event 2 sends nothing, and there is none of a greater number.
static GATHERED: [(&[u32], Option<LifeFault>); 7] = [
    (&[3, 4], None),
    (&[4, 3], LOST),
    (&[3], LOST),
    (&[3, 4, 4], LOST),
    (&[2, 3], LOST),
    (&[2, 3, 4], LOST),
    (&[3, 4, 5], LOST),
];

#[test]
fn what_was_gathered_is_a_merge(rt: HostRuntime) {
    for (at, (numbers, fault)) in GATHERED.iter().enumerate() {
        let found = finished(&rt, rt.alloc(), numbers);
        same_fault(&rt, found, *fault, at);
    }
}
