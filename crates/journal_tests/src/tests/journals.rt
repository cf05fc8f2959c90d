//! A node's journal and its workers' records, step by step on one thread, beside the replay of their history.
ghost use Rattle.std.specs.Prelude.{◌≡◌};

use super::{catalogue, holds, packets, same_outcomes, seven};
use cluster_core::{Setup, replay};
use cluster_node::{Cause, Event, Item, Outcome, Reason};
use connection_table::{ConnTable, LruTable, PlaceTable, PlainTable};
use forwarder::Choice;
use hash_laws::SumHash;
use selection::{Maglev, PlainHash, PreparedVersion, RoundRobin, Scheme};
use std::alloc::Global;
use std::process::Abort;
use std::sync::Arc;
use thread_records::{Journal, Rings, Step, WorkerRecord};

/// A queue of so many places for each worker, the oldest packet in front.
#[derive(Drop)]
pub(super) struct Queues {
    lists: Vec<Vec<Item>>,
    places: usize,
}

impl Rings for Queues {
    ghost use Rattle.std.specs.Prelude.{false};

    ghost paced = { false };

    fn offer(&mut self, worker: u16, item: Item) -> bool {
        let at = worker as usize;
        if at >= self.lists.len() {
            return false;
        }
        if self.lists[at].len() >= self.places {
            return false;
        }
        let one = &mut self.lists[at];
        match one.push(item) {
            Ok(()) => true,
            Err(_) => false,
        }
    }
}

pub(super) fn empty_queues(rt: &impl Abort, alloc: Global, workers: u16, places: u32) -> Queues {
    let mut lists = Vec::new(alloc);
    for _ in 0..workers {
        lists.push(Vec::new(alloc)).expect(rt, "memory");
    }
    Queues {
        lists,
        places: places as usize,
    }
}

impl Queues {
    fn front(&self, worker: u16) -> Option<Item> {
        self.lists.get(worker as usize)?.first().copied()
    }

    fn pop(&mut self, worker: u16) {
        let at = worker as usize;
        if at < self.lists.len() && !self.lists[at].is_empty() {
            let list = &mut self.lists[at];
            list.remove(0);
        }
    }
}

/// Node 0: what it wrote, what waits, what its workers recorded, and the versions that they may use, by their numbers.
#[derive(Drop)]
pub(super) struct Node<S: Scheme, T: ConnTable> {
    pub(super) journal: Journal,
    pub(super) queues: Queues,
    pub(super) workers: Vec<WorkerRecord<S, T>>,
    versions: Vec<Arc<PreparedVersion<S>>>,
}

pub(super) fn shared<S: Scheme>(
    rt: &impl Abort,
    alloc: Global,
    version: PreparedVersion<S>,
) -> Arc<PreparedVersion<S>> {
    match Arc::new(alloc, version) {
        Ok(shared) => shared,
        Err(_) => panic!(rt; "memory"),
    }
}

// The catalogue's versions, each prepared alone.
fn prepared<S: Scheme>(
    rt: &impl Abort,
    alloc: Global,
    setup: &Setup<S, SumHash>,
) -> Vec<Arc<PreparedVersion<S>>> {
    let catalogue = catalogue(rt, alloc);
    let scheme = setup.scheme();
    let mut versions = Vec::new(alloc);
    for number in 1..6u32 {
        let version = catalogue.get(number).expect(rt, "a version");
        let made = PreparedVersion::make(alloc, &scheme, setup.size(), version);
        let made = shared(rt, alloc, made.expect(rt, "memory"));
        versions.push(made).expect(rt, "memory");
    }
    versions
}

// Workers that have handled nothing.
pub(super) fn fresh_workers<S: Scheme, T: ConnTable>(
    rt: &impl Abort,
    alloc: Global,
    setup: &Setup<S, SumHash>,
) -> Vec<WorkerRecord<S, T>> {
    let mut workers = Vec::new(alloc);
    for _ in 0..setup.workers() {
        let worker = WorkerRecord::make(alloc, setup).expect(rt, "memory");
        workers.push(worker).expect(rt, "memory");
    }
    workers
}

pub(super) fn fresh_node<S: Scheme, T: ConnTable>(
    rt: &impl Abort,
    alloc: Global,
    setup: &Setup<S, SumHash>,
    ring: u32,
) -> Node<S, T> {
    let workers = setup.workers();
    Node {
        journal: Journal::new(alloc, 0, ring, workers).expect(rt, "memory"),
        queues: empty_queues(rt, alloc, workers, ring),
        workers: fresh_workers(rt, alloc, setup),
        versions: prepared(rt, alloc, setup),
    }
}

/// A cluster of two nodes, whose tables keep so many entries.
pub(super) fn setup_of<S: Scheme>(
    rt: &impl Abort,
    alloc: Global,
    scheme: S,
    workers: u16,
    capacity: u32,
) -> Setup<S, SumHash>
    ensures { result.size ≡ 7 }
{
    let nodes = Vec::from_slice(alloc, &[0x0a09_0001, 0x0a09_0002]).expect(rt, "memory");
    Setup::new(SumHash, scheme, seven(rt), nodes, workers, capacity, None).expect(rt, "a setup")
}

/// What a node does next.
#[derive(Clone, Copy)]
pub(super) enum Act {
    Install(u32),
    Arrive(u32),
    /// A worker takes the next packet of its queue under a version.
    Serve(u16, u32),
}

pub(super) type Reply = (&'static str, u32, u32);

// What a worker's step says: a word and two numbers. Of a packet that was sent the last byte of the backend's address and
// the origin. With ample memory each new entry is made.
fn told_step(step: &Step) -> Reply {
    match step {
        Step::Behind => ("behind", 0, 0),
        Step::Done(served) => match served.choice {
            _ if served.unstored => ("unstored", 0, 0),
            Choice::Forward { backend, origin } => ("forward", backend.addr % 256, origin),
            Choice::NoService => ("no service", 0, 0),
            Choice::NoBackend => ("no backend", 0, 0),
        },
    }
}

fn word_of_cause(cause: Cause) -> &'static str {
    match cause {
        Cause::NoVersion => "no version",
        Cause::RingsFull => "rings full",
        _ => "dropped",
    }
}

fn word_of_reason(reason: Reason) -> &'static str {
    match reason {
        Reason::NoPacket => "no packet",
        Reason::UnknownVersion => "unknown version",
        Reason::NotNewer => "not newer",
        _ => "other",
    }
}

pub(super) fn told(outcome: &Outcome) -> Reply {
    match outcome {
        Outcome::Installed => ("installed", 0, 0),
        Outcome::Placed { worker, floor } => ("placed", u32::from(*worker), *floor),
        Outcome::Dropped { packet, cause } => (word_of_cause(*cause), *packet, 0),
        Outcome::Refused(reason) => (word_of_reason(*reason), 0, 0),
        Outcome::Restarted { lost } => ("restarted", (*lost % 256) as u32, 0),
        _ => ("other", 0, 0),
    }
}

pub(super) fn same_told(rt: &impl Abort, found: Reply, wanted: Reply, step: usize) {
    assert_eq!(rt; found, wanted, "step {step}");
}

/// A worker handles a packet under a version.
pub(super) fn handles<S: Scheme, T: ConnTable>(
    rt: &impl Abort,
    node: &mut Node<S, T>,
    worker: u16,
    item: &Item,
    number: u32,
) -> Step {
    let version = node.versions.get(number.wrapping_sub(1) as usize);
    let record = node.workers.as_mut_slice().get_mut(worker as usize);
    let record = record.expect(rt, "a worker");
    record
        .handle(version.expect(rt, "a version"), item)
        .expect(rt, "memory")
}

// The next packet of a worker is handled, and taken out of the queue if it was served.
fn serves<S: Scheme, T: ConnTable>(
    rt: &impl Abort,
    node: &mut Node<S, T>,
    worker: u16,
    number: u32,
) -> Reply {
    let Some(item) = node.queues.front(worker) else {
        return ("idle", 0, 0);
    };
    let step = handles(rt, node, worker, &item, number);
    if let Step::Done(_) = step {
        node.queues.pop(worker);
    }
    told_step(&step)
}

fn acted<S: Scheme, T: ConnTable>(rt: &impl Abort, node: &mut Node<S, T>, act: Act) -> Reply {
    match act {
        Act::Install(number) => {
            let outcome = node.journal.install(number < 6, number);
            told(&outcome.expect(rt, "memory"))
        },
        Act::Arrive(packet) => {
            let queues = &mut node.queues;
            let outcome = node.journal.arrive(&SumHash, &packets(), packet, queues);
            told(&outcome.expect(rt, "memory"))
        },
        Act::Serve(worker, number) => serves(rt, node, worker, number),
    }
}

/// The node does these steps, and each says what is wanted.
pub(super) fn does<S: Scheme, T: ConnTable>(
    rt: &impl Abort,
    node: &mut Node<S, T>,
    steps: &[(Act, Reply)],
) {
    for (at, (act, wanted)) in steps.iter().enumerate() {
        let found = acted(rt, node, *act);
        same_told(rt, found, *wanted, at);
    }
}

fn replays_by<S: Scheme, T: ConnTable>(
    rt: &impl Abort,
    alloc: Global,
    setup: &Setup<S, SumHash>,
    events: &[Event],
    outcomes: &[Outcome],
)
    requires { setup.now.size ≡ 7 }
{
    let catalogue = catalogue(rt, alloc);
    let found = replay::<S, SumHash, T>(alloc, setup, &catalogue, &packets(), events);
    same_outcomes(rt, found.expect(rt, "memory").as_slice(), outcomes);
}

/// A history says what its replay says, with all three tables.
pub(super) fn replays<S: Scheme>(
    rt: &impl Abort,
    alloc: Global,
    setup: &Setup<S, SumHash>,
    events: &[Event],
    outcomes: &[Outcome],
)
    requires { setup.now.size ≡ 7 }
{
    replays_by::<S, PlainTable>(rt, alloc, setup, events, outcomes);
    replays_by::<S, LruTable>(rt, alloc, setup, events, outcomes);
    replays_by::<S, PlaceTable>(rt, alloc, setup, events, outcomes);
}

// A node of so many workers, with rings of so many places, and what it does.
struct Example {
    workers: u16,
    ring: u32,
    steps: &'static [(Act, Reply)],
}

fn plays<S: Scheme, T: ConnTable>(rt: &impl Abort, alloc: Global, scheme: S, example: &Example) {
    let setup = setup_of(rt, alloc, scheme, example.workers, 2);
    let mut node = fresh_node::<S, T>(rt, alloc, &setup, example.ring);
    does(rt, &mut node, example.steps);
    let Node {
        mut journal,
        workers,
        ..
    } = node;
    journal.end(workers, false).expect(rt, "records that fit");
    holds(rt, !journal.refused_early(), "no ring was lost");
    let outcomes = journal.outcomes().open(alloc).expect(rt, "memory");
    replays(rt, alloc, &setup, journal.events(), outcomes.as_slice());
}

const FIRST: u32 = 0;

const SECOND: u32 = 1;

const THIRD: u32 = 2;

static EXAMPLES: [Example; 9] = [
    // A backend that is down is left.
    Example {
        workers: 1,
        ring: 16,
        steps: &[
            (Act::Install(1), ("installed", 0, 0)),
            (Act::Arrive(SECOND), ("placed", 0, 1)),
            (Act::Serve(0, 1), ("forward", 2, 1)),
            (Act::Install(2), ("installed", 0, 0)),
            (Act::Arrive(SECOND), ("placed", 0, 2)),
            (Act::Serve(0, 2), ("forward", 1, 2)),
        ],
    },
    // Another address is another backend.
    Example {
        workers: 1,
        ring: 16,
        steps: &[
            (Act::Install(1), ("installed", 0, 0)),
            (Act::Arrive(FIRST), ("placed", 0, 1)),
            (Act::Serve(0, 1), ("forward", 1, 1)),
            (Act::Install(3), ("installed", 0, 0)),
            (Act::Arrive(FIRST), ("placed", 0, 3)),
            (Act::Serve(0, 3), ("forward", 9, 3)),
        ],
    },
    // One flow under one version and under another.
    Example {
        workers: 1,
        ring: 16,
        steps: &[
            (Act::Install(1), ("installed", 0, 0)),
            (Act::Arrive(THIRD), ("placed", 0, 1)),
            (Act::Serve(0, 1), ("forward", 1, 1)),
        ],
    },
    Example {
        workers: 1,
        ring: 16,
        steps: &[
            (Act::Install(2), ("installed", 0, 0)),
            (Act::Arrive(THIRD), ("placed", 0, 2)),
            (Act::Serve(0, 2), ("forward", 3, 2)),
        ],
    },
    // What was not served under a version leaves no trace.
    Example {
        workers: 1,
        ring: 16,
        steps: &[
            (Act::Install(1), ("installed", 0, 0)),
            (Act::Arrive(FIRST), ("placed", 0, 1)),
            (Act::Serve(0, 1), ("forward", 1, 1)),
            (Act::Install(5), ("installed", 0, 0)),
            (Act::Arrive(FIRST), ("placed", 0, 5)),
            (Act::Serve(0, 5), ("forward", 1, 1)),
        ],
    },
    // An entry stands until two other flows were served after it.
    Example {
        workers: 1,
        ring: 16,
        steps: &[
            (Act::Install(1), ("installed", 0, 0)),
            (Act::Arrive(THIRD), ("placed", 0, 1)),
            (Act::Serve(0, 1), ("forward", 1, 1)),
            (Act::Install(2), ("installed", 0, 0)),
            (Act::Arrive(FIRST), ("placed", 0, 2)),
            (Act::Serve(0, 2), ("forward", 1, 2)),
            (Act::Arrive(FIRST), ("placed", 0, 2)),
            (Act::Serve(0, 2), ("forward", 1, 2)),
            (Act::Arrive(THIRD), ("placed", 0, 2)),
            (Act::Serve(0, 2), ("forward", 1, 1)),
            (Act::Arrive(FIRST), ("placed", 0, 2)),
            (Act::Serve(0, 2), ("forward", 1, 2)),
            (Act::Arrive(SECOND), ("placed", 0, 2)),
            (Act::Serve(0, 2), ("forward", 1, 2)),
            (Act::Arrive(THIRD), ("placed", 0, 2)),
            (Act::Serve(0, 2), ("forward", 3, 2)),
        ],
    },
    // Refusals in their order; a version below the packet's floor.
    Example {
        workers: 1,
        ring: 16,
        steps: &[
            (Act::Arrive(THIRD), ("no version", THIRD, 0)),
            (Act::Install(1), ("installed", 0, 0)),
            (Act::Install(2), ("installed", 0, 0)),
            (Act::Install(2), ("not newer", 0, 0)),
            (Act::Install(9), ("unknown version", 0, 0)),
            (Act::Arrive(THIRD), ("placed", 0, 2)),
            (Act::Serve(0, 1), ("behind", 0, 0)),
            (Act::Serve(0, 2), ("forward", 3, 2)),
            (Act::Serve(0, 2), ("idle", 0, 0)),
            (Act::Arrive(3), ("dropped", 3, 0)),
            (Act::Arrive(4), ("no packet", 0, 0)),
        ],
    },
    // Any version between the floor and the newest may be used, but never one below another that was used.
    Example {
        workers: 1,
        ring: 16,
        steps: &[
            (Act::Install(1), ("installed", 0, 0)),
            (Act::Arrive(THIRD), ("placed", 0, 1)),
            (Act::Arrive(THIRD), ("placed", 0, 1)),
            (Act::Arrive(THIRD), ("placed", 0, 1)),
            (Act::Install(2), ("installed", 0, 0)),
            (Act::Serve(0, 1), ("forward", 1, 1)),
            (Act::Serve(0, 2), ("forward", 1, 1)),
            (Act::Serve(0, 1), ("behind", 0, 0)),
        ],
    },
    // A full ring sends a packet on to the next worker, and takes again once it has room.
    Example {
        workers: 3,
        ring: 1,
        steps: &[
            (Act::Install(1), ("installed", 0, 0)),
            (Act::Arrive(FIRST), ("placed", 1, 1)),
            (Act::Arrive(FIRST), ("placed", 0, 1)),
            (Act::Arrive(FIRST), ("placed", 2, 1)),
            (Act::Arrive(FIRST), ("rings full", FIRST, 0)),
            (Act::Serve(1, 1), ("forward", 1, 1)),
            (Act::Arrive(FIRST), ("placed", 1, 1)),
            (Act::Serve(0, 1), ("forward", 1, 1)),
        ],
    },
];

fn plays_all<T: ConnTable>(rt: &impl Abort, alloc: Global) {
    for example in EXAMPLES.iter() {
        plays::<_, T>(rt, alloc, Maglev { hash: SumHash }, example);
    }
}

#[test]
fn examples_with_a_plain_table(rt: HostRuntime) {
    plays_all::<PlainTable>(&rt, rt.alloc());
}

#[test]
fn examples_with_a_table_by_least_recent_use(rt: HostRuntime) {
    plays_all::<LruTable>(&rt, rt.alloc());
}

#[test]
fn examples_with_a_table_over_places(rt: HostRuntime) {
    plays_all::<PlaceTable>(&rt, rt.alloc());
}

// The plain scheme takes the backends at 629 modulo 3 and 629 modulo 2.
static BY_PLAIN_HASH: [Example; 2] = [
    Example {
        workers: 1,
        ring: 16,
        steps: &[
            (Act::Install(1), ("installed", 0, 0)),
            (Act::Arrive(FIRST), ("placed", 0, 1)),
            (Act::Serve(0, 1), ("forward", 3, 1)),
        ],
    },
    Example {
        workers: 1,
        ring: 16,
        steps: &[
            (Act::Install(2), ("installed", 0, 0)),
            (Act::Arrive(FIRST), ("placed", 0, 2)),
            (Act::Serve(0, 2), ("forward", 3, 2)),
        ],
    },
];

// The other one goes round from A.
static BY_TURNS: Example = Example {
    workers: 1,
    ring: 16,
    steps: &[
        (Act::Install(1), ("installed", 0, 0)),
        (Act::Arrive(FIRST), ("placed", 0, 1)),
        (Act::Serve(0, 1), ("forward", 1, 1)),
        (Act::Arrive(THIRD), ("placed", 0, 1)),
        (Act::Serve(0, 1), ("forward", 2, 1)),
    ],
};

#[test]
fn examples_with_other_schemes(rt: HostRuntime) {
    for example in BY_PLAIN_HASH.iter() {
        let plain = PlainHash { hash: SumHash };
        plays::<_, PlainTable>(&rt, rt.alloc(), plain, example);
    }
    plays::<_, PlaceTable>(&rt, rt.alloc(), RoundRobin, &BY_TURNS);
}
