//! Worked scenarios on balancers with all three tables, and what a deployment refuses.
ghost use Rattle.std.specs.Prelude.{◌<◌, ◌^◌, [], length};

use crate::checks::{OutcomeRow, holds, same_count, same_told};
use backend_names::{Name, TableSize, Weight};
use cluster_core::{Deployment, Setup, Totals};
use cluster_node::{Event, LogEntry, Outcome, Packet};
use connection_table::{ConnTable, LruTable, PlaceTable, PlainTable};
use event_trace::{Balancers, Core, Counts, Notes, Play, ScenarioStep, Task, all_live};
use five_tuple::Flow;
use hash_laws::SumHash;
use pool_versions::{Backend, Catalogue, Member, Service, Version};
use selection::Maglev;
use spreader::TurnSpread;
use std::alloc::{AllocError, Global};
use std::process::Abort;

const VIP: u32 = 0xc000_0201;

fn member(rt: &impl Abort, name: &[u8], addr: u32, up: bool) -> Member {
    let name = Name::new(name).expect(rt, "a name");
    Member {
        backend: Backend { name, addr },
        up,
        draining: false,
        weight: Weight::one(),
    }
}

// A, B and C; whether B is up.
fn version(rt: &impl Abort, alloc: Global, number: u32, up: bool) -> Version {
    let members = [
        member(rt, b"A", 0x0a08_0001, true),
        member(rt, b"B", 0x0a08_0002, up),
        member(rt, b"C", 0x0a08_0003, true),
    ];
    let members = Vec::from_slice(alloc, &members).expect(rt, "memory");
    let mut services = Vec::new(alloc);
    services
        .push(Service {
            vip: VIP,
            proto: 6,
            port: 80,
            members,
        })
        .expect(rt, "memory");
    Version { number, services }
}

fn catalogue(rt: &impl Abort, alloc: Global, slots: u32) -> Catalogue {
    let size = TableSize::new(slots).expect(rt, "a size");
    let mut all = Catalogue::new(alloc, size);
    all.add(version(rt, alloc, 1, true)).expect(rt, "a version");
    all.add(version(rt, alloc, 2, false))
        .expect(rt, "a version");
    all
}

type Sums = Maglev<SumHash>;

// The counts alone are kept; nothing is asked.
#[derive(Drop)]
struct CountsAlone {
    counts: Counts,
}

impl Notes for CountsAlone {
    type Query = ();

    ghost use Rattle.cluster_core.specs.Histories.{outcomes_of};
    ghost use Rattle.event_trace.specs.Counting.{CountsAre};

    ghost are_of = { λ asked past kept. CountsAre (outcomes_of past) kept.counts };

    fn note(
        &mut self,
        asked: &(),
        event: &Event,
        packet: Option<&Packet>,
        outcome: &Outcome,
    ) -> Result<(), AllocError> {
        let _ = asked;
        let _ = event;
        let _ = packet;
        self.counts.count(outcome)
    }
}

// Two nodes of one worker, whose tables have 7 slots and keep two entries.
fn setup(rt: &impl Abort, alloc: Global) -> Setup<Sums, SumHash> {
    let nodes = Vec::from_slice(alloc, &[0x0a09_0001, 0x0a09_0002]).expect(rt, "memory");
    let size = TableSize::new(7).expect(rt, "a size");
    Setup::new(SumHash, Maglev { hash: SumHash }, size, nodes, 1, 2, None).expect(rt, "a setup")
}

fn deployment(rt: &impl Abort, alloc: Global) -> Deployment<Sums, SumHash> {
    Deployment::new(setup(rt, alloc), catalogue(rt, alloc, 7)).expect(rt, "deployment")
}

// What the steps come to under a core that stands for the empty record, over three packets of one flow, from this port.
fn played_by<C: Core>(
    rt: &impl Abort,
    alloc: Global,
    core: &mut C,
    setup: &C::Setup,
    port: u16,
    steps: &[ScenarioStep],
    events: &mut Vec<LogEntry>,
) -> Play<TurnSpread>
    requires stands { C.stands setup.now [] core.old }
    requires few { length steps.now < 2 ^ 32 }
    ensures { C.stands setup.now result.trace.past core.new }
{
    let flow = Flow {
        src: 0x0a00_0001,
        dst: VIP,
        sport: port,
        dport: 80,
        proto: 6,
    };
    let packets = [Packet::Good {
        flow,
        len: 40,
        at: 0,
    }; 3];
    let spread = TurnSpread::new(all_live(alloc, 2).expect(rt, "memory"));
    let mut play = Play::start(alloc, spread, 2).expect(rt, "memory");
    play.run(alloc, core, setup, &packets, steps, events)
        .expect(rt, "memory");
    play
}

// The totals of a run, whose events are told.
fn played<T: ConnTable>(
    rt: &impl Abort,
    alloc: Global,
    port: u16,
    steps: &[ScenarioStep],
    events: &mut Vec<LogEntry>,
) -> Totals
    requires { length steps.now < 2 ^ 32 }
{
    let deployment = deployment(rt, alloc);
    let task = Task {
        deployment,
        asked: (),
    };
    let kept = CountsAlone {
        counts: Counts::new(),
    };
    let mut balancers = Balancers::<Sums, SumHash, T, CountsAlone>::make(
        alloc,
        &task.deployment,
        kept,
    ).expect(rt, "memory");
    let _play = played_by(rt, alloc, &mut balancers, &task, port, steps, events);
    balancers.keep_balance(&task.deployment);
    let (_, notes) = balancers.into_parts();
    notes.counts.totals()
}

// Of a Forward the last byte of the backend's address and the origin.
fn told(outcome: &Outcome) -> OutcomeRow {
    match outcome {
        Outcome::Installed => ("installed", 0, 0),
        Outcome::Placed { worker, floor } => ("placed", u64::from(*worker), *floor),
        Outcome::Forward {
            backend,
            origin,
            ..
        } => ("forward", u64::from(backend.addr % 256), *origin),
        Outcome::Restarted { lost } => ("restarted", *lost, 0),
        _ => ("other", 0, 0),
    }
}

fn shows(rt: &impl Abort, history: &[LogEntry], want: &[OutcomeRow]) {
    same_count(rt, history.len(), want.len(), "how many events");
    for (event, (said, want)) in history.iter().zip(want).enumerate() {
        same_told(rt, told(&said.outcome), *want, event);
    }
}

// A step, as the rows have it.
#[derive(Clone, Copy)]
enum Move {
    Install(u16, u32),
    /// Node 0 alone is live.
    Alone,
    Hold(u16),
    Drain(u16),
    Restart(u16),
    Take(u32),
    Again(u32),
}

fn step_of(rt: &impl Abort, alloc: Global, step: Move) -> ScenarioStep {
    match step {
        Move::Install(node, version) => ScenarioStep::Install { node, version },
        Move::Alone => ScenarioStep::Live([0].to_vec(alloc).expect(rt, "memory")),
        Move::Hold(node) => ScenarioStep::Hold(node),
        Move::Drain(node) => ScenarioStep::Drain(node),
        Move::Restart(node) => ScenarioStep::Restart(node),
        Move::Take(packets) => ScenarioStep::Take(packets),
        Move::Again(packet) => ScenarioStep::Again(packet),
    }
}

fn steps_of(rt: &impl Abort, alloc: Global, moves: &[Move]) -> Vec<ScenarioStep> {
    let mut steps = Vec::new(alloc);
    for step in moves {
        steps.push(step_of(rt, alloc, *step)).expect(rt, "memory");
    }
    steps
}

// What becomes of three packets from a port, by these steps, and the totals.
struct Scenario {
    port: u16,
    moves: &'static [Move],
    told: &'static [OutcomeRow],
    totals: Totals,
}

static SCENARIOS: [Scenario; 3] = [
    // Two nodes with different versions, which send one flow to two backends.
    Scenario {
        port: 1006,
        moves: &[Move::Install(0, 1), Move::Install(1, 2), Move::Take(2)],
        told: &[
            ("installed", 0, 0),
            ("installed", 0, 0),
            ("placed", 0, 1),
            ("forward", 1, 1),
            ("placed", 0, 2),
            ("forward", 3, 2),
        ],
        totals: Totals {
            received: 2,
            forwarded: 2,
            dropped: [0; 13],
            waiting: 0,
            refused: 0,
        },
    },
    // Two packets are lost at a restart, and one is sent.
    Scenario {
        port: 1000,
        moves: &[
            Move::Alone,
            Move::Install(0, 1),
            Move::Hold(0),
            Move::Take(2),
            Move::Restart(0),
            Move::Take(1),
        ],
        told: &[
            ("installed", 0, 0),
            ("placed", 0, 1),
            ("placed", 0, 1),
            ("restarted", 2, 0),
            ("placed", 0, 1),
            ("forward", 1, 1),
        ],
        totals: Totals {
            received: 3,
            forwarded: 1,
            dropped: [0, 0, 0, 0, 0, 0, 0, 0, 0, 0, 0, 0, 2],
            waiting: 0,
            refused: 0,
        },
    },
    // Two packets wait when the node restarts; the next is served at once, and so is what is drained.
    Scenario {
        port: 1006,
        moves: &[
            Move::Alone,
            Move::Install(0, 1),
            Move::Hold(0),
            Move::Take(2),
            Move::Restart(0),
            Move::Take(1),
            Move::Hold(0),
            Move::Again(0),
            Move::Again(1),
            Move::Drain(0),
        ],
        told: &[
            ("installed", 0, 0),
            ("placed", 0, 1),
            ("placed", 0, 1),
            ("restarted", 2, 0),
            ("placed", 0, 1),
            ("forward", 1, 1),
            ("placed", 0, 1),
            ("placed", 0, 1),
            ("forward", 1, 1),
            ("forward", 1, 1),
        ],
        totals: Totals {
            received: 5,
            forwarded: 3,
            dropped: [0, 0, 0, 0, 0, 0, 0, 0, 0, 0, 0, 0, 2],
            waiting: 0,
            refused: 0,
        },
    },
];

fn same_totals(rt: &impl Abort, found: &Totals, wanted: &Totals) {
    assert_eq!(rt; *found, *wanted);
}

fn plays<T: ConnTable>(rt: &impl Abort, alloc: Global) {
    for scenario in SCENARIOS.iter() {
        let steps = steps_of(rt, alloc, scenario.moves);
        assert!(rt; steps.len() < 100);
        let mut events = Vec::new(alloc);
        let totals = played::<T>(rt, alloc, scenario.port, steps.as_slice(), &mut events);
        same_totals(rt, &totals, &scenario.totals);
        shows(rt, events.as_slice(), scenario.told);
    }
}

#[test]
fn scenarios_with_a_plain_table(rt: HostRuntime) {
    plays::<PlainTable>(&rt, rt.alloc());
}

#[test]
fn scenarios_with_a_table_over_links(rt: HostRuntime) {
    plays::<LruTable>(&rt, rt.alloc());
}

#[test]
fn scenarios_with_a_table_over_places(rt: HostRuntime) {
    plays::<PlaceTable>(&rt, rt.alloc());
}

// Tables of two sizes don't fit.
#[test]
fn what_does_not_fit(rt: HostRuntime) {
    let made = Deployment::new(setup(&rt, rt.alloc()), catalogue(&rt, rt.alloc(), 13));
    holds(&rt, made.is_none(), "two sizes");
}

fn is_kept(rt: &impl Abort, deployment: &Deployment<Sums, SumHash>) {
    let (setup, catalogue) = (deployment.setup(), deployment.catalogue());
    holds(rt, setup.workers() == 1, "one worker");
    holds(rt, setup.size().slots() == 7, "seven slots");
    holds(rt, catalogue.size().slots() == 7, "seven slots there");
    holds(rt, catalogue.get(2).is_some(), "version 2");
    holds(rt, catalogue.get(3).is_none(), "no version 3");
}

// What fits is kept as it was.
#[test]
fn what_fits(rt: HostRuntime) {
    let task = Task {
        deployment: deployment(&rt, rt.alloc()),
        asked: (),
    };
    let workers = <Balancers<Sums, SumHash, PlaceTable, CountsAlone> as Core>::workers(&task);
    holds(&rt, workers == 1, "one worker");
    is_kept(&rt, &task.deployment);
}
