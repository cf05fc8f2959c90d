//! What the drivers of a cluster on threads are given of some steps.
ghost use Rattle.std.specs.Prelude.{◌<◌, ◌^◌, length};

use cluster_node::Packet;
use driver_commands::{Orders, orders};
use event_trace::{ScenarioStep, Tally, all_live};
use five_tuple::Flow;
use spreader::TurnSpread;
use std::alloc::Global;
use std::process::Abort;
use thread_records::Command;

// A step, as the rows have it.
#[derive(Clone, Copy)]
enum Move {
    Install(u16, u32),
    Live(&'static [u16]),
    Take(u32),
    Lose(u32),
    Again(u32),
    Restart(u16),
    Stop(u16),
}

fn step_of(rt: &impl Abort, alloc: Global, step: Move) -> ScenarioStep {
    match step {
        Move::Install(node, version) => ScenarioStep::Install { node, version },
        Move::Live(nodes) => ScenarioStep::Live(Vec::from_slice(alloc, nodes).expect(rt, "memory")),
        Move::Take(records) => ScenarioStep::Take(records),
        Move::Lose(records) => ScenarioStep::Lose(records),
        Move::Again(record) => ScenarioStep::Again(record),
        Move::Restart(node) => ScenarioStep::Restart(node),
        Move::Stop(node) => ScenarioStep::Stop(node),
    }
}

fn steps_of(rt: &impl Abort, alloc: Global, moves: &[Move]) -> Vec<ScenarioStep> {
    let mut steps = Vec::new(alloc);
    for step in moves {
        steps.push(step_of(rt, alloc, *step)).expect(rt, "memory");
    }
    steps
}

// What these steps give so many nodes over eight packets of one flow, with packets in turn.
fn given(rt: &impl Abort, alloc: Global, nodes: u16, steps: &[ScenarioStep]) -> Orders
    requires { length steps.now < 2 ^ 32 }
{
    let flow = Flow {
        src: 0x0a00_0001,
        dst: 0xc000_0201,
        sport: 1000,
        dport: 80,
        proto: 6,
    };
    let packets = [Packet::Good {
        flow,
        len: 40,
        at: 0,
    }; 8];
    let spread = TurnSpread::new(all_live(alloc, nodes).expect(rt, "memory"));
    orders(alloc, nodes, spread, &packets, steps).expect(rt, "memory")
}

// Steps, a list of commands for each node, and what the records came to.
struct Example {
    moves: &'static [Move],
    lists: &'static [&'static [Command]],
    tally: Tally,
}

static EXAMPLES: [Example; 3] = [
    // Packets go in turn to the live nodes, a repeat too; what is lost goes nowhere.
    Example {
        moves: &[
            Move::Install(0, 1),
            Move::Install(1, 1),
            Move::Take(3),
            Move::Lose(1),
            Move::Again(0),
            Move::Install(0, 2),
            Move::Install(1, 2),
            Move::Take(2),
            Move::Restart(0),
            Move::Take(2),
        ],
        lists: &[
            &[
                Command::Publish(1),
                Command::Offer(0),
                Command::Offer(2),
                Command::Publish(2),
                Command::Offer(4),
                Command::Restart,
                Command::Offer(6),
            ],
            &[
                Command::Publish(1),
                Command::Offer(1),
                Command::Offer(0),
                Command::Publish(2),
                Command::Offer(5),
                Command::Offer(7),
            ],
        ],
        tally: Tally {
            packets: 8,
            lost: 1,
            unrouted: 0,
            skipped: 0,
            left: 0,
        },
    },
    // A packet that no node is live for is offered to nobody, and counts for the spreader all the same. What isn't read yet
    // can't be repeated, and a node that isn't there is given nothing.
    Example {
        moves: &[
            Move::Live(&[2, 1]),
            Move::Take(2),
            Move::Live(&[]),
            Move::Take(1),
            Move::Again(3),
            Move::Live(&[0, 1, 2]),
            Move::Again(1),
            Move::Install(1, 3),
            Move::Install(3, 3),
            Move::Restart(2),
            Move::Take(1),
        ],
        lists: &[
            &[Command::Offer(1)],
            &[Command::Offer(1), Command::Publish(3), Command::Offer(3)],
            &[Command::Offer(0), Command::Restart],
        ],
        tally: Tally {
            packets: 8,
            lost: 0,
            unrouted: 1,
            skipped: 1,
            left: 4,
        },
    },
    // A stop is given to its own node alone, in the place of its step, and a restart beside it stays one. Five of the eight
    // records are left.
    Example {
        moves: &[
            Move::Install(0, 1),
            Move::Install(1, 1),
            Move::Take(2),
            Move::Stop(0),
            Move::Restart(1),
            Move::Take(1),
            Move::Restart(0),
            Move::Stop(1),
            Move::Stop(0),
        ],
        lists: &[
            &[
                Command::Publish(1),
                Command::Offer(0),
                Command::Stop,
                Command::Offer(2),
                Command::Restart,
                Command::Stop,
            ],
            &[
                Command::Publish(1),
                Command::Offer(1),
                Command::Restart,
                Command::Stop,
            ],
        ],
        tally: Tally {
            packets: 8,
            lost: 0,
            unrouted: 0,
            skipped: 0,
            left: 5,
        },
    },
];

fn same_lists(rt: &impl Abort, found: &[Vec<Command>], wanted: &[&[Command]]) {
    assert_eq!(rt; found.len(), wanted.len(), "a list for each node");
    for (found, wanted) in found.iter().zip(wanted) {
        assert_eq!(rt; found.as_slice(), *wanted, "the commands");
    }
}

fn same_tally(rt: &impl Abort, found: Tally, wanted: Tally) {
    assert_eq!(rt; found, wanted, "the records");
}

fn gives(rt: &impl Abort, alloc: Global, example: &Example) {
    let steps = steps_of(rt, alloc, example.moves);
    assert!(rt; steps.len() < 100);
    let nodes = example.lists.len().min(100) as u16;
    let given = given(rt, alloc, nodes, steps.as_slice());
    same_lists(rt, given.commands.as_slice(), example.lists);
    same_tally(rt, given.tally, example.tally);
}

#[test]
fn orders_of_steps(rt: HostRuntime) {
    for example in EXAMPLES.iter() {
        gives(&rt, rt.alloc(), example);
    }
}
