ghost use Rattle.std.specs.Prelude.{◌<◌, ◌≤◌, ◌^◌, length};

use super::FirstWorker;
use cluster_node::{Event, LogEntry, Packet};
use event_trace::{Play, ScenarioStep, Tally, all_live};
use five_tuple::Flow;
use spreader::TurnSpread;
use std::alloc::Global;
use std::process::Abort;

// The run of steps over four packets of one flow, on two nodes, with packets in turn, and its events.
fn played(
    rt: &impl Abort,
    alloc: Global,
    steps: &[ScenarioStep],
    events: &mut Vec<LogEntry>,
) -> Play<TurnSpread>
    requires { length steps.now < 2 ^ 32 }
    ensures { result.trace.read ≤ 4 }
{
    let flow = Flow {
        src: 0x0a00_0001,
        dst: 0xc000_0201,
        sport: 1000,
        dport: 80,
        proto: 6,
    };
    let packets = [Packet::Good {
        flow,
        len: 40,
        at: 0,
    }; 4];
    let spread = TurnSpread::new(all_live(alloc, 2).expect(rt, "memory"));
    let mut play = Play::start(alloc, spread, 2).expect(rt, "memory");
    play.run(alloc, &mut FirstWorker, &1, &packets, steps, events)
        .expect(rt, "memory");
    play
}

// The run has these events, and this is what it reports of its records.
fn comes_to(rt: &impl Abort, alloc: Global, steps: &[ScenarioStep], events: &[Event], tally: Tally)
    requires { length steps.now < 2 ^ 32 }
{
    let mut history = Vec::new(alloc);
    let play = played(rt, alloc, steps, &mut history);
    assert_eq!(rt; history.len(), events.len(), "how many events");
    for (said, event) in history.iter().zip(events) {
        assert_eq!(rt; said.event, *event, "an event");
    }
    assert_eq!(rt; play.tally(4), tally, "the records");
}

fn arrive(node: u16, packet: u32, first: bool) -> Event {
    let mut refused = [false; 16];
    refused[0] = first;
    Event::Arrive {
        node,
        packet,
        refused,
    }
}

fn serve(node: u16) -> Event {
    Event::Serve {
        node,
        worker: 0,
        version: 0,
        refused: false,
    }
}

// A packet that is placed is served at once, in turn over the nodes. What a step takes, another may repeat.
#[test]
fn in_turn(rt: HostRuntime) {
    let steps = [
        ScenarioStep::Install {
            node: 0,
            version: 1,
        },
        ScenarioStep::Install {
            node: 1,
            version: 2,
        },
        ScenarioStep::Again(0),
        ScenarioStep::Take(2),
        ScenarioStep::Lose(1),
        ScenarioStep::Again(1),
    ];
    let events = [
        Event::Install {
            node: 0,
            version: 1,
        },
        Event::Install {
            node: 1,
            version: 2,
        },
        arrive(0, 0, false),
        serve(0),
        arrive(1, 1, false),
        serve(1),
        arrive(0, 1, false),
        serve(0),
    ];
    let tally = Tally {
        packets: 4,
        lost: 1,
        unrouted: 0,
        skipped: 1,
        left: 1,
    };
    comes_to(&rt, rt.alloc(), &steps, &events, tally);
}

// A node that is held serves nothing. A restart ends the hold, and marks outlive it.
#[test]
fn held(rt: HostRuntime) {
    let mut marks = [false; 16];
    marks[0] = true;
    let live = [0].to_vec(rt.alloc()).expect(&rt, "memory");
    let steps = [
        ScenarioStep::Live(live),
        ScenarioStep::Full { node: 0, marks },
        ScenarioStep::Hold(0),
        ScenarioStep::Take(2),
        ScenarioStep::Restart(0),
        ScenarioStep::Take(1),
        ScenarioStep::Hold(0),
        ScenarioStep::Drain(0),
        ScenarioStep::Take(7),
    ];
    let events = [
        arrive(0, 0, true),
        arrive(0, 1, true),
        Event::Restart { node: 0 },
        arrive(0, 2, true),
        serve(0),
        arrive(0, 3, true),
        serve(0),
    ];
    let tally = Tally {
        packets: 4,
        lost: 0,
        unrouted: 0,
        skipped: 0,
        left: 0,
    };
    comes_to(&rt, rt.alloc(), &steps, &events, tally);
}

// Where no node is live a packet is unrouted, and counts for the spreader all the same.
#[test]
fn unrouted(rt: HostRuntime) {
    let live = [1, 0].to_vec(rt.alloc()).expect(&rt, "memory");
    let steps = [
        ScenarioStep::Live(Vec::new(rt.alloc())),
        ScenarioStep::Take(1),
        ScenarioStep::Live(live),
        ScenarioStep::Take(1),
    ];
    let events = [arrive(0, 1, false), serve(0)];
    let tally = Tally {
        packets: 4,
        lost: 0,
        unrouted: 1,
        skipped: 0,
        left: 2,
    };
    comes_to(&rt, rt.alloc(), &steps, &events, tally);
}
