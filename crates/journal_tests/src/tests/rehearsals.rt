//! A node's whole run on one thread, beside the replay of its history.
ghost use Rattle.std.specs.Prelude.{◌≡◌, ◌<◌, length};

use super::journals::{replays, same_told, setup_of, told};
use super::{Sums, catalogue, holds, packets};
use cluster_core::Setup;
use cluster_node::Outcome;
use connection_table::{ConnTable, LruTable, PlaceTable, PlainTable};
use hash_laws::SumHash;
use node_rehearsal::rehearse;
use selection::Maglev;
use std::alloc::Global;
use std::process::Abort;
use thread_records::{Command, NodeRecord, join_runs};

fn rehearsed<T: ConnTable>(
    rt: &impl Abort,
    alloc: Global,
    setup: &Setup<Sums, SumHash>,
    node: u16,
    commands: &[Command],
    ring: u32,
) -> NodeRecord
    requires { node < length setup.now.nodes }
{
    let catalogue = catalogue(rt, alloc);
    let run = rehearse::<_, _, T>(alloc, setup, &catalogue, &packets(), node, commands, ring);
    run.expect(rt, "a run")
}

// How many outcomes are forwards, and how many are refusals.
fn counted(outcomes: &[Outcome]) -> (usize, usize) {
    let (mut forwards, mut refused) = (0usize, 0usize);
    for outcome in outcomes {
        match outcome {
            Outcome::Forward { .. } => forwards = forwards.wrapping_add(1),
            Outcome::Refused(_) => refused = refused.wrapping_add(1),
            _ => {},
        }
    }
    (forwards, refused)
}

// How many events there are, forwards and refusals.
fn has(rt: &impl Abort, run: &NodeRecord, wanted: (usize, usize, usize)) {
    let (forwards, refused) = counted(run.outcomes.as_slice());
    assert_eq!(rt; (run.events.len(), forwards, refused), wanted);
}

// Two lives sent so many packets.
fn sent(rt: &impl Abort, run: &NodeRecord, first: usize, second: usize) {
    holds(rt, run.sent.len() == 2, "lives");
    for (life, list) in run.sent.iter().enumerate() {
        let wanted = if life == 0 { first } else { second };
        holds(rt, list.len() == wanted, "sent");
    }
}

// Two lives: before any version, under version 1 and then 2, and after a restart.
static TWO_LIVES: [Command; 12] = [
    Command::Offer(0),
    Command::Publish(1),
    Command::Offer(0),
    Command::Offer(1),
    Command::Publish(2),
    Command::Publish(1),
    Command::Publish(9),
    Command::Offer(2),
    Command::Offer(3),
    Command::Offer(4),
    Command::Restart,
    Command::Offer(0),
];

static ONE_LIFE: [Command; 2] = [Command::Publish(3), Command::Offer(0)];

// No packet was lost where a life ended.
fn loses_none(rt: &impl Abort, outcomes: &[Outcome]) {
    for outcome in outcomes {
        if let Outcome::Restarted { lost } = outcome {
            holds(rt, *lost == 0, "lost");
        }
    }
}

// Both nodes' runs are one history.
fn are_joined(rt: &impl Abort, alloc: Global, setup: &Setup<Sums, SumHash>, runs: &[NodeRecord])
    requires { setup.now.size ≡ 7 }
{
    let history = join_runs(alloc, runs).expect(rt, "memory");
    let outcomes = history.outcomes.as_slice();
    holds(rt, history.events.len() == 19, "events");
    loses_none(rt, outcomes);
    replays(rt, alloc, setup, history.events.as_slice(), outcomes);
}

// Twelve commands and four servings; an older and an unknown version and a packet that there isn't are refused.
fn rehearses<T: ConnTable>(rt: &impl Abort, alloc: Global) {
    let setup = setup_of(rt, alloc, Maglev { hash: SumHash }, 2, 2);
    assert!(rt; setup.nodes().len() == 2);
    let one = rehearsed::<T>(rt, alloc, &setup, 0, &TWO_LIVES, 16);
    has(rt, &one, (16, 4, 3));
    sent(rt, &one, 3, 1);
    replays(
        rt,
        alloc,
        &setup,
        one.events.as_slice(),
        one.outcomes.as_slice(),
    );
    let other = rehearsed::<T>(rt, alloc, &setup, 1, &ONE_LIFE, 1);
    has(rt, &other, (3, 1, 0));
    let both = Vec::from_array(alloc, [one, other]).expect(rt, "memory");
    are_joined(rt, alloc, &setup, both.as_slice());
}

#[test]
fn runs_are_their_replays(rt: HostRuntime) {
    rehearses::<PlainTable>(&rt, rt.alloc());
    rehearses::<LruTable>(&rt, rt.alloc());
    rehearses::<PlaceTable>(&rt, rt.alloc());
}

static STOPPED: [Command; 6] = [
    Command::Publish(1),
    Command::Offer(0),
    Command::Offer(1),
    Command::Offer(3),
    Command::Stop,
    Command::Offer(0),
];

// A life that ends with a stop serves nothing of what was placed in it. The next one knows the version: six commands and one
// serving.
#[test]
fn a_stop_loses_what_was_placed(rt: HostRuntime) {
    let setup = setup_of(&rt, rt.alloc(), Maglev { hash: SumHash }, 2, 2);
    assert!(rt; setup.nodes().len() == 2);
    let run = rehearsed::<PlainTable>(&rt, rt.alloc(), &setup, 0, &STOPPED, 16);
    has(&rt, &run, (7, 1, 0));
    sent(&rt, &run, 0, 1);
    let outcomes = run.outcomes.as_slice();
    holds(&rt, outcomes.len() == 7, "outcomes");
    let stop = outcomes.get(4).expect(&rt, "an outcome");
    same_told(&rt, told(stop), ("restarted", 2, 0), 4);
    replays(&rt, rt.alloc(), &setup, run.events.as_slice(), outcomes);
}
