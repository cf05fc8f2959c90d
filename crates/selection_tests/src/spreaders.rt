//! Spreaders over live nodes.
use crate::checks::flow;
use hash_laws::SumHash;
use spreader::{HashSpread, Spread, TurnSpread};
use std::alloc::Global;
use std::process::Abort;

// A packet's port, 0 where it has no flow, how many came before it, and its node.
type Choice = (u16, u64, Option<u16>);

// Asks a spreader through its bound alone.
fn chooses<S: Spread>(rt: &impl Abort, spread: &S, choices: &[Choice]) {
    for (port, nth, node) in choices {
        let flow = flow(*port);
        let asked = if *port == 0 { None } else { Some(&flow) };
        assert_eq!(rt; spread.node(asked, *nth), *node, "packet {nth}");
    }
}

fn nodes(rt: &impl Abort, alloc: Global, live: &[u16]) -> Vec<u16> {
    live.to_vec(alloc).expect(rt, "memory")
}

#[test]
fn by_hash(rt: HostRuntime) {
    let mut spread = HashSpread::new(SumHash, nodes(&rt, rt.alloc(), &[0, 1]));
    let choices = [(1000, 1, Some(0)), (1001, 0, Some(1)), (0, 7, Some(1))];
    chooses(&rt, &spread, &choices);
    spread.set_live(nodes(&rt, rt.alloc(), &[5]));
    chooses(&rt, &spread, &[(1001, 0, Some(5))]);
    spread.set_live(Vec::new(rt.alloc()));
    chooses(&rt, &spread, &[(1001, 0, None), (0, 3, None)]);
}

static IN_TURN: [Choice; 10] = [
    (1000, 0, Some(3)),
    (0, 0, Some(3)),
    (1000, 1, Some(1)),
    (0, 1, Some(1)),
    (1000, 2, Some(2)),
    (0, 2, Some(2)),
    (1000, 3, Some(3)),
    (0, 3, Some(3)),
    (1000, u64::MAX, Some(3)),
    (0, u64::MAX, Some(3)),
];

#[test]
fn by_turn(rt: HostRuntime) {
    let mut spread = TurnSpread::new(nodes(&rt, rt.alloc(), &[3, 1, 2]));
    chooses(&rt, &spread, &IN_TURN);
    spread.set_live(Vec::new(rt.alloc()));
    chooses(&rt, &spread, &[(0, 3, None)]);
}
