//! The worked example of a full ring, and live tries beside it.
use crate::checks::flow;
use hash_laws::SumHash;
use std::process::Abort;
use steering::{Placed, Steerer, home};

fn same_place(rt: &impl Abort, found: Placed, wanted: Placed, step: usize) {
    assert_eq!(rt; found, wanted, "step {step}");
}

// Which of three workers refuse, and where the packet goes.
static PLACED: [([bool; 3], Placed); 7] = [
    ([false, false, false], Placed::Worker(1)),
    ([false, true, false], Placed::Worker(0)),
    ([false, true, false], Placed::Worker(2)),
    ([false, true, false], Placed::Worker(2)),
    ([false, true, false], Placed::Worker(0)),
    ([true, true, true], Placed::RingsFull),
    // The packet that found no worker counted too: five homes refused so far, and 5 mod 3 is 2.
    ([false, true, false], Placed::Worker(2)),
];

fn refused(marks: [bool; 3]) -> [bool; 16] {
    let mut all = [false; 16];
    all[..3].copy_from_slice(&marks);
    all
}

fn places(rt: &impl Abort, steerer: &mut Steerer, marks: [bool; 3], wanted: Placed, step: usize) {
    let found = steerer.place(&SumHash, &flow(1000), &refused(marks));
    same_place(rt, found, wanted, step);
}

// The flow from port 1000 among three workers is at home at 1. With worker 1 refusing four times it goes to 0, 2, 2
// and 0, and where all refuse nowhere. In a new life it goes to 0.
#[test]
fn full_home_goes_round(rt: HostRuntime) {
    let at = home(&SumHash, &flow(1000), 3);
    same_place(&rt, Placed::Worker(at), Placed::Worker(1), 0);
    let mut steerer = Steerer::new(3);
    for (step, (marks, wanted)) in PLACED.iter().enumerate() {
        places(&rt, &mut steerer, *marks, *wanted, step);
    }
    steerer.restart();
    let marks = [false, true, false];
    places(&rt, &mut steerer, marks, Placed::Worker(0), 7);
}

// A packet begins, at home at worker 1, or a worker is tried, which gives this.
#[derive(Clone, Copy)]
enum Try {
    Begin,
    Next(Placed),
}

// The same packets with rings that are asked one after another.
static TRIES: [Try; 16] = [
    Try::Next(Placed::RingsFull),
    Try::Begin,
    Try::Next(Placed::Worker(0)),
    Try::Begin,
    Try::Next(Placed::Worker(2)),
    Try::Begin,
    Try::Next(Placed::Worker(2)),
    Try::Begin,
    Try::Next(Placed::Worker(0)),
    Try::Begin,
    Try::Next(Placed::Worker(2)),
    Try::Next(Placed::Worker(0)),
    Try::Next(Placed::RingsFull),
    Try::Next(Placed::RingsFull),
    Try::Begin,
    Try::Next(Placed::Worker(2)),
];

#[test]
fn live_tries_take_the_same_way(rt: HostRuntime) {
    let mut steerer = Steerer::new(3);
    for (step, one) in TRIES.iter().enumerate() {
        let (found, wanted) = match *one {
            Try::Begin => {
                let home = steerer.begin(&SumHash, &flow(1000));
                (Placed::Worker(home), Placed::Worker(1))
            },
            Try::Next(wanted) => (steerer.next_try(), wanted),
        };
        same_place(&rt, found, wanted, step);
    }
}
