//! Two threads' worth of counting, on one.
ghost use Rattle.std.specs.Prelude.{◌≡◌, ℕ, slice_index};

use crate::checks::holds;
use cluster_node::Cause;
use stats_book::{Blanks, Names, Stats, StatsBook};
use std::marker::Brand;

// The counts of a book after some packets, and what each of two counters had of them.
fn counted_by_two<B: Names>(blanks: Blanks) -> (Stats, bool)
    requires names { (n : ℕ) → slice_index blanks.names n ≡ B.names n }
    requires parts { (blanks.parts ≡ B.parts) × (B.parts ≡ 3) }
{
    let (mut book, mut all) = StatsBook::<B>::open(blanks);
    let mut one = all.split_off(1);
    let mut two = all.split_off(1);
    // Nothing waits yet.
    let early = book.forwarded_one(&mut one) || book.dropped_one(&mut two, Cause::NoBackend);
    let came = book.receive(&mut one)
        && book.receive(&mut two)
        && book.receive(&mut two)
        && book.receive(&mut one);
    let went = book.forwarded_one(&mut two)
        && book.dropped_one(&mut one, Cause::NotIpv4)
        && book.dropped_one(&mut two, Cause::LostAtRestart);
    all.merge(one);
    all.merge(two);
    book.audit(&mut all);
    (book.stats(), !early && came && went)
}

#[test]
fn counts_are_the_sums_of_the_shares(rt: HostRuntime) {
    let (stats, done) = counted_by_two::<Brand>(Blanks::new(3));
    holds(&rt, done, "each count");
    let numbers = (stats.received, stats.forwarded, stats.waiting);
    holds(&rt, numbers == (4, 1, 1), "the sums");
    let dropped = [1, 0, 0, 0, 0, 0, 0, 0, 0, 0, 0, 0, 1];
    holds(&rt, stats.dropped == dropped, "the drops");
}

static CAUSES: [Cause; 13] = [
    Cause::NotIpv4,
    Cause::Truncated,
    Cause::BadHeader,
    Cause::BadChecksum,
    Cause::Fragment,
    Cause::NotTcpUdp,
    Cause::BadTransport,
    Cause::TooLarge,
    Cause::NoService,
    Cause::NoBackend,
    Cause::NoVersion,
    Cause::RingsFull,
    Cause::LostAtRestart,
];

// The place of the first cause of which nothing was dropped.
fn first_without(stats: &Stats) -> usize {
    stats
        .dropped
        .iter()
        .position(|count| *count == 0)
        .unwrap_or(13)
}

// Each cause has a place of its own, in the order of the causes.
#[test]
fn causes_in_their_order(rt: HostRuntime) {
    let mut stats = Stats::new();
    holds(&rt, !stats.forwarded_one(), "nothing waits");
    for (at, cause) in CAUSES.iter().enumerate() {
        holds(&rt, stats.receive() && stats.dropped_one(*cause), "a drop");
        holds(
            &rt,
            first_without(&stats) == at.saturating_add(1),
            "its place",
        );
    }
    holds(&rt, (stats.received, stats.waiting) == (13, 0), "the sums");
    holds(
        &rt,
        !stats.dropped_one(Cause::NotIpv4),
        "nothing waits any more",
    );
}

// Of one run a packet was sent. Of the other one was dropped, and one waits.
#[test]
fn counts_of_two_runs_are_added(rt: HostRuntime) {
    let mut one = Stats::new();
    let mut other = Stats::new();
    holds(&rt, one.receive() && one.forwarded_one(), "sent");
    let dropped = other.receive() && other.dropped_one(Cause::RingsFull);
    holds(&rt, dropped && other.receive(), "dropped, and waiting");
    holds(&rt, one.add(&other), "added");
    let numbers = (one.received, one.forwarded, one.waiting);
    holds(&rt, numbers == (3, 1, 1), "the sums");
    holds(&rt, one.dropped[11] == 1, "the drop");
    holds(&rt, one.dropped[12] == 0, "no other drop");
}

// They lie in another order than they are printed in.
#[test]
fn counts_are_printed_in_their_order(rt: HostRuntime) {
    let alloc = rt.alloc();
    let mut stats = Stats::new();
    for _ in 0..5 {
        holds(&rt, stats.receive(), "it came");
    }
    holds(&rt, stats.forwarded_one(), "it was sent");
    holds(&rt, stats.dropped_one(Cause::Fragment), "it was dropped");
    let line = format!(in alloc; "{stats:?}").expect(&rt, "memory");
    let wanted =
        "Stats { received: 5, forwarded: 1, dropped: [0, 0, 0, 0, 1, 0, 0, 0, 0, 0, 0, 0, 0], waiting: 3 }";
    holds(&rt, line.as_str() == wanted, "a line");
}
