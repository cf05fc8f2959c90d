//! Counts that add up.
ghost use Rattle.std.specs.Prelude.{◌≡◌, ◌+◌, ◌<◌, ◌≤◌, ◌↔◌, sum, true, false, MatchBool, replicate};
ghost use Rattle.stats_book.specs.Counts.{place_of, sums};

use cluster_node::Cause;
use std::fmt;

/// What became of the packets that arrived at a cluster's nodes.
///
/// The three counts that nearly each packet changes stand first. So they mostly share a line of the cache with the lock before
/// them, which goes from thread to thread: one line in place of two.
#[derive(Clone, Copy, PartialEq, Eq)]
pub struct Stats {
    /// Packets that arrived at a node.
    pub received: u64,
    /// Packets that were sent to a backend.
    pub forwarded: u64,
    /// Packets of which it isn't known yet.
    pub waiting: u64,
    /// Packets that were not sent, by cause, in the order of `Cause`.
    pub dropped: [u64; 13],
    pub ghost adds_up: { received ≡ forwarded + sum dropped + waiting },
}

impl fmt::Debug for Stats {
    fn fmt<W: fmt::Write>(&self, f: &mut fmt::Formatter<W>) -> fmt::Result {
        f.debug_struct("Stats")
            .field("received", &self.received)
            .field("forwarded", &self.forwarded)
            .field("dropped", &self.dropped)
            .field("waiting", &self.waiting)
            .finish()
    }
}

// The place of a cause among the drops.
fn place_of(cause: Cause) -> usize
    ensures place { result ≡ place_of cause }
    ensures below { result < 13 }
{
    match cause {
        Cause::NotIpv4 => 0,
        Cause::Truncated => 1,
        Cause::BadHeader => 2,
        Cause::BadChecksum => 3,
        Cause::Fragment => 4,
        Cause::NotTcpUdp => 5,
        Cause::BadTransport => 6,
        Cause::TooLarge => 7,
        Cause::NoService => 8,
        Cause::NoBackend => 9,
        Cause::NoVersion => 10,
        Cause::RingsFull => 11,
        Cause::LostAtRestart => 12,
    }
}

// The drops of both, cause by cause.
fn both_drops(some: &[u64; 13], others: &[u64; 13]) -> [u64; 13]
    requires { sum some.now + sum others.now ≤ u64.MAX }
    ensures { result ≡ sums some.now others.now }
{
    let mut drops = *some;
    for at in 0..13usize {
        drops[at] += others[at];
    }
    drops
}

impl Stats {
    ghost use Rattle.stats_book.specs.Moves.{IsReceived, IsForwarded, IsDropped, IsSum};

    /// Before any packet.
    pub fn new() -> Stats
        ensures received { result.received ≡ 0 }
        ensures forwarded { result.forwarded ≡ 0 }
        ensures dropped { result.dropped ≡ replicate 13 0 }
        ensures waiting { result.waiting ≡ 0 }
    {
        Stats {
            received: 0,
            forwarded: 0,
            dropped: [0; 13],
            waiting: 0,
        }
    }

    /// A packet came, and waits. The answer is false, and nothing is changed, exactly where as many came as can be counted.
    pub fn receive(&mut self) -> bool
        ensures full { (result ≡ false) ↔ (self.old.received ≡ u64.MAX) }
        ensures moved { MatchBool result (IsReceived self.old self.new) (self.new ≡ self.old) }
    {
        if self.received == u64::MAX {
            return false;
        }
        let Stats {
            received,
            waiting,
            ..
        } = self;
        *received += 1;
        *waiting += 1;
        true
    }

    /// A packet that waited was sent. The answer is false, and nothing is changed, exactly where none waits.
    pub fn forwarded_one(&mut self) -> bool
        ensures none { (result ≡ false) ↔ (self.old.waiting ≡ 0) }
        ensures moved { MatchBool result (IsForwarded self.old self.new) (self.new ≡ self.old) }
    {
        if self.waiting == 0 {
            return false;
        }
        let Stats {
            forwarded,
            waiting,
            ..
        } = self;
        *forwarded += 1;
        *waiting -= 1;
        true
    }

    /// A packet that waited was dropped. The answer is false, and nothing is changed, exactly where none waits.
    pub fn dropped_one(&mut self, cause: Cause) -> bool
        ensures none { (result ≡ false) ↔ (self.old.waiting ≡ 0) }
        ensures moved { MatchBool result (IsDropped cause self.old self.new) (self.new ≡ self.old) }
    {
        if self.waiting == 0 {
            return false;
        }
        let at = place_of(cause);
        let Stats {
            dropped,
            waiting,
            ..
        } = self;
        dropped[at] += 1;
        *waiting -= 1;
        true
    }

    /// The counts of other packets beside these. The answer is false, and nothing is changed, exactly where more packets came than can
    /// be counted.
    pub fn add(&mut self, others: &Stats) -> bool
        ensures full { (result ≡ false) ↔ (u64.MAX < self.old.received + others.now.received) }
        ensures moved { MatchBool result (IsSum self.old others.now self.new) (self.new ≡ self.old) }
    {
        let Some(received) = self.received.checked_add(others.received) else {
            return false;
        };
        *self = Stats {
            received,
            forwarded: self.forwarded + others.forwarded,
            waiting: self.waiting + others.waiting,
            dropped: both_drops(&self.dropped, &others.dropped),
        };
        true
    }
}
