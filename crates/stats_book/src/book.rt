//! The counts, beside a ledger for each.
ghost use Rattle.std.specs.Prelude.{◌≡◌, ◌+◌, ◌<◌, ◌↔◌, true, false, ℕ, MatchBool, replicate, slice_index};
ghost use Rattle.stats_book.specs.Counts.{one_more};
ghost use Rattle.stats_book.specs.Moves.{IsReceived, IsForwarded, IsDropped};
ghost use Rattle.stats_book.specs.Names.{Unnamed};

use crate::drops::{DropBlanks, DropBooks};
use crate::ledgers::{Names, Of};
use crate::shares::Shares;
use crate::stats::Stats;
use cluster_node::Cause;
use std::fmt;
use std::marker::Model;
use std::sync::ledger::{Blank, Book};

/// Ledgers for the fifteen counts, which no type vouches for yet.
#[derive(Drop)]
pub struct Blanks {
    received: Blank,
    forwarded: Blank,
    dropped: DropBlanks,
}

impl fmt::Debug for Blanks {
    fn fmt<W: fmt::Write>(&self, f: &mut fmt::Formatter<W>) -> fmt::Result {
        f.debug_struct("Blanks").finish_non_exhaustive()
    }
}

impl Model for Blanks {
    ghost use Rattle.std.specs.Prelude.{◌≡◌, ◌∷◌};
    ghost use Rattle.stats_book.specs.Names.{Unnamed};

    ghost Value = { Unnamed };

    ghost view = { λ b. record { names = b.received.name ∷ b.forwarded.name ∷ b.dropped.names; parts = b.dropped.parts } };

    ghost invariant = { λ b. (b.received.parts ≡ b.dropped.parts) × (b.forwarded.parts ≡ b.dropped.parts) };
}

impl Blanks {
    /// New ledgers, the shares of each cut into so many parts.
    pub fn new(parts: u64) -> Blanks
        ensures { result.parts ≡ parts }
    {
        Blanks {
            received: Blank::new(parts),
            forwarded: Blank::new(parts),
            dropped: DropBlanks::new(parts),
        }
    }
}

/// The counts of a run, seen as these alone. The total of each ledger is its count.
#[derive(Drop)]
pub struct StatsBook<B: Names> {
    stats: Stats,
    received: Book<Of<B, 0>>,
    forwarded: Book<Of<B, 1>>,
    dropped: DropBooks<B>,
}

impl<B: Names> fmt::Debug for StatsBook<B> {
    fn fmt<W: fmt::Write>(&self, f: &mut fmt::Formatter<W>) -> fmt::Result {
        f.debug_struct("StatsBook")
            .field("stats", &self.stats)
            .finish_non_exhaustive()
    }
}

impl<B: Names> Model for StatsBook<B> {
    ghost use Rattle.std.specs.Prelude.{◌≡◌};
    ghost use Rattle.stats_book.specs.declared.stats.Stats.{Stats};

    ghost Value = { Stats };

    ghost view = { λ b. b.stats };

    ghost invariant = { λ b. (b.received.total ≡ b.stats.received) × (b.forwarded.total ≡ b.stats.forwarded) × (b.dropped ≡ b.stats.dropped) };
}

impl<B: Names> StatsBook<B> {
    /// A book of no packets, and all shares of its ledgers.
    pub fn open(blanks: Blanks) -> (StatsBook<B>, Shares<B>)
        requires names { (n : ℕ) → slice_index blanks.names n ≡ B.names n }
        requires parts { blanks.parts ≡ B.parts }
        ensures book { (result.0.received ≡ 0) × (result.0.forwarded ≡ 0) × (result.0.dropped ≡ replicate 13 0) × (result.0.waiting ≡ 0) }
        ensures shares { result.1 ≡ record { parts = B.parts; received = 0; forwarded = 0; dropped = replicate 13 0 } }
    {
        let Blanks {
            received,
            forwarded,
            dropped,
        } = blanks;
        let (received, received_shares) = received.open();
        let (forwarded, forwarded_shares) = forwarded.open();
        let (dropped, dropped_shares) = dropped.open();
        (
            StatsBook {
                stats: Stats::new(),
                received,
                forwarded,
                dropped,
            },
            Shares {
                received: received_shares,
                forwarded: forwarded_shares,
                dropped: dropped_shares,
            },
        )
    }

    /// A copy of the counts.
    pub fn stats(&self) -> Stats
        ensures { result ≡ self.now }
    {
        self.stats
    }

    /// Counts a packet that came, on these shares. The answer is false, and nothing is changed, exactly where as many came as
    /// can be counted.
    pub fn receive(&mut self, mine: &mut Shares<B>) -> bool
        requires { 0 < mine.old.parts }
        ensures full { (result ≡ false) ↔ (self.old.received ≡ u64.MAX) }
        ensures moved { MatchBool result (IsReceived self.old self.new) (self.new ≡ self.old) }
        ensures shares { MatchBool result (mine.new ≡ record mine.old { received = mine.old.received + 1 }) (mine.new ≡ mine.old) }
    {
        if !self.stats.receive() {
            return false;
        }
        mine.receive(&mut self.received);
        true
    }

    /// Counts a packet that was sent, on these shares. The answer is false, and nothing is changed, exactly where none waits.
    pub fn forwarded_one(&mut self, mine: &mut Shares<B>) -> bool
        requires { 0 < mine.old.parts }
        ensures none { (result ≡ false) ↔ (self.old.waiting ≡ 0) }
        ensures moved { MatchBool result (IsForwarded self.old self.new) (self.new ≡ self.old) }
        ensures shares { MatchBool result (mine.new ≡ record mine.old { forwarded = mine.old.forwarded + 1 }) (mine.new ≡ mine.old) }
    {
        if !self.stats.forwarded_one() {
            return false;
        }
        mine.forwarded_one(&mut self.forwarded);
        true
    }

    /// Counts a packet that was dropped, on these shares. The answer is false, and nothing is changed, exactly where none
    /// waits.
    pub fn dropped_one(&mut self, mine: &mut Shares<B>, cause: Cause) -> bool
        requires { 0 < mine.old.parts }
        ensures none { (result ≡ false) ↔ (self.old.waiting ≡ 0) }
        ensures moved { MatchBool result (IsDropped cause self.old self.new) (self.new ≡ self.old) }
        ensures shares { MatchBool result (mine.new ≡ record mine.old { dropped = one_more mine.old.dropped cause }) (mine.new ≡ mine.old) }
    {
        if !self.stats.dropped_one(cause) {
            return false;
        }
        mine.dropped_one(&mut self.dropped, cause);
        true
    }

    /// With all parts of the ledgers in hand, what was counted on them are the counts.
    pub fn audit(&mut self, all: &mut Shares<B>)
        requires { all.old.parts ≡ B.parts }
        ensures whole { all.old ≡ record { parts = B.parts; received = self.old.received; forwarded = self.old.forwarded; dropped = self.old.dropped } }
        ensures same { (self.new ≡ self.old) × (all.new ≡ all.old) }
    {
        self.received.audit(&mut all.received);
        self.forwarded.audit(&mut all.forwarded);
        self.dropped.audit(&mut all.dropped);
    }
}
