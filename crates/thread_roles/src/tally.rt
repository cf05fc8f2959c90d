//! What one thread counts in the book of a run.
ghost use Rattle.std.specs.Prelude.{◌≡◌, ◌+◌, ◌<◌, false, replicate};
ghost use Rattle.stats_book.specs.Counts.{one_more};
ghost use Rattle.thread_roles.specs.Counts.{plus, with_arrival, with_choice, with_lost};

use cluster_node::Cause;
use forwarder::Choice;
use stats_book::{Names, Shares, Stats, StatsBook};
use std::fmt;
use std::sync::{Mutex, Wait};

/// Shares of a book on which nothing was counted: one part of each ledger.
#[derive(Drop)]
pub struct Part<B: Names> {
    shares: Shares<B>,
    ghost fresh: { shares ≡ record { parts = 1; received = 0; forwarded = 0; dropped = replicate 13 0 } },
}

impl<B: Names> fmt::Debug for Part<B> {
    fn fmt<W: fmt::Write>(&self, f: &mut fmt::Formatter<W>) -> fmt::Result {
        f.debug_struct("Part").finish_non_exhaustive()
    }
}

/// What one thread counted, and whether the book refused to count something.
#[derive(Drop)]
pub struct ThreadShares<B: Names> {
    /// Its shares of the book.
    pub shares: Shares<B>,
    /// A count was refused: something was at its greatest, or nothing waited.
    pub lost: bool,
}

impl<B: Names> fmt::Debug for ThreadShares<B> {
    fn fmt<W: fmt::Write>(&self, f: &mut fmt::Formatter<W>) -> fmt::Result {
        f.debug_struct("ThreadShares")
            .field("lost", &self.lost)
            .finish_non_exhaustive()
    }
}

impl<B: Names> ThreadShares<B> {
    /// Of one part on which nothing was counted.
    pub fn of_part(part: Part<B>) -> ThreadShares<B>
        ensures shares { result.shares ≡ record { parts = 1; received = 0; forwarded = 0; dropped = replicate 13 0 } }
        ensures lost { result.lost ≡ false }
    {
        let Part { shares } = part;
        ThreadShares {
            shares,
            lost: false,
        }
    }

    /// One part for another thread.
    pub fn part(&mut self) -> Part<B>
        requires { 1 < self.old.shares.parts }
        ensures parts { self.new.shares.parts + 1 ≡ self.old.shares.parts }
        ensures same { (self.new.shares ≡ record self.old.shares { parts = self.new.shares.parts }) × (self.new.lost ≡ self.old.lost) }
    {
        Part {
            shares: self.shares.split_off(1),
        }
    }

    /// Takes what another thread counted.
    pub fn merge(&mut self, other: ThreadShares<B>)
        ensures parts { self.new.shares.parts ≡ self.old.shares.parts + other.shares.parts }
        ensures shares { self.new.shares ≡ plus self.old.shares other.shares }
        ensures lost { self.new.lost ≡ false → (self.old.lost ≡ false) × (other.lost ≡ false) }
    {
        let ThreadShares { shares, lost } = other;
        self.shares.merge(shares);
        if lost {
            self.lost = true;
        }
    }

    /// A packet came.
    pub fn receive<R: Wait>(&mut self, rt: &R, book: &Mutex<StatsBook<B>>)
        requires { 0 < self.old.shares.parts }
        ensures parts { self.new.shares.parts ≡ self.old.shares.parts }
        ensures lost { self.new.lost ≡ false → (self.old.lost ≡ false) × (self.new.shares ≡ with_arrival self.old.shares) }
    {
        let mut guard = book.lock(rt);
        if !guard.receive(&mut self.shares) {
            self.lost = true;
        }
    }

    /// A packet was dropped by its driver.
    pub fn drop_one<R: Wait>(&mut self, rt: &R, book: &Mutex<StatsBook<B>>, cause: Cause)
        requires { 0 < self.old.shares.parts }
        ensures parts { self.new.shares.parts ≡ self.old.shares.parts }
        ensures lost { self.new.lost ≡ false → (self.old.lost ≡ false)
            × (self.new.shares ≡ record self.old.shares { dropped = one_more self.old.shares.dropped cause }) }
    {
        let mut guard = book.lock(rt);
        if !guard.dropped_one(&mut self.shares, cause) {
            self.lost = true;
        }
    }

    /// So many packets were lost where a life ended.
    pub fn lose<R: Wait>(&mut self, rt: &R, book: &Mutex<StatsBook<B>>, lost: u64)
        requires { 0 < self.old.shares.parts }
        ensures parts { self.new.shares.parts ≡ self.old.shares.parts }
        ensures lost { self.new.lost ≡ false → (self.old.lost ≡ false) × (self.new.shares ≡ with_lost lost self.old.shares) }
    {
        for _ in 0..lost {
            self.drop_one(rt, book, Cause::LostAtRestart);
        }
    }

    /// A packet was served, with this choice. The answer is a copy of the counts, taken before the lock is given back. It is
    /// inlined, so that no copy is made for a gate that doesn't look at it.
    #[inline(always)]
    pub fn serve_one<R: Wait>(
        &mut self,
        rt: &R,
        book: &Mutex<StatsBook<B>>,
        choice: Choice,
    ) -> Stats
        requires { 0 < self.old.shares.parts }
        ensures parts { self.new.shares.parts ≡ self.old.shares.parts }
        ensures lost { self.new.lost ≡ false → (self.old.lost ≡ false) × (self.new.shares ≡ with_choice choice self.old.shares) }
    {
        let mut guard = book.lock(rt);
        let done = match choice {
            Choice::Forward { .. } => guard.forwarded_one(&mut self.shares),
            Choice::NoService => guard.dropped_one(&mut self.shares, Cause::NoService),
            Choice::NoBackend => guard.dropped_one(&mut self.shares, Cause::NoBackend),
        };
        if !done {
            self.lost = true;
        }
        guard.stats()
    }
}
