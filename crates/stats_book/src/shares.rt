//! What one thread counted.
ghost use Rattle.std.specs.Prelude.{◌≡◌, ◌+◌, ◌<◌, replicate};
ghost use Rattle.stats_book.specs.Counts.{Counted, one_more, sums};

use crate::drops::{DropBooks, DropShares, some_parts};
use crate::ledgers::{Names, Of};
use cluster_node::Cause;
use std::fmt;
use std::marker::Model;
use std::sync::ledger::{Book, Share};

/// Some parts of all ledgers of a book, and what was counted on them. They take no memory.
#[derive(Drop)]
pub struct Shares<B: Names> {
    pub(crate) received: Share<Of<B, 0>>,
    pub(crate) forwarded: Share<Of<B, 1>>,
    pub(crate) dropped: DropShares<B>,
}

impl<B: Names> fmt::Debug for Shares<B> {
    fn fmt<W: fmt::Write>(&self, f: &mut fmt::Formatter<W>) -> fmt::Result {
        f.debug_struct("Shares").finish_non_exhaustive()
    }
}

impl<B: Names> Model for Shares<B> {
    ghost use Rattle.std.specs.Prelude.{◌≡◌};
    ghost use Rattle.stats_book.specs.Counts.{Counted};

    ghost Value = { Counted };

    ghost view = { λ s. record { parts = s.dropped.parts; received = s.received.amount; forwarded = s.forwarded.amount; dropped = s.dropped.amounts } };

    ghost invariant = { λ s. (s.received.parts ≡ s.dropped.parts) × (s.forwarded.parts ≡ s.dropped.parts) };
}

impl<B: Names> Shares<B> {
    /// Some parts of each ledger, on which nothing was counted. The other parts, and all that was counted, stay.
    pub fn split_off(&mut self, parts: u64) -> Shares<B>
        requires { parts < self.old.parts }
        ensures part { result ≡ record { parts = parts; received = 0; forwarded = 0; dropped = replicate 13 0 } }
        ensures parts { self.new.parts + parts ≡ self.old.parts }
        ensures rest { self.new ≡ record self.old { parts = self.new.parts } }
    {
        Shares {
            received: some_parts(&mut self.received, parts),
            forwarded: some_parts(&mut self.forwarded, parts),
            dropped: self.dropped.split_off(parts),
        }
    }

    /// The parts of both, and what was counted on both.
    pub fn merge(&mut self, other: Shares<B>)
        ensures { self.new ≡ record {
          parts = self.old.parts + other.parts;
          received = self.old.received + other.received;
          forwarded = self.old.forwarded + other.forwarded;
          dropped = sums self.old.dropped other.dropped;
        } }
    {
        let Shares {
            received,
            forwarded,
            dropped,
        } = other;
        self.received.merge(received);
        self.forwarded.merge(forwarded);
        self.dropped.merge(dropped);
    }

    // One more on the ledger of what was received.
    pub(crate) fn receive(&mut self, book: &mut Book<Of<B, 0>>)
        requires { 0 < self.old.parts }
        ensures book { book.new.total ≡ book.old.total + 1 }
        ensures shares { self.new ≡ record self.old { received = self.old.received + 1 } }
    {
        book.add(&mut self.received, 1);
    }

    // One more on the ledger of what was forwarded.
    pub(crate) fn forwarded_one(&mut self, book: &mut Book<Of<B, 1>>)
        requires { 0 < self.old.parts }
        ensures book { book.new.total ≡ book.old.total + 1 }
        ensures shares { self.new ≡ record self.old { forwarded = self.old.forwarded + 1 } }
    {
        book.add(&mut self.forwarded, 1);
    }

    // One more on the ledger of a cause.
    pub(crate) fn dropped_one(&mut self, books: &mut DropBooks<B>, cause: Cause)
        requires { 0 < self.old.parts }
        ensures book { books.new ≡ one_more books.old cause }
        ensures shares { self.new ≡ record self.old { dropped = one_more self.old.dropped cause } }
    {
        books.count(&mut self.dropped, cause);
    }
}
