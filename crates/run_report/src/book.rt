//! The last send of each flow, and the splits so far.
ghost use Rattle.std.specs.Prelude.{◌≡◌, ◌+◌, ◌++◌, ◌∷◌, [], List, length, reverse, Option, Some, None, IfSome, IfOk, OnOk};
ghost use Rattle.cluster_node.specs.declared.events.LogEntry.{LogEntry};
ghost use Rattle.cluster_node.specs.declared.packets.Packet.{Packet};
ghost use Rattle.run_report.specs.declared.noted.Noted.{Noted};
ghost use Rattle.run_report.specs.Splits.{sent_by, splits_of, flows_of, said_of};
ghost use Rattle.run_report.specs.Noting.{noted_by, split_with, beside_with, besides_noted};
ghost use Rattle.run_report.specs.Books.{IsPlaceOf, IsSettledAs};

use crate::last_sends::LastSends;
use crate::noted::{Beside, Noted};
use crate::sending::{Split, sent_by};
use cluster_node::{Event, Outcome};
use connection_table::TableKey;
use std::alloc::{AllocError, Global};
use std::fmt;

/// What is known of a cluster's events so far: how many there were, the last send of each flow with what is kept beside it, and
/// the splits. Splits are in the order of their later sends. The book's memory grows with the flows and the splits, and not
/// with the events. Flows are hashed by a key.
#[derive(Drop)]
pub struct SplitBook<T> {
    number: u64,
    last: LastSends<T>,
    splits: Vec<Split>,
    // Of each split what was kept beside its sends.
    besides: Vec<Beside<T>>,
}

impl<T> fmt::Debug for SplitBook<T> {
    fn fmt<W: fmt::Write>(&self, f: &mut fmt::Formatter<W>) -> fmt::Result {
        f.debug_struct("SplitBook")
            .field("number", &self.number)
            .field("splits", &self.splits)
            .finish_non_exhaustive()
    }
}

// The number of the next event. Where it has no room it is refused, as memory is.
fn next(number: u64) -> Result<u64, AllocError>
    ensures { IfOk result (λ n. n ≡ number + 1) }
{
    match number.checked_add(1) {
        Some(next) => Ok(next),
        None => Err(AllocError),
    }
}

impl<T: Copy> SplitBook<T> {
    ghost use Rattle.run_report.specs.Books.{IsBookOf};

    /// The book of no events.
    pub fn new(alloc: Global, key: TableKey) -> SplitBook<T>
        ensures of_none { IsBookOf [] result }
        ensures settled { IsSettledAs [] result }
        ensures number { result.number ≡ 0 }
    {
        SplitBook {
            number: 0,
            last: LastSends::new(alloc, key),
            splits: Vec::new(alloc),
            besides: Vec::new(alloc),
        }
    }

    // A send after the flow's last one.
    fn compare(&mut self, first: &Noted<T>, later: &Noted<T>) -> Result<(), AllocError>
        ensures splits { OnOk result (self.new.splits.items ≡ self.old.splits.items ++ split_with (Some first.now) later.now) }
        ensures besides { OnOk result (self.new.besides.items ≡ self.old.besides.items ++ beside_with (Some first.now) later.now) }
        ensures rest { self.new ≡ record self.old { splits = self.new.splits; besides = self.new.besides } }
    {
        if first.sending.backend == later.sending.backend {
            return Ok(());
        }
        let split = Split {
            first: first.sending,
            later: later.sending,
        };
        let beside = Beside {
            first: first.beside,
            later: later.beside,
        };
        let Ok(()) = self.splits.push(split) else {
            return Err(AllocError);
        };
        let Ok(()) = self.besides.push(beside) else {
            return Err(AllocError);
        };
        Ok(())
    }

    // A send is its flow's last. The place is that of the flow's entry.
    fn take(&mut self, place: Option<u32>, later: &Noted<T>) -> Result<(), AllocError>
        requires { IsPlaceOf later.now.sending.flow self.old.last place }
        ensures settled { (done : List (Noted T)) → IsSettledAs done self.old → OnOk result (IsSettledAs (later.now ∷ done) self.new) }
        ensures number { self.new.number ≡ self.old.number }
    {
        match self.last.put(place, later)? {
            None => Ok(()),
            Some(first) => self.compare(&first, later),
        }
    }

    // What was sent is its flow's last send, where the one before it went elsewhere, or there is none. The place is that of the
    // flow's entry.
    #[inline(never)]
    fn send_anew(
        &mut self,
        place: Option<u32>,
        event: &Event,
        outcome: &Outcome,
        beside: T,
    ) -> Result<(), AllocError>
        requires { IfSome (sent_by self.old.number event.now outcome.now) (λ s. IsPlaceOf s.flow self.old.last place) }
        ensures settled { (done : List (Noted T)) → IsSettledAs done self.old →
            OnOk result (IsSettledAs (noted_by self.old.number event.now outcome.now beside done) self.new) }
        ensures number { self.new.number ≡ self.old.number }
    {
        match sent_by(self.number, event, outcome) {
            None => Ok(()),
            Some(sending) => self.take(place, &Noted { sending, beside }),
        }
    }

    // What was sent is its flow's last send.
    #[inline(always)]
    fn send(&mut self, event: &Event, outcome: &Outcome, beside: T) -> Result<(), AllocError>
        ensures settled { (done : List (Noted T)) → IsSettledAs done self.old →
            OnOk result (IsSettledAs (noted_by self.old.number event.now outcome.now beside done) self.new) }
        ensures number { self.new.number ≡ self.old.number }
    {
        let Outcome::Forward { flow, .. } = outcome else {
            return Ok(());
        };
        let place = self.last.place_of(flow);
        let number = self.number;
        if self.last.renew(place, number, event, outcome, beside) {
            return Ok(());
        }
        self.send_anew(place, event, outcome, beside)
    }

    /// One event more, by which nothing was sent.
    #[inline(always)]
    pub fn note_unsent(&mut self) -> Result<(), AllocError>
        ensures of_record { (past : List LogEntry) (s : LogEntry) → sent_by (length past) s.event s.outcome ≡ None → IsBookOf past self.old →
            OnOk result (IsBookOf (s ∷ past) self.new) }
        ensures settled { (all : List (Noted T)) → IsSettledAs all self.old → OnOk result (IsSettledAs all self.new) }
        ensures number { OnOk result (self.new.number ≡ self.old.number + 1) }
    {
        let after = next(self.number)?;
        self.number = after;
        Ok(())
    }

    /// One event more, with its outcome, and what is kept beside what it sent. Where memory is refused nothing more is known of
    /// the book.
    #[inline(always)]
    pub fn note(&mut self, event: &Event, outcome: &Outcome, beside: T) -> Result<(), AllocError>
        ensures of_record { (past : List LogEntry) (packet : Option Packet) → IsBookOf past self.old →
            OnOk result (IsBookOf (record { event = event.now; packet = packet; outcome = outcome.now } ∷ past) self.new) }
        ensures settled { (all : List (Noted T)) → IsSettledAs all self.old →
            OnOk result (IsSettledAs (noted_by self.old.number event.now outcome.now beside all) self.new) }
        ensures number { OnOk result (self.new.number ≡ self.old.number + 1) }
    {
        let number = next(self.number)?;
        self.send(event, outcome, beside)?;
        self.number = number;
        Ok(())
    }

    /// How many flows there were of which a packet was sent.
    pub fn flows(&self) -> usize
        ensures { (past : List LogEntry) → IsBookOf past self.now → result ≡ length (flows_of past) }
    {
        self.last.len()
    }

    /// The splits, in the order of their later sends.
    pub fn splits(&self) -> &[Split]
        ensures { (past : List LogEntry) → IsBookOf past self.now → result.now ≡ splits_of past }
    {
        self.splits.as_slice()
    }

    /// What was kept beside the sends of each split.
    pub fn besides(&self) -> &[Beside<T>]
        ensures { (all : List (Noted T)) → IsSettledAs all self.now → result.now ≡ besides_noted all }
    {
        self.besides.as_slice()
    }
}

impl SplitBook<()> {
    ghost use Rattle.run_report.specs.Books.{IsBookOf};

    /// Events more, one after another, each with its outcome, as far as both lists go. So a history in parts needn't be put
    /// together. Where memory is refused nothing more is known of the book.
    pub fn note_all(&mut self, events: &[Event], outcomes: &[Outcome]) -> Result<(), AllocError>
        ensures { (past : List LogEntry) → IsBookOf past self.old → OnOk result (IsBookOf (reverse (said_of events.now outcomes.now) ++ past) self.new) }
    {
        for (event, outcome) in events.iter().zip(outcomes.iter()) {
            self.note(event, outcome, ())?;
        }
        Ok(())
    }

    /// The book of a history: its events with their outcomes, as far as both lists go.
    pub fn of_history(
        alloc: Global,
        key: TableKey,
        events: &[Event],
        outcomes: &[Outcome],
    ) -> Result<SplitBook<()>, AllocError>
        ensures { IfOk result (λ b. IsBookOf (reverse (said_of events.now outcomes.now)) b) }
    {
        let mut book = SplitBook::new(alloc, key);
        book.note_all(events, outcomes)?;
        Ok(book)
    }
}
