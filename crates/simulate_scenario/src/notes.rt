//! What is kept of a run's events for what is asked of it.
ghost use Rattle.std.specs.Prelude.{◌≡◌, ◌==◌, ◌+◌, ◌++◌, ◌∷◌, [], List, Option, Some, IfOk, OnOk, option_copied, string_bytes, if◌then◌else◌};
ghost use Rattle.cluster_node.specs.declared.events.Event.{Event};
ghost use Rattle.simulate_scenario.specs.declared.asking.Query.{Query};
ghost use Rattle.simulate_scenario.specs.declared.asking.Query.TheVariants.{Report};
ghost use Rattle.cluster_node.specs.declared.events.LogEntry.{LogEntry};
ghost use Rattle.cluster_node.specs.declared.packets.Packet.{Packet};
ghost use Rattle.event_trace.specs.Noting.{said_by};
ghost use Rattle.run_report.specs.Splits.{sent_by};
ghost use Rattle.simulate_scenario.specs.Asked.{event_if};
ghost use Rattle.traffic_shares.specs.declared.books.AskedShares.{AskedShares};
ghost use Rattle.traffic_shares.specs.Books.{AreShareBooksOf};

use crate::asking::{Query, TwoEvents, Wanted};
use cluster_node::{Event, Outcome, Packet};
use connection_changes::ChangeBook;
use connection_table::TableKey;
use event_trace::{Counts, Notes};
use json_lines::Form;
use run_report::{Sending, SplitBook, sent_by};
use std::alloc::{AllocError, Global};
use traffic_shares::ShareBooks;

/// For a report the counts, and the lines, the splits, the changes and the shares where it has them; else the outcomes of two
/// events, and what they sent. How many events there were is kept where it is needed. Each event asks whether a report alone is
/// wanted, and whether only the changes are kept beside its counts, so both are asked of what is wanted once.
#[derive(Drop)]
pub(crate) struct Notebook {
    pub(crate) is_plain: bool,
    pub(crate) only_changes: bool,
    pub(crate) counts: Counts,
    pub(crate) lines: String,
    pub(crate) book: SplitBook<()>,
    pub(crate) changes: ChangeBook,
    pub(crate) shares: ShareBooks,
    pub(crate) number: u64,
    pub(crate) one: Option<Outcome>,
    pub(crate) other: Option<Outcome>,
    pub(crate) first: Option<Sending>,
    pub(crate) later: Option<Sending>,
}

/// The number of the next event. Where it has no room it is refused, as memory is.
pub(crate) fn next(number: u64) -> Result<u64, AllocError>
    ensures { IfOk result (λ n. n ≡ number + 1) }
{
    match number.checked_add(1) {
        Some(next) => Ok(next),
        None => Err(AllocError),
    }
}

// An event's outcome is kept, where it has the number that is asked for.
#[inline(always)]
fn keep_outcome(place: &mut Option<Outcome>, number: u64, asked: u64, outcome: &Outcome)
    ensures { place.new ≡ (if number == asked then Some outcome.now else place.old) }
{
    if number == asked {
        *place = Some(*outcome);
    }
}

// The same of what was sent.
#[inline(always)]
fn keep_send(place: &mut Option<Sending>, number: u64, asked: u64, event: &Event, outcome: &Outcome)
    ensures { place.new ≡ (if asked == number then sent_by number event.now outcome.now else place.old) }
{
    if asked == number {
        *place = sent_by(number, event, outcome);
    }
}

// The line of the event of a number, where it is asked for.
fn push_event_if(
    lines: &mut String,
    number: u64,
    two: TwoEvents,
    event: &Event,
    packet: Option<&Packet>,
    outcome: &Outcome,
) -> Result<(), AllocError>
    ensures { OnOk result (string_bytes lines.new ≡ string_bytes lines.old
        ++ event_if two number (said_by event.now (option_copied packet.entry) outcome.now)) }
{
    if !two.lists(number) {
        return Ok(());
    }
    two.form.push_event(lines, number, event, packet, outcome)
}

impl Notebook {
    ghost use Rattle.simulate_scenario.specs.Notebooks.{Lists, ListsIf, NotedChangesIf, BookIf, ChangesIf, KeepsMore, KeepsBooks, KeepsTwo, AreOf};

    /// Nothing was noted, for what is asked. The books hash flows by the key.
    pub(crate) fn make(alloc: Global, key: TableKey, asked: &Query) -> Result<Notebook, AllocError>
        ensures { IfOk result (λ n. AreOf asked.now [] n) }
    {
        let mut lines = String::new(alloc);
        asked.push_begun(&mut lines)?;
        Ok(Notebook {
            is_plain: asked.is_plain(),
            only_changes: asked.keeps_only_changes(),
            counts: Counts::new(),
            lines,
            book: SplitBook::new(alloc, key),
            changes: ChangeBook::new(alloc, key),
            shares: ShareBooks::new(alloc, key, asked.asked_shares()),
            number: 0,
            one: None,
            other: None,
            first: None,
            later: None,
        })
    }

    // The line of an event.
    fn list(
        &mut self,
        form: Form,
        event: &Event,
        packet: Option<&Packet>,
        outcome: &Outcome,
    ) -> Result<(), AllocError>
        ensures lists { (past : List LogEntry) → Lists form past self.old →
            OnOk result (Lists form (said_by event.now (option_copied packet.entry) outcome.now ∷ past) self.new) }
        ensures is_plain { self.new.is_plain ≡ self.old.is_plain }
        ensures only_changes { self.new.only_changes ≡ self.old.only_changes }
        ensures counts { self.new.counts ≡ self.old.counts }
        ensures book { self.new.book ≡ self.old.book }
        ensures changes { self.new.changes ≡ self.old.changes }
        ensures shares { self.new.shares ≡ self.old.shares }
    {
        let number = self.number;
        form.push_event(&mut self.lines, number, event, packet, outcome)?;
        self.number = next(self.number)?;
        Ok(())
    }

    // The same, where lines are asked for.
    #[inline(always)]
    fn list_if(
        &mut self,
        wanted: Wanted,
        event: &Event,
        packet: Option<&Packet>,
        outcome: &Outcome,
    ) -> Result<(), AllocError>
        ensures lists { (past : List LogEntry) → ListsIf wanted.form wanted.list past self.old →
            OnOk result (ListsIf wanted.form wanted.list (said_by event.now (option_copied packet.entry) outcome.now ∷ past) self.new) }
        ensures is_plain { self.new.is_plain ≡ self.old.is_plain }
        ensures only_changes { self.new.only_changes ≡ self.old.only_changes }
        ensures counts { self.new.counts ≡ self.old.counts }
        ensures book { self.new.book ≡ self.old.book }
        ensures changes { self.new.changes ≡ self.old.changes }
        ensures shares { self.new.shares ≡ self.old.shares }
    {
        if wanted.list {
            self.list(wanted.form, event, packet, outcome)
        } else {
            Ok(())
        }
    }

    // An event goes into the book, where splits are asked for.
    #[inline(always)]
    fn book_if(&mut self, splits: bool, event: &Event, outcome: &Outcome) -> Result<(), AllocError>
        ensures books { (past : List LogEntry) (packet : Option Packet) → BookIf splits past self.old.book →
            OnOk result (BookIf splits (said_by event.now packet outcome.now ∷ past) self.new.book) }
        ensures lines { self.new.lines ≡ self.old.lines }
        ensures number { self.new.number ≡ self.old.number }
        ensures is_plain { self.new.is_plain ≡ self.old.is_plain }
        ensures only_changes { self.new.only_changes ≡ self.old.only_changes }
        ensures counts { self.new.counts ≡ self.old.counts }
        ensures changes { self.new.changes ≡ self.old.changes }
        ensures shares { self.new.shares ≡ self.old.shares }
    {
        if splits {
            self.book.note(event, outcome, ())
        } else {
            Ok(())
        }
    }

    // The same of the book of changes.
    #[inline(always)]
    fn change_if(
        &mut self,
        changes: bool,
        event: &Event,
        packet: Option<&Packet>,
        outcome: &Outcome,
    ) -> Result<(), AllocError>
        ensures changes { (past : List LogEntry) → NotedChangesIf changes past self.old.changes →
            OnOk result (NotedChangesIf changes (said_by event.now (option_copied packet.entry) outcome.now ∷ past) self.new.changes) }
        ensures rest { self.new ≡ record self.old { changes = self.new.changes } }
    {
        if changes {
            self.changes.note(event, packet, outcome)
        } else {
            Ok(())
        }
    }

    // The same of the shares that are asked for.
    fn share(
        &mut self,
        event: &Event,
        packet: Option<&Packet>,
        outcome: &Outcome,
    ) -> Result<(), AllocError>
        ensures shares { (asked : AskedShares) (past : List LogEntry) → AreShareBooksOf asked past self.old.shares →
            OnOk result (AreShareBooksOf asked (said_by event.now (option_copied packet.entry) outcome.now ∷ past) self.new.shares) }
        ensures rest { self.new ≡ record self.old { shares = self.new.shares } }
    {
        self.shares.note(event, packet, outcome)
    }

    // What is kept beside the counts, each where it is asked for.
    fn more(
        &mut self,
        wanted: Wanted,
        event: &Event,
        packet: Option<&Packet>,
        outcome: &Outcome,
    ) -> Result<(), AllocError>
        ensures more { (past : List LogEntry) → KeepsMore wanted past self.old →
            OnOk result (KeepsMore wanted (said_by event.now (option_copied packet.entry) outcome.now ∷ past) self.new) }
        ensures is_plain { self.new.is_plain ≡ self.old.is_plain }
        ensures only_changes { self.new.only_changes ≡ self.old.only_changes }
        ensures counts { self.new.counts ≡ self.old.counts }
    {
        self.list_if(wanted, event, packet, outcome)?;
        self.book_if(wanted.keeps_splits(), event, outcome)?;
        self.change_if(wanted.keeps_changes(), event, packet, outcome)?;
        self.share(event, packet, outcome)
    }

    /// An event is noted for a report.
    #[inline(always)]
    pub(crate) fn report(
        &mut self,
        wanted: &Wanted,
        event: &Event,
        packet: Option<&Packet>,
        outcome: &Outcome,
    ) -> Result<(), AllocError>
        ensures { (past : List LogEntry) → AreOf (Report wanted.now) past self.old →
            OnOk result (AreOf (Report wanted.now) (said_by event.now (option_copied packet.entry) outcome.now ∷ past) self.new) }
    {
        self.counts.count(outcome)?;
        if self.is_plain {
            return Ok(());
        }
        if self.only_changes {
            return self.changes.note(event, packet, outcome);
        }
        self.more(*wanted, event, packet, outcome)
    }

    // The book of changes answers what was noted, where it is asked for.
    fn settle_changes_if(&mut self, changes: bool) -> Result<(), AllocError>
        ensures books { (past : List LogEntry) → NotedChangesIf changes past self.old.changes → OnOk result (ChangesIf changes past self.new.changes) }
        ensures rest { self.new ≡ record self.old { changes = self.new.changes } }
    {
        if changes {
            self.changes.settle()
        } else {
            Ok(())
        }
    }

    /// The books answer what was noted for a report. Where memory is refused nothing more is known of them.
    pub(crate) fn settle(&mut self, wanted: Wanted) -> Result<(), AllocError>
        ensures books { (past : List LogEntry) → KeepsMore wanted past self.old → OnOk result (KeepsBooks wanted past self.new) }
        ensures rest { self.new ≡ record self.old { changes = self.new.changes } }
    {
        self.settle_changes_if(wanted.keeps_changes())
    }

    // What an event did, where it is one of the two that are asked for.
    fn keep(
        &mut self,
        two: TwoEvents,
        event: &Event,
        packet: Option<&Packet>,
        outcome: &Outcome,
    ) -> Result<(), AllocError>
        ensures { (past : List LogEntry) → KeepsTwo two past self.old →
            OnOk result (KeepsTwo two (said_by event.now (option_copied packet.entry) outcome.now ∷ past) self.new) }
    {
        push_event_if(&mut self.lines, self.number, two, event, packet, outcome)?;
        let number = self.number;
        keep_send(&mut self.first, number, two.one, event, outcome);
        keep_send(&mut self.later, number, two.other, event, outcome);
        keep_outcome(&mut self.one, number, two.one, outcome);
        keep_outcome(&mut self.other, number, two.other, outcome);
        self.number = next(self.number)?;
        Ok(())
    }
}

impl Notes for Notebook {
    type Query = Query;

    ghost use Rattle.simulate_scenario.specs.Notebooks.{AreOf};

    ghost are_of = { λ asked past notes. AreOf asked past notes };

    #[inline(always)]
    fn note(
        &mut self,
        asked: &Query,
        event: &Event,
        packet: Option<&Packet>,
        outcome: &Outcome,
    ) -> Result<(), AllocError> {
        match asked {
            Query::Report(wanted) => self.report(wanted, event, packet, outcome),
            Query::Events(two) => self.keep(*two, event, packet, outcome),
        }
    }
}
