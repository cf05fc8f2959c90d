//! A report whose listing goes to pages as the run goes.
ghost use Rattle.std.specs.Prelude.{◌≡◌, ◌+◌, ◌++◌, ◌∷◌, [], List, length, reverse, IfOk, OnOk, string_bytes, option_copied};
ghost use Rattle.cluster_node.specs.declared.events.LogEntry.{LogEntry};
ghost use Rattle.event_trace.specs.Noting.{said_by};
ghost use Rattle.json_lines.specs.Forms.{listing_as};
ghost use Rattle.simulate_scenario.specs.Asked.{begun};
ghost use Rattle.simulate_scenario.specs.Paging.{ArePaged, NumbersIf, lines_if};

use crate::answering::{Answering, Asking, counts_if, report};
use crate::asking::{Answer, Query, Wanted};
use crate::ended::Ended;
use crate::notes::{Notebook, next};
use cluster_node::{Event, Outcome, Packet};
use connection_table::TableKey;
use event_trace::{Notes, Task};
use ghost_log::Log;
use hash_laws::AnyHash;
use json_lines::Form;
use named_scheme::NamedScheme;
use std::alloc::{AllocError, Global};
use std::mem;
use text_pages::Pages;

/// What is wanted of a run, and where its listing goes.
#[derive(Debug, Drop)]
pub struct Listing<P> {
    pub wanted: Wanted,
    pub pages: P,
}

/// What is wanted, the same without the lines of events, and the pages as they were at first.
#[derive(Drop)]
pub(crate) struct Paged<P> {
    pub(crate) wanted: Wanted,
    pub(crate) unlisted: Wanted,
    first: Log<P>,
}

/// The notes of a report, and the lines of the events that the pages don't have yet.
#[derive(Drop)]
pub(crate) struct PagedNotes<P: Pages> {
    pub(crate) kept: Notebook,
    number: u64,
    pub(crate) lines: String,
    pages: P,
}

/// What is asked where lines go to pages, and notes of no events.
pub(crate) fn asking_paged<P: Pages>(
    alloc: Global,
    key: TableKey,
    listing: Listing<P>,
) -> Result<Asking<Paged<P>, PagedNotes<P>>, AllocError>
    ensures fresh { IfOk result (λ a. ArePaged (λ first pages text whole. P.told first pages text whole) a.asked.wanted a.asked.unlisted
        a.asked.first.items [] a.notes.kept a.notes.number (string_bytes a.notes.lines) a.notes.pages) }
    ensures asked { IfOk result (λ a. a.asked.wanted ≡ listing.wanted) }
    ensures first { IfOk result (λ a. a.asked.first.items ≡ listing.pages ∷ []) }
{
    let Listing { wanted, pages } = listing;
    let unlisted = wanted.unlisted();
    let kept = Notebook::make(alloc, key, &Query::Report(unlisted))?;
    let mut lines = String::new(alloc);
    wanted.form.push_head(&mut lines, "simulate")?;
    let first = Log::new().and(&pages);
    let asked = Paged {
        wanted,
        unlisted,
        first,
    };
    let notes = PagedNotes {
        kept,
        number: 0,
        lines,
        pages,
    };
    Ok(Asking { asked, notes })
}

impl<P: Pages> PagedNotes<P> {
    /// The pages.
    pub(crate) fn into_pages(self) -> P
        ensures { result ≡ self.pages }
    {
        self.pages
    }

    // The line of an event, where lines are wanted.
    #[inline(always)]
    fn list_if(
        &mut self,
        wanted: Wanted,
        event: &Event,
        packet: Option<&Packet>,
        outcome: &Outcome,
    ) -> Result<(), AllocError>
        ensures numbers { (past : List LogEntry) → NumbersIf wanted.list past self.old.number →
            OnOk result (NumbersIf wanted.list (said_by event.now (option_copied packet.entry) outcome.now ∷ past) self.new.number) }
        ensures lines { (first : P) (past : List LogEntry) → NumbersIf wanted.list past self.old.number
            → P.told first self.old.pages (string_bytes self.old.lines) (lines_if wanted.form wanted.list past)
            → OnOk result (P.told first self.new.pages (string_bytes self.new.lines) (lines_if wanted.form wanted.list
            (said_by event.now (option_copied packet.entry) outcome.now ∷ past))) }
        ensures kept { self.new.kept ≡ self.old.kept }
    {
        if wanted.list {
            self.list(wanted.form, event, packet, outcome)
        } else {
            Ok(())
        }
    }

    // The line of an event.
    fn list(
        &mut self,
        form: Form,
        event: &Event,
        packet: Option<&Packet>,
        outcome: &Outcome,
    ) -> Result<(), AllocError>
        ensures number { OnOk result (self.new.number ≡ self.old.number + 1) }
        ensures lines { (first : P) (past : List LogEntry) → self.old.number ≡ length past
            → P.told first self.old.pages (string_bytes self.old.lines) (begun form ++ listing_as form (reverse past))
            → OnOk result (P.told first self.new.pages (string_bytes self.new.lines) (begun form
            ++ listing_as form (reverse (said_by event.now (option_copied packet.entry) outcome.now ∷ past)))) }
        ensures kept { self.new.kept ≡ self.old.kept }
    {
        form.push_event(&mut self.lines, self.number, event, packet, outcome)?;
        self.pages.turn(&mut self.lines)?;
        self.number = next(self.number)?;
        Ok(())
    }
}

impl<P: Pages> Notes for PagedNotes<P> {
    type Query = Paged<P>;

    ghost use Rattle.simulate_scenario.specs.Paging.{ArePaged};

    ghost are_of = { λ asked past notes. ArePaged (λ first pages text whole. P.told first pages text whole) asked.wanted asked.unlisted
        asked.first.items past notes.kept notes.number (string_bytes notes.lines) notes.pages };

    #[inline(always)]
    fn note(
        &mut self,
        asked: &Paged<P>,
        event: &Event,
        packet: Option<&Packet>,
        outcome: &Outcome,
    ) -> Result<(), AllocError> {
        self.list_if(asked.wanted, event, packet, outcome)?;
        self.kept.report(&asked.unlisted, event, packet, outcome)
    }
}

impl<P: Pages> Answering for PagedNotes<P> {
    ghost use Rattle.simulate_scenario.specs.declared.asking.Answer.{Answer};
    ghost use Rattle.simulate_scenario.specs.Told.{IsToldAnswer};

    ghost is_answered = { λ asked notes answer lookups idle trace packets ending.
        IsToldAnswer (λ first pages text whole. P.told first pages text whole) asked.wanted asked.first.items notes.pages answer lookups idle trace
        packets ending };

    fn answer(
        &mut self,
        alloc: Global,
        task: &Task<NamedScheme, AnyHash, Paged<P>>,
        ended: &Ended,
    ) -> Result<Answer, AllocError> {
        let wanted = task.asked.wanted;
        self.kept.settle(task.asked.unlisted)?;
        let counts = counts_if(wanted, &self.kept.changes);
        let lines = mem::replace(&mut self.lines, String::new(alloc));
        let text = report(alloc, &task.deployment, ended, &self.kept, lines, wanted)?;
        Ok(Answer { text, counts })
    }
}
