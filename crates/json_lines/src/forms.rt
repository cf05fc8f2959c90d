//! What is printed of a run, in the form that is asked for.
ghost use Rattle.std.specs.Prelude.{◌≡◌, ◌++◌, List, IfOk, OnOk, option_copied, string_bytes};
ghost use Rattle.cluster_node.specs.declared.events.LogEntry.{LogEntry};
ghost use Rattle.selection.specs.Candidates.{candidates_of};
ghost use Rattle.event_trace.specs.Noting.{said_by};
ghost use Rattle.run_report.specs.Books.{IsBookOf};
ghost use Rattle.run_report.specs.Causes.{Lookups, lookups_of};
ghost use Rattle.connection_changes.specs.Books.{IsChangeBookOf};
ghost use Rattle.connection_changes.specs.Turns.{reckoned};
ghost use Rattle.traffic_shares.specs.declared.holders.ShareKind.{ShareKind};
ghost use Rattle.traffic_shares.specs.Books.{BookIf};
ghost use Rattle.json_lines.specs.Forms.{head_as, event_as, told_as, splits_as, places_by, places_as, report_as, audit_as, share_lines_if, shares_as};
ghost use Rattle.json_lines.specs.Forms.{summary_by, summary_as, verdict_as, explanation_as};

use crate::events::push_json_event;
use crate::heads::{push_json_audit, push_json_head};
use crate::places::push_json_places;
use crate::reports::push_json_report;
use crate::shares::push_json_shares;
use crate::splits::push_json_splits;
use crate::summaries::push_json_summary;
use crate::verdicts::push_json_verdict;
use cluster_core::{Totals, Verdict};
use cluster_node::{Event, Outcome, Packet};
use connection_changes::{Account, ChangeBook, push_told_places, push_told_summary};
use event_trace::Tally;
use hash_laws::FlowHash;
use pool_versions::Catalogue;
use run_report::{Split, SplitBook, explained_text, push_line, push_told_splits, report_text};
use std::alloc::{AllocError, Global};
use traffic_shares::{AskedShares, ShareBook, ShareBooks, push_shares};

/// How a command prints what it says.
#[derive(Clone, Copy, Debug, PartialEq, Eq)]
pub enum Form {
    /// In lines for people.
    Plain,
    /// As JSON Lines.
    Json,
}

impl Form {
    ghost use Rattle.traffic_shares.specs.declared.books.AskedShares.{AskedShares};
    ghost use Rattle.traffic_shares.specs.Books.{AreShareBooksOf};

    /// Puts after a text what a command's output begins with: of JSON Lines the first object, with the command's name.
    pub fn push_head(self, text: &mut String, command: &str) -> Result<(), AllocError>
        ensures { OnOk result (string_bytes text.new ≡ string_bytes text.old ++ head_as self command.now) }
    {
        match self {
            Form::Plain => Ok(()),
            Form::Json => push_json_head(text, command),
        }
    }

    /// Puts the line of an event after a text, with its number and its outcome. An object of an arrival has the packet that
    /// it names.
    pub fn push_event(
        self,
        text: &mut String,
        number: u64,
        event: &Event,
        packet: Option<&Packet>,
        outcome: &Outcome,
    ) -> Result<(), AllocError>
        ensures { OnOk result (string_bytes text.new ≡ string_bytes text.old
            ++ event_as self number (said_by event.now (option_copied packet.entry) outcome.now)) }
    {
        match self {
            Form::Plain => push_line(text, number, event, outcome),
            Form::Json => push_json_event(text, number, event, packet, outcome),
        }
    }

    /// Puts a line for each of some splits after a text, and then their counts, with so many flows.
    pub fn push_told_splits<H: FlowHash>(
        self,
        text: &mut String,
        hash: &H,
        catalogue: &Catalogue,
        flows: usize,
        splits: &[Split],
    ) -> Result<(), AllocError>
        ensures { OnOk result (string_bytes text.new ≡ string_bytes text.old
            ++ told_as self (lookups_of (H.plain hash.now) catalogue.now.size catalogue.now) flows splits.now) }
    {
        match self {
            Form::Plain => push_told_splits(text, hash, catalogue, flows, splits),
            Form::Json => push_json_splits(text, hash, catalogue, flows, splits),
        }
    }

    /// The same of a book.
    pub fn push_splits<H: FlowHash, T: Copy>(
        self,
        text: &mut String,
        hash: &H,
        catalogue: &Catalogue,
        book: &SplitBook<T>,
    ) -> Result<(), AllocError>
        ensures { (past : List LogEntry) → IsBookOf past book.now →
            OnOk result (string_bytes text.new ≡ string_bytes text.old
            ++ splits_as self (lookups_of (H.plain hash.now) catalogue.now.size catalogue.now) past) }
    {
        self.push_told_splits(text, hash, catalogue, book.flows(), book.splits())
    }

    /// Puts a line for each change after a text, with where its packets were sent, and then the counts of the splits. `idle` is the
    /// limit in microseconds after which an entry of a connection table no longer counts.
    pub fn push_told_places<H: FlowHash>(
        self,
        text: &mut String,
        hash: &H,
        catalogue: &Catalogue,
        idle: Option<u64>,
        account: Account<'_>,
    ) -> Result<(), AllocError>
        ensures { OnOk result (string_bytes text.new ≡ string_bytes text.old
            ++ places_by self (lookups_of (H.plain hash.now) catalogue.now.size catalogue.now) idle (reckoned account.entry)) }
    {
        match self {
            Form::Plain => push_told_places(text, hash, catalogue, idle, account),
            Form::Json => push_json_places(text, hash, catalogue, idle, account),
        }
    }

    /// The same of a book.
    pub fn push_places<H: FlowHash>(
        self,
        text: &mut String,
        hash: &H,
        catalogue: &Catalogue,
        idle: Option<u64>,
        book: &ChangeBook,
    ) -> Result<(), AllocError>
        ensures { (past : List LogEntry) → IsChangeBookOf past book.now →
            OnOk result (string_bytes text.new ≡ string_bytes text.old
            ++ places_as self (lookups_of (H.plain hash.now) catalogue.now.size catalogue.now) idle past) }
    {
        self.push_told_places(text, hash, catalogue, idle, book.account())
    }

    /// The report of a run, whose capture was cut off in a record or wasn't.
    pub fn report(
        self,
        alloc: Global,
        tally: Tally,
        totals: &Totals,
        is_cut: bool,
    ) -> Result<String, AllocError>
        ensures { IfOk result (λ s. string_bytes s ≡ report_as self tally totals.now is_cut) }
    {
        match self {
            Form::Plain => report_text(alloc, tally, totals, is_cut),
            Form::Json => {
                let mut text = String::new(alloc);
                push_json_report(&mut text, tally, totals, is_cut)?;
                Ok(text)
            }
        }
    }

    /// Puts after a text whether the history agrees with its replay.
    pub fn push_audit(self, text: &mut String, agrees: bool) -> Result<(), AllocError>
        ensures { OnOk result (string_bytes text.new ≡ string_bytes text.old ++ audit_as self agrees) }
    {
        match self {
            Form::Plain if agrees => text.push_str("audit agrees\n"),
            Form::Plain => text.push_str("audit differs\n"),
            Form::Json => push_json_audit(text, agrees),
        }
    }

    // The lines of the shares of a book, where it is asked for.
    fn push_book_if(
        self,
        alloc: Global,
        text: &mut String,
        asked: bool,
        book: &ShareBook,
    ) -> Result<(), AllocError>
        ensures { (kind : ShareKind) (past : List LogEntry) → BookIf asked kind past book.now →
            OnOk result (string_bytes text.new ≡ string_bytes text.old ++ share_lines_if self asked kind past) }
    {
        match self {
            _ if !asked => Ok(()),
            Form::Plain => push_shares(alloc, text, book),
            Form::Json => push_json_shares(alloc, text, book),
        }
    }

    /// Puts a line after a text for each backend's share, and then for each node's, where they are asked for: by version, then
    /// by the backend's name and address, or by node.
    pub fn push_shares(
        self,
        alloc: Global,
        text: &mut String,
        books: &ShareBooks,
    ) -> Result<(), AllocError>
        ensures { (asked : AskedShares) (past : List LogEntry) → AreShareBooksOf asked past books.now →
            OnOk result (string_bytes text.new ≡ string_bytes text.old ++ shares_as self asked past) }
    {
        let AskedShares { backends, nodes } = books.asked();
        self.push_book_if(alloc, text, backends, books.backends())?;
        self.push_book_if(alloc, text, nodes, books.nodes())
    }

    /// Puts after a text how many connections there were, how many of them changed their server, how often they did, and why.
    /// `idle` is as for the places.
    pub fn push_told_summary(
        self,
        alloc: Global,
        text: &mut String,
        catalogue: &Catalogue,
        idle: Option<u64>,
        account: Account<'_>,
    ) -> Result<(), AllocError>
        ensures { (lookups : Lookups) → lookups.ups ≡ (λ v x. candidates_of catalogue.now v x) → lookups.versions ≡ catalogue.now.versions →
            OnOk result (string_bytes text.new ≡ string_bytes text.old ++ summary_by self lookups idle (reckoned account.entry)) }
    {
        match self {
            Form::Plain => push_told_summary(alloc, text, catalogue, idle, account),
            Form::Json => push_json_summary(alloc, text, catalogue, idle, account),
        }
    }

    /// The same of a book.
    pub fn push_summary(
        self,
        alloc: Global,
        text: &mut String,
        catalogue: &Catalogue,
        idle: Option<u64>,
        book: &ChangeBook,
    ) -> Result<(), AllocError>
        ensures { (past : List LogEntry) (lookups : Lookups) → lookups.ups ≡ (λ v x. candidates_of catalogue.now v x) →
            lookups.versions ≡ catalogue.now.versions → IsChangeBookOf past book.now →
            OnOk result (string_bytes text.new ≡ string_bytes text.old ++ summary_as self lookups idle past) }
    {
        self.push_told_summary(alloc, text, catalogue, idle, book.account())
    }

    /// Why two packets went where they went, behind the lines of their events: for none of these it is the verdict alone. It says
    /// whether the first one's server left after it had drained.
    pub fn explanation(
        self,
        alloc: Global,
        lines: &str,
        verdict: &Verdict,
        drained: bool,
    ) -> Result<String, AllocError>
        ensures { IfOk result (λ s. string_bytes s ≡ explanation_as self lines.now verdict.now drained) }
    {
        let mut text = String::new(alloc);
        self.push_head(&mut text, "explain")?;
        text.push_str(lines)?;
        self.push_verdict(alloc, &mut text, verdict, drained)?;
        Ok(text)
    }

    // The line of a verdict.
    fn push_verdict(
        self,
        alloc: Global,
        text: &mut String,
        verdict: &Verdict,
        drained: bool,
    ) -> Result<(), AllocError>
        ensures { OnOk result (string_bytes text.new ≡ string_bytes text.old ++ verdict_as self verdict.now drained) }
    {
        match self {
            Form::Plain => {
                let line = explained_text(alloc, verdict, drained)?;
                text.push_str(line.as_str())
            }
            Form::Json => push_json_verdict(text, verdict, drained),
        }
    }
}
