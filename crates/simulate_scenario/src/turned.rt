//! A report in which a flow that begins again is another connection.
ghost use Rattle.std.specs.Prelude.{◌≡◌, ◌++◌, ◌∷◌, [], List, Option, IfOk, OnOk, string_bytes};
ghost use Rattle.run_report.specs.Causes.{lookups_of};
ghost use Rattle.connection_starts.specs.declared.ordinals.Ordinals.{Ordinals};
ghost use Rattle.connection_changes.specs.Turns.{reckoned};
ghost use Rattle.cluster_node.specs.declared.events.LogEntry.{LogEntry};
ghost use Rattle.simulate_scenario.specs.Turned.{turned_if, turned_summary_if, turned_counts_if, reckoned_by, AreTurnedNotes};
ghost use Rattle.simulate_scenario.specs.Asked.{keeps_changes};

use crate::answering::{Answering, Asking, report};
use crate::asking::{Answer, Wanted};
use crate::ended::Ended;
use crate::paging::{Listing, Paged, PagedNotes, asking_paged};
use change_share::ChangeCounts;
use cluster_core::Deployment;
use cluster_node::{Event, Outcome, Packet};
use connection_changes::{Account, TurnedBook};
use connection_starts::Ordinals;
use connection_table::TableKey;
use event_trace::{Notes, Task};
use ghost_log::Log;
use hash_laws::{AnyHash, FlowHash};
use named_scheme::NamedScheme;
use selection::Scheme;
use std::alloc::{AllocError, Global};
use std::mem;
use text_pages::Pages;

/// What is wanted of a run, where its listing goes, and the ordinal of each record's connection.
#[derive(Debug, Drop)]
pub struct TurnedListing<P> {
    pub listing: Listing<P>,
    pub ordinals: Ordinals,
}

/// What is wanted, the same without what is told of connections, and the ordinals as they were at first.
#[derive(Drop)]
pub(crate) struct Turned<P> {
    wanted: Wanted,
    paged: Paged<P>,
    ordinals: Log<Ordinals>,
}

/// The notes of a report, and the book of its connections.
#[derive(Drop)]
pub(crate) struct TurnedNotes<P: Pages> {
    paged: PagedNotes<P>,
    book: TurnedBook,
}

// The lines of the splits, and their counts, where they are asked for.
fn push_turned_if<S: Scheme, H: FlowHash>(
    text: &mut String,
    deployment: &Deployment<S, H>,
    wanted: Wanted,
    account: Account<'_>,
) -> Result<(), AllocError>
    ensures { OnOk result (string_bytes text.new ≡ string_bytes text.old ++ turned_if wanted.form wanted.places wanted.splits
        (lookups_of (H.plain deployment.now.setup.hash) deployment.now.setup.size deployment.now.catalogue) deployment.now.setup.idle
        (reckoned account.entry)) }
{
    let setup = deployment.setup();
    let hash = setup.hash();
    let catalogue = deployment.catalogue();
    if wanted.places {
        let idle = setup.idle();
        wanted
            .form
            .push_told_places(text, &hash, catalogue, idle, account)
    } else if wanted.splits {
        let Account {
            connections,
            splits,
            ..
        } = account;
        wanted
            .form
            .push_told_splits(text, &hash, catalogue, connections, splits)
    } else {
        Ok(())
    }
}

// How many connections changed their server, and why, where it is asked for.
fn push_turned_summary_if<S: Scheme, H: FlowHash>(
    alloc: Global,
    text: &mut String,
    deployment: &Deployment<S, H>,
    wanted: Wanted,
    account: Account<'_>,
) -> Result<(), AllocError>
    ensures { OnOk result (string_bytes text.new ≡ string_bytes text.old ++ turned_summary_if wanted.form wanted.summary
        (lookups_of (H.plain deployment.now.setup.hash) deployment.now.setup.size deployment.now.catalogue) deployment.now.setup.idle
        (reckoned account.entry)) }
{
    if !wanted.summary {
        return Ok(());
    }
    let idle = deployment.setup().idle();
    wanted
        .form
        .push_told_summary(alloc, text, deployment.catalogue(), idle, account)
}

// How many connections there were, and how many of them changed their server, where this is wanted.
fn turned_counts_if(wanted: Wanted, account: Account<'_>) -> Option<ChangeCounts>
    ensures { (o : Ordinals) (past : List LogEntry) → reckoned account.entry ≡ reckoned_by o past →
        result ≡ turned_counts_if (keeps_changes wanted.places wanted.summary) o past }
{
    if !wanted.keeps_changes() {
        return None;
    }
    Some(ChangeCounts {
        connections: account.connections as u64,
        changed: account.changed as u64,
    })
}

/// What is asked where connections are told by the ordinals, and notes of no events.
pub(crate) fn asking_turned<P: Pages>(
    alloc: Global,
    key: TableKey,
    listing: TurnedListing<P>,
) -> Result<Asking<Turned<P>, TurnedNotes<P>>, AllocError>
    ensures fresh { IfOk result (λ a. AreTurnedNotes
        (λ first pages text whole. P.told first pages text whole) a.asked.wanted a.asked.paged.wanted
        a.asked.paged.unlisted a.asked.paged.first.items a.asked.ordinals.items
        [] a.notes.paged.kept a.notes.paged.number (string_bytes a.notes.paged.lines) a.notes.paged.pages a.notes.book) }
    ensures asked { IfOk result (λ a. a.asked.wanted ≡ listing.listing.wanted) }
    ensures first { IfOk result (λ a. a.asked.paged.first.items ≡ listing.listing.pages ∷ []) }
    ensures ordinals { IfOk result (λ a. a.asked.ordinals.items ≡ listing.ordinals ∷ []) }
{
    let TurnedListing { listing, ordinals } = listing;
    let Listing { wanted, pages } = listing;
    let unturned = Listing {
        wanted: wanted.unturned(),
        pages,
    };
    let Asking {
        asked: paged,
        notes,
    } = asking_paged(alloc, key, unturned)?;
    let asked = Turned {
        wanted,
        paged,
        ordinals: Log::new().and(&ordinals),
    };
    let notes = TurnedNotes {
        paged: notes,
        book: TurnedBook::new(alloc, key, ordinals),
    };
    Ok(Asking { asked, notes })
}

impl<P: Pages> TurnedNotes<P> {
    /// The pages.
    pub(crate) fn into_pages(self) -> P
        ensures { result ≡ self.paged.pages }
    {
        self.paged.into_pages()
    }
}

impl<P: Pages> Notes for TurnedNotes<P> {
    type Query = Turned<P>;

    ghost use Rattle.simulate_scenario.specs.Turned.{AreTurnedNotes};

    ghost are_of = { λ asked past notes. AreTurnedNotes
        (λ first pages text whole. P.told first pages text whole) asked.wanted asked.paged.wanted asked.paged.unlisted
        asked.paged.first.items asked.ordinals.items
        past notes.paged.kept notes.paged.number (string_bytes notes.paged.lines) notes.paged.pages notes.book };

    fn note(
        &mut self,
        asked: &Turned<P>,
        event: &Event,
        packet: Option<&Packet>,
        outcome: &Outcome,
    ) -> Result<(), AllocError> {
        self.paged.note(&asked.paged, event, packet, outcome)?;
        self.book.note(event, packet, outcome)
    }
}

impl<P: Pages> Answering for TurnedNotes<P> {
    ghost use Rattle.simulate_scenario.specs.declared.asking.Answer.{Answer};
    ghost use Rattle.simulate_scenario.specs.Turned.{IsTurnedAnswer};

    ghost is_answered = { λ asked notes answer lookups idle trace packets ending.
        IsTurnedAnswer (λ first pages text whole. P.told first pages text whole) asked.wanted asked.paged.first.items asked.ordinals.items
        notes.paged.pages answer lookups idle trace packets ending };

    fn answer(
        &mut self,
        alloc: Global,
        task: &Task<NamedScheme, AnyHash, Turned<P>>,
        ended: &Ended,
    ) -> Result<Answer, AllocError> {
        let asked = &task.asked;
        let wanted = asked.wanted;
        let deployment = &task.deployment;
        let account = self.book.account();
        self.paged.kept.settle(asked.paged.unlisted)?;
        let mut lines = mem::replace(&mut self.paged.lines, String::new(alloc));
        push_turned_if(&mut lines, deployment, wanted, account)?;
        let kept = &self.paged.kept;
        let mut text = report(alloc, deployment, ended, kept, lines, asked.paged.wanted)?;
        push_turned_summary_if(alloc, &mut text, deployment, wanted, account)?;
        let counts = turned_counts_if(wanted, account);
        Ok(Answer { text, counts })
    }
}
