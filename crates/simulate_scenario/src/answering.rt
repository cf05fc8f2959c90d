//! What answers what is asked of a run.
ghost use Rattle.std.specs.Prelude.{◌≡◌, ◌++◌, ℕ, List, Option, IfOk, OnOk, IfSome, string_bytes, reverse, true, option_and_then};
ghost use Rattle.hash_laws.specs.Any.{plain_of};
ghost use Rattle.selection.specs.Picks.{slot_of_flow};
ghost use Rattle.cluster_node.specs.Records.{Judged};
ghost use Rattle.cluster_core.specs.Histories.{outcomes_of};
ghost use Rattle.cluster_core.specs.Explain.{send_of, explained, PickedSend};
ghost use Rattle.cluster_core.specs.Deployed.{rules_of, cluster_of, IsBalanced};
ghost use Rattle.event_trace.specs.Counting.{CountsAre};
ghost use Rattle.run_report.specs.Verdicts.{left_drained};
ghost use Rattle.cluster_node.specs.declared.events.LogEntry.{LogEntry};
ghost use Rattle.run_report.specs.Books.{IsBookOf};
ghost use Rattle.connection_changes.specs.Books.{IsChangeBookOf};
ghost use Rattle.json_lines.specs.Forms.{splits_as, places_as, summary_as, explanation_as};
ghost use Rattle.run_report.specs.Causes.{Lookups, lookups_of};
ghost use Rattle.event_trace.specs.Trace.{Trace};
ghost use Rattle.pcap_file.specs.declared.format.InputEnd.{InputEnd};
ghost use Rattle.named_scheme.specs.Picking.{pick_of};
ghost use Rattle.simulate_scenario.specs.Answers.{is_cut, plain_report, splits_if, summary_if, report_behind, counts_if};
ghost use Rattle.simulate_scenario.specs.Asked.{keeps_splits, keeps_changes};
ghost use Rattle.simulate_scenario.specs.Notebooks.{BookIf, ChangesIf, KeepsBooks};

use crate::asking::{Answer, Query, Wanted};
use crate::ended::Ended;
use crate::notes::Notebook;
use change_share::ChangeCounts;
use cluster_core::{Deployment, Verdict, explain};
use cluster_node::Outcome;
use connection_changes::ChangeBook;
use event_trace::{Counts, Notes, Task};
use hash_laws::{AnyHash, FlowHash};
use json_lines::Form;
use named_scheme::NamedScheme;
use pcap_file::InputEnd;
use run_report::{SplitBook, left_drained};
use selection::Scheme;
use std::alloc::{AllocError, Global};
use std::mem;

/// Whether a capture ended inside a record.
pub fn is_cut(ending: InputEnd) -> bool
    ensures { result ≡ is_cut ending }
{
    match ending {
        InputEnd::End => false,
        InputEnd::Cut => true,
    }
}

/// The report alone.
pub(crate) fn plain_report(
    alloc: Global,
    form: Form,
    ended: &Ended,
    counts: &Counts,
) -> Result<String, AllocError>
    requires balance { IsBalanced (reverse ended.now.trace.past) }
    requires counts { CountsAre (outcomes_of ended.now.trace.past) counts.now }
    ensures { IfOk result (λ s. string_bytes s ≡ plain_report form ended.now.trace ended.now.packets ended.now.ending) }
{
    let totals = counts.totals();
    let tally = ended.tally();
    form.report(alloc, tally, &totals, is_cut(ended.ending()))
}

// The lines of the changes, and their counts.
fn push_places_of<S: Scheme, H: FlowHash>(
    form: Form,
    text: &mut String,
    deployment: &Deployment<S, H>,
    changes: &ChangeBook,
) -> Result<(), AllocError>
    ensures { (past : List LogEntry) → IsChangeBookOf past changes.now →
        OnOk result (string_bytes text.new ≡ string_bytes text.old
        ++ places_as form (lookups_of (H.plain deployment.now.setup.hash) deployment.now.setup.size deployment.now.catalogue) deployment.now.setup.idle past) }
{
    let setup = deployment.setup();
    let catalogue = deployment.catalogue();
    form.push_places(text, &setup.hash(), catalogue, setup.idle(), changes)
}

// The lines of the splits, and their counts.
fn push_splits_of<S: Scheme, H: FlowHash, T: Copy>(
    form: Form,
    text: &mut String,
    deployment: &Deployment<S, H>,
    book: &SplitBook<T>,
) -> Result<(), AllocError>
    ensures { (past : List LogEntry) → IsBookOf past book.now →
        OnOk result (string_bytes text.new ≡ string_bytes text.old
        ++ splits_as form (lookups_of (H.plain deployment.now.setup.hash) deployment.now.setup.size deployment.now.catalogue) past) }
{
    let hash = deployment.setup().hash();
    form.push_splits(text, &hash, deployment.catalogue(), book)
}

// How many connections changed their server, and why.
fn push_summary_of<S: Scheme, H: FlowHash>(
    alloc: Global,
    form: Form,
    text: &mut String,
    deployment: &Deployment<S, H>,
    changes: &ChangeBook,
) -> Result<(), AllocError>
    ensures { (past : List LogEntry) → IsChangeBookOf past changes.now →
        OnOk result (string_bytes text.new ≡ string_bytes text.old
        ++ summary_as form (lookups_of (H.plain deployment.now.setup.hash) deployment.now.setup.size deployment.now.catalogue) deployment.now.setup.idle past) }
{
    let idle = deployment.setup().idle();
    form.push_summary(alloc, text, deployment.catalogue(), idle, changes)
}

// The same by the book that is kept. Where changes are kept they have the splits too.
fn push_kept_splits<S: Scheme, H: FlowHash>(
    text: &mut String,
    deployment: &Deployment<S, H>,
    wanted: Wanted,
    book: &SplitBook<()>,
    changes: &ChangeBook,
) -> Result<(), AllocError>
    ensures { (past : List LogEntry) → wanted.splits ≡ true → BookIf (keeps_splits (keeps_changes wanted.places wanted.summary) wanted.splits) past book.now →
        ChangesIf (keeps_changes wanted.places wanted.summary) past changes.now →
        OnOk result (string_bytes text.new ≡ string_bytes text.old
        ++ splits_as wanted.form (lookups_of (H.plain deployment.now.setup.hash) deployment.now.setup.size deployment.now.catalogue) past) }
{
    if wanted.keeps_changes() {
        push_splits_of(wanted.form, text, deployment, changes.splits())
    } else {
        push_splits_of(wanted.form, text, deployment, book)
    }
}

// What is reported of the splits, where it is asked for.
fn push_splits_if<S: Scheme, H: FlowHash>(
    text: &mut String,
    deployment: &Deployment<S, H>,
    wanted: Wanted,
    book: &SplitBook<()>,
    changes: &ChangeBook,
) -> Result<(), AllocError>
    ensures { (trace : Trace) → BookIf (keeps_splits (keeps_changes wanted.places wanted.summary) wanted.splits) trace.past book.now →
        ChangesIf (keeps_changes wanted.places wanted.summary) trace.past changes.now →
        OnOk result (string_bytes text.new ≡ string_bytes text.old
        ++ splits_if wanted.form wanted.places wanted.splits
        (lookups_of (H.plain deployment.now.setup.hash) deployment.now.setup.size deployment.now.catalogue) deployment.now.setup.idle trace) }
{
    if wanted.places {
        push_places_of(wanted.form, text, deployment, changes)
    } else if wanted.splits {
        push_kept_splits(text, deployment, wanted, book, changes)
    } else {
        Ok(())
    }
}

// How many connections changed their server, and why, where it is asked for.
fn push_summary_if<S: Scheme, H: FlowHash>(
    alloc: Global,
    text: &mut String,
    deployment: &Deployment<S, H>,
    wanted: Wanted,
    changes: &ChangeBook,
) -> Result<(), AllocError>
    ensures { (trace : Trace) → ChangesIf (keeps_changes wanted.places wanted.summary) trace.past changes.now →
        OnOk result (string_bytes text.new ≡ string_bytes text.old
        ++ summary_if wanted.form wanted.summary (lookups_of
        (H.plain deployment.now.setup.hash) deployment.now.setup.size deployment.now.catalogue) deployment.now.setup.idle trace) }
{
    if !wanted.summary {
        return Ok(());
    }
    push_summary_of(alloc, wanted.form, text, deployment, changes)
}

/// The report of a run, behind some lines.
pub(crate) fn report<S: Scheme, H: FlowHash>(
    alloc: Global,
    deployment: &Deployment<S, H>,
    ended: &Ended,
    notes: &Notebook,
    lines: String,
    wanted: Wanted,
) -> Result<String, AllocError>
    requires balance { IsBalanced (reverse ended.now.trace.past) }
    requires counts { CountsAre (outcomes_of ended.now.trace.past) notes.now.counts }
    requires books { KeepsBooks wanted ended.now.trace.past notes.now }
    ensures { IfOk result (λ s. string_bytes s ≡ report_behind (string_bytes lines) (lookups_of
        (H.plain deployment.now.setup.hash) deployment.now.setup.size deployment.now.catalogue) deployment.now.setup.idle
        wanted ended.now.trace ended.now.packets ended.now.ending) }
{
    let report = plain_report(alloc, wanted.form, ended, &notes.counts)?;
    let mut text = lines;
    push_splits_if(&mut text, deployment, wanted, &notes.book, &notes.changes)?;
    text.push_str(report.as_str())?;
    wanted.form.push_shares(alloc, &mut text, &notes.shares)?;
    push_summary_if(alloc, &mut text, deployment, wanted, &notes.changes)?;
    Ok(text)
}

// Why the packets of two events went where they went.
fn verdict<S: Scheme, H: FlowHash>(
    deployment: &Deployment<S, H>,
    one: Option<Outcome>,
    other: Option<Outcome>,
) -> Verdict
    requires one { S.STEADY ≡ true → IfSome one (λ o. PickedSend (rules_of (λ s z. S.pick s z) (λ h. H.plain h) deployment.now) (send_of o)) }
    requires other { S.STEADY ≡ true → IfSome other (λ o. PickedSend (rules_of (λ s z. S.pick s z) (λ h. H.plain h) deployment.now) (send_of o)) }
    ensures { result ≡ explained (λ x. slot_of_flow (H.plain deployment.now.setup.hash) deployment.now.setup.size x) (option_and_then (λ o. send_of o) one)
        (option_and_then (λ o. send_of o) other) }
{
    let Some(one) = one else {
        return Verdict::NotSent;
    };
    let Some(other) = other else {
        return Verdict::NotSent;
    };
    explain(deployment.setup(), deployment.catalogue(), &one, &other)
}

// The same as a text, behind some lines.
fn explanation<S: Scheme, H: FlowHash>(
    alloc: Global,
    form: Form,
    deployment: &Deployment<S, H>,
    notes: &Notebook,
) -> Result<String, AllocError>
    requires one { S.STEADY ≡ true → IfSome notes.now.one (λ o. PickedSend (rules_of (λ s z. S.pick s z) (λ h. H.plain h) deployment.now) (send_of o)) }
    requires other { S.STEADY ≡ true → IfSome notes.now.other (λ o. PickedSend (rules_of (λ s z. S.pick s z) (λ h. H.plain h) deployment.now) (send_of o)) }
    ensures { let lookups = lookups_of (H.plain deployment.now.setup.hash) deployment.now.setup.size deployment.now.catalogue in
        let one = option_and_then (λ o. send_of o) notes.now.one in let other = option_and_then (λ o. send_of o) notes.now.other in
        IfOk result (λ s. string_bytes s ≡ explanation_as form (string_bytes notes.now.lines) (explained lookups.slot one other)
        (left_drained lookups notes.now.first notes.now.later)) }
{
    let verdict = verdict(deployment, notes.one, notes.other);
    let drained = left_drained(deployment.catalogue(), notes.first, notes.later);
    form.explanation(alloc, notes.lines.as_str(), &verdict, drained)
}

/// How many connections changed their server, where the changes are kept.
pub(crate) fn counts_if(wanted: Wanted, changes: &ChangeBook) -> Option<ChangeCounts>
    ensures { (past : List LogEntry) → ChangesIf (keeps_changes wanted.places wanted.summary) past changes.now →
        result ≡ counts_if (keeps_changes wanted.places wanted.summary) past }
{
    if wanted.keeps_changes() {
        Some(changes.counts())
    } else {
        None
    }
}

/// What is asked of a run, and notes of no events.
pub(crate) struct Asking<Q, N> {
    pub(crate) asked: Q,
    pub(crate) notes: N,
}

/// Notes by which it is answered what is asked of a run.
pub(crate) trait Answering: Notes {
    ghost use Rattle.simulate_scenario.specs.declared.asking.Answer.{Answer};

    /// What is asked of a run is answered so, with what is left of its notes.
    ghost is_answered: { Self.Query → Self → Answer → Lookups → Option ℕ → Trace → ℕ → InputEnd → Type 0 };

    /// What answers what is asked of a run, of whose events these are the notes.
    fn answer(
        &mut self,
        alloc: Global,
        task: &Task<NamedScheme, AnyHash, Self::Query>,
        ended: &Ended,
    ) -> Result<Answer, AllocError>
        requires balance { IsBalanced (reverse ended.now.trace.past) }
        requires judged { Judged (cluster_of (λ s z. pick_of s z) (λ h. plain_of h) task.now.deployment).judge ended.now.trace.past }
        requires notes { Self.are_of task.now.asked ended.now.trace.past self.old }
        ensures { let d = task.now.deployment in let lookups = lookups_of (plain_of d.setup.hash) d.setup.size d.catalogue in let r = ended.now in
            IfOk result (λ a. is_answered task.now.asked self.new a lookups d.setup.idle r.trace r.packets r.ending) };
}

impl Answering for Notebook {
    ghost use Rattle.simulate_scenario.specs.declared.asking.Answer.{Answer};
    ghost use Rattle.simulate_scenario.specs.Told.{IsAnswer};

    ghost is_answered = { λ asked _ answer lookups idle trace packets ending. IsAnswer asked answer lookups idle trace packets ending };

    fn answer(
        &mut self,
        alloc: Global,
        task: &Task<NamedScheme, AnyHash, Query>,
        ended: &Ended,
    ) -> Result<Answer, AllocError> {
        match task.asked {
            Query::Report(wanted) => {
                self.settle(wanted)?;
                let counts = counts_if(wanted, &self.changes);
                let lines = mem::replace(&mut self.lines, String::new(alloc));
                let text = report(alloc, &task.deployment, ended, self, lines, wanted)?;
                Ok(Answer { text, counts })
            }
            Query::Events(two) => {
                task.deployment.send_by_picks();
                let text = explanation(alloc, two.form, &task.deployment, self)?;
                let counts = None;
                Ok(Answer { text, counts })
            }
        }
    }
}
