//! What is told of the nodes' histories, one after another. No list has them all.
ghost use Rattle.std.specs.Prelude.{◌≡◌, ◌+◌, ◌<◌, ◌≤◌, ◌^◌, ◌++◌, true, false, List, Option, Some, None, length, reverse, slice_get, IfOk, IfSome, OnOk};
ghost use Rattle.std.specs.Prelude.{string_bytes};
ghost use Rattle.cluster_node.specs.declared.events.LogEntry.{LogEntry};
ghost use Rattle.cluster_node.specs.declared.outcomes.Outcome.{Outcome};
ghost use Rattle.cluster_node.specs.declared.packets.Packet.{Packet};
ghost use Rattle.cluster_core.specs.OutcomeCounts.{is_refused, how_many};
ghost use Rattle.cluster_core.specs.Totals.{came_all, went_all};
ghost use Rattle.run_report.specs.Books.{IsBookOf};
ghost use Rattle.run_report.specs.Splits.{said_of};
ghost use Rattle.connection_starts.specs.declared.ordinals.Ordinals.{Ordinals};
ghost use Rattle.connection_changes.specs.Books.{IsNotedChangeBookOf, IsChangeBookOf};
ghost use Rattle.json_lines.specs.Forms.{splits_as, places_as, shares_as};
ghost use Rattle.simulate_scenario.specs.Asked.{keeps_changes};
ghost use Rattle.thread_records.specs.declared.nodes.NodeRecord.{NodeRecord};
ghost use Rattle.thread_records.specs.Joins.{all_outcomes};
ghost use Rattle.thread_roles.specs.Counts.{AreTotals};
ghost use Rattle.simulate_scenario.specs.Answers.{totals_in};
ghost use Rattle.simulate_scenario.specs.Described.{lookups_in};
ghost use Rattle.run_scenario.specs.Runs.{said_with, asked_shares};
ghost use Rattle.run_scenario.specs.PrivateHistories.{AreEven, said_by, said_whole, splits_over, summary_over};

use crate::running::RunOptions;
use crate::shares::shares_told;
use crate::turned_histories;
use change_share::ChangeCounts;
use cluster_core::{Totals, packet_at};
use cluster_node::{Event, Outcome, Packet};
use connection_changes::{ChangeBook, TurnedBook};
use connection_starts::Ordinals;
use connection_table::TableKey;
use json_lines::Form;
use node_threads::NodesRun;
use outcome_list::OutcomeList;
use run_report::SplitBook;
use scenario::Scenario;
use std::alloc::{AllocError, Global};
use thread_records::LeanRecord;

// A length and one more. None where no list is as long as both.
fn longer(length: usize, more: usize) -> Option<usize>
    ensures { IfSome result (λ n. (n ≡ length + more) × (n < 2 ^ 63)) }
{
    match length.checked_add(more) {
        Some(sum) if sum <= isize::MAX as usize => Some(sum),
        _ => None,
    }
}

/// How many outcomes all nodes have. None where one list couldn't have them.
pub(crate) fn outcome_count(nodes: &[LeanRecord]) -> Option<usize>
    ensures { IfSome result (λ n. (n ≡ length (all_outcomes nodes.now)) × (n < 2 ^ 63)) }
{
    let mut count = 0;
    for node in nodes {
        count = longer(count, node.outcomes().len())?;
    }
    Some(count)
}

fn is_refused(outcome: &Outcome) -> bool
    ensures { result ≡ is_refused outcome.now }
{
    matches!(*outcome, Outcome::Refused(_))
}

// Whether the outcome at a place is a refusal.
fn is_refused_at(outcomes: &OutcomeList, at: usize) -> bool
    ensures { (o : Outcome) → slice_get outcomes.now.items at ≡ Some o → result ≡ is_refused o }
{
    match outcomes.get(at) {
        Some(outcome) => is_refused(&outcome),
        None => false,
    }
}

// How many events were refused.
fn refused_in(outcomes: &OutcomeList) -> u64
    ensures count { result ≡ how_many (λ o. is_refused o) outcomes.now.items }
    ensures few { result ≤ length outcomes.now.items }
{
    let mut refused = 0;
    for at in 0..outcomes.len() {
        if is_refused_at(outcomes, at) {
            refused += 1;
        }
    }
    refused
}

// How many events of all nodes were refused.
fn refused_by(nodes: &[LeanRecord]) -> u64
    requires { length (all_outcomes nodes.now) < 2 ^ 63 }
    ensures { result ≡ how_many (λ o. is_refused o) (all_outcomes nodes.now) }
{
    let mut refused = 0u64;
    for node in nodes {
        refused += refused_in(node.outcomes());
    }
    refused
}

/// The totals of all outcomes: what was counted while the threads ran, and how many events were refused.
pub(crate) fn totals_of(run: &NodesRun) -> Totals
    requires few { length (all_outcomes run.now.nodes.items) < 2 ^ 63 }
    requires counted { AreTotals run.now.stats (all_outcomes run.now.nodes.items) }
    requires settled { went_all (all_outcomes run.now.nodes.items) ≡ came_all (all_outcomes run.now.nodes.items) }
    ensures { result ≡ totals_in (all_outcomes run.now.nodes.items) }
{
    Totals {
        received: run.stats.received,
        forwarded: run.stats.forwarded,
        dropped: run.stats.dropped,
        waiting: run.stats.waiting,
        refused: refused_by(run.nodes.as_slice()),
    }
}

// A node's history goes into the book of the splits, event by event.
fn note_sends(
    book: &mut SplitBook<()>,
    events: &[Event],
    outcomes: &OutcomeList,
) -> Result<(), AllocError>
    ensures { (past : List LogEntry) → IsBookOf past book.old → OnOk result (IsBookOf (reverse (said_of events.now outcomes.now.items) ++ past) book.new) }
{
    for at in 0..events.len() {
        let Some(outcome) = outcomes.get(at) else {
            return Ok(());
        };
        book.note(&events[at], &outcome, ())?;
    }
    Ok(())
}

// The book of the splits.
fn book_of(alloc: Global, key: TableKey, nodes: &[LeanRecord]) -> Result<SplitBook<()>, AllocError>
    requires { AreEven nodes.now }
    ensures { IfOk result (λ b. IsBookOf (said_by nodes.now) b) }
{
    let mut book = SplitBook::new(alloc, key);
    for node in nodes {
        note_sends(&mut book, node.events(), node.outcomes())?;
    }
    Ok(book)
}

// A node's history goes into the book of changes, event by event, with the packets that arrivals name.
fn note_node(
    book: &mut ChangeBook,
    packets: &[Packet],
    events: &[Event],
    outcomes: &OutcomeList,
) -> Result<(), AllocError>
    ensures { (past : List LogEntry) → IsNotedChangeBookOf past book.old →
        OnOk result (IsNotedChangeBookOf (reverse (said_with packets.now events.now outcomes.now.items) ++ past) book.new) }
{
    for at in 0..events.len() {
        let Some(outcome) = outcomes.get(at) else {
            return Ok(());
        };
        let event = &events[at];
        book.note(event, packet_at(packets, event), &outcome)?;
    }
    Ok(())
}

// The book of the changes.
fn changes_of(
    alloc: Global,
    key: TableKey,
    packets: &[Packet],
    nodes: &[LeanRecord],
) -> Result<ChangeBook, AllocError>
    requires { AreEven nodes.now }
    ensures { IfOk result (λ b. IsChangeBookOf (said_whole packets.now nodes.now) b) }
{
    let mut book = ChangeBook::new(alloc, key);
    for node in nodes {
        let events = node.events();
        note_node(&mut book, packets, events, node.outcomes())?;
    }
    book.settle()?;
    Ok(book)
}

// The lines of the splits, and their counts.
fn splits_told<T: Copy>(
    alloc: Global,
    form: Form,
    scenario: &Scenario,
    book: &SplitBook<T>,
) -> Result<String, AllocError>
    ensures { (past : List LogEntry) → IsBookOf past book.now → IfOk result (λ s. string_bytes s ≡ splits_as form (lookups_in scenario.now) past) }
{
    let mut text = String::new(alloc);
    form.push_splits(&mut text, &scenario.hash, &scenario.catalogue, book)?;
    Ok(text)
}

// What is reported of the splits by themselves, where it is asked for.
fn splits_alone(
    alloc: Global,
    key: TableKey,
    scenario: &Scenario,
    nodes: &[LeanRecord],
    options: RunOptions,
) -> Result<String, AllocError>
    requires even { AreEven nodes.now }
    ensures { (packets : List Packet) → IfOk result (λ s. string_bytes s ≡ splits_over options.form false options.splits scenario.now packets nodes.now) }
{
    if !options.splits {
        return Ok(String::new(alloc));
    }
    let book = book_of(alloc, key, nodes)?;
    splits_told(alloc, options.form, scenario, &book)
}

// The lines of the changes, and their counts.
fn places_told(
    alloc: Global,
    form: Form,
    scenario: &Scenario,
    book: &ChangeBook,
) -> Result<String, AllocError>
    ensures { (past : List LogEntry) → IsChangeBookOf past book.now →
        IfOk result (λ s. string_bytes s ≡ places_as form (lookups_in scenario.now) scenario.now.idle past) }
{
    let mut text = String::new(alloc);
    let idle = scenario.idle;
    form.push_places(&mut text, &scenario.hash, &scenario.catalogue, idle, book)?;
    Ok(text)
}

// How many connections changed their server, and why, where it is asked for.
fn summary_told(
    alloc: Global,
    scenario: &Scenario,
    book: &ChangeBook,
    options: RunOptions,
) -> Result<String, AllocError>
    ensures { (packets : List Packet) (nodes : List NodeRecord) → IsChangeBookOf (said_whole packets nodes) book.now →
        IfOk result (λ s. string_bytes s ≡ summary_over options.form options.summary scenario.now packets nodes) }
{
    let mut text = String::new(alloc);
    if !options.summary {
        return Ok(text);
    }
    let idle = scenario.idle;
    options
        .form
        .push_summary(alloc, &mut text, &scenario.catalogue, idle, book)?;
    Ok(text)
}

/// What is told of the connections of a run beside its report. The counts are there where the changes are kept.
#[derive(Drop)]
pub(crate) struct Told {
    pub(crate) before: String,
    pub(crate) shares: String,
    pub(crate) behind: String,
    pub(crate) counts: Option<ChangeCounts>,
}

/// A run's history, and how it is told. The books hash flows by the key.
#[derive(Clone, Copy)]
pub(crate) struct Telling<'a> {
    pub(crate) key: TableKey,
    pub(crate) scenario: &'a Scenario,
    pub(crate) packets: &'a [Packet],
    pub(crate) options: RunOptions,
}

impl Telling<'_> {
    ghost use Rattle.run_scenario.specs.PrivateHistories.{TellsOf};

    // The splits are told, with places or without. The book of changes has both.
    fn before(&self, alloc: Global, book: &ChangeBook) -> Result<String, AllocError>
        ensures { (nodes : List NodeRecord) → IsChangeBookOf (said_whole self.now.packets.now nodes) book.now →
            IfOk result (λ s. string_bytes s ≡ splits_over self.now.options.form self.now.options.places self.now.options.splits
            self.now.scenario.now self.now.packets.now nodes) }
    {
        if self.options.places {
            places_told(alloc, self.options.form, self.scenario, book)
        } else if self.options.splits {
            splits_told(alloc, self.options.form, self.scenario, book.splits())
        } else {
            Ok(String::new(alloc))
        }
    }

    // The shares, where they are asked for.
    fn shares(&self, alloc: Global, nodes: &[LeanRecord]) -> Result<String, AllocError>
        requires even { AreEven nodes.now }
        ensures { IfOk result (λ s. string_bytes s
            ≡ shares_as self.now.options.form (asked_shares self.now.options) (said_whole self.now.packets.now nodes.now)) }
    {
        let form = self.options.form;
        let asked = self.options.asked_shares();
        shares_told(alloc, self.key, form, asked, self.packets, nodes)
    }

    // What is told where the changes are kept.
    fn tell_changes(&self, alloc: Global, nodes: &[LeanRecord]) -> Result<Told, AllocError>
        requires even { AreEven nodes.now }
        ensures { keeps_changes self.now.options.places self.now.options.summary ≡ true →
            IfOk result (TellsOf None self.now.options self.now.scenario.now self.now.packets.now nodes.now) }
    {
        let book = changes_of(alloc, self.key, self.packets, nodes)?;
        let before = self.before(alloc, &book)?;
        let shares = self.shares(alloc, nodes)?;
        let behind = summary_told(alloc, self.scenario, &book, self.options)?;
        let counts = Some(book.counts());
        Ok(Told {
            before,
            shares,
            behind,
            counts,
        })
    }

    // What is told where they aren't.
    fn tell_splits(&self, alloc: Global, nodes: &[LeanRecord]) -> Result<Told, AllocError>
        requires even { AreEven nodes.now }
        ensures { keeps_changes self.now.options.places self.now.options.summary ≡ false →
            IfOk result (TellsOf None self.now.options self.now.scenario.now self.now.packets.now nodes.now) }
    {
        Ok(Told {
            before: splits_alone(alloc, self.key, self.scenario, nodes, self.options)?,
            shares: self.shares(alloc, nodes)?,
            behind: String::new(alloc),
            counts: None,
        })
    }

    // What is told where a flow that begins again is another connection.
    fn tell_turned(
        &self,
        alloc: Global,
        nodes: &[LeanRecord],
        ordinals: Ordinals,
    ) -> Result<Told, AllocError>
        requires even { AreEven nodes.now }
        ensures { IfOk result (TellsOf (Some ordinals) self.now.options self.now.scenario.now self.now.packets.now nodes.now) }
    {
        let Telling {
            key,
            scenario,
            packets,
            options,
        } = *self;
        let mut book = TurnedBook::new(alloc, key, ordinals);
        turned_histories::note_nodes(&mut book, packets, nodes)?;
        let account = book.account();
        Ok(Told {
            before: turned_histories::splits_told(alloc, scenario, account, options)?,
            shares: self.shares(alloc, nodes)?,
            behind: turned_histories::summary_told(alloc, scenario, account, options)?,
            counts: turned_histories::counts_told(options, account),
        })
    }

    // What is told where each flow is one connection.
    fn tell_flows(&self, alloc: Global, nodes: &[LeanRecord]) -> Result<Told, AllocError>
        requires even { AreEven nodes.now }
        ensures { IfOk result (TellsOf None self.now.options self.now.scenario.now self.now.packets.now nodes.now) }
    {
        if self.options.keeps_changes() {
            self.tell_changes(alloc, nodes)
        } else {
            self.tell_splits(alloc, nodes)
        }
    }

    /// What is told of the nodes' histories, where it is asked for. Connections are told by the ordinals of the records, where
    /// there are any.
    pub(crate) fn tell(
        &self,
        alloc: Global,
        nodes: &[LeanRecord],
        turns: Option<Ordinals>,
    ) -> Result<Told, AllocError>
        requires even { AreEven nodes.now }
        ensures { IfOk result (TellsOf turns self.now.options self.now.scenario.now self.now.packets.now nodes.now) }
    {
        match turns {
            Some(ordinals) => self.tell_turned(alloc, nodes, ordinals),
            None => self.tell_flows(alloc, nodes),
        }
    }
}
