//! What is told of the nodes' histories where a flow that begins again is another connection.
ghost use Rattle.std.specs.Prelude.{◌≡◌, ◌++◌, [], List, reverse, IfOk, OnOk, string_bytes};
ghost use Rattle.cluster_node.specs.declared.events.LogEntry.{LogEntry};
ghost use Rattle.connection_starts.specs.declared.ordinals.Ordinals.{Ordinals};
ghost use Rattle.connection_changes.specs.Turns.{reckoned};
ghost use Rattle.connection_changes.specs.TurnedBooks.{IsTurnedBookOf};
ghost use Rattle.json_lines.specs.Forms.{told_as, places_by};
ghost use Rattle.simulate_scenario.specs.Asked.{keeps_changes};
ghost use Rattle.simulate_scenario.specs.Described.{lookups_in};
ghost use Rattle.simulate_scenario.specs.Turned.{reckoned_by, turned_if, turned_summary_if, turned_counts_if};
ghost use Rattle.run_scenario.specs.Runs.{said_with};
ghost use Rattle.run_scenario.specs.PrivateHistories.{AreEven, said_whole};

use crate::running::RunOptions;
use change_share::ChangeCounts;
use cluster_core::packet_at;
use cluster_node::{Event, Packet};
use connection_changes::{Account, TurnedBook};
use json_lines::Form;
use outcome_list::OutcomeList;
use scenario::Scenario;
use std::alloc::{AllocError, Global};
use thread_records::LeanRecord;

// A node's history goes into the book, event by event, with the packets that arrivals name.
fn note_node(
    book: &mut TurnedBook,
    packets: &[Packet],
    events: &[Event],
    outcomes: &OutcomeList,
) -> Result<(), AllocError>
    ensures { (o : Ordinals) (past : List LogEntry) → IsTurnedBookOf o past book.old →
        OnOk result (IsTurnedBookOf o (reverse (said_with packets.now events.now outcomes.now.items) ++ past) book.new) }
{
    for at in 0..events.len() {
        let Some(outcome) = outcomes.get(at) else {
            return Ok(());
        };
        let event = &events[at];
        book.note(event, packet_at(packets, event), &outcome)?;
    }
    Ok(())
}

/// A book to which nothing was noted gets the nodes' histories, one after another.
pub(crate) fn note_nodes(
    book: &mut TurnedBook,
    packets: &[Packet],
    nodes: &[LeanRecord],
) -> Result<(), AllocError>
    requires { AreEven nodes.now }
    ensures { (o : Ordinals) → IsTurnedBookOf o [] book.old → OnOk result (IsTurnedBookOf o (said_whole packets.now nodes.now) book.new) }
{
    for node in nodes {
        let events = node.events();
        note_node(book, packets, events, node.outcomes())?;
    }
    Ok(())
}

// The lines of the changes, and the counts of the splits.
fn places_of(
    alloc: Global,
    form: Form,
    scenario: &Scenario,
    account: Account<'_>,
) -> Result<String, AllocError>
    ensures { IfOk result (λ s. string_bytes s ≡ places_by form (lookups_in scenario.now) scenario.now.idle (reckoned account.entry)) }
{
    let mut text = String::new(alloc);
    let idle = scenario.idle;
    form.push_told_places(
        &mut text,
        &scenario.hash,
        &scenario.catalogue,
        idle,
        account,
    )?;
    Ok(text)
}

// The lines of the splits, and their counts.
fn splits_of(
    alloc: Global,
    form: Form,
    scenario: &Scenario,
    account: Account<'_>,
) -> Result<String, AllocError>
    ensures { IfOk result (λ s. string_bytes s ≡ told_as form (lookups_in scenario.now) (reckoned account.entry).connections (reckoned account.entry).splits) }
{
    let mut text = String::new(alloc);
    let Account {
        connections,
        splits,
        ..
    } = account;
    let hash = &scenario.hash;
    form.push_told_splits(&mut text, hash, &scenario.catalogue, connections, splits)?;
    Ok(text)
}

/// What is reported of the splits, where it is asked for: with places, or without.
pub(crate) fn splits_told(
    alloc: Global,
    scenario: &Scenario,
    account: Account<'_>,
    options: RunOptions,
) -> Result<String, AllocError>
    ensures { IfOk result (λ s. string_bytes s ≡ turned_if options.form options.places options.splits (lookups_in scenario.now) scenario.now.idle
        (reckoned account.entry)) }
{
    if options.places {
        places_of(alloc, options.form, scenario, account)
    } else if options.splits {
        splits_of(alloc, options.form, scenario, account)
    } else {
        Ok(String::new(alloc))
    }
}

/// How many connections changed their server, and why, where it is asked for.
pub(crate) fn summary_told(
    alloc: Global,
    scenario: &Scenario,
    account: Account<'_>,
    options: RunOptions,
) -> Result<String, AllocError>
    ensures { IfOk result (λ s. string_bytes s ≡ turned_summary_if options.form options.summary (lookups_in scenario.now) scenario.now.idle
        (reckoned account.entry)) }
{
    let mut text = String::new(alloc);
    if !options.summary {
        return Ok(text);
    }
    let idle = scenario.idle;
    options
        .form
        .push_told_summary(alloc, &mut text, &scenario.catalogue, idle, account)?;
    Ok(text)
}

/// How many connections there were, and how many of them changed their server, where the changes are kept.
pub(crate) fn counts_told(options: RunOptions, account: Account<'_>) -> Option<ChangeCounts>
    ensures { (o : Ordinals) (past : List LogEntry) → reckoned account.entry ≡ reckoned_by o past →
        result ≡ turned_counts_if (keeps_changes options.places options.summary) o past }
{
    if !options.keeps_changes() {
        return None;
    }
    Some(ChangeCounts {
        connections: account.connections as u64,
        changed: account.changed as u64,
    })
}
