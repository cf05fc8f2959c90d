//! What is told of the shares of backends and nodes.
ghost use Rattle.std.specs.Prelude.{◌≡◌, ◌++◌, List, reverse, IfOk, OnOk, string_bytes};
ghost use Rattle.cluster_node.specs.declared.events.LogEntry.{LogEntry};
ghost use Rattle.json_lines.specs.Forms.{shares_as};
ghost use Rattle.traffic_shares.specs.declared.books.AskedShares.{AskedShares};
ghost use Rattle.traffic_shares.specs.Books.{AreShareBooksOf};
ghost use Rattle.run_scenario.specs.Runs.{said_with};
ghost use Rattle.run_scenario.specs.PrivateHistories.{AreEven, said_whole};

use cluster_core::packet_at;
use cluster_node::{Event, Packet};
use connection_table::TableKey;
use json_lines::Form;
use outcome_list::OutcomeList;
use std::alloc::{AllocError, Global};
use thread_records::LeanRecord;
use traffic_shares::{AskedShares, ShareBooks};

// A node's history goes into the books, event by event, with the packets that arrivals name.
fn note_node(
    books: &mut ShareBooks,
    packets: &[Packet],
    events: &[Event],
    outcomes: &OutcomeList,
) -> Result<(), AllocError>
    ensures { (asked : AskedShares) (past : List LogEntry) → AreShareBooksOf asked past books.old →
        OnOk result (AreShareBooksOf asked (reverse (said_with packets.now events.now outcomes.now.items) ++ past) books.new) }
{
    for at in 0..events.len() {
        let Some(outcome) = outcomes.get(at) else {
            return Ok(());
        };
        let event = &events[at];
        books.note(event, packet_at(packets, event), &outcome)?;
    }
    Ok(())
}

// The books of the shares that are asked for. They hash flows by the key.
fn books_of(
    alloc: Global,
    key: TableKey,
    asked: AskedShares,
    packets: &[Packet],
    nodes: &[LeanRecord],
) -> Result<ShareBooks, AllocError>
    requires { AreEven nodes.now }
    ensures { IfOk result (λ b. AreShareBooksOf asked (said_whole packets.now nodes.now) b) }
{
    let mut books = ShareBooks::new(alloc, key, asked);
    for node in nodes {
        let events = node.events();
        note_node(&mut books, packets, events, node.outcomes())?;
    }
    Ok(books)
}

/// What is told of the shares that are asked for. Where none are, no history is read for them.
pub(crate) fn shares_told(
    alloc: Global,
    key: TableKey,
    form: Form,
    asked: AskedShares,
    packets: &[Packet],
    nodes: &[LeanRecord],
) -> Result<String, AllocError>
    requires { AreEven nodes.now }
    ensures { IfOk result (λ s. string_bytes s ≡ shares_as form asked (said_whole packets.now nodes.now)) }
{
    let mut text = String::new(alloc);
    if asked.backends || asked.nodes {
        let books = books_of(alloc, key, asked, packets, nodes)?;
        form.push_shares(alloc, &mut text, &books)?;
    }
    Ok(text)
}
