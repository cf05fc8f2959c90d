//! The shares that are asked for.
ghost use Rattle.std.specs.Prelude.{◌≡◌, ◌∷◌, [], List, OnOk, option_copied};
ghost use Rattle.cluster_node.specs.declared.events.LogEntry.{LogEntry};
ghost use Rattle.event_trace.specs.Noting.{said_by};
ghost use Rattle.traffic_shares.specs.declared.holders.ShareKind.{ShareKind};
ghost use Rattle.traffic_shares.specs.declared.holders.ShareKind.TheVariants.{Backends, Nodes};
ghost use Rattle.traffic_shares.specs.Books.{BookIf};

use crate::book::ShareBook;
use crate::holders::ShareKind;
use cluster_node::{Event, Outcome, Packet};
use connection_table::TableKey;
use std::alloc::{AllocError, Global};

/// Whose shares are asked for.
#[derive(Clone, Copy, Debug, PartialEq, Eq)]
pub struct AskedShares {
    pub backends: bool,
    pub nodes: bool,
}

/// The shares that are asked for, of backends and of nodes. A book that isn't asked for stays empty.
#[derive(Debug, Drop)]
pub struct ShareBooks {
    asked: AskedShares,
    backends: ShareBook,
    nodes: ShareBook,
}

// An event goes into a book, where it is asked for.
#[inline(always)]
fn note_if(
    asked: bool,
    book: &mut ShareBook,
    event: &Event,
    packet: Option<&Packet>,
    outcome: &Outcome,
) -> Result<(), AllocError>
    ensures { (kind : ShareKind) (past : List LogEntry) → BookIf asked kind past book.old →
        OnOk result (BookIf asked kind (said_by event.now (option_copied packet.entry) outcome.now ∷ past) book.new) }
{
    if asked {
        book.note(event, packet, outcome)
    } else {
        Ok(())
    }
}

impl ShareBooks {
    ghost use Rattle.traffic_shares.specs.declared.books.AskedShares.{AskedShares};
    ghost use Rattle.traffic_shares.specs.Books.{AreShareBooksOf};

    /// Those of no events. Flows are hashed by the key.
    pub fn new(alloc: Global, key: TableKey, asked: AskedShares) -> ShareBooks
        ensures { AreShareBooksOf asked [] result }
    {
        ShareBooks {
            asked,
            backends: ShareBook::new(alloc, key, ShareKind::Backends),
            nodes: ShareBook::new(alloc, key, ShareKind::Nodes),
        }
    }

    /// One event more, with the packet that it names where it is an arrival, and its outcome. Where memory is refused nothing
    /// more is known of the books.
    #[inline(always)]
    pub fn note(
        &mut self,
        event: &Event,
        packet: Option<&Packet>,
        outcome: &Outcome,
    ) -> Result<(), AllocError>
        ensures { (asked : AskedShares) (past : List LogEntry) → AreShareBooksOf asked past self.old →
            OnOk result (AreShareBooksOf asked (said_by event.now (option_copied packet.entry) outcome.now ∷ past) self.new) }
    {
        let AskedShares { backends, nodes } = self.asked;
        note_if(backends, &mut self.backends, event, packet, outcome)?;
        note_if(nodes, &mut self.nodes, event, packet, outcome)
    }

    /// Whose shares are asked for.
    pub fn asked(&self) -> AskedShares
        ensures { (asked : AskedShares) (past : List LogEntry) → AreShareBooksOf asked past self.now → result ≡ asked }
    {
        self.asked
    }

    /// The shares of backends, where they are asked for.
    pub fn backends(&self) -> &ShareBook
        ensures { (asked : AskedShares) (past : List LogEntry) → AreShareBooksOf asked past self.now → BookIf asked.backends Backends past result.now }
    {
        &self.backends
    }

    /// The shares of nodes, where they are asked for.
    pub fn nodes(&self) -> &ShareBook
        ensures { (asked : AskedShares) (past : List LogEntry) → AreShareBooksOf asked past self.now → BookIf asked.nodes Nodes past result.now }
    {
        &self.nodes
    }
}
