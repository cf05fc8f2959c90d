//! The shares so far.
ghost use Rattle.std.specs.Prelude.{◌≡◌, ◌∷◌, [], List, IfOk, OnOk, option_copied};
ghost use Rattle.cluster_node.specs.declared.events.LogEntry.{LogEntry};
ghost use Rattle.traffic_shares.specs.declared.holders.ShareKind.{ShareKind};
ghost use Rattle.event_trace.specs.Noting.{said_by};
ghost use Rattle.traffic_shares.specs.Shares.{rows_of};

use crate::holders::{ShareKind, key_of};
use crate::lengths::Lengths;
use crate::sends::sent_by;
use crate::shares::{ShareRow, Shares};
use cluster_node::{Event, Outcome, Packet};
use connection_table::TableKey;
use std::alloc::{AllocError, Global};
use std::fmt;

/// The shares of a cluster's backends, or of its nodes, in its events so far. The book's memory grows with the shares and the
/// flows of each, and by 2 bytes with each record of the capture, and not with the events. Flows are hashed by a key.
#[derive(Drop)]
pub struct ShareBook {
    kind: ShareKind,
    lengths: Lengths,
    shares: Shares,
}

impl fmt::Debug for ShareBook {
    fn fmt<W: fmt::Write>(&self, f: &mut fmt::Formatter<W>) -> fmt::Result {
        f.debug_struct("ShareBook")
            .field("kind", &self.kind)
            .finish_non_exhaustive()
    }
}

impl ShareBook {
    ghost use Rattle.traffic_shares.specs.Books.{IsShareBookOf};

    /// The book of no events.
    pub fn new(alloc: Global, key: TableKey, kind: ShareKind) -> ShareBook
        ensures { IsShareBookOf kind [] result }
    {
        ShareBook {
            kind,
            lengths: Lengths::new(alloc),
            shares: Shares::new(alloc, key),
        }
    }

    /// One event more, with the packet that it names where it is an arrival, and its outcome. Where memory is refused nothing
    /// more is known of the book.
    pub fn note(
        &mut self,
        event: &Event,
        packet: Option<&Packet>,
        outcome: &Outcome,
    ) -> Result<(), AllocError>
        ensures { (kind : ShareKind) (past : List LogEntry) → IsShareBookOf kind past self.old →
            OnOk result (IsShareBookOf kind (said_by event.now (option_copied packet.entry) outcome.now ∷ past) self.new) }
    {
        self.lengths.note(event, packet)?;
        match sent_by(event, outcome) {
            None => Ok(()),
            Some(sent) => {
                let len = self.lengths.at(sent.packet);
                self.shares.put(&key_of(self.kind, &sent), &sent.flow, len)
            }
        }
    }

    /// The rows of the shares: by version, then by the backend's name and address, or by node.
    pub fn rows(&self, alloc: Global) -> Result<Vec<ShareRow>, AllocError>
        ensures { (kind : ShareKind) (past : List LogEntry) → IsShareBookOf kind past self.now → IfOk result (λ rows. rows.items ≡ rows_of kind past) }
    {
        self.shares.rows(alloc)
    }
}
