//! What is kept of a cluster's record.
ghost use Rattle.std.specs.Prelude.{◌∷◌, List, OnOk, option_copied};
ghost use Rattle.cluster_node.specs.declared.events.LogEntry.{LogEntry};
ghost use Rattle.event_trace.specs.Noting.{said_by};

use cluster_node::{Event, Outcome, Packet};
use std::alloc::AllocError;

/// What is kept of the record of a cluster's events, as they come, for what is asked of them in the end.
pub trait Notes: Drop {
    /// What is asked.
    type Query;

    /// The notes are those of the record, which has the newest event in front.
    ghost are_of: { Self.Query → List LogEntry → Self → Type 0 };

    /// One event more, with the packet that it names where it is an arrival, and its outcome.
    fn note(
        &mut self,
        asked: &Self::Query,
        event: &Event,
        packet: Option<&Packet>,
        outcome: &Outcome,
    ) -> Result<(), AllocError>
        ensures { (past : List LogEntry) → are_of asked.now past self.old →
            OnOk result (are_of asked.now (said_by event.now (option_copied packet.entry) outcome.now ∷ past) self.new) };
}
