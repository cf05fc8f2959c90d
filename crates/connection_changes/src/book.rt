//! The changes so far.
ghost use Rattle.std.specs.Prelude.{◌≡◌, ◌∷◌, [], List, length, IfOk, OnOk, option_copied};
ghost use Rattle.cluster_node.specs.declared.events.LogEntry.{LogEntry};
ghost use Rattle.event_trace.specs.Noting.{said_by};
ghost use Rattle.run_report.specs.Books.{IsBookOf};
ghost use Rattle.connection_changes.specs.Changes.{changed_of, changes_of, counts_of};
ghost use Rattle.connection_changes.specs.Books.{placed_changes};
ghost use Rattle.connection_changes.specs.Turns.{reckoned, reckoning_of};

use crate::account::Account;
use crate::causes::Change;
use crate::changed::ChangedFlows;
use crate::clocks::Clocks;
use crate::sites::{Served, Site, time_told};
use change_share::ChangeCounts;
use cluster_node::{Event, Outcome, Packet};
use connection_table::TableKey;
use run_report::{Beside, Split, SplitBook};
use std::alloc::{AllocError, Global};
use std::fmt;

/// What is known of a cluster's events so far: the splits with where their packets were sent, and the flows that were split.
/// Changes are in the order of their later sends. The book's memory grows with the flows and the changes, and by 8 bytes with
/// each record of the capture. Events don't add to it. Flows are hashed by a key. It answers what was settled.
#[derive(Drop)]
pub struct ChangeBook {
    alloc: Global,
    key: TableKey,
    splits: SplitBook<Site>,
    clocks: Clocks,
    // Of the splits that are settled.
    changed: ChangedFlows,
    changes: Vec<Change>,
}

impl fmt::Debug for ChangeBook {
    fn fmt<W: fmt::Write>(&self, f: &mut fmt::Formatter<W>) -> fmt::Result {
        f.debug_struct("ChangeBook")
            .field("splits", &self.splits)
            .field("changes", &self.changes)
            .finish_non_exhaustive()
    }
}

// The splits, each with where its packets were sent.
fn changes_from(
    alloc: Global,
    splits: &[Split],
    sites: &[Beside<Site>],
) -> Result<Vec<Change>, AllocError>
    ensures { IfOk result (λ v. v.items ≡ placed_changes splits.now sites.now) }
{
    let mut changes = Vec::new(alloc);
    for (split, site) in splits.iter().zip(sites.iter()) {
        let change = Change {
            split: *split,
            first: site.first,
            later: site.later,
        };
        let Ok(()) = changes.push(change) else {
            return Err(AllocError);
        };
    }
    Ok(changes)
}

impl ChangeBook {
    ghost use Rattle.connection_changes.specs.Books.{IsNotedChangeBookOf, IsChangeBookOf};

    /// The book of no events.
    pub fn new(alloc: Global, key: TableKey) -> ChangeBook
        ensures { IsNotedChangeBookOf [] result }
    {
        ChangeBook {
            alloc,
            key,
            splits: SplitBook::new(alloc, key),
            clocks: Clocks::new(alloc),
            changed: ChangedFlows::new(alloc, key),
            changes: Vec::new(alloc),
        }
    }

    // An event of any kind.
    #[inline(never)]
    fn note_any(
        &mut self,
        event: &Event,
        packet: Option<&Packet>,
        outcome: &Outcome,
    ) -> Result<(), AllocError>
        ensures { (past : List LogEntry) → IsNotedChangeBookOf past self.old →
            OnOk result (IsNotedChangeBookOf (said_by event.now (option_copied packet.entry) outcome.now ∷ past) self.new) }
    {
        let site = self.clocks.note(event, packet, outcome)?;
        self.splits.note(event, outcome, site)
    }

    // An arrival that was placed is noted by the time of its record alone.
    #[inline(never)]
    fn note_placed(
        &mut self,
        event: &Event,
        packet: Option<&Packet>,
        outcome: &Outcome,
    ) -> Result<(), AllocError>
        ensures { (past : List LogEntry) → IsNotedChangeBookOf past self.old →
            OnOk result (IsNotedChangeBookOf (said_by event.now (option_copied packet.entry) outcome.now ∷ past) self.new) }
    {
        match (event, outcome) {
            (Event::Arrive { packet: number, .. }, Outcome::Placed { .. }) => {
                self.clocks.arrive(time_told(*number, packet))?;
                self.splits.note_unsent()
            }
            _ => self.note_any(event, packet, outcome),
        }
    }

    // A serving whose packet was sent tells no time and begins no life.
    #[inline(never)]
    fn note_sent(
        &mut self,
        event: &Event,
        packet: Option<&Packet>,
        outcome: &Outcome,
    ) -> Result<(), AllocError>
        ensures { (past : List LogEntry) → IsNotedChangeBookOf past self.old →
            OnOk result (IsNotedChangeBookOf (said_by event.now (option_copied packet.entry) outcome.now ∷ past) self.new) }
    {
        match (event, outcome) {
            (
                Event::Serve { .. },
                Outcome::Forward {
                    node,
                    worker,
                    packet: number,
                    ..
                },
            ) => {
                let served = Served {
                    node: *node,
                    worker: *worker,
                    packet: *number,
                };
                let site = self.clocks.serve(Some(served))?;
                self.splits.note(event, outcome, site)
            }
            _ => self.note_any(event, packet, outcome),
        }
    }

    /// One event more, with the packet that it names where it is an arrival, and its outcome. Where memory is refused nothing
    /// more is known of the book.
    pub fn note(
        &mut self,
        event: &Event,
        packet: Option<&Packet>,
        outcome: &Outcome,
    ) -> Result<(), AllocError>
        ensures { (past : List LogEntry) → IsNotedChangeBookOf past self.old →
            OnOk result (IsNotedChangeBookOf (said_by event.now (option_copied packet.entry) outcome.now ∷ past) self.new) }
    {
        match outcome {
            Outcome::Placed { .. } => self.note_placed(event, packet, outcome),
            Outcome::Forward { .. } => self.note_sent(event, packet, outcome),
            _ => self.note_any(event, packet, outcome),
        }
    }

    /// The book answers what was noted. Where memory is refused nothing more is known of the book.
    pub fn settle(&mut self) -> Result<(), AllocError>
        ensures { (past : List LogEntry) → IsNotedChangeBookOf past self.old → OnOk result (IsChangeBookOf past self.new) }
    {
        let splits = self.splits.splits();
        self.changes = changes_from(self.alloc, splits, self.splits.besides())?;
        self.changed = ChangedFlows::of_splits(self.alloc, self.key, splits)?;
        Ok(())
    }

    /// How many connections changed their server.
    pub fn changed(&self) -> usize
        ensures { (past : List LogEntry) → IsChangeBookOf past self.now → result ≡ length (changed_of past) }
    {
        self.changed.len()
    }

    /// How many connections there were, and how many of them changed their server.
    pub fn counts(&self) -> ChangeCounts
        ensures { (past : List LogEntry) → IsChangeBookOf past self.now → result ≡ counts_of past }
    {
        ChangeCounts {
            connections: self.splits.flows() as u64,
            changed: self.changed() as u64,
        }
    }

    /// The changes, in the order of their later sends.
    pub fn changes(&self) -> &[Change]
        ensures { (past : List LogEntry) → IsChangeBookOf past self.now → result.now ≡ changes_of past }
    {
        self.changes.as_slice()
    }

    /// What is told of the connections.
    pub fn account(&self) -> Account<'_>
        ensures { (past : List LogEntry) → IsChangeBookOf past self.now → reckoned result ≡ reckoning_of past }
    {
        Account {
            connections: self.splits.flows(),
            changed: self.changed(),
            splits: self.splits.splits(),
            changes: self.changes(),
        }
    }

    /// The splits alone.
    pub fn splits(&self) -> &SplitBook<Site>
        ensures { (past : List LogEntry) → IsChangeBookOf past self.now → IsBookOf past result.now }
    {
        &self.splits
    }
}
