//! The changes so far, as far as a summary tells them.
ghost use Rattle.std.specs.Prelude.{◌≡◌, ◌∷◌, [], ℕ, List, Option, Some, OnOk};
ghost use Rattle.cluster_node.specs.declared.events.LogEntry.{LogEntry};
ghost use Rattle.cluster_node.specs.declared.packets.Packet.{Packet};
ghost use Rattle.event_trace.specs.Noting.{said_by};
ghost use Rattle.connection_changes.specs.Changes.{counts_of};
ghost use Rattle.connection_changes.specs.Sites.{begun_by, life_with};
ghost use Rattle.connection_changes.specs.Turns.{reckoned, reckoning_of};
ghost use Rattle.summary_book.specs.declared.sent.Sent.{Sent};
ghost use Rattle.summary_book.specs.Bare.{bare_reckoning};
ghost use Rattle.summary_book.specs.Looks.{AreSeen};

use crate::seen::{AT_ONCE, SeenSends};
use crate::sent::{Sent, sent_by};
use change_share::ChangeCounts;
use cluster_node::{Event, Outcome};
use connection_changes::{Account, ChangedFlows, begun_by};
use connection_table::TableKey;
use std::alloc::{AllocError, Global};
use std::collections::BTreeMap;
use std::fmt;

/// What a summary tells of a cluster's events so far where no idle limit is set. Its memory grows with the flows and the changes,
/// and not with the events or the records. It answers what was settled.
#[derive(Drop)]
pub struct SummaryBook {
    alloc: Global,
    key: TableKey,
    // How many lives a node had before this one, where it had any.
    lives: BTreeMap<u16, u32>,
    // What was sent last, the oldest in front, before it is looked up.
    waiting: Vec<Sent>,
    seen: SeenSends,
    // Of the changes that are settled.
    changed: ChangedFlows,
}

impl fmt::Debug for SummaryBook {
    fn fmt<W: fmt::Write>(&self, f: &mut fmt::Formatter<W>) -> fmt::Result {
        f.debug_struct("SummaryBook")
            .field("changes", &self.seen.changes)
            .finish_non_exhaustive()
    }
}

impl SummaryBook {
    ghost use Rattle.summary_book.specs.Books.{HasSents, IsNotedSummaryOf, IsSummaryOf, life_at, life_in};

    /// The book of no events. Flows are hashed by the key.
    pub fn new(alloc: Global, key: TableKey) -> SummaryBook
        ensures { IsNotedSummaryOf [] result }
    {
        SummaryBook {
            alloc,
            key,
            lives: BTreeMap::new(alloc),
            waiting: Vec::new(alloc),
            seen: SeenSends::new(alloc, key),
            changed: ChangedFlows::new(alloc, key),
        }
    }

    // How many lives a node had before this one.
    #[inline(always)]
    fn life(&self, node: u16) -> u32
        ensures { result ≡ life_in self.now node }
    {
        self.lives.get(&node).copied().unwrap_or(0)
    }

    // How many lives the node that sent a packet had before this one.
    #[inline(always)]
    fn life_at(&self, outcome: &Outcome) -> u32
        ensures { result ≡ life_at self.now outcome.now }
    {
        match outcome {
            Outcome::Forward { node, .. } => self.life(*node),
            _ => 0,
        }
    }

    // A node's life begins. Where their number has no room it is refused, as memory is.
    fn begin(&mut self, node: u16) -> Result<(), AllocError>
        ensures lives { OnOk result ((n : ℕ) → life_in self.new n ≡ life_with (Some node) n (life_in self.old n)) }
        ensures rest { self.new ≡ record self.old { lives = self.new.lives } }
    {
        let Some(life) = self.life(node).checked_add(1) else {
            return Err(AllocError);
        };
        let Ok(_) = self.lives.insert(node, life) else {
            return Err(AllocError);
        };
        Ok(())
    }

    // What waits is looked up.
    #[inline(never)]
    fn take(&mut self) -> Result<(), AllocError>
        ensures seen { (all : List Sent) → HasSents all self.old → OnOk result (AreSeen all self.new.seen) }
        ensures none { OnOk result (self.new.waiting.items ≡ []) }
        ensures rest { self.new ≡ record self.old { seen = self.new.seen; waiting = self.new.waiting } }
    {
        self.seen.take_all(self.key, self.waiting.as_slice())?;
        self.waiting.clear();
        Ok(())
    }

    // A send waits until there are enough of them.
    #[inline(always)]
    fn wait(&mut self, sent: Sent) -> Result<(), AllocError>
        ensures sents { (all : List Sent) → HasSents all self.old → OnOk result (HasSents (sent ∷ all) self.new) }
        ensures lives { self.new.lives ≡ self.old.lives }
    {
        self.waiting.reserve(1)?;
        self.waiting.push_reserved(sent);
        if self.waiting.len() < AT_ONCE {
            return Ok(());
        }
        self.take()
    }

    // An event by which nothing was sent.
    fn note_unsent(&mut self, event: &Event, outcome: &Outcome) -> Result<(), AllocError>
        ensures lives { OnOk result ((n : ℕ) → life_in self.new n ≡ life_with (begun_by event.now outcome.now) n (life_in self.old n)) }
        ensures rest { self.new ≡ record self.old { lives = self.new.lives } }
    {
        match begun_by(event, outcome) {
            None => Ok(()),
            Some(node) => self.begin(node),
        }
    }

    /// One event more, with its outcome. Where memory is refused nothing more is known of the book.
    #[inline(always)]
    pub fn note(&mut self, event: &Event, outcome: &Outcome) -> Result<(), AllocError>
        ensures { (past : List LogEntry) (packet : Option Packet) → IsNotedSummaryOf past self.old →
            OnOk result (IsNotedSummaryOf (said_by event.now packet outcome.now ∷ past) self.new) }
    {
        let life = self.life_at(outcome);
        match sent_by(event, outcome, life) {
            None => self.note_unsent(event, outcome),
            Some(sent) => self.wait(sent),
        }
    }

    /// The book answers what was noted. Where memory is refused nothing more is known of the book.
    pub fn settle(&mut self) -> Result<(), AllocError>
        ensures { (past : List LogEntry) → IsNotedSummaryOf past self.old → OnOk result (IsSummaryOf past self.new) }
    {
        self.take()?;
        self.changed = ChangedFlows::of_splits(self.alloc, self.key, self.seen.splits.as_slice())?;
        Ok(())
    }

    /// What is told of the connections: the same as by a book of changes, but that the numbers on which no cause depends are 0.
    pub fn account(&self) -> Account<'_>
        ensures { (past : List LogEntry) → IsSummaryOf past self.now → reckoned result ≡ bare_reckoning (reckoning_of past) }
    {
        Account {
            connections: self.seen.last.len(),
            changed: self.changed.len(),
            splits: self.seen.splits.as_slice(),
            changes: self.seen.changes.as_slice(),
        }
    }

    /// How many connections there were, and how many of them changed their server.
    pub fn counts(&self) -> ChangeCounts
        ensures { (past : List LogEntry) → IsSummaryOf past self.now → result ≡ counts_of past }
    {
        ChangeCounts {
            connections: self.seen.last.len() as u64,
            changed: self.changed.len() as u64,
        }
    }
}
