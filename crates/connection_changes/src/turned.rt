//! The changes of connections, where a flow that begins again is another connection.
ghost use Rattle.std.specs.Prelude.{◌≡◌, ◌+◌, ◌∷◌, ◌++◌, [], List, true, IfOk, OnOk, option_copied, if◌then◌else◌};
ghost use Rattle.std.specs.HashSet.{contains, hash_set_len};
ghost use Rattle.cluster_node.specs.declared.events.LogEntry.{LogEntry};
ghost use Rattle.event_trace.specs.Noting.{said_by};
ghost use Rattle.run_report.specs.declared.noted.Noted.{Noted};
ghost use Rattle.connection_starts.specs.declared.ordinals.Ordinals.{Ordinals};
ghost use Rattle.connection_starts.specs.Captures.{answered};
ghost use Rattle.connection_changes.specs.declared.sites.Site.{Site};
ghost use Rattle.connection_changes.specs.Turns.{change_by, reckoned, reckoning_by};
ghost use Rattle.connection_changes.specs.declared.turned.Connection.{Connection};
ghost use Rattle.connection_changes.specs.TurnedBooks.{same_connection};

use crate::account::Account;
use crate::causes::Change;
use crate::clocks::Clocks;
use crate::sites::Site;
use cluster_node::{Event, Outcome, Packet};
use connection_starts::Ordinals;
use connection_table::TableKey;
use five_tuple::Flow;
use run_report::{Noted, Split, sent_by};
use std::alloc::{AllocError, Global};
use std::collections::{HashMap, HashSet};
use std::fmt;

/// A connection: its flow, and its ordinal among those of this flow.
#[derive(Clone, Copy, PartialEq, Eq, Hash)]
struct Connection {
    flow: Flow,
    ordinal: u32,
}

/// What is known of a cluster's events so far, where a flow that begins again is another connection: each connection's last send,
/// and the splits and changes. Which connection of its flow a packet belongs to is known by its record's number. The book's memory
/// grows with the connections and the changes, and by 8 bytes with each record of the capture, and not with the events.
#[derive(Drop)]
pub struct TurnedBook {
    ordinals: Ordinals,
    number: u64,
    clocks: Clocks,
    last: HashMap<Connection, Noted<Site>, TableKey>,
    // The connections that changed their server.
    changed: HashSet<Connection, TableKey>,
    splits: Vec<Split>,
    // Each split with where its packets were sent.
    changes: Vec<Change>,
}

impl fmt::Debug for TurnedBook {
    fn fmt<W: fmt::Write>(&self, f: &mut fmt::Formatter<W>) -> fmt::Result {
        f.debug_struct("TurnedBook")
            .field("number", &self.number)
            .field("changes", &self.changes)
            .finish_non_exhaustive()
    }
}

// The number of the next event. Where it has no room it is refused, as memory is.
fn next(number: u64) -> Result<u64, AllocError>
    ensures { IfOk result (λ n. n ≡ number + 1) }
{
    match number.checked_add(1) {
        Some(next) => Ok(next),
        None => Err(AllocError),
    }
}

// Two sends as a split.
fn split_by(first: &Noted<Site>, later: &Noted<Site>) -> Split
    ensures { result ≡ (change_by first.now later.now).split }
{
    Split {
        first: first.sending,
        later: later.sending,
    }
}

// The same with where both packets were sent.
fn change_by(first: &Noted<Site>, later: &Noted<Site>) -> Change
    ensures { result ≡ change_by first.now later.now }
{
    Change {
        split: split_by(first, later),
        first: first.beside,
        later: later.beside,
    }
}

impl TurnedBook {
    ghost use Rattle.connection_changes.specs.TurnedBooks.{AreTurned, IsTurnedBookOf};

    /// The book of no events. The ordinals are those of the capture's records. Connections are hashed by the key.
    pub fn new(alloc: Global, key: TableKey, ordinals: Ordinals) -> TurnedBook
        ensures { IsTurnedBookOf ordinals [] result }
    {
        TurnedBook {
            ordinals,
            number: 0,
            clocks: Clocks::new(alloc),
            last: HashMap::with_hasher(alloc, key),
            changed: HashSet::with_hasher(alloc, key),
            splits: Vec::new(alloc),
            changes: Vec::new(alloc),
        }
    }

    // The connection of a send.
    fn connection_of(&self, send: &Noted<Site>) -> Connection
        ensures { result ≡ record { flow = send.now.sending.flow; ordinal = answered self.now.ordinals send.now.beside.packet } }
    {
        Connection {
            flow: send.sending.flow,
            ordinal: self.ordinals.of_record(send.beside.packet),
        }
    }

    // A change of a connection.
    fn change(
        &mut self,
        connection: Connection,
        first: &Noted<Site>,
        later: &Noted<Site>,
    ) -> Result<(), AllocError>
        ensures splits { OnOk result (self.new.splits.items ≡ self.old.splits.items ++ (change_by first.now later.now).split ∷ []) }
        ensures changes { OnOk result (self.new.changes.items ≡ self.old.changes.items ++ change_by first.now later.now ∷ []) }
        ensures each { OnOk result ((q : Connection) →
            contains same_connection self.new.changed q ≡ (if same_connection connection q then true else contains same_connection self.old.changed q)) }
        ensures changed { OnOk result (hash_set_len self.new.changed ≡ hash_set_len self.old.changed
            + (if contains same_connection self.old.changed connection then 0 else 1)) }
        ensures rest { self.new ≡ record self.old { splits = self.new.splits; changes = self.new.changes; changed = self.new.changed } }
    {
        let Ok(()) = self.splits.push(split_by(first, later)) else {
            return Err(AllocError);
        };
        let Ok(()) = self.changes.push(change_by(first, later)) else {
            return Err(AllocError);
        };
        let Ok(_) = self.changed.insert(connection) else {
            return Err(AllocError);
        };
        Ok(())
    }

    // A send is its connection's last.
    fn send(&mut self, later: &Noted<Site>) -> Result<(), AllocError>
        ensures turned { (ns : List (Noted Site)) → AreTurned (λ k. answered self.old.ordinals k) ns self.old →
            OnOk result (AreTurned (λ k. answered self.old.ordinals k) (later.now ∷ ns) self.new) }
        ensures ordinals { self.new.ordinals ≡ self.old.ordinals }
        ensures number { self.new.number ≡ self.old.number }
        ensures clocks { self.new.clocks ≡ self.old.clocks }
    {
        let connection = self.connection_of(later);
        let Ok(first) = self.last.insert(connection, *later) else {
            return Err(AllocError);
        };
        match first {
            Some(first) if first.sending.backend != later.sending.backend => {
                self.change(connection, &first, later)
            }
            _ => Ok(()),
        }
    }

    /// One event more, with the packet that it names where it is an arrival, and its outcome. Where memory is refused nothing
    /// more is known of the book.
    pub fn note(
        &mut self,
        event: &Event,
        packet: Option<&Packet>,
        outcome: &Outcome,
    ) -> Result<(), AllocError>
        ensures { (o : Ordinals) (past : List LogEntry) → IsTurnedBookOf o past self.old →
            OnOk result (IsTurnedBookOf o (said_by event.now (option_copied packet.entry) outcome.now ∷ past) self.new) }
    {
        let beside = self.clocks.note(event, packet, outcome)?;
        let number = next(self.number)?;
        match sent_by(self.number, event, outcome) {
            None => {
                self.number = number;
                Ok(())
            }
            Some(sending) => {
                self.send(&Noted { sending, beside })?;
                self.number = number;
                Ok(())
            }
        }
    }

    /// What is told of the connections.
    pub fn account(&self) -> Account<'_>
        ensures { (o : Ordinals) (past : List LogEntry) → IsTurnedBookOf o past self.now → reckoned result ≡ reckoning_by (λ k. answered o k) past }
    {
        Account {
            connections: self.last.len(),
            changed: self.changed.len(),
            splits: self.splits.as_slice(),
            changes: self.changes.as_slice(),
        }
    }
}
