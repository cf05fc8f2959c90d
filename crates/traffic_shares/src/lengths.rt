//! The lengths of records' datagrams.
ghost use Rattle.std.specs.Prelude.{◌≡◌, ◌≤◌, ◌==◌, ◌∷◌, [], ℕ, List, OnOk, option_copied, slice_index, vec_len, if◌then◌else◌};
ghost use Rattle.cluster_node.specs.declared.events.LogEntry.{LogEntry};
ghost use Rattle.cluster_node.specs.declared.outcomes.Outcome.{Outcome};
ghost use Rattle.event_trace.specs.Noting.{said_by};
ghost use Rattle.traffic_shares.specs.Books.{AreLengthsOf};

use crate::sends::measured_by;
use cluster_node::{Event, Packet};
use std::alloc::{AllocError, Global};

/// The length of each record's datagram, in two bytes for each. Where none is known it is 0.
#[derive(Drop)]
pub(crate) struct Lengths {
    all: Vec<u16>,
}

impl Lengths {
    /// None is known.
    pub(crate) fn new(alloc: Global) -> Lengths
        ensures { AreLengthsOf [] result }
    {
        Lengths {
            all: Vec::new(alloc),
        }
    }

    /// The length of a record's datagram.
    pub(crate) fn at(&self, number: u32) -> u16
        ensures { result ≡ slice_index self.now.all.items number }
    {
        self.all.get(number as usize).copied().unwrap_or(0)
    }

    // Makes room for so many records.
    fn reach(&mut self, len: usize) -> Result<(), AllocError>
        ensures room { OnOk result (len ≤ vec_len self.new.all) }
        ensures same { OnOk result ((k : ℕ) → slice_index self.new.all.items k ≡ slice_index self.old.all.items k) }
    {
        for _ in self.all.len()..len {
            let Ok(()) = self.all.push(0) else {
                return Err(AllocError);
            };
        }
        Ok(())
    }

    // Puts the length of a record's datagram.
    fn put(&mut self, number: u32, len: u16) -> Result<(), AllocError>
        ensures { OnOk result ((k : ℕ) → slice_index self.new.all.items k ≡ (if number == k then len else slice_index self.old.all.items k)) }
    {
        let at = number as usize;
        self.reach(at + 1)?;
        self.all[at] = len;
        Ok(())
    }

    /// One event more, with the packet that it names where it is an arrival. Where memory is refused nothing more is known of
    /// these.
    pub(crate) fn note(&mut self, event: &Event, packet: Option<&Packet>) -> Result<(), AllocError>
        ensures { (past : List LogEntry) (outcome : Outcome) → AreLengthsOf past self.old →
            OnOk result (AreLengthsOf (said_by event.now (option_copied packet.entry) outcome ∷ past) self.new) }
    {
        match measured_by(event, packet) {
            None => Ok(()),
            Some(measured) => self.put(measured.packet, measured.len),
        }
    }
}
