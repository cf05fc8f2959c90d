//! What is reported of a packet that was handed to the spreader.
ghost use Rattle.std.specs.Prelude.{◌≡◌, ◌++◌, ◌∷◌, [], true, OnOk};
ghost use Rattle.cluster_node.specs.declared.packets.Packet.{Packet};
ghost use Rattle.event_trace.specs.Deliveries.{arrival_of, serving_of, if_there, events_of};

use cluster_node::{Event, LogEntry, Outcome, Packet, Passed};
use std::alloc::AllocError;

/// What is reported of a packet that was handed to the spreader: room that a caller has, and uses again for the next packet.
#[derive(Clone, Copy, Debug)]
pub struct Delivery {
    /// It arrived at a node. Where none was live it didn't, and the other fields mean nothing.
    pub arrived: bool,
    pub node: u16,
    /// The packet's place among the records.
    pub place: u32,
    /// The node's workers that refuse.
    pub refused: [bool; 16],
    /// The version under which it was served, if it was served at once.
    pub version: u32,
    /// The outcomes of its arrival and its serving.
    pub passed: Passed,
}

/// Puts an event after others.
pub(crate) fn push(said: LogEntry, events: &mut Vec<LogEntry>) -> Result<(), AllocError>
    ensures { OnOk result (events.new.items ≡ events.old.items ++ said ∷ []) }
{
    // Its parts are named because the proof of the push needs their types.
    let LogEntry {
        event,
        packet,
        outcome,
    } = said;
    events.push(LogEntry {
        event,
        packet,
        outcome,
    })?;
    Ok(())
}

/// Puts an event after others, where there is one.
pub(crate) fn push_if(said: Option<LogEntry>, events: &mut Vec<LogEntry>) -> Result<(), AllocError>
    ensures { OnOk result (events.new.items ≡ events.old.items ++ if_there said) }
{
    match said {
        Some(said) => push(said, events),
        None => Ok(()),
    }
}

impl Delivery {
    /// Nothing is reported.
    pub fn new() -> Delivery
        ensures { (p : Packet) → events_of p result ≡ [] }
    {
        Delivery {
            arrived: false,
            node: 0,
            place: 0,
            refused: [false; 16],
            version: 0,
            passed: Passed::Unplaced(Outcome::Installed),
        }
    }

    /// A packet arrived at a node where these workers refuse. What became of it is here already; where it was served at
    /// once, that was under this version.
    #[inline(always)]
    pub(crate) fn arrive(&mut self, node: u16, place: u32, refused: [bool; 16], version: u32)
        ensures { self.new ≡ record self.old { arrived = true; node = node; place = place; refused = refused; version = version } }
    {
        self.arrived = true;
        self.node = node;
        self.place = place;
        self.refused = refused;
        self.version = version;
    }

    /// The arrival of the packet, where it arrived.
    #[inline(always)]
    pub fn arrival(&self, packet: &Packet) -> LogEntry
        ensures { result ≡ arrival_of packet.now self.now }
    {
        let event = Event::Arrive {
            node: self.node,
            packet: self.place,
            refused: self.refused,
        };
        let outcome = match self.passed {
            Passed::Unplaced(outcome) => outcome,
            Passed::Through { worker, floor, .. } => Outcome::Placed { worker, floor },
        };
        LogEntry {
            event,
            packet: Some(*packet),
            outcome,
        }
    }

    /// The serving after the arrival, where the packet was served at once.
    #[inline(always)]
    pub fn serving(&self) -> Option<LogEntry>
        ensures { result ≡ serving_of self.now }
    {
        match self.passed {
            Passed::Unplaced(_) => None,
            Passed::Through {
                worker,
                outcome,
                ..
            } => {
                let event = Event::Serve {
                    node: self.node,
                    worker,
                    version: self.version,
                    refused: false,
                };
                Some(LogEntry {
                    event,
                    packet: None,
                    outcome,
                })
            }
        }
    }

    /// Puts the events that are reported of the packet after others.
    pub fn push_onto(&self, packet: &Packet, events: &mut Vec<LogEntry>) -> Result<(), AllocError>
        ensures { OnOk result (events.new.items ≡ events.old.items ++ events_of packet.now self.now) }
    {
        if !self.arrived {
            return Ok(());
        }
        push(self.arrival(packet), events)?;
        push_if(self.serving(), events)
    }
}
