//! What happens to a node.
use crate::outcomes::Outcome;
use crate::packets::Packet;

/// One step of a node or of one of its workers. A node is its place among the cluster's nodes, a packet its place in a
/// list of packets.
#[derive(Clone, Copy, Debug, PartialEq, Eq)]
pub enum Event {
    /// A node's newest version becomes this one.
    Install {
        node: u16,
        version: u32,
    },
    /// A packet arrives at a node. The marks say which workers refuse it.
    Arrive {
        node: u16,
        packet: u32,
        refused: [bool; 16],
    },
    /// A worker serves the next packet of its queue under a version. With `refused` no new entry is made.
    Serve {
        node: u16,
        worker: u16,
        version: u32,
        refused: bool,
    },
    /// The life of all workers of a node ends, and a new one begins.
    Restart {
        node: u16,
    },
}

/// An event, the packet that it names where it is an arrival, and its outcome.
#[derive(Clone, Copy, Debug, PartialEq, Eq)]
pub struct LogEntry {
    pub event: Event,
    pub packet: Option<Packet>,
    pub outcome: Outcome,
}
