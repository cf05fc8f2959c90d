//! One node of a cluster of balancers: events, the outcome of each, and the node's own state.
//!
//! An event is one atomic step of a node or worker. A version is installed, a packet arrives, a worker serves the next
//! packet of its queue, or the node restarts. The outcome of an event is read off the record of all events before it.
#![tactic(auto)]

mod events;
mod outcomes;
mod packets;
mod serving;
mod steps;

pub use events::{Event, LogEntry};
pub use outcomes::{Cause, Outcome, Passed, Reason};
pub use packets::Packet;
pub use serving::{Item, Taken};
pub use steps::Node;
