//! A cluster of load balancers as a state machine over events, and what it promises over every list of events.
//!
//! The core has no clock and no network. A list of events installs versions, delivers packets to nodes, lets workers serve
//! what waits, and restarts nodes. Each event has one outcome, which is read off the record of all events before it.
//! `replay` judges a whole list, `Run` one event after another.
//!
//! There are two promises for every list. Two packets of one flow that were sent to different backends were chosen under
//! versions that differ for that flow. A forwarder keeps a flow's backend while the flow's entry stands and the backend is
//! up or drains (Maglev, NSDI 2016, section 3.4).
#![tactic(auto)]

mod counting;
mod counts;
mod deployment;
mod explaining;
mod fixed;
mod headline;
mod laws;
mod reading;
mod replaying;
mod running;

pub use cluster_node::{Cause, Event, Item, LogEntry, Outcome, Packet, Passed, Reason};
pub use counting::totals;
pub use counts::{Totals, at_serving, number};
pub use deployment::Deployment;
pub use explaining::{Verdict, explain};
pub use fixed::{Setup, SetupFault};
pub use headline::replay_maglev;
pub use laws::{
    histories_are_told, promises_are_kept, queues_are_balanced, queues_are_in_order,
    servings_follow_packets, servings_stand_apart,
};
pub use reading::read_packet;
pub use replaying::{packet_at, replay};
pub use running::{Run, prepare_newer};
