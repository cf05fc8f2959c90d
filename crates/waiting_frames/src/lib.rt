//! The frames of packets that wait, beside the queues of a cluster's core.
#![tactic(auto)]

mod queue;
mod waiting;

pub use waiting::Waiting;
