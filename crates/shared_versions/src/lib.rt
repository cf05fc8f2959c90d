//! The versions of a run that all its nodes share. Each is prepared once, before the run's threads start: the drivers take it, and
//! the audit of the nodes' histories replays on the same tables.
#![tactic(auto)]

mod auditing;
mod auditor;
mod replay;
mod shared;

pub use auditing::audit_nodes;
pub use auditor::Auditor;
pub use shared::{Shared, SharedVersions, prepare_after};
