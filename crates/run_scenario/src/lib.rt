//! Runs a scenario's cluster on threads over a capture that was read whole. What the nodes sent is written as another
//! capture, node by node. A report says what became of the run, and ends in whether its history is a replay's.
#![tactic(auto)]

mod failure;
mod histories;
mod host;
mod orders;
mod report;
mod running;
mod settled;
mod shares;
mod threads;
mod turned_histories;

pub use failure::RunFailure;
pub use host::Host;
pub use running::{RunOptions, TurnedRun, run_scenario, run_turned};
