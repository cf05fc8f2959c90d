//! Runs a scenario's steps over a capture: what the cluster sends is wrapped and written as another capture, or goes nowhere.
#![tactic(auto)]

mod fault;
mod intake;
mod keeping;
mod lent;
mod outlet;
mod plan;
mod playing;
mod relaying;
mod sending;
mod staging;

pub use fault::SimulationFault;
pub use lent::LentRecord;
pub use outlet::{Nowhere, Outlet};
pub use plan::{Plan, RunContext};
pub use playing::{Played, play_capture};
pub use sending::Wire;
