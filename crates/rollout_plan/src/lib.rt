//! What a rollout moves: for each service of a scenario how many slots of its table change from one version to another, and
//! why.
//!
//! A table is that of the scenario's scheme. A scheme without tables stands for its picks: slot I names whom it picks for the
//! hash, or the turn, I. [`plan`] writes the text, and [`plans_add_up`] has the laws of its counts.
#![tactic(auto)]

mod counting;
mod drains;
mod laws;
mod members;
mod objects;
mod plan_command;
mod slots;
mod text;

pub use counting::slots_moved;
pub use laws::plans_add_up;
pub use members::members_under;
pub use plan_command::{plan, plan_as, rule_of, version_of};
pub use slots::{SlotTable, TableRule};
pub use text::{ServiceText, has_service};
