//! One node's part of a cluster's run: the same steps and the same choices of the spreader, but only one node's events are
//! judged, and the others are left out. What a part sends, and the outcomes of its events, are those of the whole run.
//!
//! [`NodePart`] is any core of which one node is played, or all nodes. So each node of a cluster can be played by a process of
//! its own, and what they write is joined to what one process writes.
#![tactic(auto)]

mod laws;
mod part;
mod setup;

pub use laws::{nodes_are_judged_alone, parts_are_of_the_whole, parts_send_their_own};
pub use part::NodePart;
pub use setup::PartSetup;
