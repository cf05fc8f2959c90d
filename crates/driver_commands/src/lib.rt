//! What a scenario's steps tell the drivers of a cluster on threads.
//!
//! The spreader's choices are made in the order of the steps before any thread of a node starts. So each node's driver
//! gets a list of commands: a version to publish, a packet to offer, a restart, a stop. When the workers serve isn't
//! told: that is the threads' own. The lists are the steps' trace with its servings left out, whichever cluster plays it;
//! and where the trace has a restart the list has what the step says, a restart or a stop.
//!
//! ```text
//! install 0 1   node 0: Publish(1)
//! take 2        node 0: Offer(0)      node 1: Offer(1)
//! again 0       node 0: Offer(0)
//! restart 0     node 0: Restart
//! stop 1                              node 1: Stop
//! ```
#![tactic(auto)]

mod drivers;
mod ends;
mod laws;
mod notes;
mod told;

pub use drivers::orders;
pub use laws::{ends_are_told, known_at_any_time, known_steps_are_told};
pub use told::Orders;
