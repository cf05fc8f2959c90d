//! The commands that play a scenario over a capture on one thread: `simulate` and `explain`, over any devices. For these and for `run`
//! the ordinals of a capture's records are read here.
#![tactic(auto)]

mod listing;
mod parting;
mod playing;
mod turning;

pub use listing::simulate_listed;
pub use parting::simulate_part;
pub use playing::{answer_keyed, explain_run, simulate, simulate_keyed};
pub use turning::{ordinals_in, simulate_turned, thread_ordinals_in};
