//! A list that only proofs read: it takes no memory, and its methods do nothing when they run.
//!
//! A run whose contracts speak of all that has happened keeps such a list of it, where nothing of it is needed later.
#![tactic(auto)]

mod log;

pub use log::Log;
