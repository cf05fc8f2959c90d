//! A list of outcomes that takes little memory: eight bytes for each, and 32 more for a packet that was sent.
//!
//! An outcome takes 72 bytes, because a send names its backend. Here a send names the backend's place, and stands in a list of
//! its own. Contracts see the list that is meant.
#![tactic(auto)]

mod kept;
mod list;

pub use list::OutcomeList;
