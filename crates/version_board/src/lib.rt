//! Version boards: the newest version number of a node, which one publisher writes and the node's workers read without
//! waiting.
#![tactic(auto)]

mod board;
mod rule;
mod word;

pub use board::{NotNewer, VersionBoard};
pub use word::{Publisher, Watcher, WordBoard};
