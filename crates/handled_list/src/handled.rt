//! What a worker handled.
use cluster_node::Item;
use forwarder::Choice;

/// A packet that a worker handled.
#[derive(Clone, Copy, Debug, PartialEq, Eq)]
pub struct Handled {
    /// The packet, its flow, and the oldest version under which it could be served.
    pub item: Item,
    /// The version under which it was served.
    pub version: u32,
    /// Where it went.
    pub choice: Choice,
    /// A new entry was due and none was made.
    pub unstored: bool,
}
