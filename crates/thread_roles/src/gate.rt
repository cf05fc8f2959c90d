//! What is called round each serving, before a version is prepared, and where a node stops.
use stats_book::Stats;

/// A place for tests and for watchers. A worker calls it round each serving, in the worker's own thread. The driver calls it
/// before it prepares a version and once it has told the workers to halt. `nth` counts that worker's servings in its life,
/// from 0.
///
/// Nothing is held over a call, so a gate may take its time; the thread that calls it waits for it.
pub trait Gate {
    /// The driver has installed this version on the node, and is about to prepare it. No worker knows of it yet.
    fn preparing(&self, node: u16, version: u32);

    /// The driver has told the node's workers to halt, since the node's life ends with a stop.
    fn stopping(&self, node: u16);

    /// The worker has taken a packet out of its ring and has not looked at the board for it yet.
    fn before(&self, node: u16, worker: u16, nth: u64);

    /// The packet was served and counted. `stats` are the counts of its node's run, taken in one step with that count. Where
    /// memory was refused in the serving, this call doesn't come.
    fn counted(&self, node: u16, worker: u16, stats: Stats);

    /// The packet was served, and its outcome was sent on. Where memory was refused in the serving, this call comes all the
    /// same, and is the worker's last.
    fn after(&self, node: u16, worker: u16, nth: u64);
}

/// Does nothing.
#[derive(Clone, Copy, Debug, Drop)]
pub struct OpenGate;

impl Gate for OpenGate {
    fn preparing(&self, _node: u16, _version: u32) {}

    fn stopping(&self, _node: u16) {}

    fn before(&self, _node: u16, _worker: u16, _nth: u64) {}

    fn counted(&self, _node: u16, _worker: u16, _stats: Stats) {}

    fn after(&self, _node: u16, _worker: u16, _nth: u64) {}
}
