//! The steps of a scenario.

/// A step of a scenario. A node is its place among the cluster's nodes, and workers are numbered from 0. A record is named
/// by its place in the capture, from 0.
#[derive(Debug, Drop)]
pub enum ScenarioStep {
    /// `install N V`: a node is told to install a version.
    Install { node: u16, version: u32 },
    /// `live N ..`: the live nodes are these, in this order, from now on.
    Live(Vec<u16>),
    /// `take K`: the next so many records, or those that remain, are delivered in order.
    Take(u32),
    /// `lose K`: the next so many records, or those that remain, are read and lost.
    Lose(u32),
    /// `again P`: a record that was read before is delivered again. One that wasn't is skipped.
    Again(u32),
    /// `full N W ..`: from now on the marked workers of a node refuse each arrival, the others don't.
    Full { node: u16, marks: [bool; 16] },
    /// `hold N`: a node's workers serve nothing until it is drained or restarted.
    Hold(u16),
    /// `drain N`: ends the hold: all waiting packets of a node are served, worker 0's in order, then worker 1's, and so on.
    Drain(u16),
    /// `restart N`: a node restarts. Ends a hold.
    Restart(u16),
    /// `stop N`: a node's life ends on threads as it is, and another begins. In a trace it is a restart.
    Stop(u16),
}
