//! What a scenario's steps mean for the drivers.
use event_trace::Tally;
use thread_records::Command;

/// What a scenario's steps tell the drivers.
#[derive(Debug, Drop)]
pub struct Orders {
    /// The commands of each node's driver, in the order of the nodes.
    pub commands: Vec<Vec<Command>>,
    /// What a report says of the records.
    pub tally: Tally,
}
