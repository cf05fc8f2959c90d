//! The steps of a scenario by count and by time, and the steps by count that they are over a capture's records.
#![tactic(auto)]

mod counting;
mod laws;

pub use counting::{counted, has_until, is_before};
use event_trace::ScenarioStep;
pub use laws::{no_time_is_asked, steps_by_count_stay};

/// A step of a scenario, by count or by time.
#[derive(Debug, Drop)]
pub enum TimedStep {
    /// One that counts its records, or names none.
    Counted(ScenarioStep),
    /// `until T`: the next records are delivered, up to the first that came this many microseconds or more after the
    /// capture's first record. One of an earlier time than the first counts as coming with it.
    Until(u64),
}
