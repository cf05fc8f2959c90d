use std::alloc::Global;
use std::fmt;
use timed_steps::TimedStep;

/// What a run takes of a scenario.
#[derive(Clone, Copy, Debug)]
pub struct Plan<'a> {
    /// The nodes' IPv4 addresses.
    pub nodes: &'a [u32],
    /// Whether the IPv4 headers' checksums are tested.
    pub check: bool,
    /// The steps, in order.
    pub steps: &'a [TimedStep],
}

/// What is fixed for a run over a capture.
#[derive(Drop)]
pub struct RunContext<'a, S> {
    /// Where the run takes its memory.
    pub alloc: Global,
    /// What it takes of a scenario.
    pub plan: Plan<'a>,
    /// What its cluster's core works by.
    pub setup: &'a S,
}

impl<S> fmt::Debug for RunContext<'_, S> {
    fn fmt<W: fmt::Write>(&self, f: &mut fmt::Formatter<W>) -> fmt::Result {
        f.debug_struct("RunContext")
            .field("plan", &self.plan)
            .finish_non_exhaustive()
    }
}
