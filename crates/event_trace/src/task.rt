//! What is fixed for a run, and what is asked of it.
use cluster_core::Deployment;
use hash_laws::FlowHash;
use selection::Scheme;
use std::fmt;

/// The cluster of a run, and what is asked of its record.
#[derive(Drop)]
pub struct Task<S: Scheme, H: FlowHash, A> {
    pub deployment: Deployment<S, H>,
    pub asked: A,
}

impl<S: Scheme, H: FlowHash, A> fmt::Debug for Task<S, H, A> {
    fn fmt<W: fmt::Write>(&self, f: &mut fmt::Formatter<W>) -> fmt::Result {
        f.debug_struct("Task")
            .field("deployment", &self.deployment)
            .finish_non_exhaustive()
    }
}
