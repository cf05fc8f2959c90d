//! What a node is to do.
use cluster_core::Setup;
use cluster_node::Packet;
use hash_laws::FlowHash;
use pool_versions::Catalogue;
use selection::Scheme;
use std::alloc::AllocError;
use std::fmt;
use thread_records::Command;

/// What a node of a cluster is to do.
pub struct Assignment<'e, S: Scheme, H: FlowHash> {
    /// The cluster.
    pub setup: &'e Setup<S, H>,
    /// Its versions.
    pub catalogue: &'e Catalogue,
    /// The packets that the commands offer, by number.
    pub packets: &'e [Packet],
    /// The commands of the node's driver.
    pub commands: &'e [Command],
    /// The node's place among the cluster's nodes.
    pub node: u16,
    /// The places of a ring.
    pub ring: u32,
    /// The driver waits at a full ring.
    pub paced: bool,
}

impl<S: Scheme, H: FlowHash> fmt::Debug for Assignment<'_, S, H> {
    fn fmt<W: fmt::Write>(&self, f: &mut fmt::Formatter<W>) -> fmt::Result {
        f.debug_struct("Assignment")
            .field("node", &self.node)
            .field("ring", &self.ring)
            .finish_non_exhaustive()
    }
}

impl<'e, S: Scheme, H: FlowHash> Clone for Assignment<'e, S, H> {
    fn clone(&self) -> Result<Self, AllocError> {
        Ok(*self)
    }
}

impl<'e, S: Scheme, H: FlowHash> Copy for Assignment<'e, S, H> {}
