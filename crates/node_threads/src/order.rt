//! What nodes are to do.
ghost use Rattle.std.specs.Prelude.{◌≡◌, ◌<◌, ◌≤◌, [], length, slice_index_or};
ghost use Rattle.thread_roles.specs.Assigned.{asked_in};
ghost use Rattle.node_threads.specs.Orders.{asked_one};

use cluster_core::Setup;
use cluster_node::Packet;
use hash_laws::FlowHash;
use pool_versions::Catalogue;
use selection::Scheme;
use shared_versions::SharedVersions;
use std::fmt;
use std::marker::Model;
use thread_records::Command;
use thread_roles::Assignment;

/// The rings of a cluster's run.
#[derive(Clone, Copy, Debug, PartialEq, Eq)]
pub struct RingRules {
    /// How many packets a ring has room for.
    pub places: u32,
    /// Whether a driver waits at a full ring. Else it tries the other workers, and drops a packet that none of them takes.
    pub paced: bool,
}

/// A node's assignment, before there is a book. By its type the node is there and a ring has places.
#[derive(Drop)]
pub struct NodeOrder<'e, S: Scheme, H: FlowHash, G> {
    /// What the node is to do.
    pub assignment: Assignment<'e, S, H>,
    /// The versions that were prepared for all nodes.
    pub prepared: &'e SharedVersions<S>,
    /// What is called round each serving.
    pub gate: &'e G,
    pub ghost there: { assignment.node < length assignment.setup.now.nodes },
    pub ghost some: { 0 < assignment.ring },
    pub ghost limit: { assignment.ring ≤ 65536 },
}

impl<S: Scheme, H: FlowHash, G> fmt::Debug for NodeOrder<'_, S, H, G> {
    fn fmt<W: fmt::Write>(&self, f: &mut fmt::Formatter<W>) -> fmt::Result {
        f.debug_struct("NodeOrder")
            .field("assignment", &self.assignment)
            .finish_non_exhaustive()
    }
}

/// What a driver's thread promises: a run of its node's commands with the totals of its outcomes, or a fault that the node's
/// records tell.
#[derive(Drop)]
pub struct OfNode<'e, S: Scheme, H: FlowHash> {
    /// What the node is to do.
    pub assignment: Assignment<'e, S, H>,
}

impl<S: Scheme, H: FlowHash> fmt::Debug for OfNode<'_, S, H> {
    fn fmt<W: fmt::Write>(&self, f: &mut fmt::Formatter<W>) -> fmt::Result {
        f.debug_struct("OfNode")
            .field("assignment", &self.assignment)
            .finish()
    }
}

/// What the nodes of a cluster are to do, before there is a book. By its type there is a list of commands for each node, and
/// a ring has places.
#[derive(Drop)]
pub struct ClusterOrder<'e, S: Scheme, H: FlowHash, G> {
    /// The cluster.
    pub setup: &'e Setup<S, H>,
    /// Its versions.
    pub catalogue: &'e Catalogue,
    /// Those of them that were prepared for all nodes.
    pub prepared: &'e SharedVersions<S>,
    /// The packets that the commands offer, by number.
    pub packets: &'e [Packet],
    /// For each node the commands of its driver.
    pub lists: &'e [Vec<Command>],
    /// What is called round each serving.
    pub gate: &'e G,
    /// The places of a ring.
    pub ring: u32,
    /// A driver waits at a full ring.
    pub paced: bool,
}

impl<'e, S: Scheme, H: FlowHash, G> Model for ClusterOrder<'e, S, H, G> {
    ghost use Rattle.std.specs.Prelude.{◌≡◌, ◌<◌, ◌≤◌, length, map};
    ghost use Rattle.node_threads.specs.Orders.{AllAsked, asked_each};

    ghost Value = { AllAsked S H };

    ghost view = { λ o. asked_each o.setup.now o.catalogue.now o.packets.now o.ring o.paced (map (λ c. c.items) o.lists.now) };

    ghost invariant = { λ o. (length o.lists.now ≡ length o.setup.now.nodes) × (0 < o.ring) × (o.ring ≤ 65536) };
}

impl<S: Scheme, H: FlowHash, G> fmt::Debug for ClusterOrder<'_, S, H, G> {
    fn fmt<W: fmt::Write>(&self, f: &mut fmt::Formatter<W>) -> fmt::Result {
        f.debug_struct("ClusterOrder")
            .field("ring", &self.ring)
            .finish_non_exhaustive()
    }
}

impl<'e, S: Scheme, H: FlowHash, G> ClusterOrder<'e, S, H, G> {
    /// How many nodes there are.
    pub fn nodes(&self) -> u16
        ensures is { result ≡ length self.now.commands }
        ensures each { length self.now.commands ≡ length self.now.setup.nodes }
        ensures limit { result ≤ 64 }
    {
        self.setup.nodes().len() as u16
    }

    /// How many workers each of them has.
    pub fn workers(&self) -> u16
        ensures is { result ≡ self.now.setup.workers }
        ensures limit { result ≤ 16 }
    {
        self.setup.workers()
    }

    /// What a node is to do.
    pub fn order_of(&self, node: u16) -> NodeOrder<'e, S, H, G>
        requires { node < length self.now.commands }
        ensures { asked_in result.assignment ≡ asked_one self.now node (slice_index_or self.now.commands node []) }
    {
        let assignment = Assignment {
            setup: self.setup,
            catalogue: self.catalogue,
            packets: self.packets,
            commands: self.lists[node as usize].as_slice(),
            node,
            ring: self.ring,
            paced: self.paced,
        };
        NodeOrder {
            assignment,
            prepared: self.prepared,
            gate: self.gate,
        }
    }
}
