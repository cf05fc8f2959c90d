//! What is fixed for a cluster.
ghost use Rattle.std.specs.Prelude.{◌≡◌, ◌≤◌, ◌<◌, ◌||◌, ◌==◌, length, Some, None, MatchResult};
ghost use Rattle.cluster_core.specs.Setups.{Fixed, setup_fault};

use backend_names::TableSize;
use connection_table::TableKey;
use hash_laws::FlowHash;
use selection::Scheme;
use std::fmt;
use std::marker::Model;
use thiserror::Error;

/// Why a setup was refused. They are tested in this order.
#[derive(Clone, Copy, Debug, PartialEq, Eq, Drop, Error)]
pub enum SetupFault {
    /// There are not 1 to 64 nodes.
    #[error("a cluster has 1 to 64 nodes")]
    BadNodes,
    /// There are not 1 to 16 workers.
    #[error("a node has 1 to 16 workers")]
    BadWorkers,
    /// A table doesn't keep 1 to 1,000,000 entries.
    #[error("a connection table keeps 1 to 1,000,000 entries")]
    BadCapacity,
}

/// What is fixed for a cluster: its hash, its scheme, its table size, and the IPv4 addresses of its nodes. Also fixed: how
/// many workers a node has, how many entries a worker's connection table keeps, and how long an entry stands after its last
/// touch.
#[derive(Drop)]
pub struct Setup<S: Scheme, H: FlowHash> {
    hash: H,
    scheme: S,
    size: TableSize,
    nodes: Vec<u32>,
    workers: u16,
    capacity: u32,
    idle: Option<u64>,
    key: TableKey,
}

impl<S: Scheme, H: FlowHash> Model for Setup<S, H> {
    ghost use Rattle.std.specs.Prelude.{◌≤◌, ◌<◌, length};
    ghost use Rattle.cluster_core.specs.Setups.{Fixed};

    ghost Value = { Fixed S H };

    ghost view = { λ s. record {
      hash = s.hash;
      scheme = s.scheme;
      size = s.size;
      nodes = s.nodes.items;
      workers = s.workers;
      capacity = s.capacity;
      idle = s.idle;
    } };

    ghost invariant = { λ s. (0 < length s.nodes.items) × (length s.nodes.items ≤ 64) × (0 < s.workers) × (s.workers ≤ 16) × (0 < s.capacity)
        × (s.capacity ≤ 1000000) };
}

impl<S: Scheme, H: FlowHash> fmt::Debug for Setup<S, H> {
    fn fmt<W: fmt::Write>(&self, f: &mut fmt::Formatter<W>) -> fmt::Result {
        f.debug_struct("Setup")
            .field("size", &self.size)
            .field("nodes", &self.nodes)
            .field("workers", &self.workers)
            .field("capacity", &self.capacity)
            .field("idle", &self.idle)
            .finish_non_exhaustive()
    }
}

// The first fault.
fn fault_of(nodes: usize, workers: u16, capacity: u32) -> Option<SetupFault>
    ensures { result ≡ setup_fault nodes workers capacity }
{
    if nodes == 0 || nodes > 64 {
        return Some(SetupFault::BadNodes);
    }
    if workers == 0 || workers > 16 {
        return Some(SetupFault::BadWorkers);
    }
    if capacity == 0 || capacity > 1000000 {
        return Some(SetupFault::BadCapacity);
    }
    None
}

impl<S: Scheme, H: FlowHash> Setup<S, H> {
    /// A setup, or the first fault in the order of `SetupFault`. Where `idle` is a number of microseconds, an entry stands only
    /// while no more than that have passed since its last touch. No memory is taken.
    #[tactic(auto, using(crate::proofs::Limits::no_fault))]
    pub fn new(
        hash: H,
        scheme: S,
        size: TableSize,
        nodes: Vec<u32>,
        workers: u16,
        capacity: u32,
        idle: Option<u64>,
    ) -> Result<Self, SetupFault>
        ensures { MatchResult result
            (λ s. (setup_fault (length nodes.items) workers capacity ≡ None)
            × (s ≡ record { hash = hash; scheme = scheme; size = size; nodes = nodes.items; workers = workers; capacity = capacity; idle = idle }))
            (λ fault. setup_fault (length nodes.items) workers capacity ≡ Some fault) }
    {
        match fault_of(nodes.len(), workers, capacity) {
            Some(fault) => Err(fault),
            None => Ok(Setup {
                hash,
                scheme,
                size,
                nodes,
                workers,
                capacity,
                idle,
                key: TableKey::fixed(),
            }),
        }
    }

    /// The same cluster, whose connection tables hash by this key. No answer depends on it.
    pub fn keyed(self, key: TableKey) -> Self
        ensures { result ≡ self }
    {
        Setup {
            hash: self.hash,
            scheme: self.scheme,
            size: self.size,
            nodes: self.nodes,
            workers: self.workers,
            capacity: self.capacity,
            idle: self.idle,
            key,
        }
    }

    /// What the hash of each connection table begins with.
    pub fn key(&self) -> TableKey {
        self.key
    }

    /// The hash of flows.
    pub fn hash(&self) -> H
        ensures { result ≡ self.now.hash }
    {
        self.hash
    }

    /// How a new flow gets its backend.
    pub fn scheme(&self) -> S
        ensures { result ≡ self.now.scheme }
    {
        self.scheme
    }

    /// How many slots a table has.
    pub fn size(&self) -> TableSize
        ensures { result ≡ self.now.size }
    {
        self.size
    }

    /// The nodes' IPv4 addresses. Elsewhere a node is its place among them.
    pub fn nodes(&self) -> &[u32]
        ensures nodes { result.now ≡ self.now.nodes }
        ensures some { 0 < length result.now }
        ensures limit { length result.now ≤ 64 }
    {
        self.nodes.as_slice()
    }

    /// How many workers a node has.
    pub fn workers(&self) -> u16
        ensures workers { result ≡ self.now.workers }
        ensures some { 0 < result }
        ensures limit { result ≤ 16 }
    {
        self.workers
    }

    /// How many entries a worker's connection table keeps.
    pub fn capacity(&self) -> u32
        ensures capacity { result ≡ self.now.capacity }
        ensures some { 0 < result }
        ensures limit { result ≤ 1000000 }
    {
        self.capacity
    }

    /// How many microseconds an entry stands after its last touch, if there is a limit.
    pub fn idle(&self) -> Option<u64>
        ensures { result ≡ self.now.idle }
    {
        self.idle
    }
}
