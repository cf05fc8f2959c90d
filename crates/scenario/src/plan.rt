//! What a scenario is.
ghost use Rattle.std.specs.Prelude.{◌≡◌, length};
ghost use Rattle.scenario.specs.Limits.{AreLimits};

use backend_names::TableSize;
use hash_laws::AnyHash;
use pool_versions::Catalogue;
use scenario_keys::{SchemeKind, SpreadKind};
use timed_steps::TimedStep;

/// A cluster, and what happens to it. By its type its numbers and lists keep their limits, and its catalogue is for tables of
/// its size.
#[derive(Debug, Drop)]
pub struct Scenario {
    /// The number of slots of each table.
    pub size: TableSize,
    /// The hash of names and flows.
    pub hash: AnyHash,
    /// How a flow's backend is chosen.
    pub scheme: SchemeKind,
    /// How packets are spread over the nodes.
    pub spread: SpreadKind,
    /// The workers of each node, 1 to 16.
    pub workers: u16,
    /// The entries of each connection table, 1 to 1,000,000.
    pub capacity: u32,
    /// The places of each ring, 1 to 65,536.
    pub ring: u32,
    /// Whether IP header checksums are tested.
    pub check: bool,
    /// How long an entry of a connection table stands without a packet, in microseconds: 0 to 4,294,967,295,000,000. None: as
    /// long as the table has room.
    pub idle: Option<u64>,
    /// The nodes' IPv4 addresses, most significant byte first: 1 to 64 of them.
    pub nodes: Vec<u32>,
    /// The versions of the pools.
    pub catalogue: Catalogue,
    /// What happens, in order: at most 100,000 steps.
    pub steps: Vec<TimedStep>,
    pub ghost limits: { AreLimits workers capacity ring (length nodes.items) (length steps.items) },
    pub ghost sized: { catalogue.size ≡ size },
}
