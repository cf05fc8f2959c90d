//! How many packets went to each destination.
ghost use Rattle.std.specs.Prelude.{◌≡◌, ◌<◌, ◌++◌, ◌∷◌, [], length, map, filter, count_by, IfOk, OnOk};
ghost use Rattle.pcap_file.specs.Format.{max_records};
ghost use Rattle.pool_versions.specs.Pool.{same_key};
ghost use Rattle.scenario_sketch.specs.Counts.{destinations_among, is_busy, busy};
ghost use Rattle.scenario_sketch.specs.Entries.{counted_in};

use crate::counted::Counted;
use connection_table::TableKey;
use ghost_log::Log;
use indexmap::IndexMap;
use pool_versions::ServiceKey;
use std::alloc::{AllocError, Global};
use std::marker::Model;

/// More packets than this are more than a handful.
pub(crate) const HANDFUL: u32 = 5;

/// How many packets went to each destination, in the order in which the destinations came first. Its memory grows with the
/// destinations, and not with the packets. Contracts see the destination of each packet, in order.
#[derive(Drop)]
pub(crate) struct Tally {
    counts: IndexMap<ServiceKey, u32, TableKey>,
    past: Log<ServiceKey>,
}

impl Model for Tally {
    ghost use Rattle.std.specs.Prelude.{◌≡◌, List, reverse};
    ghost use Rattle.pool_versions.specs.declared.key.ServiceKey.{ServiceKey};
    ghost use Rattle.scenario_sketch.specs.Entries.{count_entries};

    ghost Value = { List ServiceKey };

    ghost view = { λ t. reverse t.past.items };

    ghost invariant = { λ t. t.counts.entries ≡ count_entries (reverse t.past.items) };
}

// The entries of more than a handful of packets.
fn busy_in(
    alloc: Global,
    counts: &IndexMap<ServiceKey, u32, TableKey>,
) -> Result<Vec<Counted>, AllocError>
    ensures { IfOk result (λ v. v.items ≡ filter is_busy (map counted_in counts.now.entries)) }
{
    counts
        .iter()
        .map(|(service, packets)| Counted {
            service: *service,
            packets: *packets,
        })
        .filter(|counted| counted.packets > HANDFUL)
        .collect(alloc)
}

impl Tally {
    /// That of no packets. Destinations are hashed by the key.
    pub(crate) fn new(alloc: Global, key: TableKey) -> Tally
        ensures { result ≡ [] }
    {
        Tally {
            counts: IndexMap::with_hasher(alloc, key),
            past: Log::new(),
        }
    }

    /// One packet more.
    pub(crate) fn count(&mut self, to: ServiceKey) -> Result<(), AllocError>
        requires { length self.old < max_records }
        ensures { OnOk result (self.new ≡ self.old ++ to ∷ []) }
    {
        let before = self.counts.get(&to).copied().unwrap_or(0);
        self.counts.insert(to, before + 1)?;
        self.past = self.past.and(&to);
        Ok(())
    }

    /// How many packets went to a destination.
    pub(crate) fn packets(&self, to: ServiceKey) -> u32
        ensures { result ≡ count_by (same_key to) self.now }
    {
        self.counts.get(&to).copied().unwrap_or(0)
    }

    /// How many destinations there are.
    pub(crate) fn destinations(&self) -> usize
        ensures { result ≡ length (destinations_among self.now) }
    {
        self.counts.len()
    }

    /// The destinations of more than a handful of packets, in the order in which they came first.
    pub(crate) fn busy(&self, alloc: Global) -> Result<Vec<Counted>, AllocError>
        ensures { IfOk result (λ v. v.items ≡ busy self.now) }
    {
        busy_in(alloc, &self.counts)
    }
}
