//! Where the packets to each destination came from.
ghost use Rattle.std.specs.Prelude.{◌≡◌, ◌++◌, ◌∷◌, [], OnOk, reverse, is_some};
ghost use Rattle.scenario_sketch.specs.Hops.{origin_among, origin_after, outranks};

use crate::hop::Hop;
use connection_table::TableKey;
use ghost_log::Log;
use indexmap::IndexMap;
use pool_versions::ServiceKey;
use std::alloc::{AllocError, Global};
use std::marker::Model;

/// Where the packets to one destination came from.
#[derive(Clone, Copy)]
pub(crate) struct Origin {
    /// Where the first of them came from.
    pub(crate) first: ServiceKey,
    /// Whether an earlier packet had gone there.
    pub(crate) is_answer: bool,
    /// Whether one of them came from elsewhere.
    pub(crate) has_others: bool,
}

/// Where the packets to each destination came from. Its memory grows with the destinations. Contracts see each packet, in order.
#[derive(Drop)]
pub(crate) struct Origins {
    found: IndexMap<ServiceKey, Origin, TableKey>,
    past: Log<Hop>,
}

impl Model for Origins {
    ghost use Rattle.std.specs.Prelude.{List, reverse};
    ghost use Rattle.scenario_sketch.specs.declared.hop.Hop.{Hop};
    ghost use Rattle.scenario_sketch.specs.Hops.{AreOrigins};

    ghost Value = { List Hop };

    ghost view = { λ o. reverse o.past.items };

    ghost invariant = { λ o. AreOrigins o.found.entries o.past.items };
}

/// Whether a destination is a service rather than one whose first packet came from it.
pub(crate) fn outranks(service: Origin, other: Origin) -> bool
    ensures { result ≡ outranks service other }
{
    if other.has_others {
        service.has_others && other.is_answer
    } else {
        service.has_others || other.is_answer
    }
}

impl Origins {
    /// Those of no packets. Destinations are hashed by the key.
    pub(crate) fn new(alloc: Global, key: TableKey) -> Origins
        ensures { result ≡ [] }
    {
        Origins {
            found: IndexMap::with_hasher(alloc, key),
            past: Log::new(),
        }
    }

    // What is known of a destination after one packet more to it. Where that came from is looked up for a new destination alone.
    fn after(&self, hop: Hop) -> Origin
        ensures { result ≡ origin_after (origin_among hop.to self.now) hop.from (is_some (origin_among hop.from self.now)) }
    {
        match self.of(hop.to) {
            Some(origin) => Origin {
                first: origin.first,
                is_answer: origin.is_answer,
                has_others: origin.has_others || origin.first != hop.from,
            },
            None => Origin {
                first: hop.from,
                is_answer: self.of(hop.from).is_some(),
                has_others: false,
            },
        }
    }

    /// One packet more.
    pub(crate) fn note(&mut self, hop: Hop) -> Result<(), AllocError>
        ensures { OnOk result (self.new ≡ self.old ++ hop ∷ []) }
    {
        let origin = self.after(hop);
        self.found.insert(hop.to, origin)?;
        self.past = self.past.and(&hop);
        Ok(())
    }

    /// What is known of a destination.
    pub(crate) fn of(&self, to: ServiceKey) -> Option<Origin>
        ensures { result ≡ origin_among to self.now }
    {
        self.found.get(&to).copied()
    }
}
