//! Flows, each once.
ghost use Rattle.std.specs.Prelude.{◌≡◌, [], List, length, OnOk};
ghost use Rattle.five_tuple.specs.declared.Flow.{Flow};
ghost use Rattle.traffic_shares.specs.Shares.{with_flow};
ghost use Rattle.traffic_shares.specs.Books.{AreFlows};

use connection_table::TableKey;
use five_tuple::Flow;
use std::alloc::{AllocError, Global};
use std::collections::HashSet;

/// Flows, each once.
#[derive(Drop)]
pub(crate) struct FlowSet {
    all: HashSet<Flow, TableKey>,
}

impl FlowSet {
    /// None. Flows are hashed by the key.
    pub(crate) fn new(alloc: Global, key: TableKey) -> FlowSet
        ensures { AreFlows [] result }
    {
        FlowSet {
            all: HashSet::with_hasher(alloc, key),
        }
    }

    /// How many there are.
    pub(crate) fn len(&self) -> usize
        ensures { (xs : List Flow) → AreFlows xs self.now → result ≡ length xs }
    {
        self.all.len()
    }

    /// One flow more, if it isn't there yet.
    pub(crate) fn put(&mut self, flow: &Flow) -> Result<(), AllocError>
        ensures { (xs : List Flow) → AreFlows xs self.old → OnOk result (AreFlows (with_flow flow.now xs) self.new) }
    {
        let Ok(_) = self.all.insert(*flow) else {
            return Err(AllocError);
        };
        Ok(())
    }
}
