//! The flows that changed their server.
ghost use Rattle.std.specs.Prelude.{◌≡◌, [], ◌∷◌, List, length, IfOk, OnOk, if◌then◌else◌};
ghost use Rattle.std.specs.List.{list_any};
ghost use Rattle.five_tuple.specs.declared.Flow.{Flow};
ghost use Rattle.connection_table.specs.Touches.{same_flow};
ghost use Rattle.connection_changes.specs.Changes.{changed_with};
ghost use Rattle.connection_changes.specs.Books.{AreChanged};

use connection_table::TableKey;
use five_tuple::Flow;
use run_report::Split;
use std::alloc::{AllocError, Global};
use std::collections::HashSet;
use std::fmt;

/// The flows that changed their server, each once.
#[derive(Drop)]
pub struct ChangedFlows {
    flows: HashSet<Flow, TableKey>,
}

impl fmt::Debug for ChangedFlows {
    fn fmt<W: fmt::Write>(&self, f: &mut fmt::Formatter<W>) -> fmt::Result {
        f.debug_struct("ChangedFlows")
            .field("len", &self.flows.len())
            .finish_non_exhaustive()
    }
}

impl ChangedFlows {
    /// None. Flows are hashed by the key.
    pub fn new(alloc: Global, key: TableKey) -> ChangedFlows
        ensures { AreChanged [] result }
    {
        ChangedFlows {
            flows: HashSet::with_hasher(alloc, key),
        }
    }

    /// Those of these splits.
    pub fn of_splits(
        alloc: Global,
        key: TableKey,
        splits: &[Split],
    ) -> Result<ChangedFlows, AllocError>
        ensures { IfOk result (λ c. AreChanged (changed_with splits.now []) c) }
    {
        let mut changed = ChangedFlows::new(alloc, key);
        for split in splits {
            changed.put(&split.later.flow)?;
        }
        Ok(changed)
    }

    /// How many there are.
    pub fn len(&self) -> usize
        ensures { (xs : List Flow) → AreChanged xs self.now → result ≡ length xs }
    {
        self.flows.len()
    }

    // One flow more, if it isn't there yet.
    fn put(&mut self, flow: &Flow) -> Result<(), AllocError>
        ensures { (xs : List Flow) → AreChanged xs self.old →
            OnOk result (AreChanged (if list_any (same_flow flow.now) xs then xs else flow.now ∷ xs) self.new) }
    {
        let Ok(_) = self.flows.insert(*flow) else {
            return Err(AllocError);
        };
        Ok(())
    }
}
