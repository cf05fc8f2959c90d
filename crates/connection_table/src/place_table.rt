//! A table whose entries stand at places, with links between them.
ghost use Rattle.std.specs.Prelude.{◌≡◌, ◌<◌, ◌≤◌, [], length, IfOk, IsOk, OnOk, OnErr, Some, None};
ghost use Rattle.connection_table.specs.Recency.{Keyed, stored};
ghost use Rattle.connection_table.specs.Tied.{flow_hash};
ghost use Rattle.connection_table.specs.Touches.{last_touch};

use crate::key::TableKey;
use crate::pairs::Pairs;
use crate::table::{ConnTable, Entry, Renewed};
use five_tuple::Flow;
use std::alloc::{AllocError, Global};
use std::fmt;
use std::marker::Model;

/// A table whose entries stand at places. A call hashes the flow, looks into its bucket's group and changes some links, so that
/// its time doesn't grow with the number of entries, but where the places grow. `renew` finds the flow once, and a full table
/// gives a new flow the place of the entry that was used longest ago.
#[derive(Drop)]
pub struct PlaceTable {
    alloc: Global,
    limit: u32,
    pairs: Pairs,
}

impl Model for PlaceTable {
    ghost use Rattle.std.specs.Prelude.{◌<◌, ◌≤◌, length};
    ghost use Rattle.connection_table.specs.Recency.{Keyed};
    ghost use Rattle.connection_table.specs.Tied.{AreTied, touches_of};

    ghost Value = { Keyed };

    ghost view = { λ t. record { limit = t.limit; pairs = touches_of t.pairs; key = t.pairs.key } };

    ghost invariant = { λ t. (0 < t.limit) × (t.limit ≤ 1000000) × (length t.pairs.pairs.items ≤ t.limit) × AreTied t.pairs };
}

impl fmt::Debug for PlaceTable {
    fn fmt<W: fmt::Write>(&self, f: &mut fmt::Formatter<W>) -> fmt::Result {
        f.debug_struct("PlaceTable")
            .field("len", &self.pairs.len())
            .finish_non_exhaustive()
    }
}

impl PlaceTable {
    // Puts the pair of a flow that has none, and has this hash, in front. In a full table the last one goes.
    fn insert(&mut self, hash: u32, flow: Flow, entry: Entry) -> Result<(), AllocError>
        requires absent { last_touch flow self.old.pairs ≡ None }
        requires hash { hash ≡ flow_hash self.old.key flow }
        ensures ok { OnOk result (self.new ≡ record self.old { pairs = stored self.old.limit flow entry self.old.pairs }) }
        ensures err { OnErr result (self.new ≡ self.old) }
        ensures full { length self.old.pairs ≡ self.old.limit → IsOk result }
    {
        if self.pairs.len() == self.limit as usize {
            self.pairs.replace_oldest(hash, flow, entry);
            return Ok(());
        }
        self.pairs.push(hash, flow, entry)
    }
}

impl ConnTable for PlaceTable {
    ghost capacity = { λ t. t.limit };

    ghost entries = { λ t. t.pairs };

    ghost hashes_by = { λ t. Some t.key };

    fn make(alloc: Global, limit: u32) -> Result<PlaceTable, AllocError> {
        PlaceTable::keyed(alloc, limit, TableKey::fixed())
    }

    fn keyed(alloc: Global, limit: u32, key: TableKey) -> Result<PlaceTable, AllocError>
        requires some { 0 < limit }
        requires limit { limit ≤ 1000000 }
        ensures capacity { IfOk result (λ t. t.limit ≡ limit) }
        ensures empty { IfOk result (λ t. t.pairs ≡ []) }
        ensures key { IfOk result (λ t. t.key ≡ key) }
    {
        Ok(PlaceTable {
            alloc,
            limit,
            pairs: Pairs::new(alloc, key),
        })
    }

    fn peek(&self, flow: &Flow) -> Option<Entry> {
        match self.pairs.place_of(flow) {
            Some(place) => Some(self.pairs.entry_at(place)),
            None => None,
        }
    }

    fn store(&mut self, flow: Flow, entry: Entry) -> Result<(), AllocError> {
        let hash = self.pairs.hash_of(&flow);
        match self.pairs.place_by(hash, &flow) {
            Some(place) => {
                self.pairs.write(place, flow, entry);
                Ok(())
            }
            None => self.insert(hash, flow, entry),
        }
    }

    fn renew<K: FnOnce(&Entry) -> bool, M: FnOnce() -> Entry>(
        &mut self,
        flow: Flow,
        clock: u64,
        keeps: K,
        makes: M,
    ) -> Renewed {
        let hash = self.pairs.hash_of(&flow);
        let Some(place) = self.pairs.place_by(hash, &flow) else {
            let entry = makes();
            let lent = &entry;
            let stored = self.insert(hash, flow, *lent).is_ok();
            return Renewed::Made { entry, stored };
        };
        let entry = self.pairs.entry_at(place);
        if keeps(&entry) {
            self.pairs.retouch(place, flow, clock);
            return Renewed::Kept(entry);
        }
        let entry = makes();
        let lent = &entry;
        self.pairs.write(place, flow, *lent);
        Renewed::Made {
            entry,
            stored: true,
        }
    }

    // The memory of the places is given back.
    fn clear(&mut self) {
        let key = self.pairs.key;
        self.pairs = Pairs::new(self.alloc, key);
    }

    fn len(&self) -> usize {
        self.pairs.len()
    }
}
