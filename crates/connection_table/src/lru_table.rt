//! A table that keeps its entries in a hash map with links.
ghost use Rattle.std.specs.Prelude.{◌≡◌, ◌<◌, true, None};

use crate::key::TableKey;
use crate::slot::{Slot, before, entry_in, slot_of};
use crate::table::{ConnTable, Entry, Renewed};
use backend_names::Name;
use five_tuple::Flow;
use lru::LruCache;
use pool_versions::Backend;
use std::alloc::{AllocError, Global};
use std::fmt;
use std::marker::Model;
use std::num::NonZeroUsize;

/// A table over a cache by least recent use. A call hashes the flow and follows links, so that its time doesn't grow with the
/// number of entries, but where the map grows. `renew` finds the flow once.
#[derive(Drop)]
pub struct LruTable {
    cache: LruCache<Flow, Slot, TableKey>,
    // What a vacant slot has for a backend.
    nobody: Backend,
}

impl Model for LruTable {
    ghost use Rattle.std.specs.Prelude.{◌<◌};
    ghost use Rattle.connection_table.specs.Recency.{Recency};
    ghost use Rattle.connection_table.specs.Slots.{entry_of, shown, AreFull};

    ghost Value = { Recency };

    ghost view = { λ t. record { limit = t.cache.cap; pairs = shown entry_of t.cache.entries } };

    ghost invariant = { λ t. (0 < t.cache.cap) × AreFull t.cache.entries };
}

impl fmt::Debug for LruTable {
    fn fmt<W: fmt::Write>(&self, f: &mut fmt::Formatter<W>) -> fmt::Result {
        f.debug_struct("LruTable")
            .field("len", &self.cache.len())
            .finish_non_exhaustive()
    }
}

impl ConnTable for LruTable {
    ghost capacity = { λ t. t.limit };

    ghost entries = { λ t. t.pairs };

    ghost hashes_by = { λ _. None };

    fn make(alloc: Global, limit: u32) -> Result<LruTable, AllocError> {
        LruTable::keyed(alloc, limit, TableKey::fixed())
    }

    fn keyed(alloc: Global, limit: u32, key: TableKey) -> Result<LruTable, AllocError> {
        let Some(name) = Name::new(b"a") else {
            unreachable!()
        };
        let nobody = Backend { name, addr: 0 };
        let places = NonZeroUsize::new(limit as usize).unwrap();
        // The kit's `with_hasher` takes room for all places at once.
        let mut cache = LruCache::unbounded_with_hasher(alloc, key)?;
        cache.resize(places);
        Ok(LruTable { cache, nobody })
    }

    fn peek(&self, flow: &Flow) -> Option<Entry> {
        match self.cache.peek(flow) {
            Some(slot) => Some(entry_in(slot)),
            None => None,
        }
    }

    fn store(&mut self, flow: Flow, entry: Entry) -> Result<(), AllocError> {
        let Ok(_) = self.cache.put(flow, slot_of(&entry)) else {
            return Err(AllocError);
        };
        Ok(())
    }

    fn renew<K: FnOnce(&Entry) -> bool, M: FnOnce() -> Entry>(
        &mut self,
        flow: Flow,
        clock: u64,
        keeps: K,
        makes: M,
    ) -> Renewed {
        let nobody = &self.nobody;
        let vacant = ||
            ensures { result.vacant ≡ true }
        {
            Slot {
                backend: *nobody,
                version: 0,
                vacant: true,
                last: 0,
            }
        };
        let Ok(slot) = self.cache.get_or_insert_mut(flow, vacant) else {
            let entry = makes();
            return Renewed::Made {
                entry,
                stored: false,
            };
        };
        if let Some(entry) = before(slot) {
            if keeps(&entry) {
                slot.last = clock;
                return Renewed::Kept(entry);
            }
        }
        let entry = makes();
        let made = Renewed::Made {
            entry,
            stored: true,
        };
        *slot = slot_of(&entry);
        made
    }

    fn clear(&mut self) {
        self.cache.clear();
    }

    fn len(&self) -> usize {
        self.cache.len()
    }
}
