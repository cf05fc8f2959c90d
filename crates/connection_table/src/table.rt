//! What a table of connections is.
ghost use Rattle.std.specs.Prelude.{◌≡◌, ◌≤◌, ◌<◌, ℕ, List, [], length, IfOk, OnOk, OnErr, Option, IsSome, IsOk};
ghost use Rattle.connection_table.specs.Recency.{looked, retouched, stored};
ghost use Rattle.std.specs.Fn.{FnOnceReturnsAt};
ghost use Rattle.connection_table.specs.Renewal.{IsRenewed};
ghost use Rattle.connection_table.specs.Touches.{Touch, last_touch};

use crate::key::TableKey;
use five_tuple::Flow;
use pool_versions::Backend;
use std::alloc::{AllocError, Global};

/// Where a flow goes, the number of the version under which that was chosen, and the clock when the flow was last touched.
#[derive(Clone, Copy, Debug, PartialEq, Eq)]
pub struct Entry {
    pub backend: Backend,
    pub version: u32,
    pub last: u64,
}

/// What became of a flow's entry.
#[derive(Clone, Copy, Debug)]
pub enum Renewed {
    /// It remains, touched. This is the entry before that.
    Kept(Entry),
    /// This is the flow's entry now, if it was stored.
    Made { entry: Entry, stored: bool },
}

/// A bounded table of flows with their entries. Each flow is in it once; the most recently used is in front.
pub trait ConnTable: Drop + Sized {
    ghost use Rattle.connection_table.specs.declared.key.TableKey.{TableKey};

    /// How many entries it keeps.
    ghost capacity: { Self → ℕ };

    /// The flows with their entries, the most recently used first.
    ghost entries: { Self → List Touch };

    /// The key that its hash begins with, where it tells one.
    ghost hashes_by: { Self → Option TableKey };

    /// An empty table for 1 to 1,000,000 entries. Nothing of the capacity is reserved.
    fn make(alloc: Global, limit: u32) -> Result<Self, AllocError>
        requires some { 0 < limit }
        requires limit { limit ≤ 1000000 }
        ensures capacity { IfOk result (λ t. capacity t ≡ limit) }
        ensures empty { IfOk result (λ t. entries t ≡ []) };

    /// The same, where the table's hash begins with a key. A table that has no hash leaves this as it is; one that tells its key
    /// says here that it is this one.
    fn keyed(alloc: Global, limit: u32, _key: TableKey) -> Result<Self, AllocError>
        requires some { 0 < limit }
        requires limit { limit ≤ 1000000 }
        ensures capacity { IfOk result (λ t. capacity t ≡ limit) }
        ensures empty { IfOk result (λ t. entries t ≡ []) }
    {
        Self::make(alloc, limit)
    }

    /// The flow's entry. Nothing changes.
    fn peek(&self, flow: &Flow) -> Option<Entry>
        ensures { result ≡ last_touch flow.now (entries self.now) };

    /// Puts the flow's entry in front. An older one of that flow goes, or in a full table the last one. Memory is never
    /// refused for a flow that is there, and where it is refused nothing changes.
    fn store(&mut self, flow: Flow, entry: Entry) -> Result<(), AllocError>
        ensures ok { OnOk result (entries self.new ≡ stored (capacity self.old) flow entry (entries self.old)) }
        ensures err { OnErr result (entries self.new ≡ entries self.old) }
        ensures there { IsSome (last_touch flow (entries self.old)) → IsOk result }
        ensures key { hashes_by self.new ≡ hashes_by self.old }
        ensures capacity { capacity self.new ≡ capacity self.old };

    /// Touches a flow, and answers its entry as it was. From now on the entry is in front and was last touched at this
    /// clock. Where there is none nothing changes.
    fn touch(&mut self, flow: &Flow, clock: u64) -> Option<Entry>
        ensures found { result ≡ last_touch flow.now (entries self.old) }
        ensures touched { entries self.new ≡ retouched clock flow.now (entries self.old) }
        ensures key { hashes_by self.new ≡ hashes_by self.old }
        ensures capacity { capacity self.new ≡ capacity self.old }
    {
        let entry = self.peek(flow)?;
        let _ = self.store(
            *flow,
            Entry {
                last: clock,
                ..entry
            },
        );
        Some(entry)
    }

    /// Looks a flow up: its entry is the answer and is in front from now on, last touched when it was. Where there is none
    /// nothing changes.
    fn look(&mut self, flow: &Flow) -> Option<Entry>
        ensures found { result ≡ last_touch flow.now (entries self.old) }
        ensures moved { entries self.new ≡ looked flow.now (entries self.old) }
        ensures key { hashes_by self.new ≡ hashes_by self.old }
        ensures capacity { capacity self.new ≡ capacity self.old }
    {
        let entry = self.peek(flow)?;
        self.touch(flow, entry.last)
    }

    /// Looks a flow up once. Where `keeps` holds of its entry, that is touched at this clock. Otherwise, and where there is none,
    /// the entry that `makes` answers is stored. Memory is never refused for a flow that is there, and where it is refused
    /// nothing changes.
    fn renew<K: FnOnce(&Entry) -> bool, M: FnOnce() -> Entry>(
        &mut self,
        flow: Flow,
        clock: u64,
        keeps: K,
        makes: M,
    ) -> Renewed
        requires keeps { K.IsAlwaysCallable keeps }
        requires makes { M.pre makes }
        ensures renewed { IsRenewed (FnOnceReturnsAt K.FnOnce keeps) (M.post makes) (capacity self.old) clock flow result (entries self.old)
            (entries self.new) }
        ensures key { hashes_by self.new ≡ hashes_by self.old }
        ensures capacity { capacity self.new ≡ capacity self.old }
    {
        if let Some(entry) = self.peek(&flow) {
            if keeps(&entry) {
                let _ = self.touch(&flow, clock);
                return Renewed::Kept(entry);
            }
        }
        let entry = makes();
        let lent = &entry;
        let stored = self.store(flow, *lent).is_ok();
        Renewed::Made { entry, stored }
    }

    /// Empties it.
    fn clear(&mut self)
        ensures empty { entries self.new ≡ [] }
        ensures key { hashes_by self.new ≡ hashes_by self.old }
        ensures capacity { capacity self.new ≡ capacity self.old };

    /// How many entries there are.
    fn len(&self) -> usize
        ensures { result ≡ length (entries self.now) };
}
