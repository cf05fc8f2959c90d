//! Flows with their entries, in the order of their last use.
ghost use Rattle.std.specs.Prelude.{◌≡◌, ◌<◌, ◌≤◌, ◌+◌, ◌-◌, ◌∷◌, [], length, take, IsOk, OnOk, OnErr, MatchOption, None, slice_get, slice_index};
ghost use Rattle.connection_table.specs.Picked.{pair_at};
ghost use Rattle.connection_table.specs.Recency.{retouched};
ghost use Rattle.connection_table.specs.Tied.{AreTied, IsPlaceOf, flow_hash, is_of, touches_of};
ghost use Rattle.connection_table.specs.Touches.{last_touch, without};

use crate::key::TableKey;
use crate::table::Entry;
use block_list::Blocks;
use five_tuple::Flow;
use place_buckets::Buckets;
use recent_order::RecentOrder;
use std::alloc::{AllocError, Global};

/// Flows with their entries. Each pair has a place, from 1 on, and stays there. What orders and finds the places are numbers in
/// vectors: so a call touches few lines of the cache, and takes no memory for a pair but its place. No pair is moved as they
/// grow.
#[derive(Drop)]
pub(crate) struct Pairs {
    pub(crate) key: TableKey,
    // The places in the order of their last use.
    pub(crate) order: RecentOrder,
    // The places by their flows' hashes.
    pub(crate) buckets: Buckets,
    // The pair of place 1 is in front.
    pub(crate) pairs: Blocks<(Flow, Entry)>,
}

// Whether the pair at a place is the flow's. There may be none.
#[inline(always)]
fn is_at(pairs: &Blocks<(Flow, Entry)>, place: u32, flow: &Flow) -> bool
    requires { 0 < place }
    ensures { result ≡ is_of flow.now (slice_get pairs.now.items (place - 1)) }
{
    match pairs.get(place as usize - 1) {
        Some(pair) => pair.0 == *flow,
        None => false,
    }
}

impl Pairs {
    /// None. No memory is taken.
    pub(crate) fn new(alloc: Global, key: TableKey) -> Pairs
        ensures tied { AreTied result }
        ensures empty { touches_of result ≡ [] }
        ensures none { length result.pairs.items ≡ 0 }
        ensures key { result.key ≡ key }
    {
        Pairs {
            key,
            order: RecentOrder::new(alloc),
            buckets: Buckets::new(alloc),
            pairs: Blocks::new(alloc),
        }
    }

    /// How many there are.
    pub(crate) fn len(&self) -> usize
        ensures { result ≡ length self.now.pairs.items }
    {
        self.pairs.len()
    }

    /// The hash of a flow.
    #[inline(always)]
    pub(crate) fn hash_of(&self, flow: &Flow) -> u32
        ensures { result ≡ flow_hash self.now.key flow.now }
    {
        self.key.hash_of(flow)
    }

    /// The place of a flow's pair, by the flow's hash.
    #[inline(always)]
    pub(crate) fn place_by(&self, hash: u32, flow: &Flow) -> Option<u32>
        requires tied { AreTied self.now }
        requires hash { hash ≡ flow_hash self.now.key flow.now }
        ensures { MatchOption result (last_touch flow.now (touches_of self.now) ≡ None) (λ p. IsPlaceOf flow.now self.now p) }
    {
        self.order.are_places();
        let pairs = &self.pairs;
        let is_its = |place: u32|
            requires { 0 < place }
            ensures { result ≡ is_of flow.entry.now (slice_get pairs.entry.now.items (place - 1)) }
        { is_at(pairs, place, flow) };
        self.buckets.find(hash, is_its)
    }

    /// The place of a flow's pair.
    #[inline(always)]
    pub(crate) fn place_of(&self, flow: &Flow) -> Option<u32>
        requires { AreTied self.now }
        ensures { MatchOption result (last_touch flow.now (touches_of self.now) ≡ None) (λ p. IsPlaceOf flow.now self.now p) }
    {
        self.place_by(self.hash_of(flow), flow)
    }

    /// The entry at a place.
    #[inline(always)]
    pub(crate) fn entry_at(&self, place: u32) -> Entry
        requires some { 0 < place }
        requires within { place ≤ length self.now.pairs.items }
        ensures { result ≡ (pair_at self.now.pairs.items place).1 }
    {
        self.pairs[place as usize - 1].1
    }

    /// Touches the pair at a flow's place at a clock.
    #[inline(always)]
    pub(crate) fn retouch(&mut self, place: u32, flow: Flow, clock: u64)
        requires tied { AreTied self.old }
        requires place { IsPlaceOf flow self.old place }
        ensures tied { AreTied self.new }
        ensures touches { touches_of self.new ≡ retouched clock flow (touches_of self.old) }
        ensures many { length self.new.pairs.items ≡ length self.old.pairs.items }
        ensures key { self.new.key ≡ self.old.key }
    {
        self.order.are_places();
        self.order.promote(place);
        let pair = &mut self.pairs[place as usize - 1];
        pair.1.last = clock;
    }

    /// Writes the entry at a flow's place, which becomes the newest.
    pub(crate) fn write(&mut self, place: u32, flow: Flow, entry: Entry)
        requires tied { AreTied self.old }
        requires place { IsPlaceOf flow self.old place }
        ensures tied { AreTied self.new }
        ensures touches { touches_of self.new ≡ (flow, entry) ∷ without flow (touches_of self.old) }
        ensures many { length self.new.pairs.items ≡ length self.old.pairs.items }
        ensures key { self.new.key ≡ self.old.key }
    {
        self.order.are_places();
        self.order.promote(place);
        self.pairs[place as usize - 1] = (flow, entry);
    }

    /// Puts a pair, whose flow has this hash, in the place of the one that was used longest ago. Takes no memory.
    pub(crate) fn replace_oldest(&mut self, hash: u32, flow: Flow, entry: Entry)
        requires tied { AreTied self.old }
        requires hash { hash ≡ flow_hash self.old.key flow }
        requires some { 0 < length self.old.pairs.items }
        requires absent { last_touch flow (touches_of self.old) ≡ None }
        ensures tied { AreTied self.new }
        ensures touches { touches_of self.new ≡ (flow, entry) ∷ take (length self.old.pairs.items - 1) (touches_of self.old) }
        ensures many { length self.new.pairs.items ≡ length self.old.pairs.items }
        ensures key { self.new.key ≡ self.old.key }
    {
        self.order.are_places();
        let place = self.order.oldest();
        self.buckets.rehash(place, hash);
        self.order.promote(place);
        self.pairs[place as usize - 1] = (flow, entry);
    }

    // The hash of the place after those of the pairs. It may be there already, where memory was refused after it was written.
    fn hash_next(&mut self, hash: u32) -> Result<(), AllocError>
        requires tied { AreTied self.old }
        requires few { length self.old.pairs.items < 1000000 }
        ensures tied { AreTied self.new }
        ensures same { (self.new.key ≡ self.old.key) × (self.new.order ≡ self.old.order) × (self.new.pairs ≡ self.old.pairs) }
        ensures there { length self.old.pairs.items < length self.old.buckets → IsOk result }
        ensures next { OnOk result ((length self.new.pairs.items < length self.new.buckets)
            × (slice_index self.new.buckets (length self.new.pairs.items) ≡ hash)) }
    {
        let count = self.pairs.len();
        if self.buckets.len() > count {
            self.buckets.rehash(count as u32 + 1, hash);
            return Ok(());
        }
        self.buckets.add(hash)
    }

    /// Puts a pair, whose flow has this hash, at a place of its own. Where memory is refused the pairs are as they were.
    pub(crate) fn push(&mut self, hash: u32, flow: Flow, entry: Entry) -> Result<(), AllocError>
        requires tied { AreTied self.old }
        requires hash { hash ≡ flow_hash self.old.key flow }
        requires few { length self.old.pairs.items < 1000000 }
        requires absent { last_touch flow (touches_of self.old) ≡ None }
        ensures tied { AreTied self.new }
        ensures ok { OnOk result ((touches_of self.new ≡ (flow, entry) ∷ touches_of self.old)
            × (length self.new.pairs.items ≡ length self.old.pairs.items + 1)) }
        ensures key { self.new.key ≡ self.old.key }
        ensures err { OnErr result ((touches_of self.new ≡ touches_of self.old) × (length self.new.pairs.items ≡ length self.old.pairs.items)) }
    {
        self.order.are_places();
        self.pairs.reserve()?;
        self.hash_next(hash)?;
        self.order.add()?;
        self.pairs.push_reserved((flow, entry));
        Ok(())
    }
}
