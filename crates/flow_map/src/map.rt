//! A map of flows whose pairs stand at places.
ghost use Rattle.std.specs.Prelude.{◌≡◌, ◌<◌, ◌≤◌, ◌-◌, [], true, false, length, slice_get, MatchOption, OnOk, OnErr, None};
ghost use Rattle.flow_map.specs.Maps.{value_of, valued, StandsAt, StandsWith};
ghost use Rattle.flow_map.specs.PrivateMaps.{is_of};

use block_list::Blocks;
use connection_table::TableKey;
use five_tuple::Flow;
use place_buckets::Buckets;
use std::alloc::{AllocError, Global};
use std::fmt;
use std::marker::Model;

/// How many flows a map has at most, so that places are words of 32 bits.
const MOST: usize = 0xFFFF_FFFE;

/// A value for each of its flows. A flow stands at a place, from 1 on in the order in which the flows came. There are at most
/// 4,294,967,294 of them; one more is refused, as memory is.
#[derive(Drop)]
pub struct FlowMap<V> {
    key: TableKey,
    // The places by their flows' hashes.
    buckets: Buckets,
    // The pair of place 1 is in front.
    pairs: Blocks<(Flow, V)>,
}

impl<V> Model for FlowMap<V> {
    ghost use Rattle.std.specs.Prelude.{List};
    ghost use Rattle.five_tuple.specs.declared.Flow.{Flow};
    ghost use Rattle.flow_map.specs.PrivateMaps.{AreTied};

    // the flows with their values, that of place 1 in front
    ghost Value = { List (Flow × V) };

    ghost view = { λ m. m.pairs.items };

    ghost invariant = { λ m. AreTied m.key m.buckets m.pairs.items };
}

impl<V> fmt::Debug for FlowMap<V> {
    fn fmt<W: fmt::Write>(&self, f: &mut fmt::Formatter<W>) -> fmt::Result {
        f.debug_struct("FlowMap")
            .field("len", &self.len())
            .finish_non_exhaustive()
    }
}

// Whether the pair at a place is the flow's. There may be none.
#[inline(always)]
fn is_at<V>(pairs: &Blocks<(Flow, V)>, place: u32, flow: &Flow) -> bool
    requires { 0 < place }
    ensures { result ≡ is_of flow.now (slice_get pairs.now.items (place - 1)) }
{
    match pairs.get(place as usize - 1) {
        Some(pair) => pair.0 == *flow,
        None => false,
    }
}

impl<V> FlowMap<V> {
    /// No flows. They are hashed by the key. This takes no memory.
    pub fn new(alloc: Global, key: TableKey) -> FlowMap<V>
        ensures { result ≡ [] }
    {
        FlowMap {
            key,
            buckets: Buckets::new(alloc),
            pairs: Blocks::new(alloc),
        }
    }

    /// How many flows there are.
    pub fn len(&self) -> usize
        ensures { result ≡ length self.now }
    {
        self.pairs.len()
    }

    /// The place of a flow.
    #[inline(always)]
    pub fn place_of(&self, flow: &Flow) -> Option<u32>
        ensures { MatchOption result (value_of flow.now self.now ≡ None) (λ p. StandsAt flow.now self.now p) }
    {
        let pairs = &self.pairs;
        let is_its = |place: u32|
            requires { 0 < place }
            ensures { result ≡ is_of flow.entry.now (slice_get pairs.entry.now.items (place - 1)) }
        { is_at(pairs, place, flow) };
        self.buckets.find(self.key.hash_of(flow), is_its)
    }

    /// A place where a flow of this hash may stand, told by its bucket alone: no flow is read. It is 0 where there is none. Flows
    /// are hashed by the map's key.
    #[inline(always)]
    pub fn guess(&self, hash: u32) -> u32
        ensures { result ≤ length self.now }
    {
        let is_any = |place: u32|
            ensures { result ≡ true }
        {
            let _ = place;
            true
        };
        self.buckets.find(hash, is_any).unwrap_or(0)
    }

    /// Whether a flow stands at a place, which may be any number.
    #[inline(always)]
    pub fn is_at(&self, place: u32, flow: &Flow) -> bool
        ensures there { result ≡ true → StandsAt flow.now self.now place }
        ensures elsewhere { result ≡ false → StandsAt flow.now self.now place → ⊥ }
    {
        place != 0 && is_at(&self.pairs, place, flow)
    }

    /// The place of a flow, where one is guessed. What is guessed decides nothing but the time that this takes.
    #[inline(always)]
    pub fn place_by(&self, guess: u32, flow: &Flow) -> Option<u32>
        ensures { MatchOption result (value_of flow.now self.now ≡ None) (λ p. StandsAt flow.now self.now p) }
    {
        if self.is_at(guess, flow) {
            return Some(guess);
        }
        self.place_of(flow)
    }

    /// The value of a flow that stands at this place.
    #[inline(always)]
    pub fn value_at(&self, place: u32, flow: &Flow) -> &V
        requires { StandsAt flow.now self.now place }
        ensures { StandsWith flow.now self.now place result.now }
    {
        let _ = flow;
        &self.pairs[place as usize - 1].1
    }
}

impl<V: Drop> FlowMap<V> {
    /// Another value of a flow that stands at this place. This takes no memory.
    #[inline(always)]
    pub fn set(&mut self, place: u32, flow: Flow, value: V)
        requires { StandsAt flow self.old place }
        ensures { self.new ≡ valued flow value self.old }
    {
        self.pairs[place as usize - 1] = (flow, value);
    }

    /// A flow that isn't there, with its value.
    pub fn push(&mut self, flow: Flow, value: V) -> Result<(), AllocError>
        requires { value_of flow self.old ≡ None }
        ensures ok { OnOk result (self.new ≡ valued flow value self.old) }
        ensures err { OnErr result (self.new ≡ self.old) }
    {
        if self.pairs.len() >= MOST {
            return Err(AllocError);
        }
        self.pairs.reserve()?;
        self.buckets.add(self.key.hash_of(&flow))?;
        self.pairs.push_reserved((flow, value));
        Ok(())
    }
}
