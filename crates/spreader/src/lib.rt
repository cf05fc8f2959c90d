//! Spreaders: which node of a cluster a packet goes to.
//!
//! A spreader is in front of the nodes, as a router that spreads packets over equal paths is. It may change its mind at any
//! packet, since the live nodes change: nothing that the cluster promises rests on its choices.
#![tactic(auto)]

ghost use Rattle.std.specs.Prelude.{◌≡◌, ◌<◌, ℕ, List, Option, refl};
ghost use Rattle.std.specs.Option.{option_copied};
ghost use Rattle.five_tuple.specs.declared.Flow.{Flow};
ghost use Rattle.spreader.specs.Choices.{Choice, ChoosesLive, ChoosesWhereLive, ChoosesNoneOfNone, node_at, node_by_turn, node_by_hash};
ghost use Rattle.spreader.specs.Laws.{by_turn_live, by_turn_some, by_hash_live, by_hash_some, by_hash_none};

use five_tuple::Flow;
use hash_laws::{FlowHash, remainder};
use std::marker::Model;

/// Chooses a node for each packet, from a list of live nodes.
///
/// An answer is a live node, and there is one exactly where a node is live.
pub trait Spread: Drop {
    /// The live nodes.
    ghost live: { Self → List ℕ };

    /// What it chooses from live nodes, for a packet and a count of packets. It doesn't change with them, so that what a
    /// scenario's steps deliver is a function of the steps and the records alone.
    ghost choice: { Self → Choice };

    /// Takes these as the live nodes, in this order, from now on.
    fn set_live(&mut self, nodes: Vec<u16>)
        ensures live { live self.new ≡ nodes.items }
        ensures choice { (nodes : List ℕ) (flow : Option Flow) (nth : ℕ) →
            choice self.new nodes flow nth ≡ choice self.old nodes flow nth };

    /// The node of a packet, which may have no flow, where `nth` packets were handed to the spreader before it.
    fn node(&self, flow: Option<&Flow>, nth: u64) -> Option<u16>
        ensures { result ≡ choice self.now (live self.now) (option_copied flow.entry) nth };

    ghost choice_is_live: { (s : Self) → ChoosesLive (choice s) };

    ghost choice_where_live: { (s : Self) → ChoosesWhereLive (choice s) };

    ghost choice_of_none: { (s : Self) → ChoosesNoneOfNone (choice s) };
}

fn node_at(live: &[u16], number: u64) -> Option<u16>
    ensures { result ≡ node_at live.now number }
{
    if live.is_empty() {
        return None;
    }
    live.get(remainder(number, live.len() as u64) as usize)
        .copied()
}

/// Spreads packets in turn over the live nodes.
#[derive(Debug, Drop)]
pub struct TurnSpread {
    live: Vec<u16>,
}

impl Model for TurnSpread {
    ghost use Rattle.std.specs.Prelude.{List, ℕ};

    ghost Value = { List ℕ };

    ghost view = { λ s. s.live.items };
}

impl TurnSpread {
    /// A spreader over these live nodes, in this order.
    pub fn new(live: Vec<u16>) -> Self
        ensures { result ≡ live.items }
    {
        TurnSpread { live }
    }
}

impl Spread for TurnSpread {
    ghost live = { λ s. s };

    ghost choice = { λ s. node_by_turn };

    ghost choice_is_live = { λ s. by_turn_live };

    ghost choice_where_live = { λ s. by_turn_some };

    ghost choice_of_none = { λ s flow nth. refl };

    fn set_live(&mut self, nodes: Vec<u16>) {
        self.live = nodes;
    }

    fn node(&self, _flow: Option<&Flow>, nth: u64) -> Option<u16> {
        node_at(self.live.as_slice(), nth)
    }
}

/// Spreads flows by their hash over the live nodes. A packet without a flow goes by turn.
#[derive(Debug, Drop)]
pub struct HashSpread<H: FlowHash> {
    hash: H,
    live: Vec<u16>,
}

impl<H: FlowHash> Model for HashSpread<H> {
    ghost use Rattle.spreader.specs.Choices.{HashSpreading};

    ghost Value = { HashSpreading H };

    ghost view = { λ s. record { hash = s.hash; live = s.live.items } };
}

impl<H: FlowHash> HashSpread<H> {
    /// A spreader by this hash over these live nodes, in this order.
    pub fn new(hash: H, live: Vec<u16>) -> Self
        ensures { result ≡ record { hash = hash; live = live.items } }
    {
        HashSpread { hash, live }
    }
}

impl<H: FlowHash> Spread for HashSpread<H> {
    ghost live = { λ s. s.live };

    ghost choice = { λ s. node_by_hash (H.plain s.hash) };

    ghost choice_is_live = { λ s. by_hash_live (H.plain s.hash) };

    ghost choice_where_live = { λ s. by_hash_some (H.plain s.hash) };

    ghost choice_of_none = { λ s. by_hash_none (H.plain s.hash) };

    fn set_live(&mut self, live: Vec<u16>) {
        self.live = live;
    }

    fn node(&self, flow: Option<&Flow>, nth: u64) -> Option<u16> {
        match flow {
            // A node that is live alone gets every flow, whatever its hash.
            Some(_) if self.live.len() < 2 => node_at(self.live.as_slice(), 0),
            Some(flow) => node_at(self.live.as_slice(), self.hash.hash(b'e', &flow.bytes())),
            None => node_at(self.live.as_slice(), nth),
        }
    }
}
