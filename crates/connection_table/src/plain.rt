//! A table that keeps its entries in a vector.
ghost use Rattle.std.specs.Prelude.{◌≡◌, ◌≤◌, ◌<◌, position, OnOk, OnErr, IsOk, IsSome, None, vec_len, vec_capacity};
ghost use Rattle.connection_table.specs.Touches.{same_flow, last_touch};
ghost use Rattle.connection_table.specs.Recency.{Recency, stored};

use crate::table::{ConnTable, Entry};
use five_tuple::Flow;
use std::alloc::{AllocError, Global};
use std::marker::Model;

/// A table that keeps its entries in a vector, the most recently used first, and searches it from the front.
#[derive(Debug, Drop)]
pub struct PlainTable {
    limit: u32,
    pairs: Vec<(Flow, Entry)>,
}

impl Model for PlainTable {
    ghost use Rattle.std.specs.Prelude.{◌≤◌, ◌<◌, vec_len, vec_capacity};
    ghost use Rattle.connection_table.specs.Recency.{Recency};

    ghost Value = { Recency };

    ghost view = { λ t. record { limit = t.limit; pairs = t.pairs.items } };

    ghost invariant = { λ t. (0 < t.limit) × (vec_len t.pairs ≤ t.limit) × (vec_len t.pairs ≤ vec_capacity t.pairs) };
}

// The flow's first place.
fn place_of(pairs: &[(Flow, Entry)], flow: &Flow) -> Option<usize>
    ensures { result ≡ position (λ t. same_flow t.0 flow.now) pairs.now }
{
    pairs.iter().position(|pair| pair.0 == *flow)
}

// The flow's entry.
fn entry_of(pairs: &[(Flow, Entry)], flow: &Flow) -> Option<Entry>
    ensures { result ≡ last_touch flow.now pairs.now }
{
    match place_of(pairs, flow) {
        Some(at) => Some(pairs[at].1),
        None => None,
    }
}

// Puts the flow's pair in front.
fn put(
    pairs: &mut Vec<(Flow, Entry)>,
    limit: usize,
    flow: Flow,
    entry: Entry,
) -> Result<(), AllocError>
    requires limit { 0 < limit }
    requires fits { vec_len pairs.old ≤ limit }
    requires room { vec_len pairs.old ≤ vec_capacity pairs.old }
    ensures ok { OnOk result (pairs.new.items ≡ stored limit flow entry pairs.old.items) }
    ensures err { OnErr result (pairs.new.items ≡ pairs.old.items) }
    ensures there { IsSome (last_touch flow pairs.old.items) → IsOk result }
    ensures fits { vec_len pairs.new ≤ limit }
    ensures room { vec_len pairs.new ≤ vec_capacity pairs.new }
{
    match place_of(pairs, &flow) {
        Some(i) => {
            let _ = pairs.remove(i);
            let _ = pairs.insert(0, (flow, entry));
            Ok(())
        }
        None => {
            if pairs.len() == limit {
                let _ = pairs.pop();
                let _ = pairs.insert(0, (flow, entry));
                Ok(())
            } else {
                pairs.reserve(1)?;
                let _ = pairs.insert(0, (flow, entry));
                Ok(())
            }
        }
    }
}

impl ConnTable for PlainTable {
    ghost capacity = { λ t. t.limit };

    ghost entries = { λ t. t.pairs };

    ghost hashes_by = { λ _. None };

    fn make(alloc: Global, limit: u32) -> Result<Self, AllocError> {
        Ok(PlainTable {
            limit,
            pairs: Vec::new(alloc),
        })
    }

    fn peek(&self, flow: &Flow) -> Option<Entry> {
        entry_of(&self.pairs, flow)
    }

    fn store(&mut self, flow: Flow, entry: Entry) -> Result<(), AllocError> {
        put(&mut self.pairs, self.limit as usize, flow, entry)
    }

    fn clear(&mut self) {
        self.pairs.clear();
    }

    fn len(&self) -> usize {
        self.pairs.len()
    }
}
