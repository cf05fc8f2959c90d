//! The plain hash of a flow.
ghost use Rattle.std.specs.Prelude.{◌≡◌, true, refl};
ghost use Rattle.selection.specs.Picks.{pick_at, flow_hash};
ghost use Rattle.selection.specs.PickLaws.{pick_at_is_up, pick_at_is_none, plain_pick_respects};

use crate::scheme::{PrepareFault, Scheme};
use backend_names::{TableSize, Weight};
use five_tuple::Flow;
use hash_laws::{FlowHash, remainder};
use pool_versions::Backend;
use std::alloc::Global;

/// A flow's hash modulo the number of backends. A change of the pool moves most flows.
#[derive(Clone, Copy, Debug, PartialEq, Eq)]
pub struct PlainHash<H: FlowHash> {
    pub hash: H,
}

/// The backend at a number, taken modulo the length.
pub(crate) fn backend_at(ups: &[Backend], number: u64) -> Option<Backend>
    ensures { result ≡ pick_at ups.now number }
{
    if ups.is_empty() {
        return None;
    }
    Some(ups[remainder(number, ups.len() as u64) as usize])
}

impl<H: FlowHash> Scheme for PlainHash<H> {
    ghost STEADY = { true };

    const STEADY: bool = true;

    type Prepared = Vec<Backend>;

    ghost pick = { λ s size ups x turn. pick_at ups.backends (flow_hash (H.plain s.hash) x) };

    ghost is_prepared = { λ s size ups p. p.items ≡ ups.backends };

    fn prepare(
        &self,
        alloc: Global,
        size: TableSize,
        ups: &[Backend],
        weights: &[Weight],
    ) -> Result<Vec<Backend>, PrepareFault> {
        let _ = size;
        let _ = weights;
        Ok(Vec::from_slice(alloc, ups)?)
    }

    fn choose(&self, prepared: &Vec<Backend>, flow: &Flow, turn: u64) -> Option<Backend> {
        let _ = turn;
        backend_at(prepared.as_slice(), self.hash.hash(b'f', &flow.bytes()))
    }

    ghost pick_is_up = { λ s size ups x turn. pick_at_is_up ups.backends (flow_hash (H.plain s.hash) x) };

    ghost pick_is_none = { λ s size ups x turn. pick_at_is_none ups.backends (flow_hash (H.plain s.hash) x) };

    ghost pick_is_steady = { λ _ s size ups x t u. refl };

    ghost prepared_respects_eq = { λ a b e size ups p h. h };

    ghost pick_respects_eq = { λ a b e size ups x turn. plain_pick_respects (H.plain a.hash) (H.plain b.hash)
        (H.equal_values_hash_alike a.hash b.hash e) ups.backends x };
}
