//! Backends in turn.
ghost use Rattle.std.specs.Prelude.{◌≡◌, false, refl};
ghost use Rattle.selection.specs.Picks.{pick_at};
ghost use Rattle.selection.specs.PickLaws.{pick_at_is_up, pick_at_is_none};
ghost use Rattle.std.proofs.Common.{rules};

use crate::plain::backend_at;
use crate::scheme::{PrepareFault, Scheme};
use backend_names::{TableSize, Weight};
use five_tuple::Flow;
use pool_versions::Backend;
use std::alloc::Global;

/// The backends in turn, whatever the flow. Two balancers send one flow to different backends.
#[derive(Clone, Copy, Debug, PartialEq, Eq)]
pub struct RoundRobin;

impl Scheme for RoundRobin {
    ghost STEADY = { false };

    const STEADY: bool = false;

    type Prepared = Vec<Backend>;

    ghost pick = { λ s size ups x turn. pick_at ups.backends turn };

    ghost is_prepared = { λ s size ups p. p.items ≡ ups.backends };

    fn prepare(
        &self,
        alloc: Global,
        size: TableSize,
        ups: &[Backend],
        weights: &[Weight],
    ) -> Result<Vec<Backend>, PrepareFault> {
        let _ = size;
        let _ = weights;
        Ok(Vec::from_slice(alloc, ups)?)
    }

    fn choose(&self, prepared: &Vec<Backend>, flow: &Flow, turn: u64) -> Option<Backend> {
        let _ = flow;
        backend_at(prepared.as_slice(), turn)
    }

    ghost pick_is_up = { λ s size ups x turn. pick_at_is_up ups.backends turn };

    ghost pick_is_none = { λ s size ups x turn. pick_at_is_none ups.backends turn };

    ghost pick_is_steady = { λ h. Prim.search rules };

    ghost prepared_respects_eq = { λ a b e size ups p h. h };

    ghost pick_respects_eq = { λ a b e size ups x turn. refl };
}
