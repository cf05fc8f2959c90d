//! A scheme of one's own: the first of the up backends, by the trait alone.
#![tactic(auto)]

ghost use Rattle.std.specs.Prelude.{◌≡◌, true, slice_get, refl};
ghost use Rattle.example_scheme.specs.FirstLaws.{first_is_up, first_is_none};

use backend_names::{TableSize, Weight};
use five_tuple::Flow;
use pool_versions::Backend;
use selection::{PrepareFault, Scheme};
use std::alloc::Global;

/// The first of the up backends, whatever the flow.
#[derive(Clone, Copy, Debug, PartialEq, Eq)]
pub struct First;

impl Scheme for First {
    ghost STEADY = { true };

    const STEADY: bool = true;

    type Prepared = Option<Backend>;

    ghost pick = { λ s size ups x turn. slice_get ups.backends 0 };

    ghost is_prepared = { λ s size ups p. p ≡ slice_get ups.backends 0 };

    fn prepare(
        &self,
        alloc: Global,
        size: TableSize,
        ups: &[Backend],
        weights: &[Weight],
    ) -> Result<Option<Backend>, PrepareFault> {
        let _ = alloc;
        let _ = size;
        let _ = weights;
        Ok(ups.first().copied())
    }

    fn choose(&self, prepared: &Option<Backend>, flow: &Flow, turn: u64) -> Option<Backend> {
        let _ = flow;
        let _ = turn;
        *prepared
    }

    ghost pick_is_up = { λ s size ups x turn b h. first_is_up ups.backends b h };

    ghost pick_is_none = { λ s size ups x turn. first_is_none ups.backends };

    ghost pick_is_steady = { λ h s size ups x t u. refl };

    ghost prepared_respects_eq = { λ a b e size ups p h. h };

    ghost pick_respects_eq = { λ a b e size ups x turn. refl };
}

#[cfg(test)]
mod tests;
