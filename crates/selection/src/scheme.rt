//! What a scheme is.
ghost use Rattle.std.specs.Prelude.{◌≡◌, ◌↔◌, Bool, true, ℕ, [], length, Option, Some, None, IfOk, IfErr, Contains};
ghost use Rattle.five_tuple.specs.declared.Flow.{Flow};
ghost use Rattle.pool_versions.specs.declared.backend.Backend.{Backend};
ghost use Rattle.selection.specs.Candidates.{Candidates, WhoeverDrains};
ghost use Rattle.selection.specs.Shared.{IsLike};
ghost use Rattle.selection.specs.Faults.{IsPrepareFault};

use backend_names::{TableSize, Weight};
use five_tuple::Flow;
use pool_versions::Backend;
use std::alloc::{AllocError, Global};
use thiserror::Error;

/// Why nothing was prepared.
#[derive(Clone, Copy, Debug, PartialEq, Eq, Drop, Error)]
pub enum PrepareFault {
    /// There are more backends than slots.
    #[error("more backends than the table has slots")]
    TooMany,
    /// Memory was refused.
    #[error("out of memory")]
    Memory,
}

impl From<AllocError> for PrepareFault {
    ghost use Rattle.selection.specs.declared.scheme.PrepareFault.TheVariants.{Memory};

    ghost from_gives = { λ _ e. e ≡ Memory };

    fn from(_: AllocError) -> PrepareFault {
        PrepareFault::Memory
    }
}

/// A way to choose a backend for a flow.
///
/// A choice is a function, `pick`, of the up backends with their weights, the table's size, the flow and the turn. It is one of
/// those backends, and None exactly where there is none. Who drains beside them isn't asked: what was prepared is right
/// whoever does. Schemes that are equal by `==` have one pick. So two balancers with equal schemes choose alike under one
/// version, whatever they served before; and what one of them prepared serves the other.
pub trait Scheme: Copy + Eq {
    ghost STEADY: { Bool };

    /// Whether the turn doesn't matter.
    const STEADY: bool;

    /// What is made of a list of backends before flows come.
    type Prepared: Drop;

    ghost pick: { Self → ℕ → Candidates → Flow → ℕ → Option Backend };

    ghost is_prepared: { Self → ℕ → Candidates → Self.Prepared → Type 0 };

    /// Prepares a list of backends that are up, each with its weight. TooMany is answered only where there are more backends
    /// than slots.
    fn prepare(
        &self,
        alloc: Global,
        size: TableSize,
        ups: &[Backend],
        weights: &[Weight],
    ) -> Result<Self::Prepared, PrepareFault>
        requires { length weights.now ≡ length ups.now }
        ensures ok { IfOk result (λ p. WhoeverDrains (λ c. is_prepared self.now size c p) ups.now weights.now) }
        ensures err { IfErr result (IsPrepareFault size ups.now) };

    /// The same, where something was prepared before of backends of the same names and weights, at other addresses. A scheme
    /// that looks at names alone can share it.
    fn prepare_like(
        &self,
        alloc: Global,
        size: TableSize,
        ups: &[Backend],
        weights: &[Weight],
        like: &Self::Prepared,
    ) -> Result<Self::Prepared, PrepareFault>
        requires weighed { length weights.now ≡ length ups.now }
        requires like { IsLike (λ c. is_prepared self.now size c like.now) ups.now weights.now }
        ensures ok { IfOk result (λ p. WhoeverDrains (λ c. is_prepared self.now size c p) ups.now weights.now) }
        ensures err { IfErr result (IsPrepareFault size ups.now) }
    {
        let _ = like;
        self.prepare(alloc, size, ups, weights)
    }

    /// The backend of a flow at a turn, of what this scheme prepared.
    fn choose(&self, prepared: &Self::Prepared, flow: &Flow, turn: u64) -> Option<Backend>
        requires { (size : ℕ) × (ups : Candidates) × is_prepared self.now size ups prepared.now }
        ensures { (size : ℕ) (ups : Candidates) → is_prepared self.now size ups prepared.now → result ≡ pick self.now size ups flow.now turn };

    ghost pick_is_up: { (s : Self) (size : ℕ) (ups : Candidates) (x : Flow) (turn : ℕ) (b : Backend) → pick s size ups x turn ≡ Some b →
        Contains ups.backends b };

    ghost pick_is_none: { (s : Self) (size : ℕ) (ups : Candidates) (x : Flow) (turn : ℕ) → pick s size ups x turn ≡ None ↔ ups.backends ≡ [] };

    ghost pick_is_steady: { STEADY ≡ true → (s : Self) (size : ℕ) (ups : Candidates) (x : Flow) (t u : ℕ) → pick s size ups x t ≡ pick s size ups x u };

    ghost prepared_respects_eq: { (a b : Self) → Self.eq a b ≡ true → (size : ℕ) (ups : Candidates) (p : Self.Prepared) → is_prepared a size ups p →
        is_prepared b size ups p };

    ghost pick_respects_eq: { (a b : Self) → Self.eq a b ≡ true → (size : ℕ) (ups : Candidates) (x : Flow) (turn : ℕ) →
        pick a size ups x turn ≡ pick b size ups x turn };
}
