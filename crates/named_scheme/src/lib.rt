//! The scheme that a scenario names.
#![tactic(auto)]

ghost use Rattle.std.specs.Prelude.{◌≡◌};
ghost use Rattle.hash_laws.specs.Any.{plain_of};
ghost use Rattle.named_scheme.specs.Picking.{pick_by, pick_of};

use backend_names::{TableSize, Weight};
use five_tuple::Flow;
use hash_laws::AnyHash;
use pool_versions::Backend;
use scenario_keys::SchemeKind;
use selection::{Maglev, MaglevTable, PlainHash, PrepareFault, RoundRobin, Scheme};
use std::alloc::Global;

/// One of the schemes that a scenario can name.
#[derive(Clone, Copy, Debug, PartialEq, Eq)]
pub enum NamedScheme {
    /// Maglev's tables.
    Maglev(Maglev<AnyHash>),
    /// By the flow's hash alone.
    Plain(PlainHash<AnyHash>),
    /// In turn.
    Round(RoundRobin),
}

/// What one of them prepared.
#[derive(Debug, Drop)]
pub enum NamedChoices {
    /// A table of slots, for Maglev.
    Table(MaglevTable),
    /// The backends in their order, for the others.
    Backends(Vec<Backend>),
}

impl Scheme for NamedScheme {
    ghost use Rattle.std.specs.Prelude.{false};
    ghost use Rattle.std.proofs.Common.{rules};
    ghost use Rattle.named_scheme.specs.Picking.{pick_of, IsPreparedBy};
    ghost use Rattle.named_scheme.specs.Laws.{pick_is_up, pick_is_none};

    ghost STEADY = { false };

    const STEADY: bool = false;

    type Prepared = NamedChoices;

    ghost pick = { λ s. pick_of s };

    ghost is_prepared = { λ s. IsPreparedBy s };

    fn prepare(
        &self,
        alloc: Global,
        size: TableSize,
        ups: &[Backend],
        weights: &[Weight],
    ) -> Result<NamedChoices, PrepareFault> {
        match self {
            NamedScheme::Maglev(scheme) => {
                let table = scheme.prepare(alloc, size, ups, weights)?;
                Ok(NamedChoices::Table(table))
            }
            NamedScheme::Plain(scheme) => {
                let backends = scheme.prepare(alloc, size, ups, weights)?;
                Ok(NamedChoices::Backends(backends))
            }
            NamedScheme::Round(scheme) => {
                let backends = scheme.prepare(alloc, size, ups, weights)?;
                Ok(NamedChoices::Backends(backends))
            }
        }
    }

    fn prepare_like(
        &self,
        alloc: Global,
        size: TableSize,
        ups: &[Backend],
        weights: &[Weight],
        like: &NamedChoices,
    ) -> Result<NamedChoices, PrepareFault> {
        if let (NamedScheme::Maglev(scheme), NamedChoices::Table(like)) = (self, like) {
            let table = scheme.prepare_like(alloc, size, ups, weights, like)?;
            return Ok(NamedChoices::Table(table));
        }
        self.prepare(alloc, size, ups, weights)
    }

    #[inline]
    fn choose(&self, prepared: &NamedChoices, flow: &Flow, turn: u64) -> Option<Backend> {
        match (self, prepared) {
            (NamedScheme::Maglev(scheme), NamedChoices::Table(table)) => {
                scheme.choose(table, flow, turn)
            }
            (NamedScheme::Plain(scheme), NamedChoices::Backends(backends)) => {
                scheme.choose(backends, flow, turn)
            }
            (NamedScheme::Round(scheme), NamedChoices::Backends(backends)) => {
                scheme.choose(backends, flow, turn)
            }
            _ => unreachable!(),
        }
    }

    ghost pick_is_up = { λ s. pick_is_up s };

    ghost pick_is_none = { λ s. pick_is_none s };

    ghost pick_is_steady = { λ h. Prim.search rules };

    ghost prepared_respects_eq = { Prim.search rules };

    ghost pick_respects_eq = { Prim.search rules };
}

/// The scheme of a name. It hashes by the scenario's hash.
pub fn scheme_of(kind: SchemeKind, hash: AnyHash) -> NamedScheme
    ensures { pick_of result ≡ pick_by kind (plain_of hash) }
{
    match kind {
        SchemeKind::Maglev => NamedScheme::Maglev(Maglev { hash }),
        SchemeKind::Plain => NamedScheme::Plain(PlainHash { hash }),
        SchemeKind::Round => NamedScheme::Round(RoundRobin),
    }
}
