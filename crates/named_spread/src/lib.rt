//! The spreader that a scenario names.
#![tactic(auto)]

ghost use Rattle.std.specs.Prelude.{◌≡◌, IfOk};
ghost use Rattle.hash_laws.specs.Any.{plain_of};
ghost use Rattle.event_trace.specs.Steps.{below};
ghost use Rattle.named_spread.specs.Choosing.{choice_by, choice_of, live_of};

use event_trace::all_live;
use five_tuple::Flow;
use hash_laws::AnyHash;
use scenario_keys::SpreadKind;
use spreader::{HashSpread, Spread, TurnSpread};
use std::alloc::{AllocError, Global};

/// One of the spreaders that a scenario can name.
#[derive(Debug, Drop)]
pub enum NamedSpread {
    /// By the flows' hash.
    Hash(HashSpread<AnyHash>),
    /// In turn.
    Turn(TurnSpread),
}

impl Spread for NamedSpread {
    ghost use Rattle.named_spread.specs.Choosing.{choice_of, live_of};
    ghost use Rattle.named_spread.specs.Laws.{choice_is_live, choice_where_live, choice_of_none};

    ghost live = { λ s. live_of s };

    ghost choice = { λ s. choice_of s };

    ghost choice_is_live = { λ s. choice_is_live s };

    ghost choice_where_live = { λ s. choice_where_live s };

    ghost choice_of_none = { λ s. choice_of_none s };

    fn set_live(&mut self, nodes: Vec<u16>) {
        match self {
            NamedSpread::Hash(spread) => spread.set_live(nodes),
            NamedSpread::Turn(spread) => spread.set_live(nodes),
        }
    }

    #[inline(always)]
    fn node(&self, flow: Option<&Flow>, nth: u64) -> Option<u16> {
        match self {
            NamedSpread::Hash(spread) => spread.node(flow, nth),
            NamedSpread::Turn(spread) => spread.node(flow, nth),
        }
    }
}

/// The spreader of a name over so many nodes, which are all live. It hashes by the scenario's hash.
pub fn spread_of(
    alloc: Global,
    kind: SpreadKind,
    hash: AnyHash,
    nodes: u16,
) -> Result<NamedSpread, AllocError>
    ensures live { IfOk result (λ s. live_of s ≡ below nodes) }
    ensures choice { IfOk result (λ s. choice_of s ≡ choice_by kind (plain_of hash)) }
{
    let live = all_live(alloc, nodes)?;
    Ok(match kind {
        SpreadKind::Hash => NamedSpread::Hash(HashSpread::new(hash, live)),
        SpreadKind::Turn => NamedSpread::Turn(TurnSpread::new(live)),
    })
}
