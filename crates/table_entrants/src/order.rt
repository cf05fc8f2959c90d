//! Names in ascending order.
ghost use Rattle.std.specs.Prelude.{◌≡◌, ◌≢◌, ◌<◌, [], ℕ, length, suc, slice_index_or, IfOk, IfErr, OnOk, true, false};
ghost use Rattle.std.specs.Cmp.Lexicographic.{slice_cmp};
ghost use Rattle.std.specs.Ordering.{nat_cmp};
ghost use Rattle.std.specs.declared.cmp.Ordering.TheVariants.{Less};
ghost use Rattle.table_entrants.specs.Ranking.{names_of, AreDistinct, IsRanked};

use crate::entrant::{Entrant, OrderFault};
use std::cmp::Ordering;

fn ascends(entrants: &[Entrant]) -> bool
    ensures ascending { result ≡ true → (i : ℕ) → suc i < length entrants.now →
        slice_cmp nat_cmp (slice_index_or (names_of entrants.now) i []) (slice_index_or (names_of entrants.now) (suc i) []) ≡ Less }
    ensures not { result ≡ false → (i : ℕ) × (suc i < length entrants.now)
        × (slice_cmp nat_cmp (slice_index_or (names_of entrants.now) i []) (slice_index_or (names_of entrants.now) (suc i) []) ≢ Less) }
{
    for place in 1..entrants.len() {
        if entrants[place - 1].name.cmp(&entrants[place].name) != Ordering::Less {
            return false;
        }
    }
    true
}

/// The same names with their weights and places, in ascending order of bytes. DoubleName comes exactly where a name is there
/// twice, if no memory is refused.
pub fn in_order(given: Vec<Entrant>) -> Result<Vec<Entrant>, OrderFault>
    ensures ranked { IfOk result (λ v. IsRanked given.items v.items) }
    ensures distinct { OnOk result (AreDistinct (names_of given.items)) }
    ensures double { IfErr result (λ fault. fault ≡ OrderFault.DoubleName → AreDistinct (names_of given.items) → ⊥) }
{
    let mut entrants = given;
    entrants.sort_by(|one, other| one.name.cmp(&other.name))?;
    if !ascends(entrants.as_slice()) {
        return Err(OrderFault::DoubleName);
    }
    Ok(entrants)
}
