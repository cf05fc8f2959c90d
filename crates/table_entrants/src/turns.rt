//! The table that names share.
ghost use Rattle.std.specs.Prelude.{◌≡◌, ◌<◌, ◌↔◌, [], length, All, IfOk, IsErrOf};
ghost use Rattle.table_entrants.specs.Ranking.{lists_of, weights_of, owners_of, probes_of};

use crate::entrant::Entrant;
use backend_names::{TableSize, Weight};
use hash_laws::FlowHash;
use maglev_table::{Permutation, Table, TableFault, populate};
use std::alloc::{AllocError, Global};

fn lists_of<H: FlowHash>(
    alloc: Global,
    size: TableSize,
    hash: &H,
    entrants: &[Entrant],
) -> Result<Vec<Permutation>, AllocError>
    ensures lists { IfOk result (λ v. v.items ≡ lists_of (H.plain hash.now) size entrants.now) }
    ensures sized { IfOk result (λ v. All (λ p. p.size ≡ size) v.items) }
{
    let mut lists = Vec::with_capacity(alloc, entrants.len())?;
    for entrant in entrants {
        lists.push(Permutation::of_name(hash, &entrant.name, size))?;
    }
    Ok(lists)
}

fn weights_of(alloc: Global, entrants: &[Entrant]) -> Result<Vec<Weight>, AllocError>
    ensures { IfOk result (λ v. v.items ≡ weights_of entrants.now) }
{
    let mut weights = Vec::with_capacity(alloc, entrants.len())?;
    for entrant in entrants {
        weights.push(entrant.weight)?;
    }
    Ok(weights)
}

/// The table of some names, which take their turns in the order in which they are given, each as often as its weight.
pub fn table_of<H: FlowHash>(
    alloc: Global,
    size: TableSize,
    hash: &H,
    entrants: &[Entrant],
) -> Result<Table, TableFault>
    ensures lists { IfOk result (λ t. t.lists ≡ length entrants.now) }
    ensures slots { IfOk result (λ t. length t.owners ≡ size) }
    ensures table { IfOk result (λ t. t.owners ≡ owners_of (H.plain hash.now) size entrants.now) }
    ensures probes { IfOk result (λ t. t.probes ≡ probes_of (H.plain hash.now) size entrants.now) }

    // Each refusal comes exactly when its reason holds. A refusal of memory is the only other.
    ensures no_backends { IsErrOf result TableFault.NoBackends ↔ (entrants.now ≡ []) }
    ensures too_many { IsErrOf result TableFault.TooMany ↔ (size < length entrants.now) }
{
    if entrants.is_empty() {
        return Err(TableFault::NoBackends);
    }
    if entrants.len() > size.slots() as usize {
        return Err(TableFault::TooMany);
    }
    let lists = lists_of(alloc, size, hash, entrants)?;
    let weights = weights_of(alloc, entrants)?;
    populate(alloc, size, lists.as_slice(), weights.as_slice())
}
