ghost use Rattle.std.specs.Prelude.{◌≡◌, ◌<◌, ◌≤◌, ◌↔◌, [], map, All, IfOk, IsErrOf, None, is_none, length, slice_index_or, unwrap_or};
ghost use Rattle.std.specs.List.{find};
ghost use Rattle.maglev_table.specs.Turns.{maglev, takers, claims, one_turn_each, AreFull, IsFullList, preference_list};

use super::permutation::Permutation;
use super::table::TableFault;
use backend_names::TableSize;
use std::alloc::{AllocError, Global};

fn first_free_of(list: &[u32], slots: &[Option<u32>]) -> Option<u32>
    requires { All (λ slot. slot < length slots.now) list.now }
    ensures { result ≡ find (λ slot. is_none (slice_index_or slots.now slot None)) list.now }
{
    list.iter()
        .copied()
        .find(|slot| slots[*slot as usize].is_none())
}

fn written_out(
    alloc: Global,
    size: TableSize,
    lists: &[Permutation],
) -> Result<Vec<Vec<u32>>, AllocError>
    requires { All (λ p. p.size ≡ size) lists.now }
    ensures lists { IfOk result (λ v. map (λ w. w.items) v.items ≡ map preference_list lists.now) }
    ensures full { IfOk result (λ v. All (λ w. IsFullList size w.items) v.items) }
{
    let mut written = Vec::with_capacity(alloc, lists.len())?;
    for list in lists {
        written.push(list.list(alloc)?)?;
    }
    Ok(written)
}

fn owners_of(alloc: Global, taken: &[Option<u32>]) -> Result<Vec<u32>, AllocError>
    ensures { IfOk result (λ v. v.items ≡ map (λ owner. unwrap_or owner 0) taken.now) }
{
    taken.iter().map(|owner| owner.unwrap_or(0)).collect(alloc)
}

fn take_turns(alloc: Global, size: u32, lists: &[Vec<u32>]) -> Result<Vec<Option<u32>>, AllocError>
    requires some { 0 < length lists.now }
    requires fit { length lists.now ≤ size }
    requires full { AreFull size (map (λ w. w.items) lists.now) (one_turn_each (length lists.now)) }
    ensures { IfOk result (λ v. v.items ≡
        takers (claims (map (λ w. w.items) lists.now) (one_turn_each (length lists.now)) size) size) }
{
    let mut slots = vec![in alloc; None; size as usize]?;
    for turn in 0..size {
        let who = turn as usize % lists.len();
        let slot = first_free_of(lists[who].as_slice(), slots.as_slice()).unwrap();
        slots[slot as usize] = Some(who as u32);
    }
    Ok(slots)
}

/// The owners of a table's slots as the definition makes them: every list is written out and scanned from its start at
/// each turn. It takes as much memory as all lists together and is here to be read and compared with; use
/// [`populate`](crate::populate).
pub fn owners_plainly(
    alloc: Global,
    size: TableSize,
    lists: &[Permutation],
) -> Result<Vec<u32>, TableFault>
    requires sized { All (λ p. p.size ≡ size) lists.now }
    ensures no_backends { IsErrOf result TableFault.NoBackends ↔ (lists.now ≡ []) }
    ensures too_many { IsErrOf result TableFault.TooMany ↔ (size < length lists.now) }
    ensures table { IfOk result (λ v. v.items ≡ maglev lists.now size) }
{
    if lists.is_empty() {
        return Err(TableFault::NoBackends);
    }
    let slots = size.slots();
    if lists.len() > slots as usize {
        return Err(TableFault::TooMany);
    }
    let written = written_out(alloc, size, lists)?;
    let taken = take_turns(alloc, slots, written.as_slice())?;
    let owners = owners_of(alloc, taken.as_slice())?;
    Ok(owners)
}
