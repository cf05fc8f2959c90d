//! What changes from one table to another, counted.
ghost use Rattle.std.specs.Prelude.{◌≡◌, ◌+◌, ◌<◌, ◌≤◌, List, Some, None, IfOk, map};
ghost use Rattle.pool_versions.specs.declared.backend.Backend.{Backend};
ghost use Rattle.selection.specs.Picks.{NamedTable};
ghost use Rattle.table_commands.specs.Compare.{name_alike, is_moved, named_at};
ghost use Rattle.rollout_plan.specs.Counts.{is_up, stays_up, drains, who_drains, changed, down, moved, drained, least, slots_lost};

use crate::drains::Draining;
use crate::slots::SlotTable;
use pool_versions::Backend;
use std::alloc::{AllocError, Global};

/// The slots that name somebody else, by cause.
#[derive(Clone, Copy)]
pub(crate) struct Causes {
    /// Those that named nobody, or a backend that is up no more and doesn't drain.
    pub(crate) down: u32,
    /// Those that named a backend that is up still.
    pub(crate) moved: u32,
    /// Those that named a backend that is up no more but drains.
    pub(crate) drained: u32,
}

fn name_alike(before: Option<Backend>, after: Option<Backend>) -> bool
    ensures { result ≡ name_alike before after }
{
    match before {
        None => after.is_none(),
        Some(before) => match after {
            None => false,
            Some(after) => before == after,
        },
    }
}

// Whether a slot names somebody else in the second table.
fn is_moved(before: &SlotTable, after: &SlotTable, slot: u32) -> bool
    requires before { slot < before.now.size }
    requires after { slot < after.now.size }
    ensures { result ≡ is_moved before.now after.now slot }
{
    !name_alike(before.backend_at(slot), after.backend_at(slot))
}

// For each up backend of the first table whether it is up in the second too. So each is sought once, and not for each of its
// slots.
fn staying(alloc: Global, before: &SlotTable, after: &SlotTable) -> Result<Vec<bool>, AllocError>
    ensures { IfOk result (λ v. v.items ≡ map (λ b. is_up after.now b) before.now.ups) }
{
    before
        .ups()
        .iter()
        .map(|backend| after.is_up(backend))
        .collect(alloc)
}

// Whether a slot names a backend that is among those that stay up.
fn stays_up(before: &SlotTable, staying: &[bool], slot: u32) -> bool
    requires { slot < before.now.size }
    ensures { (after : NamedTable) → staying.now ≡ map (λ b. is_up after b) before.now.ups → result ≡ stays_up after (named_at before.now slot) }
{
    match before.place_at(slot) {
        None => false,
        Some(place) => staying.get(place).copied().unwrap_or(false),
    }
}

// For each up backend of a table whether it is among those that drain.
fn leaving(alloc: Global, before: &SlotTable, draining: &Draining) -> Result<Vec<bool>, AllocError>
    ensures { IfOk result (λ v. v.items ≡ map (drains draining.now) before.now.ups) }
{
    before
        .ups()
        .iter()
        .map(|backend| draining.has(backend))
        .collect(alloc)
}

// Whether a slot names a backend that is among those that drain.
fn who_drains(before: &SlotTable, leaving: &[bool], slot: u32) -> bool
    requires { slot < before.now.size }
    ensures { (draining : List Backend) → leaving.now ≡ map (drains draining) before.now.ups → result ≡ who_drains draining (named_at before.now slot) }
{
    match before.place_at(slot) {
        None => false,
        Some(place) => leaving.get(place).copied().unwrap_or(false),
    }
}

/// How many slots of two tables of one size name somebody else, by cause, where some drain after.
pub(crate) fn causes_of(
    alloc: Global,
    before: &SlotTable,
    after: &SlotTable,
    draining: &Draining,
) -> Result<Causes, AllocError>
    requires { before.now.size ≡ after.now.size }
    ensures down { IfOk result (λ c. c.down ≡ down before.now after.now draining.now) }
    ensures moved { IfOk result (λ c. c.moved ≡ moved before.now after.now) }
    ensures drained { IfOk result (λ c. c.drained ≡ drained before.now after.now draining.now) }
    ensures changed { IfOk result (λ c. c.down + c.moved + c.drained ≡ changed before.now after.now) }
    ensures few { IfOk result (λ c. c.down + c.moved + c.drained ≤ 65537) }
{
    let staying = staying(alloc, before, after)?;
    let leaving = leaving(alloc, before, draining)?;
    let mut down = 0u32;
    let mut moved = 0u32;
    let mut drained = 0u32;
    for slot in 0..before.size() {
        if is_moved(before, after, slot) {
            if stays_up(before, staying.as_slice(), slot) {
                moved += 1;
            } else if who_drains(before, leaving.as_slice(), slot) {
                drained += 1;
            } else {
                down += 1;
            }
        }
    }
    Ok(Causes {
        down,
        moved,
        drained,
    })
}

/// How many slots of two tables of one size name somebody else, though whom they named is up still.
pub fn slots_moved(alloc: Global, before: &SlotTable, after: &SlotTable) -> Result<u32, AllocError>
    requires { before.now.size ≡ after.now.size }
    ensures { IfOk result (λ n. n ≡ moved before.now after.now) }
{
    let draining = Draining::of(alloc, &[])?;
    let causes = causes_of(alloc, before, after, &draining)?;
    Ok(causes.moved)
}

// How many slots fewer name a backend in the second table.
fn slots_lost(before: &SlotTable, after: &SlotTable, backend: &Backend) -> u32
    ensures lost { result ≡ slots_lost before.now after.now (Some backend.now) }
    ensures few { result ≤ 65537 }
{
    let old = before.slots_of(backend);
    let new = after.slots_of(backend);
    old.saturating_sub(new)
}

// How many slots fewer name nobody.
fn slots_lost_by_nobody(before: &SlotTable, after: &SlotTable) -> u32
    ensures lost { result ≡ slots_lost before.now after.now None }
    ensures few { result ≤ 65537 }
{
    let old = before.slots_of_nobody();
    let new = after.slots_of_nobody();
    old.saturating_sub(new)
}

/// The least slots in which any table with the counts of the second differs from the first.
pub(crate) fn least(before: &SlotTable, after: &SlotTable) -> u64
    ensures { result ≡ least before.now after.now }
{
    let mut lost = 0u64;
    for backend in before.ups() {
        lost += u64::from(slots_lost(before, after, backend));
    }
    lost + u64::from(slots_lost_by_nobody(before, after))
}
