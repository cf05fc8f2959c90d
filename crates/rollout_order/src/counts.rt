//! What a step moves.
ghost use Rattle.std.specs.Prelude.{set, ◌≡◌, ◌<◌, ◌+◌, ◌++◌, true, filter, not, length, All, IfOk, OnOk, IfSome};
ghost use Rattle.rollout_plan.specs.Counts.{moved};
ghost use Rattle.rollout_order.specs.declared.rollout.Rollout.{Rollout};
ghost use Rattle.rollout_order.specs.Steps.{done, is_named, mixed, members_at, tables_at, all_moved, step_moved};
ghost use Rattle.rollout_order.specs.Orders.{IsKnown};

use crate::names::{first_names, is_named, marked, trues};
use crate::rollout::{Change, Rollout};
use backend_names::Name;
use pool_versions::Member;
use rollout_plan::{SlotTable, slots_moved};
use std::alloc::{AllocError, Global};

/// The tables of the services while some servers are done.
#[derive(Debug, Drop)]
pub(crate) struct Known {
    pub(crate) marks: Vec<bool>,
    pub(crate) tables: Vec<SlotTable>,
}

// The servers that are what they are after.
fn done(alloc: Global, rollout: &Rollout, marks: &[bool]) -> Result<Vec<Name>, AllocError>
    ensures { IfOk result (λ v. v.items ≡ done rollout.now marks.now) }
{
    let mut names = marked(alloc, marks, rollout.leavers.as_slice())?;
    names.extend_from_slice(first_names(rollout.joiners.as_slice(), trues(marks)))?;
    Ok(names)
}

fn push_others(
    found: &mut Vec<Member>,
    names: &[Name],
    members: &[Member],
) -> Result<(), AllocError>
    ensures { OnOk result (found.new.items ≡ found.old.items ++ filter (λ m. not (is_named names.now m)) members.now) }
{
    for member in members {
        if !is_named(names, member) {
            found.push(*member)?;
        }
    }
    Ok(())
}

fn push_named(found: &mut Vec<Member>, names: &[Name], members: &[Member]) -> Result<(), AllocError>
    ensures { OnOk result (found.new.items ≡ found.old.items ++ filter (is_named names.now) members.now) }
{
    for member in members {
        if is_named(names, member) {
            found.push(*member)?;
        }
    }
    Ok(())
}

// A service's members where servers of some names are what they are after.
fn mixed(alloc: Global, names: &[Name], change: &Change) -> Result<Vec<Member>, AllocError>
    ensures { IfOk result (λ v. v.items ≡ mixed names.now change.now.before.items change.now.after.items) }
{
    let mut found = Vec::new(alloc);
    push_others(&mut found, names, change.before.as_slice())?;
    push_named(&mut found, names, change.after.as_slice())?;
    Ok(found)
}

// A service's members while some servers are done.
#[tactic(auto, unfolding(crate::specs::Steps::members_at))]
fn members_at(
    alloc: Global,
    rollout: &Rollout,
    marks: &[bool],
    change: &Change,
) -> Result<Vec<Member>, AllocError>
    ensures { IfOk result (λ v. v.items ≡ members_at rollout.now marks.now change.now) }
{
    let count = trues(marks);
    if count == 0 {
        return Vec::from_slice(alloc, change.before.as_slice());
    }
    if count == marks.len() {
        return Vec::from_slice(alloc, change.after.as_slice());
    }
    let names = done(alloc, rollout, marks)?;
    mixed(alloc, names.as_slice(), change)
}

/// The tables of the services while some servers are done.
pub(crate) fn tables_at(
    alloc: Global,
    rollout: &Rollout,
    marks: &[bool],
) -> Result<Vec<SlotTable>, AllocError>
    ensures { IfOk result (λ v. v.items ≡ tables_at rollout.now marks.now) }
{
    let mut tables = Vec::with_capacity(alloc, rollout.changes.len())?;
    for change in &rollout.changes {
        let members = members_at(alloc, rollout, marks, change)?;
        tables.push(rollout.rule.table(alloc, members.as_slice())?)?;
    }
    Ok(tables)
}

// What moves in one service. All tables have one size.
fn moved(alloc: Global, before: &SlotTable, after: &SlotTable) -> Result<u64, AllocError>
    ensures { IfOk result (λ n. n ≡ moved before.now after.now) }
{
    if before.size() != after.size() {
        return Err(AllocError);
    }
    let slots = slots_moved(alloc, before, after)?;
    Ok(u64::from(slots))
}

/// The sum of two counts.
pub(crate) fn sum_of(one: u64, other: u64) -> Result<u64, AllocError>
    ensures { IfOk result (λ n. n ≡ one + other) }
{
    one.checked_add(other).ok_or(AllocError)
}

/// What moves in all services. There are as many of both.
pub(crate) fn all_moved(
    alloc: Global,
    before: &[SlotTable],
    after: &[SlotTable],
) -> Result<u64, AllocError>
    ensures { IfOk result (λ n. n ≡ all_moved before.now after.now) }
{
    if before.len() != after.len() {
        return Err(AllocError);
    }
    let mut total = 0u64;
    for place in 0..before.len() {
        let slots = moved(alloc, &before[place], &after[place])?;
        total = sum_of(total, slots)?;
    }
    Ok(total)
}

// Whether marks are the same.
fn are_same(one: &[bool], other: &[bool]) -> bool
    ensures { result ≡ true → one.now ≡ other.now }
{
    one == other
}

// The tables that are known of some marks.
fn known_tables<'a>(known: &'a [Known], marks: &[bool]) -> Option<&'a [SlotTable]>
    ensures { (r : Rollout) → All (IsKnown r) known.now → IfSome result (λ tables. tables.now ≡ tables_at r marks.now) }
{
    for one in known {
        if are_same(one.marks.as_slice(), marks) {
            return Some(one.tables.as_slice());
        }
    }
    None
}

// The same of marks whose tables were made.
fn made_tables<'a>(known: &'a [Known], marks: &[bool]) -> Result<&'a [SlotTable], AllocError>
    ensures { (r : Rollout) → All (IsKnown r) known.now → IfOk result (λ tables. tables.now ≡ tables_at r marks.now) }
{
    match known_tables(known, marks) {
        Some(tables) => Ok(tables),
        None => Err(AllocError),
    }
}

// Makes the tables of some marks, unless they are known.
fn make_known(
    alloc: Global,
    rollout: &Rollout,
    known: &mut Vec<Known>,
    marks: &[bool],
) -> Result<(), AllocError>
    requires { All (IsKnown rollout.now) known.old.items }
    ensures { All (IsKnown rollout.now) known.new.items }
{
    if known_tables(known.as_slice(), marks).is_some() {
        return Ok(());
    }
    let tables = tables_at(alloc, rollout, marks)?;
    let marks = Vec::from_slice(alloc, marks)?;
    known.push(Known { marks, tables })?;
    Ok(())
}

/// Some marks, and one more.
pub(crate) fn with_mark(
    alloc: Global,
    marks: &[bool],
    place: usize,
) -> Result<Vec<bool>, AllocError>
    requires place { place < length marks.now }
    ensures { IfOk result (λ v. v.items ≡ set marks.now place true) }
{
    let mut more = Vec::from_slice(alloc, marks)?;
    more[place] = true;
    Ok(more)
}

/// What moves where one more server is done. Tables that are known aren't made again.
#[tactic(auto, unfolding(crate::specs::Steps::step_moved))]
pub(crate) fn step_moved(
    alloc: Global,
    rollout: &Rollout,
    known: &mut Vec<Known>,
    marks: &[bool],
    place: usize,
) -> Result<u64, AllocError>
    requires known { All (IsKnown rollout.now) known.old.items }
    requires place { place < length marks.now }
    ensures moved { IfOk result (λ n. n ≡ step_moved rollout.now marks.now place) }
    ensures known { All (IsKnown rollout.now) known.new.items }
{
    let more = with_mark(alloc, marks, place)?;
    make_known(alloc, rollout, known, marks)?;
    make_known(alloc, rollout, known, more.as_slice())?;
    let before = made_tables(known.as_slice(), marks)?;
    let after = made_tables(known.as_slice(), more.as_slice())?;
    all_moved(alloc, before, after)
}
