//! Orders of servers, and what each moves.
ghost use Rattle.std.specs.Prelude.{set, ◌≡◌, ◌<◌, ◌+◌, ◌∷◌, [], ◌++◌, true, map, filter, length, All, IfOk, OnOk};
ghost use Rattle.std.specs.List.{flat_map};
ghost use Rattle.std.specs.List.Sorted.{IsPermutation, IsSortedBy, ties};
ghost use Rattle.rollout_order.specs.declared.orders.Order.{Order};
ghost use Rattle.rollout_order.specs.Orders.{IsKnown, plain_order, width, begun, with_step, with_steps, orders, fewer, AreRanked};

use crate::counts::{Known, step_moved, sum_of, with_mark};
use crate::names::is_marked;
use crate::rollout::Rollout;
use std::alloc::{AllocError, Global};

/// The servers that were replaced, by their places among those that leave, marks of these, and the slots that moved.
#[derive(Debug, Drop)]
pub(crate) struct Order {
    pub(crate) steps: Vec<usize>,
    pub(crate) marks: Vec<bool>,
    pub(crate) moved: u64,
}

/// The steps of an order.
pub(crate) fn width(rollout: &Rollout) -> usize
    ensures { result ≡ width rollout.now }
{
    let leavers = rollout.leavers.len();
    if leavers == 0 { 1 } else { leavers }
}

/// An order before its first step.
pub(crate) fn begun(alloc: Global, rollout: &Rollout) -> Result<Order, AllocError>
    ensures { IfOk result (λ o. plain_order o ≡ begun rollout.now) }
{
    Ok(Order {
        steps: Vec::new(alloc),
        marks: vec![in alloc; false; width(rollout)]?,
        moved: 0,
    })
}

/// An order with one more step that moves so many slots.
pub(crate) fn longer(
    alloc: Global,
    order: &Order,
    place: usize,
    moved: u64,
) -> Result<Order, AllocError>
    requires place { place < length order.now.marks.items }
    ensures steps { IfOk result (λ o. o.steps.items ≡ order.now.steps.items ++ place ∷ []) }
    ensures marks { IfOk result (λ o. o.marks.items ≡ set order.now.marks.items place true) }
    ensures moved { IfOk result (λ o. o.moved ≡ order.now.moved + moved) }
{
    let mut steps = Vec::from_slice(alloc, order.steps.as_slice())?;
    steps.push(place)?;
    Ok(Order {
        steps,
        marks: with_mark(alloc, order.marks.as_slice(), place)?,
        moved: sum_of(order.moved, moved)?,
    })
}

// An order with one more step.
fn with_step(
    alloc: Global,
    rollout: &Rollout,
    known: &mut Vec<Known>,
    order: &Order,
    place: usize,
) -> Result<Order, AllocError>
    requires known { All (IsKnown rollout.now) known.old.items }
    requires place { place < length order.now.marks.items }
    ensures order { IfOk result (λ o. plain_order o ≡ with_step rollout.now (plain_order order.now) place) }
    ensures known { All (IsKnown rollout.now) known.new.items }
{
    let moved = step_moved(alloc, rollout, known, order.marks.as_slice(), place)?;
    longer(alloc, order, place, moved)
}

// An order with each step that is left.
fn push_longer(
    alloc: Global,
    rollout: &Rollout,
    known: &mut Vec<Known>,
    order: &Order,
    found: &mut Vec<Order>,
) -> Result<(), AllocError>
    requires { All (IsKnown rollout.now) known.old.items }
    ensures found { OnOk result (map plain_order found.new.items ≡ map plain_order found.old.items ++ with_steps rollout.now (plain_order order.now)) }
    ensures known { All (IsKnown rollout.now) known.new.items }
{
    for place in 0..order.marks.len() {
        if !is_marked(order.marks.as_slice(), place) {
            found.push(with_step(alloc, rollout, known, order, place)?)?;
        }
    }
    Ok(())
}

// Each of some orders with each step that is left.
fn longer_orders(
    alloc: Global,
    rollout: &Rollout,
    known: &mut Vec<Known>,
    shorter: &[Order],
) -> Result<Vec<Order>, AllocError>
    requires { All (IsKnown rollout.now) known.old.items }
    ensures found { IfOk result (λ v. map plain_order v.items ≡ flat_map (with_steps rollout.now) (map plain_order shorter.now)) }
    ensures known { All (IsKnown rollout.now) known.new.items }
{
    let mut found = Vec::new(alloc);
    for order in shorter {
        push_longer(alloc, rollout, known, order, &mut found)?;
    }
    Ok(found)
}

// All orders, in ascending order of the servers' names.
fn all_orders(alloc: Global, rollout: &Rollout) -> Result<Vec<Order>, AllocError>
    ensures { IfOk result (λ v. map plain_order v.items ≡ orders rollout.now (width rollout.now)) }
{
    let mut known = Vec::new(alloc);
    let mut found = Vec::new(alloc);
    found.push(begun(alloc, rollout)?)?;
    for _step in 0..width(rollout) {
        found = longer_orders(alloc, rollout, &mut known, found.as_slice())?;
    }
    Ok(found)
}

// Orders, the fewest moved slots first. Those that move as many keep their order.
fn sorted(mut orders: Vec<Order>) -> Result<Vec<Order>, AllocError>
    ensures same { IfOk result (λ v. IsPermutation orders.items v.items) }
    ensures sorted { IfOk result (λ v. IsSortedBy fewer v.items) }
    ensures stable { IfOk result (λ v. (o : Order) → filter (ties fewer o) v.items ≡ filter (ties fewer o) orders.items) }
{
    orders.sort_by(|one, other| one.moved.cmp(&other.moved))?;
    Ok(orders)
}

/// All orders, the fewest moved slots first, of as many in ascending order of names.
pub(crate) fn ranked_orders(alloc: Global, rollout: &Rollout) -> Result<Vec<Order>, AllocError>
    ensures { IfOk result (λ v. AreRanked rollout.now v.items) }
{
    let found = all_orders(alloc, rollout)?;
    sorted(found)
}
