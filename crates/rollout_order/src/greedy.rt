//! The order that moves the fewest slots at each step.
ghost use Rattle.std.specs.Prelude.{◌≡◌, ◌<◌, length, IfOk, IfSome};
ghost use Rattle.rollout_order.specs.Steps.{tables_at, all_moved, step_moved};
ghost use Rattle.rollout_order.specs.Orders.{plain_order, width, IsBest, IsBestNext, IsGreedy};
ghost use Rattle.rollout_order.specs.PrivateBetter.{better_of};

use crate::counts::{all_moved, tables_at, with_mark};
use crate::names::is_marked;
use crate::orders::{Order, begun, longer, width};
use crate::rollout::Rollout;
use rollout_plan::SlotTable;
use std::alloc::{AllocError, Global};

/// A server, by its place, and what its step moves.
#[derive(Clone, Copy, Debug)]
pub(crate) struct Step {
    place: usize,
    moved: u64,
}

// What moves from the tables that are there where one more server is done.
#[tactic(auto, unfolding(crate::specs::Steps::step_moved))]
fn moved_by(
    alloc: Global,
    rollout: &Rollout,
    before: &[SlotTable],
    marks: &[bool],
    place: usize,
) -> Result<u64, AllocError>
    requires place { place < length marks.now }
    requires before { before.now ≡ tables_at rollout.now marks.now }
    ensures { IfOk result (λ n. n ≡ step_moved rollout.now marks.now place) }
{
    let more = with_mark(alloc, marks, place)?;
    let after = tables_at(alloc, rollout, more.as_slice())?;
    all_moved(alloc, before, after.as_slice())
}

// The better of a step that may be there and one behind it.
fn better(best: Option<Step>, place: usize, moved: u64) -> Step
    ensures { result ≡ better_of best place moved }
{
    match best {
        Some(best) if best.moved <= moved => best,
        _ => Step { place, moved },
    }
}

// The best step.
fn best_step(alloc: Global, rollout: &Rollout, marks: &[bool]) -> Result<Option<Step>, AllocError>
    ensures { IfOk result (λ found. IfSome found (λ step. IsBest rollout.now marks.now step.place ×
        (step.moved ≡ step_moved rollout.now marks.now step.place))) }
{
    let before = tables_at(alloc, rollout, marks)?;
    let mut best: Option<Step> = None;
    for place in 0..marks.len() {
        if !is_marked(marks, place) {
            let moved = moved_by(alloc, rollout, before.as_slice(), marks, place)?;
            best = Some(better(best, place, moved));
        }
    }
    Ok(best)
}

// An order with its best step.
fn best_next(alloc: Global, rollout: &Rollout, order: &Order) -> Result<Order, AllocError>
    ensures { IfOk result (λ o. IsBestNext rollout.now (plain_order order.now) (plain_order o)) }
{
    match best_step(alloc, rollout, order.marks.as_slice())? {
        None => Err(AllocError),
        Some(best) => longer(alloc, order, best.place, best.moved),
    }
}

/// The order each step of which moves the fewest slots, and of several such is the first by name.
pub(crate) fn greedy_order(alloc: Global, rollout: &Rollout) -> Result<Order, AllocError>
    ensures { IfOk result (λ o. IsGreedy rollout.now (width rollout.now) (plain_order o)) }
{
    let mut order = begun(alloc, rollout)?;
    for _step in 0..width(rollout) {
        order = best_next(alloc, rollout, &order)?;
    }
    Ok(order)
}
