//! Steps by time over records.
ghost use Rattle.std.specs.Prelude.{◌≡◌, ◌<◌, ◌≤◌, ◌^◌, length, drop, IfOk};
ghost use Rattle.std.specs.List.{list_any};
ghost use Rattle.event_trace.specs.declared.steps.ScenarioStep.{ScenarioStep};
ghost use Rattle.timed_steps.specs.Timed.{first_of, is_before, count_until, reads, counted_step, counted};
ghost use Rattle.timed_steps.specs.Laws.{is_until};
ghost use Rattle.timed_steps.specs.Copies.{IsCopy, AreCopies};

use crate::TimedStep;
use event_trace::ScenarioStep;
use std::alloc::{AllocError, Global};

fn first_of(times: &[u64]) -> u64
    ensures { result ≡ first_of times.now }
{
    match times.first() {
        Some(first) => *first,
        None => 0,
    }
}

/// Whether a record of this time came less than so long after the first one. All are in microseconds.
#[inline(always)]
pub fn is_before(first: u64, end: u64, time: u64) -> bool
    ensures { result ≡ is_before first end time }
{
    time.saturating_sub(first) < end
}

// How many of the records that are left came less than so long after the first, up to one that didn't.
fn count_until(first: u64, end: u64, left: &[u64]) -> usize
    ensures count { result ≡ count_until first end left.now }
    ensures within { result ≤ length left.now }
{
    let mut count = 0;
    while count < left.len() && is_before(first, end, left[count]) {
        count += 1;
    }
    count
}

// The same step once more.
fn copy_of(alloc: Global, step: &ScenarioStep) -> Result<ScenarioStep, AllocError>
    ensures { IfOk result (λ s. IsCopy s step.now) }
{
    Ok(match step {
        ScenarioStep::Install { node, version } => ScenarioStep::Install {
            node: *node,
            version: *version,
        },
        ScenarioStep::Live(nodes) => ScenarioStep::Live(Vec::from_slice(alloc, nodes.as_slice())?),
        ScenarioStep::Take(count) => ScenarioStep::Take(*count),
        ScenarioStep::Lose(count) => ScenarioStep::Lose(*count),
        ScenarioStep::Again(place) => ScenarioStep::Again(*place),
        ScenarioStep::Full { node, marks } => ScenarioStep::Full {
            node: *node,
            marks: *marks,
        },
        ScenarioStep::Hold(node) => ScenarioStep::Hold(*node),
        ScenarioStep::Drain(node) => ScenarioStep::Drain(*node),
        ScenarioStep::Restart(node) => ScenarioStep::Restart(*node),
        ScenarioStep::Stop(node) => ScenarioStep::Stop(*node),
    })
}

fn counted_step(
    alloc: Global,
    first: u64,
    left: &[u64],
    step: &TimedStep,
) -> Result<ScenarioStep, AllocError>
    requires { length left.now < 2 ^ 32 }
    ensures { IfOk result (λ s. IsCopy s (counted_step first left.now step.now)) }
{
    match step {
        TimedStep::Counted(step) => copy_of(alloc, step),
        TimedStep::Until(end) => Ok(ScenarioStep::Take(count_until(first, *end, left) as u32)),
    }
}

fn reads(step: &ScenarioStep) -> u32
    ensures { result ≡ reads step.now }
{
    match step {
        ScenarioStep::Take(count) => *count,
        ScenarioStep::Lose(count) => *count,
        _ => 0,
    }
}

// What is left behind a step.
fn behind<'a>(left: &'a [u64], step: &ScenarioStep) -> &'a [u64]
    ensures { result.now ≡ drop (reads step.now) left.now }
{
    let at = reads(step) as usize;
    match left.get(at..) {
        Some(rest) => rest,
        None => &[],
    }
}

/// Whether one of these steps is by time.
pub fn has_until(steps: &[TimedStep]) -> bool
    ensures { result ≡ list_any is_until steps.now }
{
    steps.iter().any(|step| matches!(step, TimedStep::Until(_)))
}

/// The steps by count that some steps are over a capture whose records have these times, in microseconds.
pub fn counted(
    alloc: Global,
    times: &[u64],
    steps: &[TimedStep],
) -> Result<Vec<ScenarioStep>, AllocError>
    requires { length times.now < 2 ^ 32 }
    ensures { IfOk result (λ v. AreCopies v.items (counted times.now steps.now)) }
{
    let first = first_of(times);
    let mut left = times;
    let mut found = Vec::new(alloc);
    for step in steps {
        let step = counted_step(alloc, first, left, step)?;
        left = behind(left, &step);
        found.push(step)?;
    }
    Ok(found)
}
