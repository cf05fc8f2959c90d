//! The totals of a run, counted as its events come.
ghost use Rattle.std.specs.Prelude.{◌≡◌, ◌≤◌, ◌+◌, ◌∷◌, [], ℕ, List, OnOk, get_or, slice_set};
ghost use Rattle.cluster_node.specs.declared.outcomes.Outcome.{Outcome};
ghost use Rattle.cluster_node.specs.declared.outcomes.Outcome.TheVariants.{Dropped};
ghost use Rattle.cluster_core.specs.OutcomeCounts.{number};
ghost use Rattle.cluster_core.specs.Totals.{came_all, went_all};

use cluster_core::{Totals, at_serving, number};
use cluster_node::{Cause, Outcome};
use std::alloc::AllocError;

/// How many outcomes of each sort there were, and how many packets came into the queues and left them.
#[derive(Clone, Copy, Debug, PartialEq, Eq)]
pub struct Counts {
    received: u64,
    forwarded: u64,
    dropped: [u64; 13],
    placed: u64,
    taken: u64,
    refused: u64,
}

// A count with so many more. Where it has no room it is refused, as memory is.
fn add(count: &mut u64, more: u64) -> Result<(), AllocError>
    ensures { OnOk result (count.new ≡ count.old + more) }
{
    match count.checked_add(more) {
        Some(sum) => {
            *count = sum;
            Ok(())
        }
        None => Err(AllocError),
    }
}

// The place of a cause among the counts of drops.
fn place_of(cause: Cause) -> usize
    ensures place { result + 1 ≡ number cause }
    ensures few { result ≤ 12 }
{
    number(cause) as usize - 1
}

// The counts with so many more at a place.
fn add_at(counts: &mut [u64; 13], at: usize, more: u64) -> Result<(), AllocError>
    requires { at ≤ 12 }
    ensures { OnOk result (counts.new ≡ slice_set counts.old at (get_or counts.old at 0 + more)) }
{
    let Some(sum) = counts[at].checked_add(more) else {
        return Err(AllocError);
    };
    counts[at] = sum;
    Ok(())
}

impl Counts {
    ghost use Rattle.event_trace.specs.Counting.{CountsAre, totals_by};

    /// Nothing was counted.
    pub fn new() -> Counts
        ensures { CountsAre [] result }
    {
        Counts {
            received: 0,
            forwarded: 0,
            dropped: [0; 13],
            placed: 0,
            taken: 0,
            refused: 0,
        }
    }

    // A packet was dropped when it arrived, or when it was served.
    fn drop_one(&mut self, cause: Cause) -> Result<(), AllocError>
        ensures { (others : List Outcome) (packet : ℕ) → CountsAre others self.old → OnOk result (CountsAre (Dropped packet cause ∷ others) self.new) }
    {
        add_at(&mut self.dropped, place_of(cause), 1)?;
        if at_serving(cause) {
            add(&mut self.taken, 1)
        } else {
            add(&mut self.received, 1)
        }
    }

    /// One outcome more. Where a count has no room it is refused, as memory is.
    #[inline(always)]
    pub fn count(&mut self, outcome: &Outcome) -> Result<(), AllocError>
        ensures { (others : List Outcome) → CountsAre others self.old → OnOk result (CountsAre (outcome.now ∷ others) self.new) }
    {
        match *outcome {
            Outcome::Installed => Ok(()),
            Outcome::Placed { .. } => {
                add(&mut self.received, 1)?;
                add(&mut self.placed, 1)
            }
            Outcome::Forward { .. } => {
                add(&mut self.forwarded, 1)?;
                add(&mut self.taken, 1)
            }
            Outcome::Dropped { cause, .. } => self.drop_one(cause),
            Outcome::Restarted { lost } => {
                add_at(&mut self.dropped, 12, lost)?;
                add(&mut self.taken, lost)
            }
            Outcome::Refused(_) => add(&mut self.refused, 1),
        }
    }

    /// The totals of what was counted. What came into the queues and didn't leave them waits.
    pub fn totals(&self) -> Totals
        requires { (all : List Outcome) × CountsAre all self.now × (went_all all ≤ came_all all) }
        ensures { result ≡ totals_by self.now }
    {
        Totals {
            received: self.received,
            forwarded: self.forwarded,
            dropped: self.dropped,
            waiting: self.placed - self.taken,
            refused: self.refused,
        }
    }
}
