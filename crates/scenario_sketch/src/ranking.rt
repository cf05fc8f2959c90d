//! Destinations by how many packets went to them.
ghost use Rattle.std.specs.Prelude.{IfOk};
ghost use Rattle.scenario_sketch.specs.Counts.{busy, IsRanked};

use crate::counted::Counted;
use crate::tally::Tally;
use std::alloc::{AllocError, Global};

/// The destinations of more than a handful of packets, the most frequent first. Of two that are as frequent the one that came
/// first is first.
pub(crate) fn ranked(alloc: Global, tally: &Tally) -> Result<Vec<Counted>, AllocError>
    ensures { IfOk result (λ v. IsRanked (busy tally.now) v.items) }
{
    let mut destinations = tally.busy(alloc)?;
    destinations.sort_by(|one, other| other.packets.cmp(&one.packets))?;
    Ok(destinations)
}
