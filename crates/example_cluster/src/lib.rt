//! A scheme of one's own under the cluster: the promises come from the scheme's laws alone.
#![tactic(auto)]

ghost use Rattle.std.specs.Prelude.{◌≡◌, ℕ, Some, IfOk, slice_get};
ghost use Rattle.cluster_node.specs.declared.packets.Packet.{Packet};
ghost use Rattle.cluster_node.specs.Records.{WasRead};
ghost use Rattle.example_cluster.specs.Firsts.{FirstsDiffer};

use cluster_core::{Event, Outcome, Packet, Setup, replay};
use connection_table::ConnTable;
use example_scheme::First;
use hash_laws::FlowHash;
use pool_versions::Catalogue;
use std::alloc::{AllocError, Global};

#[cfg(test)]
mod tests;

/// What a list of events results in where the first backend that is up is taken. Two packets of one flow that were sent to
/// different backends were chosen under versions whose up lists for that flow begin with different backends.
pub fn replay_first<H: FlowHash, T: ConnTable>(
    alloc: Global,
    setup: &Setup<First, H>,
    catalogue: &Catalogue,
    packets: &[Packet],
    events: &[Event],
) -> Result<Vec<Outcome>, AllocError>
    requires size { catalogue.now.size ≡ setup.now.size }
    requires read { (k : ℕ) (p : Packet) → slice_get packets.now k ≡ Some p → WasRead (Some p) }
    ensures { IfOk result (λ v. FirstsDiffer catalogue.now v.items) }
{
    replay::<First, H, T>(alloc, setup, catalogue, packets, events)
}
