//! The promises for Maglev, in terms of its tables.
ghost use Rattle.std.specs.Prelude.{◌≡◌, ◌≤◌, ℕ, [], Some, IfOk, slice_get};
ghost use Rattle.selection.specs.Picks.{table_pick};
ghost use Rattle.cluster_node.specs.declared.packets.Packet.{Packet};
ghost use Rattle.cluster_core.specs.Setups.{rules_for};
ghost use Rattle.cluster_core.specs.Runs.{verdicts};
ghost use Rattle.cluster_core.specs.Headline.{Keeping, KeepingUps};
ghost use Rattle.cluster_node.specs.Records.{WasRead};
ghost use Rattle.cluster_core.specs.Tables.{TablesDiffer, TablesAreEven, NoSlotDrains};
ghost use Rattle.cluster_core.specs.Totals.{came_all, went_all};
ghost use Rattle.cluster_core.specs.Explain.{PickedSends};

use crate::fixed::Setup;
use crate::replaying::replay;
use cluster_node::{Event, Outcome, Packet};
use connection_table::ConnTable;
use hash_laws::FlowHash;
use pool_versions::Catalogue;
use selection::Maglev;
use std::alloc::{AllocError, Global};

/// What a list of events results in, in a cluster whose scheme is Maglev, made with the cluster's hash.
///
/// These hold over every list of deliveries, losses, repeats, installed versions, evictions and restarts. Two packets of one
/// flow that were sent to different backends were chosen under versions whose tables differ at that flow's slot
/// (`agreement`). A worker keeps a flow's backend while its entry stands and the backend is up or drains (`keeping`), and so
/// while it is up (`keeping_ups`). Every slot names an up backend, and backends' slot counts are in proportion to their
/// weights; of equal weights they differ by at most one (`slots`). No slot names a member that drains (`none_drains`). See
/// `replay`.
pub fn replay_maglev<H: FlowHash, T: ConnTable>(
    alloc: Global,
    setup: &Setup<Maglev<H>, H>,
    catalogue: &Catalogue,
    packets: &[Packet],
    events: &[Event],
) -> Result<Vec<Outcome>, AllocError>
    requires hash { setup.now.scheme.hash ≡ setup.now.hash }
    requires size { catalogue.now.size ≡ setup.now.size }
    requires read { (k : ℕ) (p : Packet) → slice_get packets.now k ≡ Some p → WasRead (Some p) }
    ensures verdicts { let rules = rules_for (λ s z ups x t. table_pick (H.plain s.hash) z ups x) (λ h. H.plain h) setup.now catalogue.now in
        IfOk result (λ v. v.items ≡ verdicts rules [] packets.now events.now) }
    ensures agreement { IfOk result (λ v. TablesDiffer (H.plain setup.now.hash) setup.now.size catalogue.now v.items) }
    ensures keeping { let rules = rules_for (λ s z ups x t. table_pick (H.plain s.hash) z ups x) (λ h. H.plain h) setup.now catalogue.now in
        IfOk result (λ v. Keeping rules [] packets.now events.now v.items) }
    ensures keeping_ups { let rules = rules_for (λ s z ups x t. table_pick (H.plain s.hash) z ups x) (λ h. H.plain h) setup.now catalogue.now in
        IfOk result (λ v. KeepingUps rules [] packets.now events.now v.items) }
    ensures slots { TablesAreEven (H.plain setup.now.hash) setup.now.size catalogue.now }
    ensures none_drains { NoSlotDrains (H.plain setup.now.hash) setup.now.size catalogue.now }
    // what `totals` and `explain` ask of outcomes
    ensures balance { IfOk result (λ v. went_all v.items ≤ came_all v.items) }
    ensures picked { let rules = rules_for (λ s z ups x t. table_pick (H.plain s.hash) z ups x) (λ h. H.plain h) setup.now catalogue.now in
        IfOk result (λ v. PickedSends rules v.items) }
{
    replay::<Maglev<H>, H, T>(alloc, setup, catalogue, packets, events)
}
