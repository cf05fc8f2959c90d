//! Whole lists of events.
ghost use Rattle.std.specs.Prelude.{◌≡◌, ◌≤◌, ◌<◌, [], ℕ, true, length, Option, Some, None, IfOk, slice_get, option_copied};
ghost use Rattle.cluster_node.specs.declared.packets.Packet.{Packet};
ghost use Rattle.cluster_core.specs.Setups.{rules_for};
ghost use Rattle.cluster_core.specs.Runs.{packet_of, verdicts};
ghost use Rattle.cluster_core.specs.Headline.{Agreement, Keeping, KeepingUps};
ghost use Rattle.cluster_core.specs.Totals.{came_all, went_all};
ghost use Rattle.cluster_node.specs.Records.{WasRead};
ghost use Rattle.cluster_core.specs.Explain.{PickedSends};
ghost use Rattle.cluster_core.specs.Tables.{TablesAreEven, NoSlotDrains};

use crate::fixed::Setup;
use crate::running::Run;
use cluster_node::{Event, Outcome, Packet};
use connection_table::ConnTable;
use hash_laws::FlowHash;
use pool_versions::Catalogue;
use selection::Scheme;
use std::alloc::{AllocError, Global};

/// The packet that an arrival names, if it is among these. Other events name none.
pub fn packet_at<'a>(packets: &'a [Packet], event: &Event) -> Option<&'a Packet>
    ensures { option_copied result ≡ packet_of packets.now event.now }
{
    match *event {
        Event::Arrive { packet, .. } => packets.get(packet as usize),
        _ => None,
    }
}

fn count_of(events: &[Event]) -> usize
    ensures { result ≡ length events.now }
{
    events.len()
}

/// What a list of events results in: one outcome for each event. Each packet that is Bad has a cause that reading gives.
///
/// The outcomes are read off the events alone (`verdicts`). For a scheme to which the turn doesn't matter, two packets of
/// one flow that were sent to different backends were chosen under versions that pick these backends. So those versions
/// differ for the flow. This holds for any workers of any nodes in any lives (`agreement`). A worker keeps a flow's backend
/// while the flow's entry stands and the backend is up or drains (`keeping`), and so while it is up (`keeping_ups`). What
/// left the queues is no more than what was placed (`balance`).
///
/// Whatever the scheme is, every slot of the table that Maglev makes of a service of the catalogue names an up backend.
/// Backends' slot counts are in proportion to their weights; of equal weights they differ by at most one (`slots`). No slot
/// names a member that drains (`none_drains`).
pub fn replay<S: Scheme, H: FlowHash, T: ConnTable>(
    alloc: Global,
    setup: &Setup<S, H>,
    catalogue: &Catalogue,
    packets: &[Packet],
    events: &[Event],
) -> Result<Vec<Outcome>, AllocError>
    requires size { catalogue.now.size ≡ setup.now.size }
    requires read { (k : ℕ) (p : Packet) → slice_get packets.now k ≡ Some p → WasRead (Some p) }
    ensures verdicts { let rules = rules_for (λ s z. S.pick s z) (λ h. H.plain h) setup.now catalogue.now in
        IfOk result (λ v. v.items ≡ verdicts rules [] packets.now events.now) }
    ensures agreement { let rules = rules_for (λ s z. S.pick s z) (λ h. H.plain h) setup.now catalogue.now in
        S.STEADY ≡ true → IfOk result (λ v. Agreement rules v.items) }
    ensures keeping { let rules = rules_for (λ s z. S.pick s z) (λ h. H.plain h) setup.now catalogue.now in
        IfOk result (λ v. Keeping rules [] packets.now events.now v.items) }
    ensures keeping_ups { let rules = rules_for (λ s z. S.pick s z) (λ h. H.plain h) setup.now catalogue.now in
        IfOk result (λ v. KeepingUps rules [] packets.now events.now v.items) }
    // what `totals` and `explain` ask of outcomes
    ensures balance { IfOk result (λ v. went_all v.items ≤ came_all v.items) }
    ensures picked { let rules = rules_for (λ s z. S.pick s z) (λ h. H.plain h) setup.now catalogue.now in
        S.STEADY ≡ true → IfOk result (λ v. PickedSends rules v.items) }
    ensures slots { TablesAreEven (H.plain setup.now.hash) setup.now.size catalogue.now }
    ensures none_drains { NoSlotDrains (H.plain setup.now.hash) setup.now.size catalogue.now }
{
    let _slots = setup.size().slots();
    catalogue.keeps_doubles_out();
    replay_all::<S, H, T>(alloc, setup, catalogue, packets, events)
}

// The outcomes, one after another.
fn replay_all<S: Scheme, H: FlowHash, T: ConnTable>(
    alloc: Global,
    setup: &Setup<S, H>,
    catalogue: &Catalogue,
    packets: &[Packet],
    events: &[Event],
) -> Result<Vec<Outcome>, AllocError>
    requires size { catalogue.now.size ≡ setup.now.size }
    requires read { (k : ℕ) (p : Packet) → slice_get packets.now k ≡ Some p → WasRead (Some p) }
    ensures balance { IfOk result (λ v. went_all v.items ≤ came_all v.items) }
    ensures verdicts { let rules = rules_for (λ s z. S.pick s z) (λ h. H.plain h) setup.now catalogue.now in
        IfOk result (λ v. v.items ≡ verdicts rules [] packets.now events.now) }
{
    let mut run: Run<S, T> = Run::make(alloc, setup)?;
    let mut outcomes = Vec::with_capacity(alloc, count_of(events))?;
    for event in events {
        let outcome = run.step(setup, catalogue, event, packet_at(packets, event))?;
        outcomes.push(outcome)?;
    }
    Ok(outcomes)
}
