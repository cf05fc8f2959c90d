//! Whether a record agrees with a replay of its events.
ghost use Rattle.std.specs.Prelude.{◌≡◌, ◌↔◌, [], ℕ, Some, IfOk, IsTrue, slice_get};
ghost use Rattle.cluster_node.specs.declared.packets.Packet.{Packet};
ghost use Rattle.cluster_node.specs.Records.{WasRead};
ghost use Rattle.cluster_core.specs.Setups.{rules_for};
ghost use Rattle.cluster_core.specs.Runs.{verdicts};

use crate::merging::is_same;
use crate::nodes::{History, NodeRecord, Recorded};
use cluster_core::{Run, Setup, packet_at};
use cluster_node::{Outcome, Packet};
use connection_table::ConnTable;
use hash_laws::FlowHash;
use pool_versions::Catalogue;
use selection::Scheme;
use std::alloc::{AllocError, Global};

/// Whether the outcome of the event at a place is this one.
pub fn is_told<N: Recorded>(node: &N, place: usize, outcome: &Outcome) -> bool
    ensures { IsTrue result ↔ (slice_get (N.outcomes_of node.now) place ≡ Some outcome.now) }
{
    match node.outcome_at(place) {
        Some(told) => is_same(&told, outcome),
        None => false,
    }
}

/// Whether a replay of the events, on tables of its own, gives the outcomes. Each is compared as it comes, so that no second list
/// is made. The packets were read, and the catalogue is one for the cluster's table size.
pub fn agrees<S: Scheme, H: FlowHash, T: ConnTable, N: Recorded>(
    alloc: Global,
    setup: &Setup<S, H>,
    catalogue: &Catalogue,
    packets: &[Packet],
    node: &N,
) -> Result<bool, AllocError>
    requires size { catalogue.now.size ≡ setup.now.size }
    requires read { (k : ℕ) (p : Packet) → slice_get packets.now k ≡ Some p → WasRead (Some p) }
    ensures { let rules = rules_for (λ s z. S.pick s z) (λ h. H.plain h) setup.now catalogue.now in
        IfOk result (λ b. IsTrue b ↔ (N.outcomes_of node.now ≡ verdicts rules [] packets.now (N.events_of node.now))) }
{
    let mut run: Run<S, T> = Run::make(alloc, setup)?;
    let events = node.history();
    let many = events.len();
    let mut agree = many == node.outcome_count();
    for at in 0..many {
        let event = &events[at];
        let outcome = run.step(setup, catalogue, event, packet_at(packets, event))?;
        agree = agree & is_told(node, at, &outcome);
    }
    Ok(agree)
}

impl NodeRecord {
    /// Whether the outcomes are those of the events in this cluster, one after another: the events are replayed on tables of
    /// their own. The packets were read, and the catalogue is one for the cluster's table size.
    pub fn audit<S: Scheme, H: FlowHash, T: ConnTable>(
        &self,
        alloc: Global,
        setup: &Setup<S, H>,
        catalogue: &Catalogue,
        packets: &[Packet],
    ) -> Result<bool, AllocError>
        requires size { catalogue.now.size ≡ setup.now.size }
        requires read { (k : ℕ) (p : Packet) → slice_get packets.now k ≡ Some p → WasRead (Some p) }
        ensures { let rules = rules_for (λ s z. S.pick s z) (λ h. H.plain h) setup.now catalogue.now in
            IfOk result (λ b. IsTrue b ↔ (self.now.outcomes.items ≡ verdicts rules [] packets.now self.now.events.items)) }
    {
        agrees::<S, H, T, NodeRecord>(alloc, setup, catalogue, packets, self)
    }
}

impl History {
    /// The same of all nodes: whether the outcomes are those of the events in this cluster.
    pub fn audit<S: Scheme, H: FlowHash, T: ConnTable>(
        &self,
        alloc: Global,
        setup: &Setup<S, H>,
        catalogue: &Catalogue,
        packets: &[Packet],
    ) -> Result<bool, AllocError>
        requires size { catalogue.now.size ≡ setup.now.size }
        requires read { (k : ℕ) (p : Packet) → slice_get packets.now k ≡ Some p → WasRead (Some p) }
        ensures { let rules = rules_for (λ s z. S.pick s z) (λ h. H.plain h) setup.now catalogue.now in
            IfOk result (λ b. IsTrue b ↔ (self.now.outcomes.items ≡ verdicts rules [] packets.now self.now.events.items)) }
    {
        agrees::<S, H, T, History>(alloc, setup, catalogue, packets, self)
    }
}
