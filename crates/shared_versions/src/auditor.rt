//! Replays of recorded histories, all on versions that were prepared once.
ghost use Rattle.std.specs.Prelude.{◌≡◌, ◌↔◌, [], ℕ, true, Some, IfOk, IsTrue, slice_get};
ghost use Rattle.cluster_node.specs.declared.packets.Packet.{Packet};
ghost use Rattle.cluster_node.specs.Records.{WasRead};
ghost use Rattle.cluster_core.specs.Deployed.{Deployed, rules_of};
ghost use Rattle.cluster_core.specs.Setups.{rules_for};
ghost use Rattle.cluster_core.specs.Runs.{AreGood, verdicts};
ghost use Rattle.shared_versions.specs.PrivateHeld.{is_held, are_held};

use crate::replay::Replay;
use crate::shared::SharedVersions;
use cluster_core::{Setup, packet_at};
use cluster_node::{Event, Packet};
use connection_table::ConnTable;
use hash_laws::FlowHash;
use pool_versions::Catalogue;
use selection::{PreparedVersion, PreparedVersions, Scheme};
use std::alloc::{AllocError, Global};
use std::fmt;
use std::marker::Model;
use thread_records::{Recorded, agrees, is_told};

/// A cluster, with versions of its catalogue that were prepared for it. Histories of its nodes are replayed on them, any number at
/// once.
#[derive(Drop)]
pub struct Auditor<'e, S: Scheme, H: FlowHash> {
    setup: &'e Setup<S, H>,
    catalogue: &'e Catalogue,
    versions: PreparedVersions<S>,
}

impl<'e, S: Scheme, H: FlowHash> Model for Auditor<'e, S, H> {
    ghost use Rattle.std.specs.Prelude.{◌≡◌};
    ghost use Rattle.cluster_core.specs.Deployed.{Deployed};
    ghost use Rattle.cluster_core.specs.Setups.{rules_for};
    ghost use Rattle.cluster_core.specs.Runs.{AreGood};

    ghost Value = { Deployed S H };

    ghost view = { λ a. record { setup = a.setup.now; catalogue = a.catalogue.now } };

    ghost invariant = { λ a. (a.catalogue.now.size ≡ a.setup.now.size)
        × AreGood (λ s z. S.pick s z) (rules_for (λ s z. S.pick s z) (λ h. H.plain h) a.setup.now a.catalogue.now) a.versions };
}

impl<S: Scheme, H: FlowHash> fmt::Debug for Auditor<'_, S, H> {
    fn fmt<W: fmt::Write>(&self, f: &mut fmt::Formatter<W>) -> fmt::Result {
        f.debug_struct("Auditor")
            .field("versions", &self.versions)
            .finish_non_exhaustive()
    }
}

// Whether the version that an event installs is among these, if the catalogue has it.
fn is_held<S: Scheme>(catalogue: &Catalogue, versions: &PreparedVersions<S>, event: &Event) -> bool
    ensures { result ≡ is_held catalogue.now versions.now event.now }
{
    match *event {
        Event::Install { version, .. } => match catalogue.get(version) {
            None => true,
            Some(_) => versions.find(version).is_some(),
        },
        _ => true,
    }
}

// Whether all of them are.
fn are_held<S: Scheme>(
    catalogue: &Catalogue,
    versions: &PreparedVersions<S>,
    events: &[Event],
) -> bool
    ensures { result ≡ are_held catalogue.now versions.now events.now }
{
    events
        .iter()
        .all(|event| is_held(catalogue, versions, event))
}

// Whether a replay of the events over these versions gives the outcomes. Each is compared as it comes, so that no second list is
// made.
fn agrees_over<S: Scheme, H: FlowHash, T: ConnTable, N: Recorded>(
    alloc: Global,
    setup: &Setup<S, H>,
    catalogue: &Catalogue,
    versions: &PreparedVersions<S>,
    node: &N,
    packets: &[Packet],
) -> Result<bool, AllocError>
    requires good { AreGood (λ s z. S.pick s z) (rules_for (λ s z. S.pick s z) (λ h. H.plain h) setup.now catalogue.now) versions.now }
    requires held { are_held catalogue.now versions.now (N.events_of node.now) ≡ true }
    requires read { (k : ℕ) (p : Packet) → slice_get packets.now k ≡ Some p → WasRead (Some p) }
    ensures { let rules = rules_for (λ s z. S.pick s z) (λ h. H.plain h) setup.now catalogue.now in
        IfOk result (λ b. IsTrue b ↔ (N.outcomes_of node.now ≡ verdicts rules [] packets.now (N.events_of node.now))) }
{
    let events = node.history();
    let mut replay: Replay<'_, S, T> = Replay::make(alloc, setup, catalogue, versions)?;
    let many = events.len();
    let mut agree = many == node.outcome_count();
    for at in 0..many {
        let event = &events[at];
        let outcome = replay.step(setup, catalogue, event, packet_at(packets, event))?;
        agree = agree & is_told(node, at, &outcome);
    }
    Ok(agree)
}

impl<'e, S: Scheme, H: FlowHash> Auditor<'e, S, H> {
    /// A cluster, with the shared versions of its catalogue. The catalogue is one for the cluster's table size. Of each version
    /// there is another list of its services, and no further table.
    pub fn new(
        alloc: Global,
        setup: &'e Setup<S, H>,
        catalogue: &'e Catalogue,
        shared: &SharedVersions<S>,
    ) -> Result<Auditor<'e, S, H>, AllocError>
        requires size { catalogue.now.size ≡ setup.now.size }
        ensures { IfOk result (λ a. a ≡ record { setup = setup.now; catalogue = catalogue.now }) }
    {
        let mut auditor = Auditor {
            setup,
            catalogue,
            versions: PreparedVersions::new(alloc),
        };
        for version in catalogue.versions() {
            auditor.take(alloc, shared, version.number)?;
        }
        Ok(auditor)
    }

    // The version of a number, if it is shared. What it has in common with the shared one is shared with that.
    fn take(
        &mut self,
        alloc: Global,
        shared: &SharedVersions<S>,
        number: u32,
    ) -> Result<(), AllocError>
        ensures { self.new ≡ self.old }
    {
        let Some(before) = shared.find(number) else {
            return Ok(());
        };
        let Some(version) = self.catalogue.get(number) else {
            return Ok(());
        };
        let setup = self.setup;
        let made = PreparedVersion::make_after(
            alloc,
            &setup.scheme(),
            setup.size(),
            version,
            before,
        );
        // A version of a catalogue has no more backends than slots, so memory was refused here.
        let Ok(prepared) = made else {
            return Err(AllocError);
        };
        if self.versions.find(number).is_some() {
            return Ok(());
        }
        self.versions.put(prepared)
    }

    /// Whether a node's outcomes are those of its events in this cluster, one after another, as
    /// [`NodeRecord::audit`](thread_records::NodeRecord::audit) has it. A record that installs another version of the catalogue
    /// than those that were shared is replayed on versions of its own. The packets were read.
    pub fn agrees<T: ConnTable, N: Recorded>(
        &self,
        alloc: Global,
        node: &N,
        packets: &[Packet],
    ) -> Result<bool, AllocError>
        requires read { (k : ℕ) (p : Packet) → slice_get packets.now k ≡ Some p → WasRead (Some p) }
        ensures { let rules = rules_of (λ s z. S.pick s z) (λ h. H.plain h) self.now in
            IfOk result (λ b. IsTrue b ↔ (N.outcomes_of node.now ≡ verdicts rules [] packets.now (N.events_of node.now))) }
    {
        let Auditor {
            setup,
            catalogue,
            versions,
        } = self;
        if are_held(catalogue, versions, node.history()) {
            agrees_over::<S, H, T, N>(alloc, setup, catalogue, versions, node, packets)
        } else {
            agrees::<S, H, T, N>(alloc, setup, catalogue, packets, node)
        }
    }
}
