//! A cluster under events that are learnt one by one, over versions that were prepared before.
ghost use Rattle.std.specs.Prelude.{◌≡◌, ◌<◌, ◌^◌, [], true, List, length, replicate, IfOk, Option, option_copied};
ghost use Rattle.cluster_node.specs.declared.events.LogEntry.{LogEntry};
ghost use Rattle.cluster_node.specs.Record.{fresh};
ghost use Rattle.cluster_node.specs.Records.{WasRead, node_of};
ghost use Rattle.cluster_core.specs.Setups.{rules_for};
ghost use Rattle.cluster_core.specs.RunView.{RunView};
ghost use Rattle.cluster_core.specs.Runs.{AreGood, RunStands, RunGoes, is_known_in};
ghost use Rattle.shared_versions.specs.PrivateHeld.{is_held};

use cluster_core::Setup;
use cluster_node::{Event, Node, Outcome, Packet, Reason};
use connection_table::ConnTable;
use hash_laws::FlowHash;
use pool_versions::Catalogue;
use selection::{PreparedVersions, Scheme};
use std::alloc::{AllocError, Global};
use std::fmt;
use std::marker::Model;

/// A cluster's nodes, and the versions that they may serve under, which are lent.
#[derive(Drop)]
pub(crate) struct Replay<'v, S: Scheme, T: ConnTable> {
    nodes: Vec<Node<S, T>>,
    versions: &'v PreparedVersions<S>,
}

impl<'v, S: Scheme, T: ConnTable> Model for Replay<'v, S, T> {
    ghost use Rattle.std.specs.Prelude.{false};
    ghost use Rattle.cluster_core.specs.RunView.{RunView};

    ghost Value = { RunView S };

    ghost view = { λ r. record { failed = false; nodes = r.nodes.items; versions = r.versions.now } };
}

impl<S: Scheme, T: ConnTable> fmt::Debug for Replay<'_, S, T> {
    fn fmt<W: fmt::Write>(&self, f: &mut fmt::Formatter<W>) -> fmt::Result {
        f.debug_struct("Replay")
            .field("nodes", &self.nodes)
            .finish_non_exhaustive()
    }
}

// The node that an event names.
fn node_at(event: &Event) -> u16
    ensures { result ≡ node_of event.now }
{
    match *event {
        Event::Install { node, .. } => node,
        Event::Arrive { node, .. } => node,
        Event::Serve { node, .. } => node,
        Event::Restart { node } => node,
    }
}

// Whether the catalogue has the version that an event installs.
fn is_known(catalogue: &Catalogue, event: &Event) -> bool
    ensures { result ≡ is_known_in catalogue.now event.now }
{
    match *event {
        Event::Install { version, .. } => catalogue.get(version).is_some(),
        _ => false,
    }
}

// Nodes on which nothing has happened.
fn fresh_nodes<S: Scheme, H: FlowHash, T: ConnTable>(
    alloc: Global,
    setup: &Setup<S, H>,
) -> Result<Vec<Node<S, T>>, AllocError>
    ensures fresh { IfOk result (λ v. v.items ≡ replicate (length setup.now.nodes) (record {
      newest = 0;
      installed = [];
      cursor = 0;
      workers = replicate setup.now.workers (fresh setup.now.capacity setup.now.idle);
    })) }
    ensures workers { 0 < setup.now.workers }
{
    let workers = setup.workers();
    let mut nodes = Vec::new(alloc);
    for _ in 0..setup.nodes().len() {
        nodes.push(Node::make(
            alloc,
            setup.scheme(),
            setup.capacity(),
            setup.key(),
            workers,
            setup.idle(),
        )?)?;
    }
    Ok(nodes)
}

impl<'v, S: Scheme, T: ConnTable> Replay<'v, S, T> {
    /// A cluster in which nothing has happened, over these versions. It represents the empty record.
    pub(crate) fn make<H: FlowHash>(
        alloc: Global,
        setup: &Setup<S, H>,
        catalogue: &Catalogue,
        versions: &'v PreparedVersions<S>,
    ) -> Result<Self, AllocError>
        ensures stands { let rules = rules_for (λ s z. S.pick s z) (λ h. H.plain h) setup.now catalogue.now in
            AreGood (λ s z. S.pick s z) rules versions.now → IfOk result (RunStands (λ s z. S.pick s z) rules []) }
        ensures versions { IfOk result (λ r. r.versions ≡ versions.now) }
    {
        let _ = catalogue.size();
        let nodes = fresh_nodes(alloc, setup)?;
        Ok(Replay { nodes, versions })
    }

    /// One event, after all before it, with the packet that it names if it is an arrival. The version that it installs is among
    /// those that are lent, if the catalogue has it.
    pub(crate) fn step<H: FlowHash>(
        &mut self,
        setup: &Setup<S, H>,
        catalogue: &Catalogue,
        event: &Event,
        packet: Option<&Packet>,
    ) -> Result<Outcome, AllocError>
        requires read { WasRead (option_copied packet) }
        ensures verdict { let rules = rules_for (λ s z. S.pick s z) (λ h. H.plain h) setup.now catalogue.now in
            (past : List LogEntry) → length past < 2 ^ 64 → is_held catalogue.now self.old.versions event.now ≡ true →
            RunStands (λ s z. S.pick s z) rules past self.old →
            IfOk result (λ o. RunGoes (λ s z. S.pick s z) rules past event.now (option_copied packet.entry) o self.new) }
        ensures versions { self.new.versions ≡ self.old.versions }
    {
        let at = node_at(event) as usize;
        if at >= self.nodes.len() {
            return Ok(Outcome::Refused(Reason::NoNode));
        }
        let known = is_known(catalogue, event);
        let one = &mut self.nodes[at];
        one.step(&setup.hash(), self.versions, known, *event, packet.copied())
    }
}
