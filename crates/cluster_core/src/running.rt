//! A cluster under events that are learnt one by one.
ghost use Rattle.std.specs.Prelude.{◌≡◌, ◌<◌, ◌^◌, [], true, false, List, length, Option, Some, None, IsTrue, IfOk, OnOk, OnErr, IsErr};
ghost use Rattle.std.specs.Prelude.{option_copied, slice_get, replicate, is_some};
ghost use Rattle.pool_versions.specs.Pool.{Pools};
ghost use Rattle.cluster_node.specs.Rules.{Rules};
ghost use Rattle.cluster_node.specs.declared.events.LogEntry.{LogEntry};
ghost use Rattle.cluster_node.specs.Record.{fresh, newest_of};
ghost use Rattle.cluster_core.specs.Setups.{rules_for};
ghost use Rattle.cluster_core.specs.RunView.{RunView};
ghost use Rattle.cluster_core.specs.Runs.{prepared_with, prepared_above, prepared_for, is_known_in, newest_at, queued_at, cluster_by, RunStands, RunGoes};
ghost use Rattle.cluster_core.specs.Runs.{RunPasses};
ghost use Rattle.cluster_core.specs.Cluster.{newest_on, waiting_on};
ghost use Rattle.cluster_node.specs.declared.events.Event.TheVariants.{Arrive, Serve};
ghost use Rattle.cluster_node.specs.Records.{WasRead, node_of};

use crate::fixed::Setup;
use backend_names::TableSize;
use cluster_node::{Event, Node, Outcome, Packet, Passed, Reason};
use connection_table::ConnTable;
use hash_laws::FlowHash;
use pool_versions::{Catalogue, Version};
use selection::{PreparedVersions, Scheme};
use std::alloc::{AllocError, Global};
use std::fmt;
use std::marker::Model;

/// A cluster under events that are learnt one by one. A version of the catalogue is prepared once, when it is first
/// installed.
#[derive(Drop)]
pub struct Run<S: Scheme, T: ConnTable> {
    alloc: Global,
    failed: bool,
    nodes: Vec<Node<S, T>>,
    versions: PreparedVersions<S>,
}

impl<S: Scheme, T: ConnTable> Model for Run<S, T> {
    ghost use Rattle.cluster_core.specs.RunView.{RunView};

    ghost Value = { RunView S };

    ghost view = { λ r. record { failed = r.failed; nodes = r.nodes.items; versions = r.versions } };
}

impl<S: Scheme, T: ConnTable> fmt::Debug for Run<S, T> {
    fn fmt<W: fmt::Write>(&self, f: &mut fmt::Formatter<W>) -> fmt::Result {
        f.debug_struct("Run")
            .field("failed", &self.failed)
            .field("nodes", &self.nodes)
            .field("versions", &self.versions)
            .finish_non_exhaustive()
    }
}

// The node that an event names.
pub(crate) fn node_at(event: &Event) -> u16
    ensures { result ≡ node_of event.now }
{
    match *event {
        Event::Install { node, .. } => node,
        Event::Arrive { node, .. } => node,
        Event::Serve { node, .. } => node,
        Event::Restart { node } => node,
    }
}

// Prepares a version unless that was done before. The newest is in front.
fn prepare<S: Scheme>(
    alloc: Global,
    versions: &mut PreparedVersions<S>,
    scheme: &S,
    size: TableSize,
    version: &Version,
) -> Result<(), AllocError>
    ensures { OnOk result (versions.new ≡ prepared_with scheme.now size version.now versions.old) }
{
    if versions.find(version.number).is_some() {
        return Ok(());
    }
    match versions.prepare(alloc, scheme, size, version) {
        Ok(()) => Ok(()),
        // A version of a catalogue has no more backends than slots, so memory was refused here.
        Err(_) => Err(AllocError),
    }
}

/// Prepares a version of the catalogue that is above a node's newest, unless that was done before: then it goes in front of
/// the others. A version that isn't above it is refused there, and so isn't prepared.
pub fn prepare_newer<S: Scheme>(
    alloc: Global,
    versions: &mut PreparedVersions<S>,
    scheme: &S,
    size: TableSize,
    newest: u32,
    version: &Version,
) -> Result<(), AllocError>
    ensures { OnOk result (versions.new ≡ prepared_above scheme.now size newest version.now versions.old) }
{
    if version.number <= newest {
        return Ok(());
    }
    prepare(alloc, versions, scheme, size, version)
}

// Prepares the version that an event installs on a node of this newest version, and says whether the catalogue has it.
fn prepare_for<S: Scheme>(
    alloc: Global,
    versions: &mut PreparedVersions<S>,
    scheme: &S,
    size: TableSize,
    catalogue: &Catalogue,
    newest: u32,
    event: &Event,
) -> Result<bool, AllocError>
    ensures known { IfOk result (λ known. known ≡ is_known_in catalogue.now event.now) }
    ensures after { OnOk result (versions.new ≡ prepared_for scheme.now size catalogue.now newest event.now versions.old) }
{
    match *event {
        Event::Install { version, .. } => match catalogue.get(version) {
            None => Ok(false),
            Some(found) => {
                prepare_newer(alloc, versions, scheme, size, newest, found)?;
                Ok(true)
            }
        },
        _ => Ok(false),
    }
}

impl<S: Scheme, T: ConnTable> Run<S, T> {
    /// A cluster in which nothing has happened. It represents the empty record.
    pub fn make<H: FlowHash>(alloc: Global, setup: &Setup<S, H>) -> Result<Self, AllocError>
        ensures fresh { IfOk result (λ r. r ≡ record {
          failed = false;
          nodes = replicate (length setup.now.nodes) (record {
            newest = 0;
            installed = [];
            cursor = 0;
            workers = replicate setup.now.workers (fresh setup.now.capacity setup.now.idle);
          });
          versions = [];
        }) }
        ensures stands { (pools : Pools) → IfOk result (λ r.
            RunStands (λ s z. S.pick s z) (rules_for (λ s z. S.pick s z) (λ h. H.plain h) setup.now pools) [] r) }
    {
        Self::make_fresh(alloc, setup)
    }

    fn make_fresh<H: FlowHash>(alloc: Global, setup: &Setup<S, H>) -> Result<Self, AllocError>
        ensures fresh { IfOk result (λ r. r ≡ record {
          failed = false;
          nodes = replicate (length setup.now.nodes) (record {
            newest = 0;
            installed = [];
            cursor = 0;
            workers = replicate setup.now.workers (fresh setup.now.capacity setup.now.idle);
          });
          versions = [];
        }) }
        ensures workers { 0 < setup.now.workers }
    {
        let workers = setup.workers();
        let mut nodes = Vec::new(alloc);
        for _ in 0..setup.nodes().len() {
            nodes.push(Node::make(
                alloc,
                setup.scheme(),
                setup.capacity(),
                setup.key(),
                workers,
                setup.idle(),
            )?)?;
        }
        Ok(Run {
            alloc,
            failed: false,
            nodes,
            versions: PreparedVersions::new(alloc),
        })
    }

    /// A node's newest version, 0 where there is none.
    pub fn newest(&self, node: u16) -> u32
        ensures kept { result ≡ newest_at (slice_get self.now.nodes node) }
        ensures said { (rules : Rules) → (past : List LogEntry) → RunStands (λ s z. S.pick s z) rules past self.now →
            result ≡ newest_on (cluster_by rules) node past }
    {
        self.newest_of(node)
    }

    fn newest_of(&self, node: u16) -> u32
        ensures { result ≡ newest_at (slice_get self.now.nodes node) }
    {
        match self.nodes.get(node as usize) {
            Some(one) => one.newest(),
            None => 0,
        }
    }

    /// How many packets wait at a worker of a node.
    pub fn waiting(&self, node: u16, worker: u16) -> usize
        ensures kept { result ≡ queued_at worker (slice_get self.now.nodes node) }
        ensures said { (rules : Rules) → (past : List LogEntry) → RunStands (λ s z. S.pick s z) rules past self.now →
            result ≡ waiting_on (cluster_by rules) node worker past }
    {
        self.waiting_of(node, worker)
    }

    fn waiting_of(&self, node: u16, worker: u16) -> usize
        ensures { result ≡ queued_at worker (slice_get self.now.nodes node) }
    {
        match self.nodes.get(node as usize) {
            Some(one) => one.waiting(worker),
            None => 0,
        }
    }

    /// One event, after all before it, with the packet that it names if it is an arrival. The setup and the catalogue are
    /// the same in every step. Once memory was refused it is refused from then on.
    ///
    /// By the clause `verdict` the outcome is the one that the record gives, for every record shorter than 2^64 that the run
    /// represents. The run then represents the record with this event.
    pub fn step<H: FlowHash>(
        &mut self,
        setup: &Setup<S, H>,
        catalogue: &Catalogue,
        event: &Event,
        packet: Option<&Packet>,
    ) -> Result<Outcome, AllocError>
        requires size { catalogue.now.size ≡ setup.now.size }
        requires read { WasRead (option_copied packet) }
        ensures verdict { let rules = rules_for (λ s z. S.pick s z) (λ h. H.plain h) setup.now catalogue.now in
            (past : List LogEntry) → length past < 2 ^ 64 → RunStands (λ s z. S.pick s z) rules past self.old →
            IfOk result (λ o. RunGoes (λ s z. S.pick s z) rules past event.now (option_copied packet.entry) o self.new) }
        ensures refused { OnErr result (IsTrue self.new.failed) }
        ensures failed { IsTrue self.old.failed → IsErr result }
    {
        if self.failed {
            return Err(AllocError);
        }
        match self.advance(setup, catalogue, event, packet.copied()) {
            Ok(outcome) => Ok(outcome),
            Err(refusal) => {
                self.failed = true;
                Err(refusal)
            }
        }
    }

    // One event, after all before it.
    fn advance<H: FlowHash>(
        &mut self,
        setup: &Setup<S, H>,
        catalogue: &Catalogue,
        event: &Event,
        packet: Option<Packet>,
    ) -> Result<Outcome, AllocError>
        requires { WasRead packet }
        ensures verdict { let rules = rules_for (λ s z. S.pick s z) (λ h. H.plain h) setup.now catalogue.now in
            (past : List LogEntry) → length past < 2 ^ 64 → RunStands (λ s z. S.pick s z) rules past self.old →
            IfOk result (λ o. RunGoes (λ s z. S.pick s z) rules past event.now packet o self.new) }
    {
        let at = node_at(event) as usize;
        if at >= self.nodes.len() {
            return Ok(Outcome::Refused(Reason::NoNode));
        }
        let newest = self.newest_of(node_at(event));
        let known = prepare_for(
            self.alloc,
            &mut self.versions,
            &setup.scheme(),
            setup.size(),
            catalogue,
            newest,
            event,
        )?;
        let one = &mut self.nodes[at];
        one.step(&setup.hash(), &self.versions, known, *event, packet)
    }

    /// A packet arrives at a node, and where it is placed its worker serves at once under the node's newest version. The
    /// setup is the same in every step. What became of the packet is written into `passed`, the caller's room. Once memory
    /// was refused it is refused from then on, and nothing is said of `passed`.
    ///
    /// By the clause `verdict`, for every record that the run represents, what is reported is what the record gives of the
    /// arrival and of the serving after it. The run then represents the record with both: it is what two calls of
    /// [`step`](Self::step) do.
    #[inline(always)]
    pub fn pass<H: FlowHash>(
        &mut self,
        setup: &Setup<S, H>,
        node: u16,
        packet: u32,
        refused: &[bool; 16],
        body: &Packet,
        passed: &mut Passed,
    ) -> Result<(), AllocError>
        requires read { WasRead (Some body.now) }
        ensures verdict { (pools : Pools) (past : List LogEntry) → let rules = rules_for (λ s z. S.pick s z) (λ h. H.plain h) setup.now pools in
            RunStands (λ s z. S.pick s z) rules past self.old →
            OnOk result (RunPasses (λ s z. S.pick s z) rules past (Arrive node packet refused.now) body.now
            (λ w. Serve node w (newest_at (slice_get self.old.nodes node)) false) passed.new self.new) }
        ensures refused { OnErr result (IsTrue self.new.failed) }
        ensures failed { IsTrue self.old.failed → IsErr result }
    {
        if self.failed {
            return Err(AllocError);
        }
        let done = self.advance_by(setup, node, packet, refused, body, passed);
        if done.is_err() {
            self.failed = true;
        }
        done
    }

    // A packet arrives at a node.
    #[inline(always)]
    fn advance_by<H: FlowHash>(
        &mut self,
        setup: &Setup<S, H>,
        node: u16,
        packet: u32,
        refused: &[bool; 16],
        body: &Packet,
        passed: &mut Passed,
    ) -> Result<(), AllocError>
        requires { WasRead (Some body.now) }
        ensures { (pools : Pools) (past : List LogEntry) → let rules = rules_for (λ s z. S.pick s z) (λ h. H.plain h) setup.now pools in
            RunStands (λ s z. S.pick s z) rules past self.old →
            OnOk result (RunPasses (λ s z. S.pick s z) rules past (Arrive node packet refused.now) body.now
            (λ w. Serve node w (newest_at (slice_get self.old.nodes node)) false) passed.new self.new) }
    {
        let at = node as usize;
        if at >= self.nodes.len() {
            *passed = Passed::Unplaced(Outcome::Refused(Reason::NoNode));
            return Ok(());
        }
        let one = &mut self.nodes[at];
        one.pass(
            &setup.hash(),
            &self.versions,
            node,
            packet,
            refused,
            body,
            passed,
        )
    }
}
