//! A cluster on threads: each node's run, with its driver in a thread of its own.
ghost use Rattle.std.specs.Prelude.{◌≡◌, ◌≤◌, ◌<◌, ◌++◌, ◌∷◌, [], ℕ, List, ◌↔◌};
ghost use Rattle.std.specs.Prelude.{length, map, true, Option, None, Some, Ok, IfOk, IfErr, IfSome, IsSomeAnd, IsTrue, MatchResult, All, slice_get};
ghost use Rattle.std.specs.Prelude.{slice_index_or};
ghost use Rattle.stats_book.specs.Moves.{IsSum};
ghost use Rattle.cluster_core.specs.Setups.{rules_for};
ghost use Rattle.cluster_core.specs.Headline.{Agreement, Keeping};
ghost use Rattle.cluster_core.specs.Histories.{IsSteady};
ghost use Rattle.cluster_core.specs.Runs.{verdicts};
ghost use Rattle.cluster_node.specs.declared.packets.Packet.{Packet};
ghost use Rattle.cluster_node.specs.Records.{WasRead};
ghost use Rattle.thread_records.specs.declared.nodes.NodeRecord.{NodeRecord};
ghost use Rattle.thread_records.specs.Joins.{all_outcomes};
ghost use Rattle.thread_records.specs.Paced.{NoneRefused};
ghost use Rattle.thread_records.specs.Runs.{AreRuns, JoinsRuns};
ghost use Rattle.thread_roles.specs.Assigned.{asked_in};
ghost use Rattle.thread_roles.specs.Counts.{AreRead, AreTotals};
ghost use Rattle.thread_roles.specs.Faults.{IsRefusal};
ghost use Rattle.thread_roles.specs.declared.fault.RunFault.{RunFault};
ghost use Rattle.node_threads.specs.declared.run.LeanRun.{LeanRun};
ghost use Rattle.node_threads.specs.Handed.{IsCounted};
ghost use Rattle.node_threads.specs.Orders.{asked_all, asked_each, asked_one};
ghost use Rattle.node_threads.specs.PrivateClusters.{AreNumbered, AreCounted, fault_in, IsSumUp};
ghost use Rattle.node_threads.specs.Reported.{ClusterTells};
ghost use Rattle.node_threads.specs.Told.{NodeTells};

use crate::node::run_order;
use crate::order::{ClusterOrder, OfNode, RingRules};
use crate::run::LeanRun;
use cluster_core::Setup;
use cluster_node::{Event, Outcome, Packet};
use connection_table::ConnTable;
use hash_laws::FlowHash;
use pool_versions::Catalogue;
use selection::Scheme;
use shared_versions::{Auditor, SharedVersions, audit_nodes};
use stats_book::Stats;
use std::alloc::{AllocError, Global};
use std::sync::Wait;
use std::thread;
use std::thread::{Promise, PromisedHandle, Scope, Threads};
use thread_records::{Command, History, LeanRecord, NodeRecord, join_runs, open_all};
use thread_roles::{Gate, RunFault, first_of};

/// What the nodes of a cluster did, each for itself.
#[derive(Debug, Drop)]
pub struct NodesRun {
    /// Each node's own record as it is kept, in the order of the nodes.
    pub nodes: Vec<LeanRecord>,
    /// The counts of the run.
    pub stats: Stats,
}

/// What the nodes of a cluster did.
#[derive(Debug, Drop)]
pub struct ClusterRun {
    /// Each node's own record, in the order of the nodes.
    pub nodes: Vec<NodeRecord>,
    /// One history of all nodes, node by node.
    pub history: History,
    /// The counts of the run.
    pub stats: Stats,
}

impl ClusterRun {
    /// The events of all nodes, those of node 0 in front.
    pub fn history(&self) -> &[Event]
        ensures { result.now ≡ self.now.history.events.items }
    {
        self.history.events.as_slice()
    }

    /// The outcome of each event.
    pub fn outcomes(&self) -> &[Outcome]
        ensures { result.now ≡ self.now.history.outcomes.items }
    {
        self.history.outcomes.as_slice()
    }

    /// What a node that is there sent: for each of its lives the packets in the order in which they were gathered.
    pub fn sent(&self, node: u16) -> &[Vec<Outcome>]
        requires { node < length self.now.nodes.items }
        ensures { (d : NodeRecord) → result.now ≡ (slice_index_or self.now.nodes.items node d).sent.items }
    {
        self.nodes[node as usize].sent.as_slice()
    }

    /// The counts of the run.
    pub fn stats(&self) -> Stats
        ensures { result ≡ self.now.stats }
    {
        self.stats
    }

    /// Whether the outcomes are those of the events in this cluster, one after another: the events are replayed on tables of
    /// their own. The packets were read, and the catalogue is one for the cluster's table size. So it is true of what the
    /// run itself was given.
    pub fn audit<S: Scheme, H: FlowHash, T: ConnTable>(
        &self,
        alloc: Global,
        setup: &Setup<S, H>,
        catalogue: &Catalogue,
        packets: &[Packet],
    ) -> Result<bool, AllocError>
        requires size { catalogue.now.size ≡ setup.now.size }
        requires read { (k : ℕ) (p : Packet) → slice_get packets.now k ≡ Some p → WasRead (Some p) }
        ensures { let rules = rules_for (λ s z. S.pick s z) (λ h. H.plain h) setup.now catalogue.now in
            IfOk result (λ b. IsTrue b ↔ (self.now.history.outcomes.items ≡ verdicts rules [] packets.now self.now.history.events.items)) }
    {
        self.history
            .audit::<S, H, T>(alloc, setup, catalogue, packets)
    }

    /// Whether the outcomes of each node's events are those of the events in this cluster, as [`audit_nodes`] has it. Of a
    /// run of the cluster this is [`audit`](Self::audit), since the nodes' histories follow one another in its history and no
    /// node's events change another node.
    pub fn audit_nodes<
        S: Scheme + Send + Sync,
        H: FlowHash + Send + Sync,
        T: ConnTable + Send,
        R: Threads + Sync,
    >(
        &self,
        rt: &R,
        alloc: Global,
        setup: &Setup<S, H>,
        catalogue: &Catalogue,
        packets: &[Packet],
    ) -> Result<bool, AllocError>
    where
        S::Prepared: Send + Sync,
        requires size { catalogue.now.size ≡ setup.now.size }
        requires read { (k : ℕ) (p : Packet) → slice_get packets.now k ≡ Some p → WasRead (Some p) }
        ensures { let rules = rules_for (λ s z. S.pick s z) (λ h. H.plain h) setup.now catalogue.now in
            IfOk result (λ b. IsTrue b ↔ All (λ r. r.outcomes.items ≡ verdicts rules [] packets.now r.events.items) self.now.nodes.items) }
    {
        let nodes = self.nodes.as_slice();
        let prepared = SharedVersions::none(alloc);
        let auditor = Auditor::new(alloc, setup, catalogue, &prepared)?;
        audit_nodes::<S, H, T, R, NodeRecord>(rt, alloc, nodes, &auditor, packets)
    }
}

// What a driver's thread answers.
type Answer = Result<LeanRun, RunFault>;

impl<'e, S: Scheme, H: FlowHash> Promise<Result<LeanRun, RunFault>> for OfNode<'e, S, H> {
    ghost kept_by = { λ p r. let asked = asked_in p.assignment in
        let rules = rules_for (λ s z. S.pick s z) (λ h. H.plain h) asked.setup asked.catalogue in
        MatchResult r (λ run. IsCounted rules asked run.record run.stats) (λ fault. NodeTells (λ a b. S.eq a b) rules asked fault) };
}

// The drivers' threads, and why not all were started.
#[derive(Drop)]
struct Drivers<'e, S: Scheme, H: FlowHash> {
    handles: Vec<PromisedHandle<Answer, OfNode<'e, S, H>>>,
    fault: Option<RunFault>,
}

// What was joined so far: what the nodes did, and the sums of what their books have. Once there is a fault the rest is kept for
// nothing.
#[derive(Drop)]
struct Joined {
    nodes: Vec<LeanRecord>,
    stats: Stats,
    fault: Option<RunFault>,
}

impl Joined {
    // Keeps what a node did, or why it has no record. More packets than can be counted are taken for more than memory has room for.
    #[tactic(auto, using(crate::proofs::Reporting::sums_none, crate::proofs::Reporting::sums_some, crate::proofs::Reporting::refused_still))]
    fn keep(&mut self, answer: Answer)
        ensures kept { self.new.fault ≡ None → (self.old.fault ≡ None)
            × ((r : LeanRun) × (answer ≡ Ok r)
            × (self.new.nodes.items ≡ self.old.nodes.items ++ r.record ∷ []) × IsSum self.old.stats r.stats self.new.stats) }
        ensures told { (fs : List (Option RunFault)) → IsSumUp fs self.old.fault → IsSumUp (fs ++ fault_in answer ∷ []) self.new.fault }
        ensures refused { IsSomeAnd self.old.fault (λ fault. IsRefusal fault) → IsSomeAnd self.new.fault (λ fault. IsRefusal fault) }
    {
        match answer {
            Err(fault) => self.fault = Some(first_of(self.fault, fault)),
            Ok(run) => {
                let LeanRun { record, stats } = run;
                if !self.stats.add(&stats) {
                    self.fault = Some(RunFault::Memory);
                    return;
                }
                let Ok(()) = self.nodes.push(record) else {
                    self.fault = Some(RunFault::Memory);
                    return;
                };
            }
        }
    }
}

// Starts the drivers, up to the first that can't be started.
fn start_drivers<
    's,
    'e: 's,
    S: Scheme + Send + Sync + 'e,
    H: FlowHash + Send + Sync + 'e,
    T: ConnTable + Send + 'e,
    G: Gate + Sync + 'e,
    R: Threads + Wait + Sync + 'e,
>(
    scope: &Scope<'s, &'e ()>,
    rt: &'e R,
    alloc: Global,
    order: &ClusterOrder<'e, S, H, G>,
) -> Drivers<'e, S, H>
where
    S::Prepared: Send + Sync,
    ensures same { All (λ h. let asked = asked_in h.promise.assignment in asked ≡ asked_one order.now asked.node asked.commands) result.handles.items }
    ensures numbered { AreNumbered 0 (map (λ h. h.promise.assignment.node) result.handles.items) }
    ensures fault { IfSome result.fault (λ fault. IsRefusal fault) }
    ensures lists { result.fault ≡ None → map (λ h. h.promise.assignment.commands.now) result.handles.items ≡ order.now.commands }
{
    let mut handles = Vec::new(alloc);
    for node in 0..order.nodes() {
        if handles.reserve(1).is_err() {
            let fault = Some(RunFault::Memory);
            return Drivers { handles, fault };
        }
        let own = order.order_of(node);
        let promise = OfNode {
            assignment: own.assignment,
        };
        match scope.spawn_with(
            promise,
            move || -> Result<LeanRun, RunFault>
                ensures { let asked = asked_in own.entry.assignment in
                    let rules = rules_for (λ s z. S.pick s z) (λ h. H.plain h) asked.setup asked.catalogue in
                    MatchResult result (λ run. IsCounted rules asked run.record run.stats) (λ fault. NodeTells (λ a b. S.eq a b) rules asked fault) }
            { run_order::<S, H, T, G, R>(rt, alloc, own) },
        ) {
            Ok(handle) => handles.push_reserved(handle),
            Err(_) => {
                let fault = Some(RunFault::ThreadLost);
                return Drivers { handles, fault };
            }
        }
    }
    Drivers {
        handles,
        fault: None,
    }
}

// Starts all drivers and joins them.
fn run_drivers<
    's,
    'e: 's,
    S: Scheme + Send + Sync + 'e,
    H: FlowHash + Send + Sync + 'e,
    T: ConnTable + Send + 'e,
    G: Gate + Sync + 'e,
    R: Threads + Wait + Sync + 'e,
>(
    scope: &Scope<'s, &'e ()>,
    rt: &'e R,
    alloc: Global,
    order: ClusterOrder<'e, S, H, G>,
) -> Result<NodesRun, RunFault>
where
    S::Prepared: Send + Sync,
    ensures { let all = order.entry in
        let rules = rules_for (λ s z. S.pick s z) (λ h. H.plain h) all.setup all.catalogue in
        MatchResult result (λ v. AreCounted rules all all.commands v.nodes.items v.stats) (λ fault. ClusterTells (λ a b. S.eq a b) rules all fault) }
{
    let drivers: Drivers<'e, S, H> = start_drivers::<S, H, T, G, R>(scope, rt, alloc, &order);
    let Drivers { handles, fault } = drivers;
    let mut joined = Joined {
        nodes: Vec::new(alloc),
        stats: Stats::new(),
        fault,
    };
    for handle in handles {
        joined.keep(handle.join(rt));
    }
    let Joined {
        nodes,
        stats,
        fault,
    } = joined;
    match fault {
        None => Ok(NodesRun { nodes, stats }),
        Some(fault) => Err(fault),
    }
}

// All drivers in one scope.
fn run_nodes<
    'e,
    S: Scheme + Send + Sync + 'e,
    H: FlowHash + Send + Sync + 'e,
    T: ConnTable + Send + 'e,
    G: Gate + Sync + 'e,
    R: Threads + Wait + Sync + 'e,
>(rt: &'e R, alloc: Global, order: ClusterOrder<'e, S, H, G>) -> Result<NodesRun, RunFault>
where
    S::Prepared: Send + Sync,
    ensures { let all = order.entry in
        let rules = rules_for (λ s z. S.pick s z) (λ h. H.plain h) all.setup all.catalogue in
        MatchResult result (λ v. AreCounted rules all all.commands v.nodes.items v.stats) (λ fault. ClusterTells (λ a b. S.eq a b) rules all fault) }
{
    thread::scope(
        thread::scope_env(),
        rt,
        move |scope| -> Result<NodesRun, RunFault>
            ensures { let all = order.entry in
                let rules = rules_for (λ s z. S.pick s z) (λ h. H.plain h) all.setup all.catalogue in
                MatchResult result (λ v. AreCounted rules all all.commands v.nodes.items v.stats) (λ fault. ClusterTells (λ a b. S.eq a b) rules all fault) }
        { run_drivers::<S, H, T, G, R>(scope, rt, alloc, order) },
    )
}

/// The runs of all nodes of a cluster at once, as in [`run_cluster`], without the one history of all of them. That is a copy
/// of all events and outcomes, which is made on one thread: who goes over the nodes' records one after another needs none.
///
/// A version that was prepared for all nodes costs a driver that installs it neither time nor memory: what it takes is the
/// caller's, until the caller lets it go. Any other is prepared by each driver for itself, as `run_cluster` has it. Which of the
/// two it is no answer tells: what the workers used is compared with the catalogue either way.
///
/// Where the rings are paced a driver waits at the ring of a packet's home worker while that is full. So no packet is lost to
/// a full ring, and each that is steered goes to its home worker (`paced`). Whether the waiting ends no contract says. A
/// worker takes from its ring until its driver ends the life, and then the driver doesn't wait. That holds of a worker that was
/// refused memory too. The mux takes what the workers send until their last word. So some thread can always go on, unless a
/// gate doesn't return.
pub fn run_each<
    S: Scheme + Send + Sync,
    H: FlowHash + Send + Sync,
    T: ConnTable + Send,
    G: Gate + Sync,
    R: Threads + Wait + Sync,
>(
    rt: &R,
    alloc: Global,
    setup: &Setup<S, H>,
    catalogue: &Catalogue,
    prepared: &SharedVersions<S>,
    packets: &[Packet],
    commands: &[Vec<Command>],
    rings: RingRules,
    gate: &G,
) -> Result<NodesRun, RunFault>
where
    S::Prepared: Send + Sync,
    requires nodes { length commands.now ≡ length setup.now.nodes }
    requires some { 0 < rings.places }
    requires limit { rings.places ≤ 65536 }
    ensures runs { let rules = rules_for (λ s z. S.pick s z) (λ h. H.plain h) setup.now catalogue.now in
        IfOk result (λ run. AreRuns rules packets.now rings.places 0 (map (λ c. c.items) commands.now) run.nodes.items) }
    // where the drivers wait at full rings, no arrival marks a worker as refusing
    ensures paced { rings.paced ≡ true → IfOk result (λ run. NoneRefused run.nodes.items) }
    // where all packets were read, the counts are the totals of the nodes' outcomes, and nothing waits; each node has a book of
    // its own, and these are their sums
    ensures stats { AreRead packets.now → IfOk result (λ run. AreTotals run.stats (all_outcomes run.nodes.items)) }
    ensures told { let all = asked_each setup.now catalogue.now packets.now rings.places rings.paced (map (λ c. c.items) commands.now) in
        let rules = rules_for (λ s z. S.pick s z) (λ h. H.plain h) all.setup all.catalogue in
        IfErr result (λ fault. ClusterTells (λ a b. S.eq a b) rules all fault) }
{
    let order = ClusterOrder {
        setup,
        catalogue,
        prepared,
        packets,
        lists: commands,
        gate,
        ring: rings.places,
        paced: rings.paced,
    };
    let run = run_nodes::<S, H, T, G, R>(rt, alloc, order)?;
    Ok(run)
}

/// The runs of all nodes of a cluster at once, each as `run_node` does it, with its driver in a thread of its own. There is
/// a list of commands for each node. All threads are joined before anything is answered.
///
/// Whatever the schedule was, each record is one of a run of its node's commands, and the history has all of them, node by
/// node. The outcome of each event in it is that of the event in its node. Of several faults Memory is reported first, then
/// ThreadLost, Foreign, RingLost and BookLost. A driver that can't be started is ThreadLost, and so the others end first.
/// Foreign, RingLost and BookLost are faults that a node's records tell, and none of another node comes before (`told`).
///
/// So what is promised of every list of events is promised of the run. Two packets of one flow that were sent to different
/// backends, by any nodes, were chosen under versions that pick these backends (`agreement`). A worker keeps a flow's
/// backend while its entry stands and the backend is up or drains (`keeping`).
pub fn run_cluster<
    S: Scheme + Send + Sync,
    H: FlowHash + Send + Sync,
    T: ConnTable + Send,
    G: Gate + Sync,
    R: Threads + Wait + Sync,
>(
    rt: &R,
    alloc: Global,
    setup: &Setup<S, H>,
    catalogue: &Catalogue,
    packets: &[Packet],
    commands: &[Vec<Command>],
    ring: u32,
    gate: &G,
) -> Result<ClusterRun, RunFault>
where
    S::Prepared: Send + Sync,
    requires nodes { length commands.now ≡ length setup.now.nodes }
    requires some { 0 < ring }
    requires limit { ring ≤ 65536 }
    ensures runs { let rules = rules_for (λ s z. S.pick s z) (λ h. H.plain h) setup.now catalogue.now in IfOk result (λ run.
        AreRuns rules packets.now ring 0 (map (λ c. c.items) commands.now) run.nodes.items × JoinsRuns rules packets.now run.nodes.items run.history) }
    // agreement, for a scheme to which the turn doesn't matter, and keeping
    ensures agreement { let rules = rules_for (λ s z. S.pick s z) (λ h. H.plain h) setup.now catalogue.now in
        IfOk result (λ run. IsSteady rules → Agreement rules run.history.outcomes.items) }
    ensures keeping { let rules = rules_for (λ s z. S.pick s z) (λ h. H.plain h) setup.now catalogue.now in
        IfOk result (λ run. Keeping rules [] packets.now run.history.events.items run.history.outcomes.items) }
    // where all packets were read, the counts are the totals of the outcomes, and nothing waits
    ensures stats { AreRead packets.now → IfOk result (λ run. AreTotals run.stats run.history.outcomes.items) }
    ensures told { let all = asked_all setup.now catalogue.now packets.now ring (map (λ c. c.items) commands.now) in
        let rules = rules_for (λ s z. S.pick s z) (λ h. H.plain h) all.setup all.catalogue in
        IfErr result (λ fault. ClusterTells (λ a b. S.eq a b) rules all fault) }
{
    let rings = RingRules {
        places: ring,
        paced: false,
    };
    let prepared = SharedVersions::none(alloc);
    let run = run_each::<S, H, T, G, R>(
        rt, alloc, setup, catalogue, &prepared, packets, commands, rings, gate,
    )?;
    let NodesRun { nodes, stats } = run;
    let opened = open_all(alloc, nodes)?;
    let history = join_runs(alloc, opened.as_slice())?;
    Ok(ClusterRun {
        nodes: opened,
        history,
        stats,
    })
}
