//! The cluster of a scenario runs on threads.
ghost use Rattle.std.specs.Prelude.{◌≡◌, ◌<◌, ◌^◌, ◌↔◌, [], true, length, map, All, IfOk, IfErr, IsTrue};
ghost use Rattle.hash_laws.specs.Any.{plain_of};
ghost use Rattle.cluster_core.specs.Cluster.{WereRead};
ghost use Rattle.cluster_core.specs.Runs.{verdicts};
ghost use Rattle.cluster_core.specs.Deployed.{rules_of};
ghost use Rattle.thread_records.specs.Joins.{all_outcomes};
ghost use Rattle.thread_records.specs.Paced.{NoneRefused};
ghost use Rattle.thread_records.specs.Runs.{AreRuns};
ghost use Rattle.thread_roles.specs.Counts.{AreTotals};
ghost use Rattle.named_scheme.specs.Picking.{pick_of};
ghost use Rattle.simulate_scenario.specs.Described.{rules_in};
ghost use Rattle.run_scenario.specs.PrivateFailures.{IsOfThreads};
ghost use Rattle.run_scenario.specs.PrivateHistories.{AreEven, TellsOf};

use crate::failure::RunFailure;
use crate::histories::{Telling, Told, outcome_count};
use crate::host::Host;
use crate::running::RunOptions;
use cluster_core::Setup;
use cluster_node::Packet;
use connection_starts::Ordinals;
use connection_table::{PlaceTable, TableKey};
use hash_laws::AnyHash;
use named_scheme::{NamedScheme, scheme_of};
use node_threads::{Gate, NodesRun, RingRules, RunFault, run_each};
use scenario::Scenario;
use shared_versions::{Auditor, SharedVersions, audit_nodes};
use std::alloc::{AllocError, Global};
use std::sync::Wait;
use std::thread;
use std::thread::Threads;
use thread_records::{Command, LeanRecord};

/// What is to be run: a scenario's cluster over packets that were read. The tables and the books of splits and changes hash by
/// the key.
#[derive(Clone, Copy)]
pub(crate) struct Task<'a> {
    pub(crate) key: TableKey,
    pub(crate) scenario: &'a Scenario,
    pub(crate) packets: &'a [Packet],
    pub(crate) options: RunOptions,
}

/// A run, whether each node's history agrees with its replay, and what is told of it beside the report.
#[derive(Drop)]
pub(crate) struct Audited {
    pub(crate) run: NodesRun,
    pub(crate) agrees: bool,
    pub(crate) told: Told,
}

// Whether each node's history agrees with its replay, and what is told of the connections: both at once, since neither waits
// for the other. Where nothing is asked for, no thread is started for it.
fn judged<R: Threads + Sync>(
    rt: &R,
    alloc: Global,
    auditor: &Auditor<'_, NamedScheme, AnyHash>,
    task: &Task<'_>,
    nodes: &[LeanRecord],
    turns: Option<Ordinals>,
) -> (Result<bool, AllocError>, Result<Told, AllocError>)
    requires read { WereRead task.now.packets.now }
    requires even { AreEven nodes.now }
    ensures audit { let rules = rules_of (λ s z. pick_of s z) (λ h. plain_of h) auditor.now in
        IfOk result.0 (λ b. IsTrue b ↔ All (λ r. r.outcomes.items ≡ verdicts rules [] task.now.packets.now r.events.items) nodes.now) }
    ensures told { IfOk result.1 (TellsOf turns task.now.options task.now.scenario.now task.now.packets.now nodes.now) }
{
    let Task {
        key,
        scenario,
        packets,
        options,
        ..
    } = *task;
    let replay = || -> Result<bool, AllocError>
        requires { WereRead packets.now }
        ensures { let rules = rules_of (λ s z. pick_of s z) (λ h. plain_of h) auditor.entry.now in
            IfOk result (λ b. IsTrue b ↔ All (λ r. r.outcomes.items ≡ verdicts rules [] packets.entry.now r.events.items) nodes.entry.now) }
    {
        audit_nodes::<NamedScheme, AnyHash, PlaceTable, R, LeanRecord>(
            rt, alloc, nodes, auditor, packets,
        )
    };
    let told = move || -> Result<Told, AllocError>
        requires { AreEven nodes.now }
        ensures { IfOk result (TellsOf turns options scenario.entry.now packets.entry.now nodes.entry.now) }
    {
        let telling = Telling {
            key,
            scenario,
            packets,
            options,
        };
        telling.tell(alloc, nodes, turns)
    };
    if options.tells() {
        thread::join(rt, replay, told)
    } else {
        (replay(), told())
    }
}

/// Runs the cluster with the scheme that the scenario names, each node by its list of commands, and replays its history. The
/// commands are given back before that. What is told beside the report is made meanwhile, of connections by the ordinals of the
/// records, where there are any.
pub(crate) fn run_named<R: Threads + Wait + Sync, G: Gate + Sync>(
    host: &Host<'_, R, G>,
    alloc: Global,
    task: &Task<'_>,
    commands: Vec<Vec<Command>>,
    turns: Option<Ordinals>,
) -> Result<Audited, RunFailure>
    requires nodes { length commands.items ≡ length task.now.scenario.now.nodes.items }
    requires read { WereRead task.now.packets.now }
    ensures runs { IfOk result (λ a. AreRuns (rules_in task.now.scenario.now) task.now.packets.now task.now.scenario.now.ring 0
        (map (λ c. c.items) commands.items) a.run.nodes.items) }
    ensures paced { task.now.options.paced ≡ true → IfOk result (λ a. NoneRefused a.run.nodes.items) }
    ensures counts { IfOk result (λ a. AreTotals a.run.stats (all_outcomes a.run.nodes.items)) }
    ensures few { IfOk result (λ a. length (all_outcomes a.run.nodes.items) < 2 ^ 63) }
    ensures audit { IfOk result (λ a. a.agrees ≡ true) }
    ensures told { IfOk result (λ a. TellsOf turns task.now.options task.now.scenario.now task.now.packets.now a.run.nodes.items a.told) }
    ensures stopped { IfErr result IsOfThreads }
{
    let scenario = task.scenario;
    let nodes = Vec::from_slice(alloc, scenario.nodes.as_slice())?;
    let scheme = scheme_of(scenario.scheme, scenario.hash);
    let Ok(setup) = Setup::new(
        scenario.hash,
        scheme,
        scenario.size,
        nodes,
        scenario.workers,
        scenario.capacity,
        scenario.idle,
    ) else {
        unreachable!()
    };
    let setup = setup.keyed(task.key);
    let rings = RingRules {
        places: scenario.ring,
        paced: task.options.paced,
    };
    let catalogue = &scenario.catalogue;
    let prepared = SharedVersions::prepare(alloc, &setup, catalogue, commands.as_slice())?;
    let run = run_each::<NamedScheme, AnyHash, PlaceTable, G, R>(
        host.rt,
        alloc,
        &setup,
        catalogue,
        &prepared,
        task.packets,
        commands.as_slice(),
        rings,
        host.gate,
    )?;
    drop(commands);
    let Some(_) = outcome_count(run.nodes.as_slice()) else {
        return Err(RunFailure::Threads(RunFault::Memory));
    };
    let auditor = Auditor::new(alloc, &setup, catalogue, &prepared)?;
    let (agrees, told) = judged(host.rt, alloc, &auditor, task, run.nodes.as_slice(), turns);
    Ok(Audited {
        run,
        agrees: agrees?,
        told: told?,
    })
}
