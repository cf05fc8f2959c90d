//! A scenario's cluster runs on threads over a capture.
ghost use Rattle.std.specs.Prelude.{◌≡◌, ◌≤◌, ◌<◌, ◌+◌, ◌^◌, true, List, Some, length, IfOk, IfErr, string_bytes};
ghost use Rattle.pcap_file.specs.Format.{Record, max_records};
ghost use Rattle.simulation.specs.Sent.{packets_of};
ghost use Rattle.thread_records.specs.Paced.{NoneRefused};
ghost use Rattle.simulation.specs.Simulated.{traffic_of};
ghost use Rattle.simulate_scenario.specs.Described.{plan_in};
ghost use Rattle.run_records.specs.Firsts.{IsSplit};
ghost use Rattle.run_scenario.specs.PrivateFirsts.{kept_for, with_others, Settle};
ghost use Rattle.run_records.specs.Sends.{sent_by_nodes};
ghost use Rattle.run_scenario.specs.Runs.{Ran, Halted, counts_in};
ghost use Rattle.run_scenario.specs.Kept.{KeepsPromises};
ghost use Rattle.run_scenario.specs.Turned.{RanBy};
ghost use Rattle.run_scenario.specs.PrivateFailures.{IsOfThreads};
ghost use Rattle.run_scenario.specs.PrivateHistories.{RanOver};

use crate::failure::RunFailure;
use crate::histories::{Told, totals_of};
use crate::host::Host;
use crate::orders::orders_of;
use crate::report::audited_report;
use crate::settled::read_for;
use crate::threads::{Audited, Task, run_named};
use cluster_node::Packet;
use connection_starts::Ordinals;
use connection_table::TableKey;
use driver_commands::Orders;
use event_trace::Tally;
use ip_headers::Link;
use json_lines::Form;
use node_threads::Gate;
use pcap_file::{Sink, Source};
use run_records::{Captured, Sender, packets_of, write_capture};
use scenario::{Scenario, ThreadScenario};
use simulate_scenario::Answer;
use simulation::Wire;
use std::alloc::Global;
use std::sync::Wait;
use std::thread::Threads;
use thread_records::LeanRecord;
use traffic_shares::AskedShares;

/// What is asked of a run beside its scenario.
#[derive(Clone, Copy, Debug, PartialEq, Eq)]
pub struct RunOptions {
    /// The report begins with the splits.
    pub splits: bool,
    /// It does, and each split's line tells where its two packets were sent, and why the later one went elsewhere.
    pub places: bool,
    /// Behind it comes what each backend took under each version.
    pub backends: bool,
    /// The same of each node.
    pub nodes: bool,
    /// It ends with how many connections changed their server, how often, and why.
    pub summary: bool,
    /// A node's driver waits at a full ring.
    pub paced: bool,
    /// How the report is printed.
    pub form: Form,
}

impl RunOptions {
    ghost use Rattle.simulate_scenario.specs.Asked.{keeps_changes};
    ghost use Rattle.run_scenario.specs.Runs.{asked_shares};

    /// Whether the changes are kept: the splits are told with places, or the summary is.
    pub(crate) fn keeps_changes(self) -> bool
        ensures { result ≡ keeps_changes self.places self.summary }
    {
        self.places || self.summary
    }

    /// Whose shares are asked for.
    pub(crate) fn asked_shares(self) -> AskedShares
        ensures { result ≡ asked_shares self }
    {
        AskedShares {
            backends: self.backends,
            nodes: self.nodes,
        }
    }

    /// Whether anything is told beside the report.
    pub(crate) fn tells(self) -> bool {
        self.splits || self.places || self.backends || self.nodes || self.summary
    }
}

// The packets of a capture, what the nodes did, and what is answered.
#[derive(Drop)]
struct Done {
    packets: Vec<Packet>,
    nodes: Vec<LeanRecord>,
    answer: Answer,
}

// The nodes' addresses, and how the records of a capture are read.
fn wire_of(scenario: &Scenario, link: Link) -> Wire<'_>
    ensures nodes { result.nodes.now ≡ scenario.now.nodes.items }
    ensures link { result.link ≡ link }
    ensures check { result.check ≡ scenario.now.check }
{
    Wire {
        nodes: scenario.nodes.as_slice(),
        link,
        check: scenario.check,
    }
}

// What becomes of the records, with those that no step reads.
fn with_others(tally: Tally, others: usize) -> Tally
    requires packets { tally.packets + others < 2 ^ 32 }
    requires left { tally.left + others < 2 ^ 32 }
    ensures { result ≡ with_others others tally }
{
    Tally {
        packets: tally.packets + others as u32,
        left: tally.left + others as u32,
        ..tally
    }
}

// What is asked of a run. Connections are told by the ordinals of the records, where there are any. The tables and the books hash
// by the key.
#[derive(Drop)]
struct Asked {
    key: TableKey,
    options: RunOptions,
    turns: Option<Ordinals>,
}

// Runs the cluster over a capture that was read.
fn run_over<R: Threads + Wait + Sync, G: Gate + Sync>(
    host: &Host<'_, R, G>,
    alloc: Global,
    scenario: &Scenario,
    captured: &Captured,
    asked: Asked,
) -> Result<Done, RunFailure>
    requires few { length captured.now.records + captured.now.others ≤ max_records }
    ensures packets { IfOk result (λ d. d.packets.items ≡ packets_of captured.now.head.link scenario.now.check captured.now.records) }
    ensures over { (all : List Record) → IsSplit (Settle scenario.now.steps.items)
        (kept_for scenario.now.steps.items) all captured.now.records captured.now.others →
        IfOk result (λ d. RanOver asked.turns scenario.now asked.options captured.now.head.link all captured.now.ending d.nodes.items
        (string_bytes d.answer.text) d.answer.counts) }
    ensures sends { (all : List Record) → IsSplit (Settle scenario.now.steps.items)
        (kept_for scenario.now.steps.items) all captured.now.records captured.now.others →
        IfOk result (λ d. sent_by_nodes (traffic_of (plan_in scenario.now) captured.now.head.link captured.now.records) d.nodes.items
        ≡ sent_by_nodes (traffic_of (plan_in scenario.now) captured.now.head.link all) d.nodes.items) }
    ensures paced { asked.options.paced ≡ true → IfOk result (λ d. NoneRefused d.nodes.items) }
    ensures stopped { IfErr result IsOfThreads }
{
    let Asked {
        key,
        options,
        turns,
    } = asked;
    let wire = wire_of(scenario, captured.head.link);
    let packets = packets_of(host.rt, alloc, &wire, &captured.records)?;
    let orders = orders_of(alloc, scenario, &captured.records, packets.as_slice())?;
    let task = Task {
        key,
        scenario,
        packets: packets.as_slice(),
        options,
    };
    let Orders { commands, tally } = orders;
    let audited = run_named(host, alloc, &task, commands, turns)?;
    let Audited { run, agrees, told } = audited;
    let Told {
        before,
        shares,
        behind,
        counts,
    } = told;
    let totals = totals_of(&run);
    let form = options.form;
    let tally = with_others(tally, captured.others);
    let report = audited_report(alloc, form, tally, &totals, captured.ending, agrees)?;
    let mut text = String::new(alloc);
    form.push_head(&mut text, "run")?;
    text.push_str(before.as_str())?;
    text.push_str(report.as_str())?;
    text.push_str(shares.as_str())?;
    text.push_str(behind.as_str())?;
    Ok(Done {
        packets,
        nodes: run.nodes,
        answer: Answer { text, counts },
    })
}

// Runs the cluster over a capture, which is read whole, and writes what the nodes sent.
fn run_by<R: Threads + Wait + Sync, G: Gate + Sync, I: Source, O: Sink>(
    host: &Host<'_, R, G>,
    alloc: Global,
    scenario: &ThreadScenario,
    asked: Asked,
    input: &mut I,
    output: &mut O,
) -> Result<Answer, RunFailure>
    ensures ran { IfOk result (λ a. RanBy asked.turns scenario.now.scenario asked.options
        (I.tape input.old) (I.tape input.new) (O.tape output.old) (O.tape output.new) (string_bytes a.text) a.counts) }
    ensures stopped { IfErr result (Halted scenario.now.scenario (I.tape input.old) (I.tape input.new) (O.tape output.old) (O.tape output.new)) }
{
    let scenario = &scenario.scenario;
    let _slots = scenario.size.slots();
    scenario.catalogue.keeps_doubles_out();
    let captured = read_for(alloc, input, scenario.steps.as_slice())?;
    let done = run_over(host, alloc, scenario, &captured, asked)?;
    let wire = wire_of(scenario, captured.head.link);
    let nodes = done.nodes.as_slice();
    let records = &captured.records;
    let packets = done.packets.as_slice();
    let sender = Sender {
        wire,
        records,
        packets,
    };
    match write_capture(host.rt, alloc, output, &sender, nodes) {
        Ok(()) => Ok(done.answer),
        Err(fault) => Err(RunFailure::Simulation(fault)),
    }
}

/// Runs a scenario's cluster on threads over a capture, and answers the report. Where its changes are kept, it also answers
/// how many connections there were, and how many of them changed their server (`counts`). The report ends in `audit agrees`
/// where a replay of the run's history gives the outcomes that it has: by the clause `ok` it always does. With the option
/// `splits` the report begins with a line for each split, and then how many there were. A split is two packets that follow one
/// another in a flow, in the history's order, and went to different backends; events are numbered as in the history.
///
/// The capture is read to its end before any thread starts, and the steps become the nodes' commands. Once all threads are
/// joined, what the nodes sent is written as another capture: node by node, and of each node life by life. The connection
/// tables and the book of splits hash by the key.
///
/// Whatever goes wrong before the writing leaves the output as it was. Where memory for a datagram in a tunnel is refused the
/// output is cut between records.
///
/// By the clause `kept` the run keeps the promises, whatever the schedule was. For a scheme to which the turn doesn't
/// matter, two packets of one flow that were sent to different backends were chosen under versions that pick these backends.
/// Where the scheme is Maglev, their tables name the two backends at the flow's slot. A worker keeps a flow's backend while
/// its entry stands and the backend is up or drains. Every slot of Maglev's tables names an up backend, never one that
/// drains, and backends' slot counts are in proportion to their weights. The two versions of each split pick its two backends,
/// for such a scheme, and for Maglev name them at the flow's slot.
///
/// Where the run is paced, a driver that comes to a full ring waits for room there. It doesn't try the other workers, and
/// drops nothing. So no arrival in a node's history marks a worker as refusing, and each packet that is steered goes to its
/// home worker (`paced`).
///
/// The workers call the host's gate, which has no say in any of this.
pub fn run_scenario<R: Threads + Wait + Sync, G: Gate + Sync, I: Source, O: Sink>(
    host: &Host<'_, R, G>,
    alloc: Global,
    key: TableKey,
    scenario: &ThreadScenario,
    options: RunOptions,
    input: &mut I,
    output: &mut O,
) -> Result<Answer, RunFailure>
    ensures ok { IfOk result (λ a.
        Ran scenario.now.scenario options (I.tape input.old) (I.tape input.new) (O.tape output.old) (O.tape output.new) (string_bytes a.text)) }
    ensures counts { IfOk result (λ a.
        (ran : Ran scenario.now.scenario options (I.tape input.old) (I.tape input.new) (O.tape output.old) (O.tape output.new) (string_bytes a.text))
        × (a.counts ≡ counts_in scenario.now.scenario options ran.head.link ran.records ran.history)) }
    ensures kept { IfOk result (λ a.
        (ran : Ran scenario.now.scenario options (I.tape input.old) (I.tape input.new) (O.tape output.old) (O.tape output.new) (string_bytes a.text)) →
        KeepsPromises scenario.now.scenario ran.head.link ran.records ran.history) }
    ensures paced { options.paced ≡ true → IfOk result (λ a.
        (ran : Ran scenario.now.scenario options (I.tape input.old) (I.tape input.new) (O.tape output.old) (O.tape output.new) (string_bytes a.text))
        × NoneRefused ran.nodes) }
    ensures stopped { IfErr result (Halted scenario.now.scenario (I.tape input.old) (I.tape input.new) (O.tape output.old) (O.tape output.new)) }
{
    let _slots = scenario.scenario.size.slots();
    scenario.scenario.catalogue.keeps_doubles_out();
    let asked = Asked {
        key,
        options,
        turns: None,
    };
    match run_by(host, alloc, scenario, asked, input, output) {
        Ok(answer) => Ok(answer),
        Err(stop) => Err(stop),
    }
}

/// A scenario that runs where a flow that begins again is another connection, and how.
#[derive(Debug, Drop)]
pub struct TurnedRun<S> {
    /// The connection tables and the books hash by it.
    pub key: TableKey,
    pub scenario: S,
    /// What is asked of the run.
    pub options: RunOptions,
    /// The ordinal of each record's connection.
    pub ordinals: Ordinals,
}

/// The same run as of [`run_scenario`]. In what is told of connections, which are the splits and the summary, a flow that begins again
/// is another connection: which one of its flow a packet belongs to is the ordinal of its record.
pub fn run_turned<R: Threads + Wait + Sync, G: Gate + Sync, I: Source, O: Sink>(
    host: &Host<'_, R, G>,
    alloc: Global,
    run: TurnedRun<&ThreadScenario>,
    input: &mut I,
    output: &mut O,
) -> Result<Answer, RunFailure>
    ensures ran { IfOk result (λ a. RanBy (Some run.entry.ordinals) run.entry.scenario.now.scenario run.entry.options
        (I.tape input.old) (I.tape input.new) (O.tape output.old) (O.tape output.new) (string_bytes a.text) a.counts) }
    ensures stopped { IfErr result (Halted run.entry.scenario.now.scenario (I.tape input.old) (I.tape input.new) (O.tape output.old) (O.tape output.new)) }
{
    let TurnedRun {
        key,
        scenario,
        options,
        ordinals,
    } = run;
    let asked = Asked {
        key,
        options,
        turns: Some(ordinals),
    };
    match run_by(host, alloc, scenario, asked, input, output) {
        Ok(answer) => Ok(answer),
        Err(stop) => Err(stop),
    }
}
