//! The command that runs a scenario's cluster on threads, where a flow that begins again is another connection.
ghost use Rattle.std.specs.Prelude.{◌≡◌, IfOk, IfErr};
ghost use Rattle.scenario.specs.declared.playing.Played.TheVariants.{OnThreads};
ghost use Rattle.scenario_faults.specs.Refusals.{IsPlaced};
ghost use Rattle.maglev_cli.specs.Runs.{TurnedRuns, TurnedRunFails};

use crate::running::failure_fault;
use change_share::ChangeCounts;
use command_faults::put_text;
use node_threads::Gate;
use pcap_file::{Sink, Source};
use run_scenario::{Host, TurnedRun};
use scenario_faults::{PlacedFault, thread_scenario_in};
use std::alloc::Global;
use std::sync::Wait;
use std::thread::Threads;

/// The command `run` of the scenario that a text means, as of `run_keyed`. In what is told of connections, which are the splits and
/// the summary, a flow that begins again is another connection: which one of its flow a packet belongs to is the ordinal of its
/// record.
pub fn run_turned<T: Threads + Wait + Sync, G: Gate + Sync, I: Source, O: Sink, R: Sink>(
    host: &Host<'_, T, G>,
    alloc: Global,
    run: TurnedRun<&[u8]>,
    input: &mut I,
    output: &mut O,
    report: &mut R,
) -> Result<Option<ChangeCounts>, PlacedFault>
    ensures ran { IfOk result (TurnedRuns run.entry.ordinals run.entry.options run.entry.scenario.now (I.tape input.old) (I.tape input.new)
        (O.tape output.old) (O.tape output.new) (R.tape report.old) (R.tape report.new)) }
    ensures stopped { IfErr result (λ r. TurnedRunFails r.fault run.entry.ordinals run.entry.options run.entry.scenario.now
        (I.tape input.old) (I.tape input.new) (O.tape output.old) (O.tape output.new) (R.tape report.old) (R.tape report.new)
        ((input.new ≡ input.old) × (output.new ≡ output.old) × (report.new ≡ report.old)) (report.new ≡ report.old)) }
    ensures place { IfErr result (IsPlaced OnThreads run.entry.scenario.now) }
{
    let TurnedRun {
        key,
        scenario: text,
        options,
        ordinals,
    } = run;
    let scenario = match thread_scenario_in(alloc, text) {
        Ok(scenario) => scenario,
        Err(stopped) => return Err(stopped),
    };
    let turned = TurnedRun {
        key,
        scenario: &scenario,
        options,
        ordinals,
    };
    let answer = match run_scenario::run_turned(host, alloc, turned, input, output) {
        Ok(answer) => answer,
        Err(stop) => {
            return Err(PlacedFault {
                fault: failure_fault(stop),
                place: None,
            });
        }
    };
    match put_text(report, answer.text.as_str()) {
        Ok(()) => Ok(answer.counts),
        Err(fault) => Err(PlacedFault { fault, place: None }),
    }
}
