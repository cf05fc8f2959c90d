//! The command that runs a scenario's cluster on threads.
ghost use Rattle.std.specs.Prelude.{◌≡◌, true, IfOk, IfErr, OnOk};
ghost use Rattle.scenario.specs.declared.playing.Played.TheVariants.{OnThreads};
ghost use Rattle.scenario_faults.specs.Refusals.{IsPlaced};
ghost use Rattle.maglev_cli.specs.Runs.{Runs, CountedRuns, PacedRuns, RunCommandFails, failure_fault, only_splits};

use change_share::ChangeCounts;
use command_faults::{CliFault, put_text};
use connection_table::TableKey;
use json_lines::Form;
use node_threads::{Gate, OpenGate};
use pcap_file::{Sink, Source};
use run_scenario::{Host, RunFailure, RunOptions, run_scenario};
use scenario_faults::{PlacedFault, thread_scenario_in};
use std::alloc::Global;
use std::sync::Wait;
use std::thread::Threads;

/// The fault of a run that stopped, as the command's.
pub(crate) fn failure_fault(stop: RunFailure) -> CliFault
    ensures { result ≡ failure_fault stop }
{
    match stop {
        RunFailure::Simulation(fault) => CliFault::from(fault),
        RunFailure::Threads(fault) => CliFault::from(fault),
    }
}

/// The command `run`: runs a scenario's cluster on threads over a capture, and writes what the nodes sent as another
/// capture, node by node. Then it writes the report, which ends in `audit agrees`, with what is reported of its splits
/// before it where `splits` holds.
///
/// The devices aren't called before the scenario was accepted, which may have no step `full`, `hold` or `drain`. After a fault
/// that isn't `Write` nothing is in the report, and the output is as it was. Where memory was refused while the output was
/// written, it is cut between records.
pub fn run<T: Threads + Wait + Sync, I: Source, O: Sink, R: Sink>(
    rt: &T,
    alloc: Global,
    scenario: &[u8],
    input: &mut I,
    output: &mut O,
    report: &mut R,
    splits: bool,
) -> Result<(), CliFault>
    ensures ran { OnOk result (Runs (only_splits splits) scenario.now (I.tape input.old) (I.tape input.new)
        (O.tape output.old) (O.tape output.new) (R.tape report.old) (R.tape report.new)) }
    ensures stopped { IfErr result (λ fault. RunCommandFails fault (only_splits splits) scenario.now (I.tape input.old) (I.tape input.new)
        (O.tape output.old) (O.tape output.new) (R.tape report.old) (R.tape report.new)
        ((input.new ≡ input.old) × (output.new ≡ output.old) × (report.new ≡ report.old)) (report.new ≡ report.old)) }
{
    let key = TableKey::fixed();
    let options = RunOptions {
        splits,
        places: false,
        backends: false,
        nodes: false,
        summary: false,
        paced: false,
        form: Form::Plain,
    };
    let gate = &OpenGate;
    let host = Host { rt, gate };
    match run_keyed(&host, alloc, key, scenario, options, input, output, report) {
        Ok(_) => Ok(()),
        Err(stopped) => Err(stopped.fault),
    }
}

/// The same, with a key for the hash of the connection tables. Where drivers are paced no ring refuses a packet. Where the
/// changes are kept, it also answers how many connections there were, and how many of them changed their server. The workers call
/// the host's gate, which has no say in any of this.
pub fn run_keyed<T: Threads + Wait + Sync, G: Gate + Sync, I: Source, O: Sink, R: Sink>(
    host: &Host<'_, T, G>,
    alloc: Global,
    key: TableKey,
    scenario: &[u8],
    options: RunOptions,
    input: &mut I,
    output: &mut O,
    report: &mut R,
) -> Result<Option<ChangeCounts>, PlacedFault>
    ensures ran { OnOk result (Runs options scenario.now (I.tape input.old) (I.tape input.new)
        (O.tape output.old) (O.tape output.new) (R.tape report.old) (R.tape report.new)) }
    ensures counted { IfOk result (CountedRuns options scenario.now (I.tape input.old) (I.tape input.new)
        (O.tape output.old) (O.tape output.new) (R.tape report.old) (R.tape report.new)) }
    ensures paced { options.paced ≡ true → OnOk result (PacedRuns options scenario.now
        (I.tape input.old) (I.tape input.new) (O.tape output.old) (O.tape output.new) (R.tape report.old) (R.tape report.new)) }
    ensures stopped { IfErr result (λ r. RunCommandFails r.fault options scenario.now
        (I.tape input.old) (I.tape input.new) (O.tape output.old) (O.tape output.new) (R.tape report.old) (R.tape report.new)
        ((input.new ≡ input.old) × (output.new ≡ output.old) × (report.new ≡ report.old)) (report.new ≡ report.old)) }
    ensures place { IfErr result (IsPlaced OnThreads scenario.now) }
{
    let scenario = match thread_scenario_in(alloc, scenario) {
        Ok(scenario) => scenario,
        Err(stopped) => return Err(stopped),
    };
    let answer = match run_scenario(host, alloc, key, &scenario, options, input, output) {
        Ok(answer) => answer,
        Err(stop) => {
            return Err(PlacedFault {
                fault: failure_fault(stop),
                place: None,
            });
        }
    };
    match put_text(report, answer.text.as_str()) {
        Ok(()) => Ok(answer.counts),
        Err(fault) => Err(PlacedFault { fault, place: None }),
    }
}
