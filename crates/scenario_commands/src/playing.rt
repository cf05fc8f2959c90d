//! The commands that play a scenario over a capture.
ghost use Rattle.std.specs.Prelude.{◌≡◌, false, IfOk, IfErr, OnOk};
ghost use Rattle.simulation.specs.Wires.{unkept};
ghost use Rattle.json_lines.specs.declared.forms.Form.TheVariants.{Plain};
ghost use Rattle.scenario.specs.declared.playing.Played.TheVariants.{InTurn};
ghost use Rattle.scenario_faults.specs.Refusals.{IsPlaced};
ghost use Rattle.scenario_commands.specs.Scenarios.{Plays, CountedPlays, PlayFails, ExplainFails};

use change_share::ChangeCounts;
use command_faults::{CliFault, put_text};
use connection_table::TableKey;
use json_lines::Form;
use pcap_file::{Sink, Source};
use scenario_faults::{PlacedFault, scenario_in};
use simulate_scenario::{Query, TwoEvents, Wanted, play_scenario};
use simulation::{Nowhere, Outlet};
use std::alloc::Global;

// Plays the scenario that a text means, writes what was asked of it, and answers the counts of its connections.
fn play<I: Source, O: Outlet, R: Sink>(
    alloc: Global,
    key: TableKey,
    scenario: &[u8],
    asked: Query,
    input: &mut I,
    output: &mut O,
    report: &mut R,
) -> Result<Option<ChangeCounts>, PlacedFault>
    ensures counted { IfOk result (CountedPlays asked scenario.now
        (I.tape input.old) (I.tape input.new) (O.tape output.old) (O.tape output.new) (R.tape report.old) (R.tape report.new)) }
    ensures stopped { IfErr result (λ r. PlayFails r.fault asked scenario.now
        (I.tape input.old) (I.tape input.new) (O.tape output.old) (O.tape output.new) (R.tape report.old) (R.tape report.new)
        ((input.new ≡ input.old) × (output.new ≡ output.old) × (report.new ≡ report.old)) (report.new ≡ report.old)) }
    ensures place { IfErr result (IsPlaced InTurn scenario.now) }
{
    let scenario = match scenario_in(alloc, scenario) {
        Ok(scenario) => scenario,
        Err(stopped) => return Err(stopped),
    };
    let answer = match play_scenario(alloc, key, scenario, asked, input, output) {
        Ok(answer) => answer,
        Err(fault) => {
            return Err(PlacedFault {
                fault: CliFault::from(fault),
                place: None,
            });
        }
    };
    match put_text(report, answer.text.as_str()) {
        Ok(()) => Ok(answer.counts),
        Err(fault) => Err(PlacedFault { fault, place: None }),
    }
}

/// The command `simulate`: plays a scenario over a capture, and writes what the cluster sends as another capture. Then it
/// writes the report, with what is wanted before it: a line for each event, and then a line for each flow that was split,
/// and how many there were.
///
/// The devices aren't called before the scenario was accepted, which may have no step `stop`, and the output isn't before the
/// input's header was. After a fault that isn't `Write` nothing is in the report, and the output is cut between records.
pub fn simulate<I: Source, O: Sink, R: Sink>(
    alloc: Global,
    scenario: &[u8],
    input: &mut I,
    output: &mut O,
    report: &mut R,
    wanted: Wanted,
) -> Result<(), CliFault>
    ensures played { OnOk result (Plays (Query.Report wanted) scenario.now
        (I.tape input.old) (I.tape input.new) (O.tape output.old) (O.tape output.new) (R.tape report.old) (R.tape report.new)) }
    ensures stopped { IfErr result (λ fault. PlayFails fault (Query.Report wanted) scenario.now
        (I.tape input.old) (I.tape input.new) (O.tape output.old) (O.tape output.new) (R.tape report.old) (R.tape report.new)
        ((input.new ≡ input.old) × (output.new ≡ output.old) × (report.new ≡ report.old)) (report.new ≡ report.old)) }
{
    let key = TableKey::fixed();
    match simulate_keyed(alloc, key, scenario, input, output, report, wanted) {
        Ok(_) => Ok(()),
        Err(stopped) => Err(stopped.fault),
    }
}

/// The same, with a key for the hash of the connection tables. Where changes are kept, with places or for a summary, it
/// answers how many connections there were and how many of them changed their server.
pub fn simulate_keyed<I: Source, O: Sink, R: Sink>(
    alloc: Global,
    key: TableKey,
    scenario: &[u8],
    input: &mut I,
    output: &mut O,
    report: &mut R,
    wanted: Wanted,
) -> Result<Option<ChangeCounts>, PlacedFault>
    ensures played { OnOk result (Plays (Query.Report wanted) scenario.now
        (I.tape input.old) (I.tape input.new) (O.tape output.old) (O.tape output.new) (R.tape report.old) (R.tape report.new)) }
    ensures counted { IfOk result (CountedPlays (Query.Report wanted) scenario.now
        (I.tape input.old) (I.tape input.new) (O.tape output.old) (O.tape output.new) (R.tape report.old) (R.tape report.new)) }
    ensures stopped { IfErr result (λ r. PlayFails r.fault (Query.Report wanted) scenario.now
        (I.tape input.old) (I.tape input.new) (O.tape output.old) (O.tape output.new) (R.tape report.old) (R.tape report.new)
        ((input.new ≡ input.old) × (output.new ≡ output.old) × (report.new ≡ report.old)) (report.new ≡ report.old)) }
    ensures place { IfErr result (IsPlaced InTurn scenario.now) }
{
    let asked = Query::Report(wanted);
    match play(alloc, key, scenario, asked, input, output, report) {
        Ok(counts) => Ok(counts),
        Err(stopped) => Err(stopped),
    }
}

/// The command `explain`: plays a scenario over a capture, and writes why the packets of two of its events went where they
/// went. Events are counted from 0. What the cluster sends is neither wrapped nor kept. A step `stop` is none, as in [`simulate`].
pub fn explain_run<I: Source, R: Sink>(
    alloc: Global,
    scenario: &[u8],
    input: &mut I,
    one: u64,
    other: u64,
    report: &mut R,
) -> Result<(), CliFault>
    ensures played { OnOk result (Plays (Query.Events (record { one = one; other = other; list = false; form = Plain })) scenario.now
        (I.tape input.old) (I.tape input.new) unkept unkept (R.tape report.old) (R.tape report.new)) }
    ensures stopped { IfErr result (λ fault. ExplainFails fault (Query.Events (record { one = one; other = other; list = false; form = Plain })) scenario.now
        (I.tape input.old) (I.tape input.new) (R.tape report.old) (R.tape report.new)
        ((input.new ≡ input.old) × (report.new ≡ report.old)) (report.new ≡ report.old)) }
{
    let asked = Query::Events(TwoEvents {
        one,
        other,
        list: false,
        form: Form::Plain,
    });
    match answer_keyed(alloc, TableKey::fixed(), scenario, asked, input, report) {
        Ok(()) => Ok(()),
        Err(stopped) => Err(stopped.fault),
    }
}

/// The same of whatever is asked, with a key for the hash of the connection tables.
pub fn answer_keyed<I: Source, R: Sink>(
    alloc: Global,
    key: TableKey,
    scenario: &[u8],
    asked: Query,
    input: &mut I,
    report: &mut R,
) -> Result<(), PlacedFault>
    ensures played { OnOk result (Plays asked scenario.now
        (I.tape input.old) (I.tape input.new) unkept unkept (R.tape report.old) (R.tape report.new)) }
    ensures stopped { IfErr result (λ r. ExplainFails r.fault asked scenario.now
        (I.tape input.old) (I.tape input.new) (R.tape report.old) (R.tape report.new)
        ((input.new ≡ input.old) × (report.new ≡ report.old)) (report.new ≡ report.old)) }
    ensures place { IfErr result (IsPlaced InTurn scenario.now) }
{
    let mut output = Nowhere;
    match play(alloc, key, scenario, asked, input, &mut output, report) {
        Ok(_) => Ok(()),
        Err(stopped) => Err(stopped),
    }
}
