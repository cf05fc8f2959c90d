//! The command `compare` of a scenario's service.
ghost use Rattle.std.specs.Prelude.{◌≡◌, ◌≢◌, IfOk, IfErr, OnOk, string_bytes};
ghost use Rattle.scenario.specs.declared.playing.Played.TheVariants.{NotAtAll};
ghost use Rattle.scenario_faults.specs.Refusals.{IsPlaced};
ghost use Rattle.command_faults.specs.Printing.{Prints, BreaksOff};
ghost use Rattle.scenario_tables.specs.Tables.{compared, ShowsMoves, AreMoves, AskedFails, MovesFail, keys_in_both};

use crate::asking::{key_for, keys_of_both};
use command_faults::{CliFault, put_text};
use json_lines::Form;
use pcap_file::Sink;
use rollout_plan::{members_under, rule_of, version_of};
use scenario::Scenario;
use scenario_faults::{PlacedFault, unplayed_scenario_in};
use std::alloc::Global;
use table_commands::compare_text_of;

/// The versions that are compared, and the word of the service, where there is one.
#[derive(Clone, Copy, Debug)]
pub struct Change<'a> {
    pub from: u32,
    pub to: u32,
    pub service: Option<&'a str>,
}

// The text of what changes for a scenario's service.
fn text_of(
    alloc: Global,
    form: Form,
    scenario: &Scenario,
    change: Change<'_>,
) -> Result<String, CliFault>
    ensures text { IfOk result (λ s. ShowsMoves form scenario.now (compared change.entry) (string_bytes s)) }
    ensures fault { IfErr result (λ fault. AskedFails fault (compared change.entry).word (keys_in_both scenario.now (compared change.entry))) }
    ensures unwritten { IfErr result (λ fault. fault ≢ CliFault.Write) }
{
    let before = version_of(scenario, change.from)?;
    let after = version_of(scenario, change.to)?;
    let keys = keys_of_both(alloc, before, after)?;
    let key = key_for(alloc, keys.as_slice(), change.service)?;
    let rule = rule_of(scenario);
    let old = rule.table(alloc, members_under(key, before))?;
    let new = rule.table(alloc, members_under(key, after))?;
    Ok(compare_text_of(alloc, form, &old, &new)?)
}

// The same of the scenario that a text means.
fn text_for(
    alloc: Global,
    form: Form,
    scenario: &[u8],
    change: Change<'_>,
) -> Result<String, PlacedFault>
    ensures text { IfOk result (λ s. AreMoves form scenario.now (compared change.entry) (string_bytes s)) }
    ensures fault { IfErr result (λ r. MovesFail r.fault scenario.now (compared change.entry)) }
    ensures place { IfErr result (IsPlaced NotAtAll scenario.now) }
    ensures unwritten { IfErr result (λ r. r.fault ≢ CliFault.Write) }
{
    let scenario = match unplayed_scenario_in(alloc, scenario) {
        Ok(scenario) => scenario,
        Err(stopped) => return Err(stopped),
    };
    match text_of(alloc, form, &scenario, change) {
        Ok(text) => Ok(text),
        Err(fault) => Err(PlacedFault { fault, place: None }),
    }
}

/// The command `compare` over a scenario, in a form: writes the slots of a service's table whose backend changes from one version to
/// another.
///
/// The service is that of the word `ADDRESS:PORT/PROTOCOL`, or where there is none the only one of both versions; else the fault
/// is BadService. A version without it counts as one where it has no members. The scenario may have any step. Where it
/// lacks a version the fault is BadNumber. The text is written in one piece once it is whole, so after any fault but `Write`
/// nothing was written.
pub fn compare_in<S: Sink>(
    alloc: Global,
    form: Form,
    scenario: &[u8],
    change: Change<'_>,
    out: &mut S,
) -> Result<(), PlacedFault>
    ensures written { OnOk result (Prints (AreMoves form scenario.now (compared change.entry)) (S.tape out.old) (S.tape out.new)) }
    ensures broken { IfErr result (λ r. r.fault ≡ CliFault.Write →
        BreaksOff (AreMoves form scenario.now (compared change.entry)) (S.tape out.old) (S.tape out.new)) }
    ensures silent { IfErr result (λ r. r.fault ≢ CliFault.Write → out.new ≡ out.old) }
    ensures fault { IfErr result (λ r. MovesFail r.fault scenario.now (compared change.entry)) }
    ensures place { IfErr result (IsPlaced NotAtAll scenario.now) }
{
    let text = match text_for(alloc, form, scenario, change) {
        Ok(text) => text,
        Err(stopped) => return Err(stopped),
    };
    match put_text(out, text.as_str()) {
        Ok(()) => Ok(()),
        Err(fault) => Err(PlacedFault { fault, place: None }),
    }
}
