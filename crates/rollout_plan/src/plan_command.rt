//! The command `plan`.
ghost use Rattle.std.specs.Prelude.{◌≡◌, ◌≢◌, Some, None, string_bytes, IfOk, OnOk, IfErr};
ghost use Rattle.scenario.specs.declared.playing.Played.TheVariants.{NotAtAll};
ghost use Rattle.scenario_faults.specs.Refusals.{IsPlaced};
ghost use Rattle.command_faults.specs.Printing.{Prints, BreaksOff};
ghost use Rattle.rollout_plan.specs.Tables.{rule_of};
ghost use Rattle.rollout_plan.specs.Plans.{ShowsAs, IsPlanAs, IsPlan, AskedFails, PlanFails, has_versions, version_in};

use crate::slots::TableRule;
use crate::text::{plan_text_of, version_text_of};
use command_faults::{CliFault, put_text};
use json_lines::Form;
use pcap_file::Sink;
use pool_versions::{PoolFault, Version};
use scenario::Scenario;
use scenario_faults::{PlacedFault, unplayed_scenario_in};
use std::alloc::Global;

/// How the tables of a scenario are made.
pub fn rule_of(scenario: &Scenario) -> TableRule
    ensures { result ≡ rule_of scenario.now }
{
    TableRule {
        size: scenario.size,
        hash: scenario.hash,
        kind: scenario.scheme,
    }
}

/// A scenario's version of a number, or BadNumber.
pub fn version_of(scenario: &Scenario, number: u32) -> Result<&Version, CliFault>
    ensures found { IfOk result (λ v. version_in scenario.entry.now number ≡ Some v.now) }
    ensures missing { IfErr result (λ fault. (fault ≡ CliFault.Pool PoolFault.BadNumber) × (version_in scenario.entry.now number ≡ None)) }
{
    match scenario.catalogue.get(number) {
        Some(version) => Ok(version),
        None => Err(CliFault::Pool(PoolFault::BadNumber)),
    }
}

// The text of what is asked of a scenario: of one version, or of two.
fn text_of(
    alloc: Global,
    form: Form,
    scenario: &Scenario,
    from: u32,
    to: Option<u32>,
) -> Result<String, CliFault>
    ensures text { IfOk result (λ s. ShowsAs form scenario.now from to (string_bytes s)) }
    ensures fault { IfErr result (λ fault. AskedFails fault (has_versions scenario.now from to)) }
    ensures unwritten { IfErr result (λ fault. fault ≢ CliFault.Write) }
{
    let rule = rule_of(scenario);
    let before = version_of(scenario, from)?;
    match to {
        None => Ok(version_text_of(alloc, form, &rule, before)?),
        Some(to) => {
            let after = version_of(scenario, to)?;
            Ok(plan_text_of(alloc, form, &rule, before, after)?)
        }
    }
}

// The same of the scenario that a text means.
fn text_for(
    alloc: Global,
    form: Form,
    scenario: &[u8],
    from: u32,
    to: Option<u32>,
) -> Result<String, PlacedFault>
    ensures text { IfOk result (λ s. IsPlanAs form scenario.now from to (string_bytes s)) }
    ensures fault { IfErr result (λ r. PlanFails r.fault scenario.now from to) }
    ensures place { IfErr result (IsPlaced NotAtAll scenario.now) }
    ensures unwritten { IfErr result (λ r. r.fault ≢ CliFault.Write) }
{
    let scenario = match unplayed_scenario_in(alloc, scenario) {
        Ok(scenario) => scenario,
        Err(stopped) => return Err(stopped),
    };
    match text_of(alloc, form, &scenario, from, to) {
        Ok(text) => Ok(text),
        Err(fault) => Err(PlacedFault { fault, place: None }),
    }
}

/// The command `plan` in a form: writes what changes from a scenario's version `from` to its version `to`, or what the version `from`
/// has where `to` is None.
///
/// Of each service of either version it has a block: how many slots name somebody else, and how many of these named a backend
/// that is up no more, or nobody, and how many one that is up still; the fewest that any table with the same counts would
/// change; and each backend with its weight and its slots. Where a member drains after, slots of backends that are up no more
/// but drain are counted apart. A version without the service counts as one where it has no members. The scenario may have
/// any step. Where it lacks a version the fault is BadNumber. The text is written in one piece once it is whole, so after any
/// fault but `Write` nothing was written.
pub fn plan_as<S: Sink>(
    alloc: Global,
    form: Form,
    scenario: &[u8],
    from: u32,
    to: Option<u32>,
    out: &mut S,
) -> Result<(), PlacedFault>
    ensures written { OnOk result (Prints (IsPlanAs form scenario.now from to) (S.tape out.old) (S.tape out.new)) }
    ensures broken { IfErr result (λ r. r.fault ≡ CliFault.Write → BreaksOff (IsPlanAs form scenario.now from to) (S.tape out.old) (S.tape out.new)) }
    ensures silent { IfErr result (λ r. r.fault ≢ CliFault.Write → out.new ≡ out.old) }
    ensures fault { IfErr result (λ r. PlanFails r.fault scenario.now from to) }
    ensures place { IfErr result (IsPlaced NotAtAll scenario.now) }
{
    let text = match text_for(alloc, form, scenario, from, to) {
        Ok(text) => text,
        Err(stopped) => return Err(stopped),
    };
    match put_text(out, text.as_str()) {
        Ok(()) => Ok(()),
        Err(fault) => Err(PlacedFault { fault, place: None }),
    }
}

/// The same in lines for people.
pub fn plan<S: Sink>(
    alloc: Global,
    scenario: &[u8],
    from: u32,
    to: Option<u32>,
    out: &mut S,
) -> Result<(), CliFault>
    ensures written { OnOk result (Prints (IsPlan scenario.now from to) (S.tape out.old) (S.tape out.new)) }
    ensures broken { IfErr result (λ fault. fault ≡ CliFault.Write → BreaksOff (IsPlan scenario.now from to) (S.tape out.old) (S.tape out.new)) }
    ensures silent { IfErr result (λ fault. fault ≢ CliFault.Write → out.new ≡ out.old) }
    ensures fault { IfErr result (λ fault. PlanFails fault scenario.now from to) }
{
    match plan_as(alloc, Form::Plain, scenario, from, to, out) {
        Ok(()) => Ok(()),
        Err(stopped) => Err(stopped.fault),
    }
}
