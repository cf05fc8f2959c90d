//! The command `table` of a scenario's service.
ghost use Rattle.std.specs.Prelude.{◌≡◌, ◌≢◌, ◌++◌, ◌<◌, option_map, IfOk, IfErr, OnOk, string_bytes};
ghost use Rattle.std.specs.List.{flat_map, range_with_len};
ghost use Rattle.scenario.specs.declared.playing.Played.TheVariants.{NotAtAll};
ghost use Rattle.scenario_faults.specs.Refusals.{IsPlaced};
ghost use Rattle.command_faults.specs.Printing.{Prints, BreaksOff};
ghost use Rattle.rollout_plan.specs.Plans.{version_in};
ghost use Rattle.scenario_tables.specs.Tables.{owner_name, owner_line_as, share_line_as, slots_text_as, ShowsTable, IsTable, AskedFails, TableFails, keys_in};

use crate::asking::{key_for, keys_of};
use backend_names::Name;
use command_faults::{CliFault, put_text};
use json_lines::Form;
use pcap_file::Sink;
use pool_versions::Backend;
use rollout_plan::{SlotTable, members_under, rule_of, version_of};
use scenario::Scenario;
use scenario_faults::{PlacedFault, unplayed_scenario_in};
use std::alloc::{AllocError, Global};
use table_commands::{push_count_line, push_slot_line, table_head};

// The name of the backend that a slot names.
fn owner_name(owner: Option<Backend>) -> Option<Name>
    ensures { result ≡ owner_name owner }
{
    match owner {
        None => None,
        Some(backend) => Some(backend.name),
    }
}

#[tactic(auto, unfolding(crate::specs::Tables::owner_line_as))]
fn push_owner_line(
    text: &mut String,
    form: Form,
    table: &SlotTable,
    slot: u32,
) -> Result<(), AllocError>
    requires { slot < table.now.size }
    ensures { OnOk result (string_bytes text.new ≡ string_bytes text.old ++ owner_line_as form table.now slot) }
{
    push_slot_line(text, form, slot, owner_name(table.backend_at(slot)))
}

fn push_owner_lines(text: &mut String, form: Form, table: &SlotTable) -> Result<(), AllocError>
    ensures { OnOk result (string_bytes text.new ≡ string_bytes text.old ++ flat_map (owner_line_as form table.now) (range_with_len 0 table.now.size)) }
{
    for slot in 0..table.size() {
        push_owner_line(text, form, table, slot)?;
    }
    Ok(())
}

#[tactic(auto, unfolding(crate::specs::Tables::share_line_as))]
fn push_share_line(
    text: &mut String,
    form: Form,
    table: &SlotTable,
    backend: &Backend,
) -> Result<(), AllocError>
    ensures { OnOk result (string_bytes text.new ≡ string_bytes text.old ++ share_line_as form table.now backend.now) }
{
    push_count_line(text, form, backend.name, table.slots_of(backend))
}

fn push_share_lines(
    text: &mut String,
    form: Form,
    table: &SlotTable,
    backends: &[Backend],
) -> Result<(), AllocError>
    ensures { OnOk result (string_bytes text.new ≡ string_bytes text.old ++ flat_map (share_line_as form table.now) backends.now) }
{
    for backend in backends {
        push_share_line(text, form, table, backend)?;
    }
    Ok(())
}

// The text of a table.
#[tactic(auto, unfolding(crate::specs::Tables::slots_text_as))]
fn slots_text_of(alloc: Global, form: Form, table: &SlotTable) -> Result<String, AllocError>
    ensures { IfOk result (λ s. string_bytes s ≡ slots_text_as form table.now) }
{
    let ups = table.ups();
    let mut text = table_head(alloc, form, table.size(), ups.len())?;
    push_owner_lines(&mut text, form, table)?;
    push_share_lines(&mut text, form, table, ups)?;
    Ok(text)
}

// The text of the table of a scenario's service.
fn text_of(
    alloc: Global,
    form: Form,
    scenario: &Scenario,
    number: u32,
    word: Option<&str>,
) -> Result<String, CliFault>
    ensures text { IfOk result (λ s. ShowsTable form scenario.now number (option_map (λ w. w.now) word.entry) (string_bytes s)) }
    ensures fault { IfErr result (λ fault. AskedFails fault (option_map (λ w. w.now) word.entry) (keys_in (version_in scenario.now number))) }
    ensures unwritten { IfErr result (λ fault. fault ≢ CliFault.Write) }
{
    let version = version_of(scenario, number)?;
    let keys = keys_of(alloc, version)?;
    let key = key_for(alloc, keys.as_slice(), word)?;
    let table = rule_of(scenario).table(alloc, members_under(key, version))?;
    Ok(slots_text_of(alloc, form, &table)?)
}

// The same of the scenario that a text means.
fn text_for(
    alloc: Global,
    form: Form,
    scenario: &[u8],
    number: u32,
    word: Option<&str>,
) -> Result<String, PlacedFault>
    ensures text { IfOk result (λ s. IsTable form scenario.now number (option_map (λ w. w.now) word.entry) (string_bytes s)) }
    ensures fault { IfErr result (λ r. TableFails r.fault scenario.now number (option_map (λ w. w.now) word.entry)) }
    ensures place { IfErr result (IsPlaced NotAtAll scenario.now) }
    ensures unwritten { IfErr result (λ r. r.fault ≢ CliFault.Write) }
{
    let scenario = match unplayed_scenario_in(alloc, scenario) {
        Ok(scenario) => scenario,
        Err(stopped) => return Err(stopped),
    };
    match text_of(alloc, form, &scenario, number, word) {
        Ok(text) => Ok(text),
        Err(fault) => Err(PlacedFault { fault, place: None }),
    }
}

/// The command `table` over a scenario, in a form: writes which backend each slot of a service's table names under a version, and how many
/// slots each backend has.
///
/// The service is that of the word `ADDRESS:PORT/PROTOCOL`, or where there is none the version's only one; else the fault is
/// BadService. The scenario may have any step. Where it lacks the version the fault is BadNumber. A slot that names
/// nobody has a dash, or in an object null. The text is written in one piece once it is whole, so after any fault but `Write` nothing was written.
pub fn table_in<S: Sink>(
    alloc: Global,
    form: Form,
    scenario: &[u8],
    version: u32,
    service: Option<&str>,
    out: &mut S,
) -> Result<(), PlacedFault>
    ensures written { OnOk result (Prints (IsTable form scenario.now version (option_map (λ w. w.now) service.entry)) (S.tape out.old) (S.tape out.new)) }
    ensures broken { IfErr result (λ r. r.fault ≡ CliFault.Write →
        BreaksOff (IsTable form scenario.now version (option_map (λ w. w.now) service.entry)) (S.tape out.old) (S.tape out.new)) }
    ensures silent { IfErr result (λ r. r.fault ≢ CliFault.Write → out.new ≡ out.old) }
    ensures fault { IfErr result (λ r. TableFails r.fault scenario.now version (option_map (λ w. w.now) service.entry)) }
    ensures place { IfErr result (IsPlaced NotAtAll scenario.now) }
{
    let text = match text_for(alloc, form, scenario, version, service) {
        Ok(text) => text,
        Err(stopped) => return Err(stopped),
    };
    match put_text(out, text.as_str()) {
        Ok(()) => Ok(()),
        Err(fault) => Err(PlacedFault { fault, place: None }),
    }
}
