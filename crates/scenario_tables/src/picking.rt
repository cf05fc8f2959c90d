//! The command `pick` under a scenario's version.
ghost use Rattle.std.specs.Prelude.{◌≡◌, ◌≢◌, ◌+◌, ◌<◌, IfOk, IfErr, OnOk, MatchBool, string_bytes};
ghost use Rattle.hash_laws.specs.Any.{plain_of};
ghost use Rattle.pool_versions.specs.Pool.{find_service};
ghost use Rattle.rollout_plan.specs.Tables.{rule_of};
ghost use Rattle.selection.specs.Picks.{slot_of_flow};
ghost use Rattle.pcap_file.specs.Device.{Unfailed, ReadRefused};
ghost use Rattle.scenario.specs.declared.playing.Played.TheVariants.{NotAtAll};
ghost use Rattle.scenario_faults.specs.Refusals.{IsPlaced};
ghost use Rattle.command_faults.specs.Printing.{Prints, BreaksOff};
ghost use Rattle.table_commands.specs.Pick.{longest};
ghost use Rattle.scenario_tables.specs.Picking.{table_text_as, service_text_as, packet_text_as, ShowsPick, IsPick, AskedFails, PickFails};

use cluster_core::read_packet;
use cluster_node::{Cause, Packet};
use command_faults::{CliFault, put_text};
use five_tuple::Flow;
use hash_laws::FlowHash;
use ip_headers::Link;
use json_lines::Form;
use pcap_file::{Sink, Source};
use pool_versions::Version;
use rollout_plan::{SlotTable, rule_of, version_of};
use scenario::{Scenario, SchemeKind};
use scenario_faults::{PlacedFault, unplayed_scenario_in};
use std::alloc::{AllocError, Global};
use table_commands::{datagram_of, drop_text_of, flow_text_of};

/// In which form `pick` prints, under which version it picks, and whether it tests the header checksum.
#[derive(Clone, Copy, Debug)]
pub struct PickOptions {
    pub form: Form,
    pub version: u32,
    pub check: bool,
}

// What is printed of a flow in a table.
fn table_text_of(
    alloc: Global,
    form: Form,
    table: &SlotTable,
    flow: Flow,
    slot: u32,
) -> Result<String, AllocError>
    requires { slot < table.now.size }
    ensures { IfOk result (λ s. string_bytes s ≡ table_text_as form table.now flow slot) }
{
    match table.backend_at(slot) {
        None => drop_text_of(alloc, form, Cause::NoBackend),
        Some(backend) => flow_text_of(alloc, form, flow, slot, backend.name),
    }
}

// The slot of a flow.
fn slot_of(scenario: &Scenario, flow: &Flow) -> u32
    ensures slot { result ≡ slot_of_flow (plain_of scenario.now.hash) scenario.now.size flow.now }
    ensures low { result < scenario.now.size }
{
    let size = scenario.size.slots();
    (scenario.hash.hash(b'f', &flow.bytes()) % u64::from(size)) as u32
}

// What is printed of a flow under a version.
fn service_text_of(
    alloc: Global,
    form: Form,
    scenario: &Scenario,
    version: &Version,
    flow: Flow,
) -> Result<String, AllocError>
    ensures { IfOk result (λ s. string_bytes s ≡ service_text_as form (rule_of scenario.now) flow (find_service flow version.now.services.items)) }
{
    let Some(service) = version.service_of(&flow) else {
        return drop_text_of(alloc, form, Cause::NoService);
    };
    let table = rule_of(scenario).table(alloc, service.members.as_slice())?;
    table_text_of(alloc, form, &table, flow, slot_of(scenario, &flow))
}

// What is printed of a datagram under a version.
fn packet_text_of(
    alloc: Global,
    form: Form,
    scenario: &Scenario,
    version: &Version,
    packet: Packet,
) -> Result<String, AllocError>
    ensures { IfOk result (λ s. string_bytes s ≡ packet_text_as form (rule_of scenario.now) version.now packet) }
{
    match packet {
        Packet::Good { flow, .. } => service_text_of(alloc, form, scenario, version, flow),
        Packet::Bad(cause) => drop_text_of(alloc, form, cause),
    }
}

// Whether a scenario's scheme has tables.
fn has_tables(scenario: &Scenario) -> bool
    ensures { MatchBool result (scenario.now.scheme ≡ SchemeKind.Maglev) (scenario.now.scheme ≡ SchemeKind.Maglev → ⊥) }
{
    matches!(scenario.scheme, SchemeKind::Maglev)
}

// What is printed of the datagram that the input has, under a version of a scenario.
fn text_for<R: Source>(
    alloc: Global,
    scenario: &Scenario,
    options: PickOptions,
    input: &mut R,
) -> Result<String, CliFault>
    ensures text { IfOk result (λ s. ShowsPick options.form scenario.now options.version options.check (R.tape input.old).bytes (string_bytes s)) }
    ensures unfailed { OnOk result (Unfailed (R.tape input.old) (R.tape input.new)) }
    ensures read { IfErr result (λ fault. fault ≡ CliFault.Read → ReadRefused (longest + 1) (R.tape input.old) (R.tape input.new)) }
    ensures fault { IfErr result (λ fault. AskedFails fault scenario.now options.version (R.tape input.old).bytes) }
    ensures unwritten { IfErr result (λ fault. fault ≢ CliFault.Write) }
{
    if !has_tables(scenario) {
        return Err(CliFault::BadScheme);
    }
    let version = version_of(scenario, options.version)?;
    let bytes = match datagram_of(alloc, input) {
        Ok(bytes) => bytes,
        Err(fault) => return Err(fault),
    };
    let packet = read_packet(Link::Ipv4, bytes.as_slice(), 0, options.check);
    match packet_text_of(alloc, options.form, scenario, version, packet) {
        Ok(text) => Ok(text),
        Err(_) => Err(CliFault::Memory),
    }
}

// The same of the scenario that a text means.
fn text_in<R: Source>(
    alloc: Global,
    scenario: &[u8],
    options: PickOptions,
    input: &mut R,
) -> Result<String, PlacedFault>
    ensures text { IfOk result (λ s. IsPick options.form scenario.now options.version options.check (R.tape input.old).bytes (string_bytes s)) }
    ensures unfailed { OnOk result (Unfailed (R.tape input.old) (R.tape input.new)) }
    ensures read { IfErr result (λ r. r.fault ≡ CliFault.Read → ReadRefused (longest + 1) (R.tape input.old) (R.tape input.new)) }
    ensures fault { IfErr result (λ r. PickFails r.fault scenario.now options.version (R.tape input.old).bytes) }
    ensures place { IfErr result (IsPlaced NotAtAll scenario.now) }
    ensures unwritten { IfErr result (λ r. r.fault ≢ CliFault.Write) }
{
    let scenario = match unplayed_scenario_in(alloc, scenario) {
        Ok(scenario) => scenario,
        Err(stopped) => return Err(stopped),
    };
    match text_for(alloc, &scenario, options, input) {
        Ok(text) => Ok(text),
        Err(fault) => Err(PlacedFault { fault, place: None }),
    }
}

/// The command `pick` over a scenario: reads one IPv4 datagram as hexadecimal text. It writes its flow, the flow's slot and the
/// backend that the slot names in the table of the flow's service under a version, or why the datagram is dropped.
///
/// That is where a new flow goes: no entry of a connection table is asked. The scheme must be `maglev`; else the fault is
/// BadScheme. Where the scenario, which may have any step, lacks the version, it is BadNumber. The input is that of
/// `pick`, and is read after that. The text is written in one piece, so after any fault but `Write` nothing was written.
pub fn pick_in<R: Source, S: Sink>(
    alloc: Global,
    scenario: &[u8],
    options: PickOptions,
    input: &mut R,
    out: &mut S,
) -> Result<(), PlacedFault>
    ensures written { OnOk result (Prints (IsPick options.form scenario.now options.version options.check (R.tape input.old).bytes) (S.tape out.old)
        (S.tape out.new)) }
    ensures broken { IfErr result (λ r. r.fault ≡ CliFault.Write →
        BreaksOff (IsPick options.form scenario.now options.version options.check (R.tape input.old).bytes) (S.tape out.old) (S.tape out.new)) }
    ensures unfailed { OnOk result (Unfailed (R.tape input.old) (R.tape input.new)) }
    ensures read { IfErr result (λ r. r.fault ≡ CliFault.Read → ReadRefused (longest + 1) (R.tape input.old) (R.tape input.new)) }
    ensures silent { IfErr result (λ r. r.fault ≢ CliFault.Write → out.new ≡ out.old) }
    ensures fault { IfErr result (λ r. PickFails r.fault scenario.now options.version (R.tape input.old).bytes) }
    ensures place { IfErr result (IsPlaced NotAtAll scenario.now) }
{
    let text = match text_in(alloc, scenario, options, input) {
        Ok(text) => text,
        Err(stopped) => return Err(stopped),
    };
    match put_text(out, text.as_str()) {
        Ok(()) => Ok(()),
        Err(fault) => Err(PlacedFault { fault, place: None }),
    }
}
