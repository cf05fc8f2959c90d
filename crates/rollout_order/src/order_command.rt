//! The command `plan --order`.
ghost use Rattle.std.specs.Prelude.{◌≡◌, ◌≢◌, Some, string_bytes, IfOk, OnOk, IfErr};
ghost use Rattle.scenario.specs.declared.playing.Played.TheVariants.{NotAtAll};
ghost use Rattle.scenario_faults.specs.Refusals.{IsPlaced};
ghost use Rattle.command_faults.specs.Printing.{Prints, BreaksOff};
ghost use Rattle.rollout_plan.specs.Plans.{AskedFails, PlanFails, has_versions};
ghost use Rattle.rollout_order.specs.OrderPlans.{ShowsOrders, IsOrderPlan};

use crate::rollout::rollout_of;
use crate::text::orders_text_of;
use command_faults::{CliFault, put_text};
use json_lines::Form;
use pcap_file::Sink;
use rollout_plan::{rule_of, version_of};
use scenario::Scenario;
use scenario_faults::{PlacedFault, unplayed_scenario_in};
use std::alloc::Global;

// The text of the orders from one version of a scenario to another.
fn text_of(
    alloc: Global,
    form: Form,
    scenario: &Scenario,
    from: u32,
    to: u32,
) -> Result<String, CliFault>
    ensures text { IfOk result (λ s. ShowsOrders form scenario.now from to (string_bytes s)) }
    ensures fault { IfErr result (λ fault. AskedFails fault (has_versions scenario.now from (Some to))) }
    ensures unwritten { IfErr result (λ fault. fault ≢ CliFault.Write) }
{
    let before = version_of(scenario, from)?;
    let after = version_of(scenario, to)?;
    let rollout = rollout_of(alloc, rule_of(scenario), before, after)?;
    Ok(orders_text_of(alloc, form, &rollout)?)
}

// The same of the scenario that a text means.
fn text_for(
    alloc: Global,
    form: Form,
    scenario: &[u8],
    from: u32,
    to: u32,
) -> Result<String, PlacedFault>
    ensures text { IfOk result (λ s. IsOrderPlan form scenario.now from to (string_bytes s)) }
    ensures fault { IfErr result (λ r. PlanFails r.fault scenario.now from (Some to)) }
    ensures place { IfErr result (IsPlaced NotAtAll scenario.now) }
    ensures unwritten { IfErr result (λ r. r.fault ≢ CliFault.Write) }
{
    let scenario = match unplayed_scenario_in(alloc, scenario) {
        Ok(scenario) => scenario,
        Err(stopped) => return Err(stopped),
    };
    match text_of(alloc, form, &scenario, from, to) {
        Ok(text) => Ok(text),
        Err(fault) => Err(PlacedFault { fault, place: None }),
    }
}

/// The command `plan --order` in a form: writes in which orders the servers that leave from a scenario's version `from` to its version
/// `to` can be replaced one by one, and how many slots each order moves though their servers stay.
///
/// A step makes the next server that leaves, and the next by name of those that join, what they are after. After the last step
/// all is as after. Of up to six servers all orders are written, the one that moves the fewest slots first; of more the one
/// whose every step moves the fewest. A step's count is the sum of what `plan` counts as moved, over the services of both
/// versions. Faults are those of `plan`; after any but `Write` nothing was written.
pub fn order<S: Sink>(
    alloc: Global,
    form: Form,
    scenario: &[u8],
    from: u32,
    to: u32,
    out: &mut S,
) -> Result<(), PlacedFault>
    ensures written { OnOk result (Prints (IsOrderPlan form scenario.now from to) (S.tape out.old) (S.tape out.new)) }
    ensures broken { IfErr result (λ r. r.fault ≡ CliFault.Write → BreaksOff (IsOrderPlan form scenario.now from to) (S.tape out.old) (S.tape out.new)) }
    ensures silent { IfErr result (λ r. r.fault ≢ CliFault.Write → out.new ≡ out.old) }
    ensures fault { IfErr result (λ r. PlanFails r.fault scenario.now from (Some to)) }
    ensures place { IfErr result (IsPlaced NotAtAll scenario.now) }
{
    let text = match text_for(alloc, form, scenario, from, to) {
        Ok(text) => text,
        Err(stopped) => return Err(stopped),
    };
    match put_text(out, text.as_str()) {
        Ok(()) => Ok(()),
        Err(fault) => Err(PlacedFault { fault, place: None }),
    }
}
