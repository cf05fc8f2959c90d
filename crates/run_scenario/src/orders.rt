//! What the steps of a scenario tell the nodes.
ghost use Rattle.std.specs.Prelude.{◌≡◌, ◌<◌, ◌≤◌, ◌^◌, length, map, IfOk};
ghost use Rattle.pcap_file.specs.Format.{max_records};
ghost use Rattle.simulation.specs.Sent.{time_of};
ghost use Rattle.timed_steps.specs.Timed.{counted};
ghost use Rattle.timed_steps.specs.Copies.{AreCopies};
ghost use Rattle.cluster_core.specs.Cluster.{WereRead};
ghost use Rattle.event_trace.specs.Tally.{tally_of};
ghost use Rattle.driver_commands.specs.Orders.{plan_of, orders_of};
ghost use Rattle.simulate_scenario.specs.Described.{choice_in};
ghost use Rattle.run_scenario.specs.PrivateFirsts.{may_read, kept_for};
ghost use Rattle.run_scenario.specs.Runs.{steps_in};

use cluster_node::Packet;
use driver_commands::{Orders, orders};
use event_trace::ScenarioStep;
use named_spread::spread_of;
use run_records::Records;
use scenario::Scenario;
use std::alloc::{AllocError, Global};
use timed_steps::{TimedStep, counted, has_until};

/// How many records a step may read.
pub(crate) fn may_read(step: &TimedStep) -> usize
    ensures { result ≡ may_read step.now }
{
    match step {
        TimedStep::Counted(ScenarioStep::Take(count) | ScenarioStep::Lose(count)) => {
            *count as usize
        }
        TimedStep::Counted(_) => 0,
        TimedStep::Until(_) => usize::MAX,
    }
}

/// How many of a capture's first records are kept for some steps at most: as many as they may read. One by time may read any number.
pub(crate) fn kept_for(steps: &[TimedStep]) -> usize
    ensures { result ≡ kept_for steps.now }
{
    let mut total: usize = 0;
    for step in steps {
        match total.checked_add(may_read(step)) {
            Some(more) => total = more,
            None => return usize::MAX,
        }
    }
    total
}

// When each record came, in microseconds.
fn times_of(alloc: Global, records: &Records) -> Result<Vec<u64>, AllocError>
    ensures { IfOk result (λ v. v.items ≡ map time_of records.now) }
{
    let mut times = Vec::with_capacity(alloc, records.len())?;
    for at in 0..records.len() {
        times.push(records.at(at).time())?;
    }
    Ok(times)
}

// The same, where a step asks for it.
fn times_for(alloc: Global, records: &Records, steps: &[TimedStep]) -> Result<Vec<u64>, AllocError>
    ensures steps { IfOk result (λ v. counted v.items steps.now ≡ counted (map time_of records.now) steps.now) }
    ensures few { IfOk result (λ v. length v.items ≤ length records.now) }
{
    if has_until(steps) {
        times_of(alloc, records)
    } else {
        Ok(Vec::new(alloc))
    }
}

// The steps by count that the scenario's are over the records.
fn steps_over(
    alloc: Global,
    scenario: &Scenario,
    records: &Records,
) -> Result<Vec<ScenarioStep>, AllocError>
    requires few { length records.now ≤ max_records }
    ensures { IfOk result (λ v. AreCopies v.items (steps_in scenario.now records.now)) }
{
    let steps = scenario.steps.as_slice();
    let times = times_for(alloc, records, steps)?;
    counted(alloc, times.as_slice(), steps)
}

// What these steps tell each node.
fn orders_by(
    alloc: Global,
    scenario: &Scenario,
    steps: &[ScenarioStep],
    packets: &[Packet],
) -> Result<Orders, AllocError>
    requires read { WereRead packets.now }
    requires places { length packets.now < 2 ^ 32 }
    requires steps { length steps.now < 2 ^ 32 }
    ensures commands { IfOk result (λ o. map (λ c. c.items) o.commands.items
        ≡ orders_of (choice_in scenario.now) packets.now steps.now (length scenario.now.nodes.items)) }
    ensures tally { IfOk result (λ o. o.tally ≡ tally_of (length packets.now) (plan_of (choice_in scenario.now) packets.now steps.now
        (length scenario.now.nodes.items))) }
{
    let nodes = scenario.nodes.len() as u16;
    let spread = spread_of(alloc, scenario.spread, scenario.hash, nodes)?;
    orders(alloc, nodes, spread, packets, steps)
}

/// What the scenario's steps tell each node over records, with the choices of its spreader, and what becomes of the records.
pub(crate) fn orders_of(
    alloc: Global,
    scenario: &Scenario,
    records: &Records,
    packets: &[Packet],
) -> Result<Orders, AllocError>
    requires read { WereRead packets.now }
    requires few { length records.now ≤ max_records }
    requires places { length packets.now < 2 ^ 32 }
    ensures commands { let s = scenario.now in
        IfOk result (λ o. map (λ c. c.items) o.commands.items ≡ orders_of (choice_in s) packets.now (steps_in s records.now) (length s.nodes.items)) }
    ensures tally { let s = scenario.now in
        IfOk result (λ o. o.tally ≡ tally_of (length packets.now) (plan_of (choice_in s) packets.now (steps_in s records.now) (length s.nodes.items))) }
{
    let steps = steps_over(alloc, scenario, records)?;
    orders_by(alloc, scenario, steps.as_slice(), packets)
}
