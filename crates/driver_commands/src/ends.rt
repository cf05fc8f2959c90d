//! How the lives of nodes end: by a restart, which drains a life, or by a stop, which doesn't.
ghost use Rattle.std.specs.Prelude.{◌≡◌, length, map, IfOk, OnOk, slice_index_or, true};
ghost use Rattle.thread_records.specs.Losses.{ending};
ghost use Rattle.driver_commands.specs.Orders.{ends_by, ends_on, ended_by};
ghost use Rattle.driver_commands.specs.PrivateTelling.{ends_life, EndBelow};

use event_trace::ScenarioStep;
use std::alloc::{AllocError, Global};
use thread_records::Command;

// Whether a step ends the life of a node: if so, whether the life is drained.
fn ends_by(step: &ScenarioStep, node: u16) -> Option<bool>
    ensures { result ≡ ends_by node step.now }
{
    match step {
        ScenarioStep::Restart(own) if *own == node => Some(true),
        ScenarioStep::Stop(own) if *own == node => Some(false),
        _ => None,
    }
}

// The same of each step that ends a life of the node.
fn ends_on(alloc: Global, node: u16, steps: &[ScenarioStep]) -> Result<Vec<bool>, AllocError>
    ensures { IfOk result (λ v. v.items ≡ ends_on node steps.now) }
{
    steps
        .iter()
        .filter_map(|step| ends_by(step, node))
        .collect(alloc)
}

fn ending(drained: bool) -> Command
    ensures { result ≡ ending drained }
{
    if drained {
        Command::Restart
    } else {
        Command::Stop
    }
}

fn ends_life(command: Command) -> bool
    ensures { result ≡ ends_life command }
{
    match command {
        Command::Publish(_) => false,
        Command::Offer(_) => false,
        Command::Restart => true,
        Command::Stop => true,
    }
}

// Whether the life of this number, counted from 0, is drained.
fn is_drained(ends: &[bool], at: usize) -> bool
    ensures { result ≡ slice_index_or ends.now at true }
{
    match ends.get(at) {
        Some(drained) => *drained,
        None => true,
    }
}

// The commands end lives so.
fn end_by(own: &mut Vec<Command>, ends: &[bool])
    ensures { own.new.items ≡ ended_by ends.now own.old.items }
{
    let mut life = 0;
    for at in 0..own.len() {
        if ends_life(own[at]) {
            own[at] = ending(is_drained(ends, life));
            life += 1;
        }
    }
}

/// Each node's commands end the node's lives as these steps end them.
pub(crate) fn end_as(
    alloc: Global,
    nodes: u16,
    steps: &[ScenarioStep],
    commands: &mut Vec<Vec<Command>>,
) -> Result<(), AllocError>
    requires { length commands.old.items ≡ nodes }
    ensures { OnOk result (EndBelow steps.now nodes (map (λ c. c.items) commands.old.items) (map (λ c. c.items) commands.new.items)) }
{
    for node in 0..nodes {
        let ends = ends_on(alloc, node, steps)?;
        let at = node as usize;
        end_by(&mut commands[at], ends.as_slice());
    }
    Ok(())
}
