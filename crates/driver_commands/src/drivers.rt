//! The commands of each node's driver.
ghost use Rattle.std.specs.Prelude.{◌≡◌, ◌<◌, ◌-◌, ◌^◌, ◌++◌, ℕ, List, [], length, map, replicate, IfOk, OnOk, All};
ghost use Rattle.cluster_node.specs.declared.events.Event.{Event};
ghost use Rattle.cluster_core.specs.Cluster.{Cluster, WereRead};
ghost use Rattle.event_trace.specs.declared.steps.ScenarioStep.TheVariants.{Take};
ghost use Rattle.event_trace.specs.Going.{GoesOver};
ghost use Rattle.event_trace.specs.Room.{Counted};
ghost use Rattle.event_trace.specs.Steps.{SameChoice, after, below, run, world_of};
ghost use Rattle.event_trace.specs.Tally.{tally_of};
ghost use Rattle.thread_records.specs.Losses.{as_written, drained_lives};
ghost use Rattle.driver_commands.specs.Noting.{noting};
ghost use Rattle.driver_commands.specs.Orders.{events_of, trace_on, orders_in, plan_of, ends_on, orders_of, IsThere};
ghost use Rattle.driver_commands.specs.PrivateTelling.{Follows, pushed};

use crate::ends::end_as;
use crate::notes::IdleCore;
use crate::told::Orders;
use cluster_node::{Event, LogEntry, Packet};
use event_trace::{Play, ScenarioStep};
use spreader::Spread;
use std::alloc::{AllocError, Global};
use thread_records::Command;

// A list for each node.
fn empty_lists(alloc: Global, nodes: u16) -> Result<Vec<Vec<Command>>, AllocError>
    ensures { IfOk result (λ v. map (λ c. c.items) v.items ≡ replicate nodes []) }
{
    let mut lists = Vec::new(alloc);
    for _ in 0..nodes {
        lists.push(Vec::new(alloc))?;
    }
    Ok(lists)
}

// Gives a node's driver one more command, where the node is there.
fn push(commands: &mut Vec<Vec<Command>>, node: u16, command: Command) -> Result<(), AllocError>
    ensures { OnOk result (map (λ c. c.items) commands.new.items ≡ pushed node command (map (λ c. c.items) commands.old.items)) }
{
    let at = node as usize;
    if at < commands.len() {
        let own = &mut commands[at];
        own.push(command)?;
    }
    Ok(())
}

// What follows from an event.
fn tell(commands: &mut Vec<Vec<Command>>, event: &Event) -> Result<(), AllocError>
    ensures { OnOk result (Follows event.now (map (λ c. c.items) commands.old.items) (map (λ c. c.items) commands.new.items)) }
{
    match event {
        Event::Install { node, version } => push(commands, *node, Command::Publish(*version)),
        Event::Arrive {
            node,
            packet,
            refused: _,
        } => push(commands, *node, Command::Offer(*packet)),
        Event::Serve {
            node: _,
            worker: _,
            version: _,
            refused: _,
        } => Ok(()),
        Event::Restart { node } => push(commands, *node, Command::Restart),
    }
}

// What each node's driver has to do, event by event, behind what it has to do already.
fn tell_all(commands: &mut Vec<Vec<Command>>, events: &[LogEntry]) -> Result<(), AllocError>
    ensures { (nodes : ℕ) (es : List Event) → map (λ c. c.items) commands.old.items ≡ orders_in nodes es →
        OnOk result (map (λ c. c.items) commands.new.items ≡ orders_in nodes (es ++ map (λ s. s.event) events.now)) }
{
    for said in events {
        tell(commands, &said.event)?;
    }
    Ok(())
}

// So many records are taken at once at most, so that few events are kept.
const TAKEN_AT_ONCE: u32 = 1024;

// Plays a step, and tells the drivers what follows from it. The events that were there make room for its own.
fn tell_step<P: Spread>(
    alloc: Global,
    play: &mut Play<P>,
    packets: &[Packet],
    step: &ScenarioStep,
    events: &mut Vec<LogEntry>,
    commands: &mut Vec<Vec<Command>>,
) -> Result<(), AllocError>
    requires read { WereRead packets.now }
    requires places { length packets.now < 2 ^ 32 }
    requires room { Counted (length packets.now) (2 ^ 32) play.old.trace }
    ensures choice { SameChoice (P.choice play.old.spread) (P.choice play.new.spread) }
    ensures after { OnOk result (GoesOver packets.now noting (P.choice play.old.spread) (λ w. after w step.now) play.old.trace play.new.trace) }
    ensures told { (nodes : ℕ) → map (λ c. c.items) commands.old.items ≡ orders_in nodes (events_of play.old.trace) →
        OnOk result (map (λ c. c.items) commands.new.items ≡ orders_in nodes (events_of play.new.trace)) }
{
    events.clear();
    play.step(alloc, &mut IdleCore, &(), packets, step, events)?;
    tell_all(commands, events.as_slice())?;
    Ok(())
}

// The same where so many records are taken.
fn tell_taken<P: Spread>(
    alloc: Global,
    play: &mut Play<P>,
    packets: &[Packet],
    count: u32,
    events: &mut Vec<LogEntry>,
    commands: &mut Vec<Vec<Command>>,
) -> Result<(), AllocError>
    requires read { WereRead packets.now }
    requires places { length packets.now < 2 ^ 32 }
    requires room { Counted (length packets.now) (2 ^ 32) play.old.trace }
    ensures choice { SameChoice (P.choice play.old.spread) (P.choice play.new.spread) }
    ensures after { OnOk result (GoesOver packets.now noting (P.choice play.old.spread) (λ w. after w (Take count)) play.old.trace play.new.trace) }
    ensures told { (nodes : ℕ) → map (λ c. c.items) commands.old.items ≡ orders_in nodes (events_of play.old.trace) →
        OnOk result (map (λ c. c.items) commands.new.items ≡ orders_in nodes (events_of play.new.trace)) }
{
    let step = ScenarioStep::Take(count);
    tell_step(alloc, play, packets, &step, events, commands)?;
    Ok(())
}

// The same, and the records are taken some at a time: so the events of a few are kept, however many are taken.
fn tell_in_parts<P: Spread>(
    alloc: Global,
    play: &mut Play<P>,
    packets: &[Packet],
    count: u32,
    events: &mut Vec<LogEntry>,
    commands: &mut Vec<Vec<Command>>,
) -> Result<(), AllocError>
    requires read { WereRead packets.now }
    requires places { length packets.now < 2 ^ 32 }
    requires room { Counted (length packets.now) (2 ^ 32 - 1) play.old.trace }
    ensures choice { SameChoice (P.choice play.old.spread) (P.choice play.new.spread) }
    ensures after { OnOk result (GoesOver packets.now noting (P.choice play.old.spread) (λ w. after w (Take count)) play.old.trace play.new.trace) }
    ensures told { (nodes : ℕ) → map (λ c. c.items) commands.old.items ≡ orders_in nodes (events_of play.old.trace) →
        OnOk result (map (λ c. c.items) commands.new.items ≡ orders_in nodes (events_of play.new.trace)) }
{
    let taken = count.min(play.tally(packets.len() as u32).left);
    for _ in 0..taken / TAKEN_AT_ONCE {
        tell_taken(alloc, play, packets, TAKEN_AT_ONCE, events, commands)?;
    }
    let others = taken % TAKEN_AT_ONCE;
    tell_taken(alloc, play, packets, others, events, commands)?;
    Ok(())
}

// The same of a step, however many records it takes.
fn tell_next<P: Spread>(
    alloc: Global,
    play: &mut Play<P>,
    packets: &[Packet],
    step: &ScenarioStep,
    events: &mut Vec<LogEntry>,
    commands: &mut Vec<Vec<Command>>,
) -> Result<(), AllocError>
    requires read { WereRead packets.now }
    requires places { length packets.now < 2 ^ 32 }
    requires room { Counted (length packets.now) (2 ^ 32 - 1) play.old.trace }
    ensures choice { SameChoice (P.choice play.old.spread) (P.choice play.new.spread) }
    ensures after { OnOk result (GoesOver packets.now noting (P.choice play.old.spread) (λ w. after w step.now) play.old.trace play.new.trace) }
    ensures told { (nodes : ℕ) → map (λ c. c.items) commands.old.items ≡ orders_in nodes (events_of play.old.trace) →
        OnOk result (map (λ c. c.items) commands.new.items ≡ orders_in nodes (events_of play.new.trace)) }
{
    match step {
        ScenarioStep::Take(count) => tell_in_parts(alloc, play, packets, *count, events, commands),
        _ => tell_step(alloc, play, packets, step, events, commands),
    }
}

// Plays the steps, and tells the drivers what follows from each.
fn tell_steps<P: Spread>(
    alloc: Global,
    play: &mut Play<P>,
    packets: &[Packet],
    steps: &[ScenarioStep],
    commands: &mut Vec<Vec<Command>>,
) -> Result<(), AllocError>
    requires read { WereRead packets.now }
    requires places { length packets.now < 2 ^ 32 }
    requires steps { length steps.now < 2 ^ 32 }
    requires fresh { Counted (length packets.now) 0 play.old.trace }
    ensures run { OnOk result (play.new.trace ≡ run (world_of noting (P.choice play.old.spread) packets.now) steps.now play.old.trace) }
    ensures counted { OnOk result (Counted (length packets.now) (length steps.now) play.new.trace) }
    ensures told { (nodes : ℕ) → map (λ c. c.items) commands.old.items ≡ orders_in nodes (events_of play.old.trace) →
        OnOk result (map (λ c. c.items) commands.new.items ≡ orders_in nodes (events_of play.new.trace)) }
{
    let mut events = Vec::new(alloc);
    for step in steps {
        tell_next(alloc, play, packets, step, &mut events, commands)?;
    }
    Ok(())
}

/// What the steps tell the drivers of so many nodes, and what becomes of the capture's records.
///
/// The spreader is asked once for each packet that is delivered, in the order of the steps. `full`, `hold` and `drain` tell
/// nobody anything; a scenario that is read for threads has none of them. Neither does what names a node that isn't there.
/// These are the commands and the counts of the steps' trace on any cluster (`anywhere`). Only the servings, and the marks
/// of workers that refuse, are left out of it. In a trace a stop is a restart; the commands have it as a stop (`ends`).
pub fn orders<P: Spread>(
    alloc: Global,
    nodes: u16,
    spread: P,
    packets: &[Packet],
    steps: &[ScenarioStep],
) -> Result<Orders, AllocError>
    requires read { WereRead packets.now }
    requires live { P.live spread ≡ below nodes }
    requires places { length packets.now < 2 ^ 32 }
    requires steps { length steps.now < 2 ^ 32 }
    ensures commands { IfOk result (λ o. map (λ c. c.items) o.commands.items ≡ orders_of (P.choice spread) packets.now steps.now nodes) }
    ensures tally { IfOk result (λ o. o.tally ≡ tally_of (length packets.now) (plan_of (P.choice spread) packets.now steps.now nodes)) }
    ensures anywhere { IfOk result (λ o. (cluster : Cluster) →
        (map (λ c. map as_written c.items) o.commands.items ≡ orders_in nodes (events_of (trace_on cluster (P.choice spread) packets.now steps.now nodes)))
        × (o.tally ≡ tally_of (length packets.now) (trace_on cluster (P.choice spread) packets.now steps.now nodes))) }
    // each life that the steps end is ended, in their order, and drained unless they stop it
    ensures ends { IfOk result (λ o. map (λ c. drained_lives c.items) o.commands.items ≡ map (λ n. ends_on n steps.now) (below nodes)) }
    // each packet that is offered is one of a record that was read
    ensures there { IfOk result (λ o. All (λ c. All (IsThere (plan_of (P.choice spread) packets.now steps.now nodes).read) c.items) o.commands.items) }
{
    let mut play = Play::start(alloc, spread, nodes)?;
    let mut commands = empty_lists(alloc, nodes)?;
    tell_steps(alloc, &mut play, packets, steps, &mut commands)?;
    end_as(alloc, nodes, steps, &mut commands)?;
    Ok(Orders {
        commands,
        tally: play.tally(packets.len() as u32),
    })
}
