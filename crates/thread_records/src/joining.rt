//! One history of all nodes.
ghost use Rattle.std.specs.Prelude.{◌≡◌, ◌%◌, ◌^◌, [], ℕ, List, Some, IfOk, length, slice_get};
ghost use Rattle.cluster_node.specs.Rules.{Rules};
ghost use Rattle.cluster_node.specs.declared.packets.Packet.{Packet};
ghost use Rattle.cluster_core.specs.Runs.{verdicts};
ghost use Rattle.thread_records.specs.declared.nodes.NodeRecord.{NodeRecord};
ghost use Rattle.thread_records.specs.Histories.{past_of};
ghost use Rattle.thread_records.specs.declared.nodes.History.{History};
ghost use Rattle.thread_records.specs.declared.command.Command.{Command};
ghost use Rattle.thread_records.specs.Joins.{all_events, all_outcomes, EachTold};
ghost use Rattle.thread_records.specs.Runs.{AreRuns, JoinsRuns};

use crate::nodes::{History, NodeRecord};
use std::alloc::{AllocError, Global};

/// One history of all nodes: node by node, each as it is. The outcomes of each node's events by its own history alone are
/// their outcomes in this one.
pub fn join_nodes(alloc: Global, nodes: &[NodeRecord]) -> Result<History, AllocError>
    ensures events { IfOk result (λ h. h.events.items ≡ all_events nodes.now) }
    ensures outcomes { IfOk result (λ h. h.outcomes.items ≡ all_outcomes nodes.now) }
    ensures told { (rules : Rules) (packets : List Packet) → EachTold rules packets 0 nodes.now →
        IfOk result (λ h. h.outcomes.items ≡ verdicts rules [] packets h.events.items) }
    ensures own { (rules : Rules) (packets : List Packet) → EachTold rules packets 0 nodes.now →
        IfOk result (λ h. (n : ℕ) (r : NodeRecord) → slice_get nodes.now n ≡ Some r →
        past_of rules packets n h.events.items ≡ past_of rules packets n r.events.items) }
{
    join_all(alloc, nodes)
}

/// The same, of runs of all nodes.
pub fn join_runs(alloc: Global, nodes: &[NodeRecord]) -> Result<History, AllocError>
    ensures { (rules : Rules) (packets : List Packet) (ring : ℕ) (commands : List (List Command)) → AreRuns rules packets ring 0 commands nodes.now →
        IfOk result (λ h. JoinsRuns rules packets nodes.now h) }
{
    join_nodes(alloc, nodes)
}

// How many events and outcomes the nodes have, where lists can be as long.
fn lengths(nodes: &[NodeRecord]) -> (usize, usize)
    ensures events { result.0 ≡ length (all_events nodes.now) % 2 ^ 64 }
    ensures outcomes { result.1 ≡ length (all_outcomes nodes.now) % 2 ^ 64 }
{
    let mut events = 0usize;
    let mut outcomes = 0usize;
    for node in nodes {
        events = events.wrapping_add(node.events.len());
        outcomes = outcomes.wrapping_add(node.outcomes.len());
    }
    (events, outcomes)
}

// The room is asked for at once: a list that grows is moved each time, over pages that the system has to make.
fn join_all(alloc: Global, nodes: &[NodeRecord]) -> Result<History, AllocError>
    ensures events { IfOk result (λ h. h.events.items ≡ all_events nodes.now) }
    ensures outcomes { IfOk result (λ h. h.outcomes.items ≡ all_outcomes nodes.now) }
{
    let (event_count, outcome_count) = lengths(nodes);
    let mut events = Vec::with_capacity(alloc, event_count)?;
    let mut outcomes = Vec::with_capacity(alloc, outcome_count)?;
    for node in nodes {
        events.extend_from_slice(node.events.as_slice())?;
        outcomes.extend_from_slice(node.outcomes.as_slice())?;
    }
    Ok(History { events, outcomes })
}
