//! A node's record as it is kept.
ghost use Rattle.std.specs.Prelude.{◌≡◌, map, IfOk};
ghost use Rattle.thread_records.specs.Lean.{send_of, sends_told, SameLists, AreSameLists};

use crate::nodes::{NodeRecord, Recorded};
use cluster_node::{Event, Outcome};
use outcome_list::OutcomeList;
use std::alloc::{AllocError, Global};
use std::fmt;
use std::marker::Model;

/// What a node did. A packet that was sent stands here by the number of its serving's event, and its outcome once, as that of the
/// event. Contracts see the [`NodeRecord`] that is meant.
#[derive(Drop)]
pub struct LeanRecord {
    events: Vec<Event>,
    outcomes: OutcomeList,
    sent: Vec<Vec<u32>>,
}

impl Model for LeanRecord {
    ghost use Rattle.thread_records.specs.declared.nodes.NodeRecord.{NodeRecord};
    ghost use Rattle.thread_records.specs.Lean.{record_meant};

    ghost Value = { NodeRecord };

    ghost view = { λ l. record_meant l.events l.outcomes l.sent };
}

impl fmt::Debug for LeanRecord {
    fn fmt<W: fmt::Write>(&self, f: &mut fmt::Formatter<W>) -> fmt::Result {
        f.debug_struct("LeanRecord")
            .field("events", &self.events)
            .field("outcomes", &self.outcomes)
            .field("sent", &self.sent)
            .finish()
    }
}

/// What the event of a number sent. Where there is no such event the outcome is one that sends nothing.
#[inline(always)]
pub(crate) fn send_of(outcomes: &OutcomeList, number: usize) -> Outcome
    ensures { result ≡ send_of outcomes.now.items number }
{
    match outcomes.get(number) {
        Some(outcome) => outcome,
        None => Outcome::Installed,
    }
}

// What was sent in a life.
fn opened_life(
    alloc: Global,
    outcomes: &OutcomeList,
    life: &[u32],
) -> Result<Vec<Outcome>, AllocError>
    ensures { IfOk result (λ v. v.items ≡ map (λ n. send_of outcomes.now.items n) life.now) }
{
    let mut list = Vec::with_capacity(alloc, life.len())?;
    for number in life {
        list.push(send_of(outcomes, *number as usize))?;
    }
    Ok(list)
}

// What was sent in each life.
fn opened(
    alloc: Global,
    outcomes: &OutcomeList,
    sent: &[Vec<u32>],
) -> Result<Vec<Vec<Outcome>>, AllocError>
    ensures { IfOk result (λ v. map (λ l. l.items) v.items ≡ sends_told outcomes.now.items sent.now) }
{
    let mut lists = Vec::with_capacity(alloc, sent.len())?;
    for life in sent {
        lists.push(opened_life(alloc, outcomes, life.as_slice())?)?;
    }
    Ok(lists)
}

impl LeanRecord {
    // The record of these lists.
    pub(crate) fn of(events: Vec<Event>, outcomes: OutcomeList, sent: Vec<Vec<u32>>) -> LeanRecord
        ensures events { result.events ≡ events }
        ensures outcomes { result.outcomes ≡ outcomes }
        ensures sent { map (λ v. v.items) result.sent.items ≡ sends_told outcomes.items sent.items }
    {
        LeanRecord {
            events,
            outcomes,
            sent,
        }
    }

    /// The node's events: in each life the driver's steps, then the servings of worker 0, 1 and so on, then the restart.
    pub fn events(&self) -> &[Event]
        ensures { result.now ≡ self.now.events.items }
    {
        self.events.as_slice()
    }

    /// The outcome of each event.
    pub fn outcomes(&self) -> &OutcomeList
        ensures { result.now.items ≡ self.now.outcomes.items }
    {
        &self.outcomes
    }

    /// For each life the numbers of the events that sent, in the order in which what they sent was gathered.
    pub fn sent(&self) -> &[Vec<u32>]
        ensures { sends_told self.now.outcomes.items result.now ≡ map (λ v. v.items) self.now.sent.items }
    {
        self.sent.as_slice()
    }

    /// What the event of a number sent. Where there is no such event the outcome is one that sends nothing.
    pub fn send_of(&self, number: u32) -> Outcome
        ensures { result ≡ send_of self.now.outcomes.items number }
    {
        send_of(&self.outcomes, number as usize)
    }

    /// The same record with its lists written out.
    pub fn open(self, alloc: Global) -> Result<NodeRecord, AllocError>
        ensures { IfOk result (λ r. SameLists r self) }
    {
        let LeanRecord {
            events,
            outcomes,
            sent,
        } = self;
        let sent = opened(alloc, &outcomes, sent.as_slice())?;
        let outcomes = outcomes.open(alloc)?;
        Ok(NodeRecord {
            events,
            outcomes,
            sent,
        })
    }
}

impl Recorded for LeanRecord {
    ghost events_of = { λ r. r.events.items };

    ghost outcomes_of = { λ r. r.outcomes.items };

    fn history(&self) -> &[Event] {
        self.events()
    }

    fn outcome_count(&self) -> usize {
        self.outcomes.len()
    }

    fn outcome_at(&self, place: usize) -> Option<Outcome> {
        self.outcomes.get(place)
    }
}

/// The same records, one after another, with their lists written out.
pub fn open_all(alloc: Global, nodes: Vec<LeanRecord>) -> Result<Vec<NodeRecord>, AllocError>
    ensures { IfOk result (λ rs. AreSameLists rs.items nodes.items) }
{
    let mut opened = Vec::with_capacity(alloc, nodes.len())?;
    for node in nodes {
        opened.push(node.open(alloc)?)?;
    }
    Ok(opened)
}
