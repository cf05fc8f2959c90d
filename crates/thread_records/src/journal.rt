//! A node's journal: the history that its driver writes, life by life.
ghost use Rattle.std.specs.Prelude.{◌≡◌, ◌≤◌, ◌<◌, ◌++◌, ◌∷◌, [], Bool, List, true, length, map, replicate, Option, Some, None, IfOk, OnOk, slice_get};
ghost use Rattle.cluster_node.specs.Rules.{Rules};
ghost use Rattle.cluster_node.specs.declared.packets.Packet.{Packet};
ghost use Rattle.cluster_node.specs.declared.events.Event.TheVariants.{Arrive};
ghost use Rattle.thread_records.specs.declared.command.Command.{Command};
ghost use Rattle.thread_records.specs.declared.command.Command.TheVariants.{Publish, Offer};
ghost use Rattle.thread_records.specs.Losses.{as_written, drained_lives, losses, KeepDrained};
ghost use Rattle.cluster_core.specs.OutcomeCounts.{is_arrival};
ghost use Rattle.thread_records.specs.Arrivals.{ArrivesAs};
ghost use Rattle.thread_records.specs.Histories.{commands_of, past_of, NoneWaits};
ghost use Rattle.thread_records.specs.Lean.{sends_told};
ghost use Rattle.thread_records.specs.Runs.{IsRunOf};
ghost use Rattle.thread_records.specs.Ends.{JudgesRun};
ghost use Rattle.thread_records.specs.Journals.{JournalView, fresh_journal, put_on, Tells, Drives, with_event, with_install, Attempt, IsAttempt};
ghost use Rattle.thread_records.specs.Journals.{with_placing, no_marks};

use crate::lean::LeanRecord;
use crate::merging::merged;
use crate::rings::{Rings, steer};
use cluster_node::{Cause, Event, Item, Outcome, Packet, Reason};
use five_tuple::Flow;
use hash_laws::FlowHash;
use outcome_list::OutcomeList;
use std::alloc::{AllocError, Global};
use std::fmt;
use std::marker::Model;
use steering::{Placed, Steerer};

mod closing;

pub use closing::LifeFault;

/// The history of a node. Its driver writes what it does as it does it, and at the end of a life what the workers served.
///
/// After an answer that memory was refused nothing is said of it: the run has ended.
#[derive(Drop)]
pub struct Journal {
    node: u16,
    ring: u32,
    newest: u32,
    installed: Vec<u32>,
    steerer: Steerer,
    placed: Vec<Vec<Item>>,
    events: Vec<Event>,
    outcomes: OutcomeList,
    early: bool,
}

impl fmt::Debug for Journal {
    fn fmt<W: fmt::Write>(&self, f: &mut fmt::Formatter<W>) -> fmt::Result {
        f.debug_struct("Journal")
            .field("node", &self.node)
            .field("ring", &self.ring)
            .field("newest", &self.newest)
            .field("installed", &self.installed)
            .field("events", &self.events)
            .field("outcomes", &self.outcomes)
            .field("early", &self.early)
            .finish_non_exhaustive()
    }
}

impl Model for Journal {
    ghost use Rattle.std.specs.Prelude.{◌≡◌, ◌≤◌, ◌<◌, length, map};
    ghost use Rattle.thread_records.specs.Journals.{JournalView};

    ghost Value = { JournalView };

    ghost view = { λ j. record {
      node = j.node;
      ring = j.ring;
      newest = j.newest;
      installed = j.installed.items;
      steering = j.steerer;
      placed = map (λ v. v.items) j.placed.items;
      events = j.events.items;
      outcomes = j.outcomes.items;
      early = j.early;
    } };

    ghost invariant = { λ j. (length j.placed.items ≡ j.steerer.workers) × (0 < j.steerer.workers) × (j.steerer.workers ≤ 16) };
}

// So many empty lists.
fn empty_lists(alloc: Global, workers: u16) -> Result<Vec<Vec<Item>>, AllocError>
    ensures lists { IfOk result (λ v. map (λ w. w.items) v.items ≡ replicate workers []) }
    ensures length { IfOk result (λ v. length v.items ≡ workers) }
{
    let mut lists = Vec::new(alloc);
    for _ in 0..workers {
        lists.push(Vec::new(alloc))?;
    }
    Ok(lists)
}

// The packet of a number.
fn packet_at(packets: &[Packet], number: u32) -> Option<Packet>
    ensures { result ≡ slice_get packets.now number }
{
    packets.get(number as usize).copied()
}

// Puts a packet at the end of a worker's list.
fn put(placed: &mut Vec<Vec<Item>>, worker: u16, item: Item) -> Result<(), AllocError>
    requires { worker < length placed.old.items }
    ensures after { OnOk result (map (λ v. v.items) placed.new.items ≡ put_on (map (λ v. v.items) placed.old.items) worker item) }
    ensures length { length placed.new.items ≡ length placed.old.items }
{
    let one = &mut placed[worker as usize];
    one.push(item)?;
    Ok(())
}

impl Journal {
    // An empty one.
    fn fresh(alloc: Global, node: u16, ring: u32, workers: u16) -> Result<Self, AllocError>
        requires some { 0 < workers }
        requires limit { workers ≤ 16 }
        ensures { IfOk result (λ j. j ≡ fresh_journal node ring workers) }
    {
        Ok(Journal {
            node,
            ring,
            newest: 0,
            installed: Vec::new(alloc),
            steerer: Steerer::new(workers),
            placed: empty_lists(alloc, workers)?,
            events: Vec::new(alloc),
            outcomes: OutcomeList::new(alloc),
            early: false,
        })
    }

    // Writes one more event, and its outcome.
    fn write(&mut self, event: Event, outcome: Outcome) -> Result<Outcome, AllocError>
        ensures after { OnOk result (self.new ≡ with_event self.old event outcome) }
        ensures told { IfOk result (λ o. o ≡ outcome) }
    {
        let told = outcome;
        self.events.push(event)?;
        self.outcomes.push(&outcome)?;
        Ok(told)
    }

    fn write_install(&mut self, known: bool, version: u32) -> Result<Outcome, AllocError>
        ensures after { OnOk result (self.new ≡ with_install known version self.old) }
        ensures told { IfOk result (λ o. self.new.outcomes ≡ self.old.outcomes ++ o ∷ []) }
    {
        let event = Event::Install {
            node: self.node,
            version,
        };
        if !known {
            return self.write(event, Outcome::Refused(Reason::UnknownVersion));
        }
        if version <= self.newest {
            return self.write(event, Outcome::Refused(Reason::NotNewer));
        }
        self.installed.insert(0, version)?;
        self.newest = version;
        self.write(event, Outcome::Installed)
    }

    // Writes an arrival that no ring was asked for.
    fn write_unsteered(&mut self, packet: u32, outcome: Outcome) -> Result<Outcome, AllocError>
        ensures after { OnOk result (self.new ≡ with_event self.old (Arrive self.old.node packet no_marks) outcome) }
        ensures told { IfOk result (λ o. o ≡ outcome) }
    {
        let event = Event::Arrive {
            node: self.node,
            packet,
            refused: [false; 16],
        };
        self.write(event, outcome)
    }

    // Offers a packet to the rings, and writes where it went.
    fn write_steered<H: FlowHash, R: Rings>(
        &mut self,
        hash: &H,
        packet: u32,
        flow: Flow,
        at: u64,
        rings: &mut R,
    ) -> Result<Outcome, AllocError>
        ensures after { OnOk result ((a : Attempt) × IsAttempt (H.plain hash.now) flow self.old a
            × (self.new ≡ with_placing packet flow at a a.placing self.old)) }
        ensures told { IfOk result (λ o. self.new.outcomes ≡ self.old.outcomes ++ o ∷ []) }
        ensures arrives { IfOk result (λ o. is_arrival o ≡ true) }
        ensures paced { R.paced ≡ true → OnOk result (self.new.events ≡ self.old.events ++ Arrive self.old.node packet no_marks ∷ []) }
    {
        let item = Item {
            packet,
            flow,
            at,
            floor: self.newest,
        };
        let tried = steer(
            &mut self.steerer,
            hash,
            item,
            rings,
            self.placed.as_slice(),
            self.ring,
            self.early,
        );
        self.early = tried.early;
        let refused = tried.refused;
        let event = Event::Arrive {
            node: self.node,
            packet,
            refused,
        };
        match tried.placed {
            Placed::RingsFull => {
                let cause = Cause::RingsFull;
                self.write(event, Outcome::Dropped { packet, cause })
            }
            Placed::Worker(worker) => {
                put(&mut self.placed, worker, item)?;
                let floor = item.floor;
                self.write(event, Outcome::Placed { worker, floor })
            }
        }
    }

    /// The journal of a node of 1 to 16 workers that has done nothing, whose rings have so many places.
    pub fn new(alloc: Global, node: u16, ring: u32, workers: u16) -> Result<Self, AllocError>
        requires some { 0 < workers }
        requires limit { workers ≤ 16 }
        ensures fresh { IfOk result (λ j. j ≡ fresh_journal node ring workers) }
        ensures drives { IfOk result (λ j. (rules : Rules) (packets : List Packet) → node < rules.nodes → workers ≡ rules.workers → Drives rules packets j) }
    {
        Self::fresh(alloc, node, ring, workers)
    }

    /// A version is installed, if the catalogue has it and it is newer than the newest one.
    pub fn install(&mut self, known: bool, version: u32) -> Result<Outcome, AllocError>
        ensures drives { (rules : Rules) (packets : List Packet) → rules.known version ≡ known → Drives rules packets self.old →
            OnOk result (Drives rules packets self.new) }
        ensures command { OnOk result (commands_of self.new.events ≡ commands_of self.old.events ++ Publish version ∷ []) }
        ensures lost { OnOk result (losses self.new.outcomes ≡ losses self.old.outcomes) }
        ensures kept { OnOk result ((self.new.node ≡ self.old.node) × (self.new.ring ≡ self.old.ring)) }
        ensures after { OnOk result (self.new ≡ with_install known version self.old) }
        ensures told { IfOk result (λ o. self.new.outcomes ≡ self.old.outcomes ++ o ∷ []) }
    {
        self.write_install(known, version)
    }

    // An arrival.
    fn write_arrival<H: FlowHash, R: Rings>(
        &mut self,
        hash: &H,
        packets: &[Packet],
        packet: u32,
        rings: &mut R,
    ) -> Result<Outcome, AllocError>
        ensures drives { (rules : Rules) → rules.plain ≡ H.plain hash.now → Drives rules packets.now self.old →
            OnOk result (Drives rules packets.now self.new) }
        ensures told { IfOk result (λ o. self.new.outcomes ≡ self.old.outcomes ++ o ∷ []) }
        ensures arrives { IfOk result (λ o. ArrivesAs (slice_get packets.now packet) o) }
        ensures paced { R.paced ≡ true → OnOk result (self.new.events ≡ self.old.events ++ Arrive self.old.node packet no_marks ∷ []) }
        ensures event { OnOk result ((marks : List Bool) × (self.new.events ≡ self.old.events ++ Arrive self.old.node packet marks ∷ [])) }
        ensures kept { OnOk result ((self.new.node ≡ self.old.node) × (self.new.ring ≡ self.old.ring)) }
        ensures newest { OnOk result (self.new.newest ≡ self.old.newest) }
    {
        match packet_at(packets, packet) {
            None => self.write_unsteered(packet, Outcome::Refused(Reason::NoPacket)),
            Some(Packet::Bad(cause)) => self.write_unsteered(
                packet,
                Outcome::Dropped { packet, cause },
            ),
            Some(Packet::Good { flow, at, .. }) => {
                if self.newest == 0 {
                    return self.write_unsteered(
                        packet,
                        Outcome::Dropped {
                            packet,
                            cause: Cause::NoVersion,
                        },
                    );
                }
                self.write_steered(hash, packet, flow, at, rings)
            }
        }
    }

    /// A packet arrives. It is offered to its home worker's ring; where that refuses it, to the others', from the cursor on,
    /// until one takes it. Rings that don't refuse leave no mark, and so the packet goes to its home worker (`paced`).
    pub fn arrive<H: FlowHash, R: Rings>(
        &mut self,
        hash: &H,
        packets: &[Packet],
        packet: u32,
        rings: &mut R,
    ) -> Result<Outcome, AllocError>
        ensures drives { (rules : Rules) → rules.plain ≡ H.plain hash.now → Drives rules packets.now self.old →
            OnOk result (Drives rules packets.now self.new) }
        ensures command { OnOk result (commands_of self.new.events ≡ commands_of self.old.events ++ Offer packet ∷ []) }
        ensures lost { OnOk result (losses self.new.outcomes ≡ losses self.old.outcomes) }
        ensures told { IfOk result (λ o. self.new.outcomes ≡ self.old.outcomes ++ o ∷ []) }
        ensures arrives { IfOk result (λ o. ArrivesAs (slice_get packets.now packet) o) }
        ensures kept { OnOk result ((self.new.node ≡ self.old.node) × (self.new.ring ≡ self.old.ring)) }
        ensures paced { R.paced ≡ true → OnOk result (self.new.events ≡ self.old.events ++ Arrive self.old.node packet no_marks ∷ []) }
        ensures newest { OnOk result (self.new.newest ≡ self.old.newest) }
    {
        self.write_arrival(hash, packets, packet, rings)
    }

    /// The history so far.
    pub fn events(&self) -> &[Event]
        ensures { result.now ≡ self.now.events }
    {
        self.events.as_slice()
    }

    /// The outcomes of its events.
    pub fn outcomes(&self) -> &OutcomeList
        ensures { result.now.items ≡ self.now.outcomes }
    {
        &self.outcomes
    }

    /// Whether a ring refused a packet before it had taken as many as it has places.
    pub fn refused_early(&self) -> bool
        ensures { result ≡ self.now.early }
    {
        self.early
    }

    /// The run of the node, with what was gathered of its workers in each life, by the numbers of events. The only fault is RingLost. A
    /// ring refused a packet before it had taken as many as it has places, or a life's list isn't a merge of what its workers sent.
    pub fn finish(self, sent: Vec<Vec<u32>>) -> Result<LeanRecord, LifeFault>
        ensures judged { JudgesRun self (sends_told self.outcomes sent.items) result }
        ensures is { IfOk result (λ r. (r.events.items ≡ self.events) × (r.outcomes.items ≡ self.outcomes)
            × (map (λ v. v.items) r.sent.items ≡ sends_told self.outcomes sent.items)) }
        ensures run { (rules : Rules) (packets : List Packet) (cs : List Command) → Tells rules packets self →
            NoneWaits (past_of rules packets self.node self.events) →
            commands_of self.events ≡ map as_written cs → KeepDrained (drained_lives cs) (losses self.outcomes) →
            IfOk result (λ r. IsRunOf rules packets self.node self.ring cs r) }
    {
        if self.refused_early() {
            return Err(LifeFault::RingLost);
        }
        let Journal {
            events,
            outcomes,
            ..
        } = self;
        if !merged(sent.as_slice(), &outcomes) {
            return Err(LifeFault::RingLost);
        }
        Ok(LeanRecord::of(events, outcomes, sent))
    }
}
