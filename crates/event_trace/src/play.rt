//! A run of a scenario's steps.
ghost use Rattle.std.specs.Prelude.{◌≡◌, ◌<◌, ◌≤◌, ◌+◌, ◌-◌, ◌^◌, ◌∷◌, [], Option, Some, None, length, take, drop, reverse, IfOk, OnOk};
ghost use Rattle.std.specs.Prelude.{slice_get, slice_set, true, false};
ghost use Rattle.cluster_node.specs.declared.events.Event.{Event};
ghost use Rattle.cluster_core.specs.Cluster.{WereRead, flow_of, Behind};
ghost use Rattle.cluster_node.specs.Records.{WasRead, said};
ghost use Rattle.event_trace.specs.Steps.{SameChoice, world_of, marks_at, is_held, noted, say, serve, arrive, deliver, take_all, repeat};
ghost use Rattle.event_trace.specs.Steps.{serve_times, drain_from, release, names_records, says_many, after, run, start, below};
ghost use Rattle.event_trace.specs.Going.{Goes, GoesBy, GoesWhere, GoesOver, ToldAfter};
ghost use Rattle.event_trace.specs.Deliveries.{events_of, if_there, with_delivery};
ghost use Rattle.event_trace.specs.Tally.{tally_of};
ghost use Rattle.event_trace.specs.Room.{Room, Counted};

use crate::delivery::{Delivery, push, push_if};
use crate::machine::Core;
use crate::steps::ScenarioStep;
use cluster_node::{Event, LogEntry, Outcome, Packet, Passed};
use ghost_log::Log;
use spreader::Spread;
use std::alloc::{AllocError, Global};
use std::fmt;
use std::marker::Model;

/// All nodes of a cluster of so many, ascending: the live ones at the start.
pub fn all_live(alloc: Global, nodes: u16) -> Result<Vec<u16>, AllocError>
    ensures { IfOk result (λ live. live.items ≡ below nodes) }
{
    let mut live = Vec::new(alloc);
    for node in 0..nodes {
        live.push(node)?;
    }
    Ok(live)
}

/// A run so far: the events that the steps defined, with their outcomes. It also has what the steps fixed, and the spreader,
/// which has the live nodes. Of the events only their number is kept; the record of them is there for contracts alone.
#[derive(Drop)]
pub struct Play<P: Spread> {
    spread: P,
    past: Log<LogEntry>,
    count: u64,
    read: u32,
    marks: Vec<[bool; 16]>,
    held: Vec<bool>,
    nth: u64,
    unrouted: u64,
    lost: u64,
    skipped: u64,
}

impl<P: Spread> fmt::Debug for Play<P> {
    fn fmt<W: fmt::Write>(&self, f: &mut fmt::Formatter<W>) -> fmt::Result {
        f.debug_struct("Play")
            .field("count", &self.count)
            .field("read", &self.read)
            .field("unrouted", &self.unrouted)
            .field("lost", &self.lost)
            .field("skipped", &self.skipped)
            .finish_non_exhaustive()
    }
}

impl<P: Spread> Model for Play<P> {
    ghost use Rattle.std.specs.Prelude.{◌≡◌, length};
    ghost use Rattle.event_trace.specs.Trace.{Playing};

    ghost Value = { Playing P };

    ghost view = { λ p. record {
      trace = record {
        past = p.past.items;
        read = p.read;
        live = P.live p.spread;
        marks = p.marks.items;
        held = p.held.items;
        nth = p.nth;
        unrouted = p.unrouted;
        lost = p.lost;
        skipped = p.skipped;
      };
      spread = p.spread;
    } };

    ghost invariant = { λ p. p.count ≡ length p.past.items };
}

impl<P: Spread> Play<P> {
    /// The node that the spreader chooses for a packet, after those that were handed to it.
    #[inline(always)]
    fn choose(&self, packet: &Packet) -> Option<u16>
        ensures { result ≡ P.choice self.now.spread self.now.trace.live (flow_of packet.now) self.now.trace.nth }
    {
        match packet {
            Packet::Good { flow, .. } => self.spread.node(Some(flow), self.nth),
            Packet::Bad(_) => self.spread.node(None, self.nth),
        }
    }

    /// The workers of a node that refuse.
    #[inline(always)]
    fn marks_at(&self, node: u16) -> [bool; 16]
        ensures { result ≡ marks_at node self.now.trace }
    {
        match self.marks.get(node as usize) {
            Some(marks) => *marks,
            None => [false; 16],
        }
    }

    #[inline(always)]
    fn is_held(&self, node: u16) -> bool
        ensures { result ≡ is_held node self.now.trace }
    {
        match self.held.get(node as usize) {
            Some(is_held) => *is_held,
            None => false,
        }
    }

    fn set_held(&mut self, node: u16, is_held: bool)
        ensures trace { self.new.trace ≡ record self.old.trace { held = slice_set self.old.trace.held node is_held } }
        ensures spread { self.new.spread ≡ self.old.spread }
    {
        let at = node as usize;
        if at < self.held.len() {
            self.held[at] = is_held;
        }
    }

    fn set_marks(&mut self, node: u16, marks: [bool; 16])
        ensures trace { self.new.trace ≡ record self.old.trace { marks = slice_set self.old.trace.marks node marks } }
        ensures spread { self.new.spread ≡ self.old.spread }
    {
        let at = node as usize;
        if at < self.marks.len() {
            self.marks[at] = marks;
        }
    }

    /// A node isn't held from now on.
    pub fn release(&mut self, node: u16)
        ensures trace { self.new.trace ≡ release node self.old.trace }
        ensures spread { self.new.spread ≡ self.old.spread }
    {
        self.set_held(node, false);
    }

    /// How many events there were.
    #[inline(always)]
    fn said_count(&self) -> u64
        ensures { result ≡ length self.now.trace.past }
    {
        self.count
    }

    /// An event was said. Where their number has no room it is refused, as memory is.
    #[inline(always)]
    fn note(&mut self, said: &LogEntry) -> Result<(), AllocError>
        ensures spread { self.new.spread ≡ self.old.spread }
        ensures after { OnOk result (self.new.trace ≡ noted said.now self.old.trace) }
    {
        let Some(count) = self.count.checked_add(1) else {
            return Err(AllocError);
        };
        self.past = self.past.and(said);
        self.count = count;
        Ok(())
    }

    /// An event: it with its outcome.
    #[inline(always)]
    fn say<C: Core>(
        &mut self,
        core: &mut C,
        setup: &C::Setup,
        event: Event,
        packet: Option<Packet>,
    ) -> Result<LogEntry, AllocError>
        requires stands { C.stands setup.now self.old.trace.past core.old }
        requires read { WasRead packet }
        ensures stands { OnOk result (C.stands setup.now self.new.trace.past core.new) }
        ensures spread { self.new.spread ≡ self.old.spread }
        ensures after { OnOk result (Goes (C.cluster setup.now) (λ w. say w event packet) self.old.trace self.new.trace) }
        ensures told { IfOk result (λ s. Behind (reverse self.old.trace.past) self.new.trace.past (s ∷ [])) }
    {
        let _count = self.said_count();
        let outcome = core.step(setup, event, packet)?;
        let said = LogEntry {
            event,
            packet,
            outcome,
        };
        self.note(&said)?;
        Ok(said)
    }

    /// A worker serves under its node's newest version: the event with its outcome. Where no packet waits it is refused.
    #[tactic(auto, unfolding(crate::specs::Steps::serve))]
    #[inline(always)]
    pub fn serve<C: Core>(
        &mut self,
        core: &mut C,
        setup: &C::Setup,
        node: u16,
        worker: u16,
    ) -> Result<LogEntry, AllocError>
        requires { C.stands setup.now self.old.trace.past core.old }
        ensures stands { OnOk result (C.stands setup.now self.new.trace.past core.new) }
        ensures spread { self.new.spread ≡ self.old.spread }
        ensures after { OnOk result (Goes (C.cluster setup.now) (λ w. serve w node worker) self.old.trace self.new.trace) }
        ensures told { IfOk result (λ s. Behind (reverse self.old.trace.past) self.new.trace.past (s ∷ [])) }
    {
        let version = core.newest(setup, node);
        let event = Event::Serve {
            node,
            worker,
            version,
            refused: false,
        };
        self.say(core, setup, event, None)
    }

    /// The same, and the event is put after those that are reported so far.
    #[inline(always)]
    fn serve_onto<C: Core>(
        &mut self,
        core: &mut C,
        setup: &C::Setup,
        node: u16,
        worker: u16,
        events: &mut Vec<LogEntry>,
    ) -> Result<(), AllocError>
        requires { C.stands setup.now self.old.trace.past core.old }
        ensures stands { OnOk result (C.stands setup.now self.new.trace.past core.new) }
        ensures spread { self.new.spread ≡ self.old.spread }
        ensures after { OnOk result (Goes (C.cluster setup.now) (λ w. serve w node worker) self.old.trace self.new.trace) }
        ensures told { ToldAfter result self.old.trace.past events.old.items self.new.trace.past events.new.items }
    {
        let said = self.serve(core, setup, node, worker)?;
        push(said, events)?;
        Ok(())
    }

    /// Notes what a delivery reports: the arrival of the packet, and its serving where there was one.
    #[inline(always)]
    fn note_delivery(&mut self, packet: &Packet, delivery: &Delivery) -> Result<(), AllocError>
        ensures spread { self.new.spread ≡ self.old.spread }
        ensures after { OnOk result (self.new.trace ≡ with_delivery packet.now delivery.now self.old.trace) }
    {
        self.note(&delivery.arrival(packet))?;
        if let Some(serving) = delivery.serving() {
            self.note(&serving)?;
        }
        Ok(())
    }

    /// An arrival at a node that is held.
    fn hold<C: Core>(
        &mut self,
        core: &mut C,
        setup: &C::Setup,
        node: u16,
        place: u32,
        packet: &Packet,
        delivery: &mut Delivery,
    ) -> Result<(), AllocError>
        requires stands { C.stands setup.now self.old.trace.past core.old }
        requires read { WasRead (Some packet.now) }
        requires held { is_held node self.old.trace ≡ true }
        ensures stands { OnOk result (C.stands setup.now self.new.trace.past core.new) }
        ensures spread { self.new.spread ≡ self.old.spread }
        ensures after { OnOk result (Goes (C.cluster setup.now) (λ w. arrive w node place packet.now) self.old.trace self.new.trace) }
        ensures told { OnOk result (Behind (reverse self.old.trace.past) self.new.trace.past (events_of packet.now delivery.new)) }
    {
        let _count = self.said_count();
        let refused = self.marks_at(node);
        let event = Event::Arrive {
            node,
            packet: place,
            refused,
        };
        let outcome = core.step(setup, event, Some(*packet))?;
        delivery.passed = Passed::Unplaced(outcome);
        delivery.arrive(node, place, refused, 0);
        self.note_delivery(packet, delivery)?;
        Ok(())
    }

    /// A packet is handed to the spreader. Where the node that is chosen isn't held, the worker on which the packet is placed
    /// serves at once. What is reported of it is in `delivery` then, in place of what was there of another one.
    #[inline(always)]
    pub fn deliver<C: Core>(
        &mut self,
        core: &mut C,
        setup: &C::Setup,
        place: u32,
        packet: &Packet,
        delivery: &mut Delivery,
    ) -> Result<(), AllocError>
        requires stands { C.stands setup.now self.old.trace.past core.old }
        requires read { WasRead (Some packet.now) }
        requires room { self.old.trace.unrouted + 1 < 2 ^ 64 }
        requires many { self.old.trace.nth + 1 < 2 ^ 64 }
        ensures stands { OnOk result (C.stands setup.now self.new.trace.past core.new) }
        ensures spread { self.new.spread ≡ self.old.spread }
        ensures after { OnOk result (GoesBy (C.cluster setup.now) (P.choice self.old.spread) (λ w. deliver w place packet.now) self.old.trace self.new.trace) }
        ensures told { OnOk result (Behind (reverse self.old.trace.past) self.new.trace.past (events_of packet.now delivery.new)) }
    {
        let _count = self.said_count();
        let chosen = self.choose(packet);
        self.nth += 1;
        let Some(node) = chosen else {
            self.unrouted += 1;
            delivery.arrived = false;
            return Ok(());
        };
        if self.is_held(node) {
            return self.hold(core, setup, node, place, packet, delivery);
        }
        let refused = self.marks_at(node);
        let version = core.newest(setup, node);
        core.pass(setup, node, place, &refused, packet, &mut delivery.passed)?;
        delivery.arrive(node, place, refused, version);
        self.note_delivery(packet, delivery)?;
        Ok(())
    }

    /// A packet is handed to the spreader, and what is reported of it is put after the events that are reported so far.
    fn deliver_onto<C: Core>(
        &mut self,
        core: &mut C,
        setup: &C::Setup,
        place: u32,
        packet: &Packet,
        events: &mut Vec<LogEntry>,
    ) -> Result<(), AllocError>
        requires stands { C.stands setup.now self.old.trace.past core.old }
        requires read { WasRead (Some packet.now) }
        requires room { self.old.trace.unrouted + 1 < 2 ^ 64 }
        requires many { self.old.trace.nth + 1 < 2 ^ 64 }
        ensures stands { OnOk result (C.stands setup.now self.new.trace.past core.new) }
        ensures spread { self.new.spread ≡ self.old.spread }
        ensures after { OnOk result (GoesBy (C.cluster setup.now) (P.choice self.old.spread) (λ w. deliver w place packet.now) self.old.trace self.new.trace) }
        ensures told { ToldAfter result self.old.trace.past events.old.items self.new.trace.past events.new.items }
    {
        let mut delivery = Delivery::new();
        self.deliver(core, setup, place, packet, &mut delivery)?;
        delivery.push_onto(packet, events)?;
        Ok(())
    }

    /// A record that is to be delivered again isn't there.
    pub fn skip(&mut self)
        requires { self.old.trace.skipped + 1 < 2 ^ 64 }
        ensures after { self.new.trace ≡ record self.old.trace { skipped = self.old.trace.skipped + 1 } }
        ensures spread { self.new.spread ≡ self.old.spread }
    {
        self.skipped += 1;
    }

    /// A record is delivered again, or skipped where it isn't there.
    #[tactic(auto, unfolding(crate::specs::Steps::repeat))]
    fn repeat<C: Core>(
        &mut self,
        core: &mut C,
        setup: &C::Setup,
        place: u32,
        packet: Option<Packet>,
        events: &mut Vec<LogEntry>,
    ) -> Result<(), AllocError>
        requires stands { C.stands setup.now self.old.trace.past core.old }
        requires read { WasRead packet }
        requires room { self.old.trace.unrouted + 1 < 2 ^ 64 }
        requires many { self.old.trace.nth + 1 < 2 ^ 64 }
        requires skips { self.old.trace.skipped + 1 < 2 ^ 64 }
        ensures stands { OnOk result (C.stands setup.now self.new.trace.past core.new) }
        ensures spread { self.new.spread ≡ self.old.spread }
        ensures after { OnOk result (GoesBy (C.cluster setup.now) (P.choice self.old.spread) (λ w. repeat w place packet) self.old.trace self.new.trace) }
        ensures told { ToldAfter result self.old.trace.past events.old.items self.new.trace.past events.new.items }
    {
        match packet {
            Some(packet) => self.deliver_onto(core, setup, place, &packet, events),
            None => {
                self.skip();
                Ok(())
            }
        }
    }

    /// A worker's waiting packets are served.
    #[tactic(auto, unfolding(crate::specs::Steps::serve_times))]
    fn serve_times<C: Core>(
        &mut self,
        core: &mut C,
        setup: &C::Setup,
        node: u16,
        worker: u16,
        times: u64,
        events: &mut Vec<LogEntry>,
    ) -> Result<(), AllocError>
        requires { C.stands setup.now self.old.trace.past core.old }
        ensures stands { OnOk result (C.stands setup.now self.new.trace.past core.new) }
        ensures spread { self.new.spread ≡ self.old.spread }
        ensures after { OnOk result (Goes (C.cluster setup.now) (λ w. serve_times w node worker times) self.old.trace self.new.trace) }
        ensures told { ToldAfter result self.old.trace.past events.old.items self.new.trace.past events.new.items }
    {
        for _ in 0..times {
            self.serve_onto(core, setup, node, worker, events)?;
        }
        Ok(())
    }

    #[tactic(auto, unfolding(crate::specs::Steps::drain_from))]
    fn drain<C: Core>(
        &mut self,
        core: &mut C,
        setup: &C::Setup,
        node: u16,
        workers: u16,
        events: &mut Vec<LogEntry>,
    ) -> Result<(), AllocError>
        requires { C.stands setup.now self.old.trace.past core.old }
        ensures stands { OnOk result (C.stands setup.now self.new.trace.past core.new) }
        ensures spread { self.new.spread ≡ self.old.spread }
        ensures after { OnOk result (Goes (C.cluster setup.now) (λ w. drain_from w node 0 workers) self.old.trace self.new.trace) }
        ensures told { ToldAfter result self.old.trace.past events.old.items self.new.trace.past events.new.items }
    {
        for worker in 0..workers {
            let times = core.waiting(setup, node, worker);
            self.serve_times(core, setup, node, worker, times, events)?;
        }
        Ok(())
    }

    /// The next records, or those that remain.
    fn next_ones<'a>(&self, packets: &'a [Packet], count: u32) -> &'a [Packet]
        ensures is { result.now ≡ take count (drop self.now.trace.read packets.entry.now) }
        ensures read { WereRead packets.entry.now → WereRead result.now }
    {
        let from = (self.read as usize).min(packets.len());
        let rest = &packets[from..];
        &rest[..(count as usize).min(rest.len())]
    }

    /// The record of a place, where it was read.
    fn seen_one(&self, packets: &[Packet], place: u32) -> Option<Packet>
        ensures is { result ≡ slice_get (take self.now.trace.read packets.now) place }
        ensures read { WereRead packets.now → WasRead result }
    {
        if place < self.read {
            packets.get(place as usize).copied()
        } else {
            None
        }
    }

    /// The place of the next record, which is read now.
    pub fn next_place(&mut self) -> u32
        requires { self.old.trace.read + 1 < 2 ^ 32 }
        ensures place { result ≡ self.old.trace.read }
        ensures after { self.new.trace ≡ record self.old.trace { read = self.old.trace.read + 1 } }
        ensures spread { self.new.spread ≡ self.old.spread }
    {
        let place = self.read;
        self.read += 1;
        place
    }

    /// Packets are read and delivered.
    fn take_all<C: Core>(
        &mut self,
        core: &mut C,
        setup: &C::Setup,
        packets: &[Packet],
        events: &mut Vec<LogEntry>,
    ) -> Result<(), AllocError>
        requires stands { C.stands setup.now self.old.trace.past core.old }
        requires read { WereRead packets.now }
        requires places { self.old.trace.read + length packets.now < 2 ^ 32 }
        requires room { self.old.trace.unrouted + length packets.now < 2 ^ 64 }
        requires many { self.old.trace.nth + length packets.now < 2 ^ 64 }
        ensures stands { OnOk result (C.stands setup.now self.new.trace.past core.new) }
        ensures spread { self.new.spread ≡ self.old.spread }
        ensures after { OnOk result (GoesBy (C.cluster setup.now) (P.choice self.old.spread) (λ w. take_all w packets.now) self.old.trace self.new.trace) }
        ensures told { ToldAfter result self.old.trace.past events.old.items self.new.trace.past events.new.items }
    {
        for packet in packets {
            let place = self.next_place();
            self.deliver_onto(core, setup, place, packet, events)?;
        }
        Ok(())
    }

    /// So many records are read and lost.
    pub fn lose(&mut self, count: u32)
        requires places { self.old.trace.read + count < 2 ^ 32 }
        requires room { self.old.trace.lost + count < 2 ^ 64 }
        ensures after { self.new.trace ≡ record self.old.trace { read = self.old.trace.read + count; lost = self.old.trace.lost + count } }
        ensures spread { self.new.spread ≡ self.old.spread }
    {
        self.read += count;
        self.lost += count as u64;
    }

    /// A step that says one event at most: all but `Take`, `Lose`, `Again` and `Drain`, at which nothing is done.
    #[tactic(auto, unfolding(crate::specs::Steps::after))]
    pub fn step_alone<C: Core>(
        &mut self,
        alloc: Global,
        core: &mut C,
        setup: &C::Setup,
        step: &ScenarioStep,
    ) -> Result<Option<LogEntry>, AllocError>
        requires stands { C.stands setup.now self.old.trace.past core.old }
        ensures choice { SameChoice (P.choice self.old.spread) (P.choice self.new.spread) }
        ensures stands { OnOk result (C.stands setup.now self.new.trace.past core.new) }
        ensures after { OnOk result (GoesWhere (says_many step.now ≡ false) (C.cluster setup.now) (λ w. after w step.now) self.old.trace self.new.trace) }
        ensures told { IfOk result (λ s. Behind (reverse self.old.trace.past) self.new.trace.past (if_there s)) }
    {
        match step {
            ScenarioStep::Install { node, version } => {
                let event = Event::Install {
                    node: *node,
                    version: *version,
                };
                Ok(Some(self.say(core, setup, event, None)?))
            }
            ScenarioStep::Live(nodes) => {
                self.spread
                    .set_live(Vec::from_slice(alloc, nodes.as_slice())?);
                Ok(None)
            }
            ScenarioStep::Full { node, marks } => {
                self.set_marks(*node, *marks);
                Ok(None)
            }
            ScenarioStep::Hold(node) => {
                self.set_held(*node, true);
                Ok(None)
            }
            ScenarioStep::Restart(node) | ScenarioStep::Stop(node) => {
                self.release(*node);
                Ok(Some(self.say(core, setup, Event::Restart { node: *node }, None)?))
            }
            ScenarioStep::Take(_)
            | ScenarioStep::Lose(_)
            | ScenarioStep::Again(_)
            | ScenarioStep::Drain(_) => Ok(None),
        }
    }

    /// A step that names no record: all but `Take`, `Lose` and `Again`, at which nothing is done.
    #[tactic(auto, unfolding(crate::specs::Steps::after))]
    fn step_without_record<C: Core>(
        &mut self,
        alloc: Global,
        core: &mut C,
        setup: &C::Setup,
        step: &ScenarioStep,
        events: &mut Vec<LogEntry>,
    ) -> Result<(), AllocError>
        requires stands { C.stands setup.now self.old.trace.past core.old }
        ensures choice { SameChoice (P.choice self.old.spread) (P.choice self.new.spread) }
        ensures stands { OnOk result (C.stands setup.now self.new.trace.past core.new) }
        ensures after { OnOk result (GoesWhere (names_records step.now ≡ false) (C.cluster setup.now) (λ w. after w step.now) self.old.trace self.new.trace) }
        ensures told { ToldAfter result self.old.trace.past events.old.items self.new.trace.past events.new.items }
    {
        match step {
            ScenarioStep::Drain(node) => {
                self.release(*node);
                self.drain(core, setup, *node, C::workers(setup), events)
            }
            _ => {
                let said = self.step_alone(alloc, core, setup, step)?;
                push_if(said, events)?;
                Ok(())
            }
        }
    }

    /// A step.
    #[tactic(auto, unfolding(crate::specs::Steps::after))]
    pub fn step<C: Core>(
        &mut self,
        alloc: Global,
        core: &mut C,
        setup: &C::Setup,
        packets: &[Packet],
        step: &ScenarioStep,
        events: &mut Vec<LogEntry>,
    ) -> Result<(), AllocError>
        requires stands { C.stands setup.now self.old.trace.past core.old }
        requires read { WereRead packets.now }
        requires places { length packets.now < 2 ^ 32 }
        requires room { Room (length packets.now) self.old.trace }
        ensures choice { SameChoice (P.choice self.old.spread) (P.choice self.new.spread) }
        ensures stands { OnOk result (C.stands setup.now self.new.trace.past core.new) }
        ensures after { let k = C.cluster setup.now in
            OnOk result (GoesOver packets.now k (P.choice self.old.spread) (λ w. after w step.now) self.old.trace self.new.trace) }
        ensures told { ToldAfter result self.old.trace.past events.old.items self.new.trace.past events.new.items }
    {
        match step {
            ScenarioStep::Take(count) => {
                let ones = self.next_ones(packets, *count);
                self.take_all(core, setup, ones, events)
            }
            ScenarioStep::Lose(count) => {
                let lost = self.next_ones(packets, *count).len() as u32;
                self.lose(lost);
                Ok(())
            }
            ScenarioStep::Again(place) => {
                let packet = self.seen_one(packets, *place);
                self.repeat(core, setup, *place, packet, events)
            }
            _ => self.step_without_record(alloc, core, setup, step, events),
        }
    }

    /// All nodes are live, no worker refuses, and nothing is held.
    pub fn start(alloc: Global, spread: P, nodes: u16) -> Result<Play<P>, AllocError>
        requires { P.live spread ≡ below nodes }
        ensures trace { IfOk result (λ p. p.trace ≡ start nodes) }
        ensures spread { IfOk result (λ p. p.spread ≡ spread) }
    {
        let mut marks = Vec::new(alloc);
        let mut held = Vec::new(alloc);
        for _ in 0..nodes {
            marks.push([false; 16])?;
            held.push(false)?;
        }
        Ok(Play {
            spread,
            past: Log::new(),
            count: 0,
            read: 0,
            marks,
            held,
            nth: 0,
            unrouted: 0,
            lost: 0,
            skipped: 0,
        })
    }

    /// All steps.
    pub fn run<C: Core>(
        &mut self,
        alloc: Global,
        core: &mut C,
        setup: &C::Setup,
        packets: &[Packet],
        steps: &[ScenarioStep],
        events: &mut Vec<LogEntry>,
    ) -> Result<(), AllocError>
        requires stands { C.stands setup.now self.old.trace.past core.old }
        requires read { WereRead packets.now }
        requires places { length packets.now < 2 ^ 32 }
        requires steps { length steps.now < 2 ^ 32 }
        requires fresh { Counted (length packets.now) 0 self.old.trace }
        ensures choice { SameChoice (P.choice self.old.spread) (P.choice self.new.spread) }
        ensures run { OnOk result (self.new.trace ≡ run (world_of (C.cluster setup.now) (P.choice self.old.spread) packets.now) steps.now self.old.trace) }
        ensures counted { OnOk result (Counted (length packets.now) (length steps.now) self.new.trace) }
        ensures stands { OnOk result (C.stands setup.now self.new.trace.past core.new) }
        ensures told { ToldAfter result self.old.trace.past events.old.items self.new.trace.past events.new.items }
    {
        for step in steps {
            self.step(alloc, core, setup, packets, step, events)?;
        }
        Ok(())
    }

    /// What a report says of the records, where the capture has so many.
    pub fn tally(&self, packets: u32) -> Tally
        requires { self.now.trace.read ≤ packets }
        ensures { result ≡ tally_of packets self.now.trace }
    {
        Tally {
            packets,
            lost: self.lost,
            unrouted: self.unrouted,
            skipped: self.skipped,
            left: packets - self.read,
        }
    }
}

/// What a report says of a run's records, in its order.
#[derive(Clone, Copy, Debug, PartialEq, Eq)]
pub struct Tally {
    /// The records of the capture.
    pub packets: u32,
    /// Those that were read and lost.
    pub lost: u64,
    /// The packets that were delivered when no node was live.
    pub unrouted: u64,
    /// The repeats of records that weren't read yet.
    pub skipped: u64,
    /// The records that no step read.
    pub left: u32,
}
