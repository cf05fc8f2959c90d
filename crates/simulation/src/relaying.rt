//! The frames of the packets that wait, and what is sent of them as events come.
ghost use Rattle.std.specs.Prelude.{◌≡◌, true, ◌*◌, List, [], ◌∷◌, length, IfOk, IfErr, OnOk};
ghost use Rattle.pcap_file.specs.Format.{Record, packet};
ghost use Rattle.cluster_node.specs.declared.events.LogEntry.{LogEntry};
ghost use Rattle.cluster_core.specs.Cluster.{Cluster};
ghost use Rattle.event_trace.specs.Deliveries.{if_there, events_of};
ghost use Rattle.waiting_frames.specs.Mirrors.{Mirrors, CanFollow, ComesAs, IsNoArrival};
ghost use Rattle.simulation.specs.Sent.{packet_in, sent, sent_by, Wrote, WroteUntil};
ghost use Rattle.simulation.specs.Simulated.{IsOfRun};
ghost use Rattle.simulation.specs.Intake.{StandsStill};
ghost use Rattle.simulation.specs.Wires.{traffic};
ghost use Rattle.simulation.specs.PrivateGoing.{onto};
ghost use Rattle.simulation.specs.Following.{sent_with, NoArrivals, ArrivesFirst, CanSettle};

use crate::fault::SimulationFault;
use crate::intake::Intake;
use crate::lent::LentRecord;
use crate::outlet::Outlet;
use crate::sending::Wire;
use cluster_node::{LogEntry, Outcome, Packet, Passed};
use event_trace::Delivery;
use pcap_file::Frame;
use std::alloc::{AllocError, Global};
use waiting_frames::Waiting;

/// The frames that wait, and room that is used again.
#[derive(Drop)]
pub(crate) struct Relay {
    alloc: Global,
    waiting: Waiting,
    room: Vec<u8>,
}

// Sends a record on, which was read as this packet, if the outcome says so.
#[tactic(auto, unfolding(crate::specs::Following::sent_with))]
#[inline(always)]
fn send_taken<O: Outlet>(
    room: &mut Vec<u8>,
    output: &mut O,
    wire: &Wire<'_>,
    outcome: &Outcome,
    frame: &Frame,
    read: &Packet,
) -> Result<(), SimulationFault>
    requires { read.now ≡ packet_in wire.now.link wire.now.check (packet frame.now) }
    ensures ok { OnOk result (Wrote (O.tape output.old) (O.tape output.new) (sent_with (traffic wire.now []) outcome.now (packet frame.now))) }
    ensures named { IfErr result IsOfRun }
    ensures cut { let sends = sent_with (traffic wire.now []) outcome.now (packet frame.now) in
        IfErr result (λ fault. WroteUntil fault (O.tape output.old) (O.tape output.new) sends) }
{
    match outcome {
        Outcome::Forward { node, backend, .. } => {
            output.send(room, wire, *node, backend, frame, read)
        }
        _ => Ok(()),
    }
}

// Reads the record of a packet that waited and sends it on, if the outcome says so.
#[tactic(auto, unfolding(crate::specs::Following::sent_with))]
#[inline(always)]
fn send_waited<O: Outlet>(
    room: &mut Vec<u8>,
    output: &mut O,
    wire: &Wire<'_>,
    outcome: &Outcome,
    frame: &Frame,
) -> Result<(), SimulationFault>
    ensures ok { OnOk result (Wrote (O.tape output.old) (O.tape output.new) (sent_with (traffic wire.now []) outcome.now (packet frame.now))) }
    ensures named { IfErr result IsOfRun }
    ensures cut { let sends = sent_with (traffic wire.now []) outcome.now (packet frame.now) in
        IfErr result (λ fault. WroteUntil fault (O.tape output.old) (O.tape output.new) sends) }
{
    match outcome {
        Outcome::Forward { node, backend, .. } => {
            let read = wire.packet(LentRecord::of(frame));
            output.send(room, wire, *node, backend, frame, &read)
        }
        _ => Ok(()),
    }
}

impl Relay {
    // Nothing waits.
    pub(crate) fn new(alloc: Global, nodes: u16) -> Result<Relay, AllocError>
        ensures count { IfOk result (λ r. length r.waiting ≡ nodes * 16) }
        ensures mirrors { IfOk result (λ r. (all : List Record) (k : Cluster) → Mirrors all k [] r.waiting) }
    {
        Ok(Relay {
            alloc,
            waiting: Waiting::new(alloc, nodes)?,
            room: Vec::new(alloc),
        })
    }

    // Follows an event that is no arrival, and sends what it sends.
    #[inline(always)]
    fn settle_one<O: Outlet>(
        &mut self,
        wire: &Wire<'_>,
        said: &LogEntry,
        output: &mut O,
    ) -> Result<(), SimulationFault>
        ensures count { length self.new.waiting ≡ length self.old.waiting }
        ensures settled { (all : List Record) (k : Cluster) (past : List LogEntry) → CanFollow all k past said.now self.old.waiting →
            IsNoArrival said.now.event →
            let sends = sent_by (traffic wire.now all) said.now.outcome in
            OnOk result (Mirrors all k (said.now ∷ past) self.new.waiting × Wrote (O.tape output.old) (O.tape output.new) sends) }
        ensures named { IfErr result IsOfRun }
        ensures cut { (all : List Record) (k : Cluster) (past : List LogEntry) → CanFollow all k past said.now self.old.waiting → IsNoArrival said.now.event →
            IfErr result (λ fault. WroteUntil fault (O.tape output.old) (O.tape output.new) (sent_by (traffic wire.now all) said.now.outcome)) }
    {
        let Some(frame) = self.waiting.settle(said) else {
            return Ok(());
        };
        send_waited(&mut self.room, output, wire, &said.outcome, frame.as_ref())
    }

    // Follows an event that is no arrival, where there is one.
    #[inline(always)]
    pub(crate) fn settle<O: Outlet>(
        &mut self,
        wire: &Wire<'_>,
        said: Option<LogEntry>,
        output: &mut O,
    ) -> Result<(), SimulationFault>
        ensures count { length self.new.waiting ≡ length self.old.waiting }
        ensures settled { (all : List Record) (k : Cluster) (past : List LogEntry) → CanSettle all k past (if_there said) self.old.waiting →
            NoArrivals (if_there said) →
            let sends = sent (traffic wire.now all) (if_there said) in
            OnOk result (Mirrors all k (onto past (if_there said)) self.new.waiting × Wrote (O.tape output.old) (O.tape output.new) sends) }
        ensures named { IfErr result IsOfRun }
        ensures cut { (all : List Record) (k : Cluster) (past : List LogEntry) → CanSettle all k past (if_there said) self.old.waiting →
            NoArrivals (if_there said) →
            IfErr result (λ fault. WroteUntil fault (O.tape output.old) (O.tape output.new) (sent (traffic wire.now all) (if_there said))) }
    {
        match said {
            Some(said) => self.settle_one(wire, &said, output),
            None => Ok(()),
        }
    }

    // Follows an arrival, whose packet has the record that was read last.
    #[inline(always)]
    fn take_in(&mut self, said: &LogEntry, intake: &mut Intake) -> Result<(), AllocError>
        ensures count { length self.new.waiting ≡ length self.old.waiting }
        ensures taken { (all : List Record) (k : Cluster) (past : List LogEntry) → CanFollow all k past said.now self.old.waiting →
            ComesAs all intake.old.record_read said.now.event →
            OnOk result (Mirrors all k (said.now ∷ past) self.new.waiting) }
        ensures intake { StandsStill intake.old intake.new }
    {
        if !self.waiting.waits(said) {
            return Ok(());
        }
        let frame = intake.share(self.alloc)?;
        self.waiting.arrive(said, frame)
    }

    // Follows what is reported of a packet that arrived: its arrival, whose packet has the record that was read last, and
    // the serving after it.
    fn settle_told<O: Outlet>(
        &mut self,
        wire: &Wire<'_>,
        read: &Packet,
        delivery: &Delivery,
        intake: &mut Intake,
        output: &mut O,
    ) -> Result<(), SimulationFault>
        requires { delivery.now.arrived ≡ true }
        ensures count { length self.new.waiting ≡ length self.old.waiting }
        ensures intake { StandsStill intake.old intake.new }
        ensures settled { let events = events_of read.now delivery.now in
            (all : List Record) (k : Cluster) (past : List LogEntry) → CanSettle all k past events self.old.waiting →
            ArrivesFirst all intake.old.record_read events →
            let sends = sent (traffic wire.now all) events in
            OnOk result (Mirrors all k (onto past events) self.new.waiting × Wrote (O.tape output.old) (O.tape output.new) sends) }
        ensures named { IfErr result IsOfRun }
        ensures cut { let events = events_of read.now delivery.now in
            (all : List Record) (k : Cluster) (past : List LogEntry) → CanSettle all k past events self.old.waiting →
            ArrivesFirst all intake.old.record_read events →
            IfErr result (λ fault. WroteUntil fault (O.tape output.old) (O.tape output.new) (sent (traffic wire.now all) events)) }
    {
        let arrival = delivery.arrival(read);
        self.take_in(&arrival, intake)?;
        match delivery.serving() {
            Some(serving) => self.settle_one(wire, &serving, output),
            None => Ok(()),
        }
    }

    // Follows what is reported of a packet that was delivered, as which the record read last was read. Where it was served
    // at once, and no other waited there, its frame is sent from where it was read.
    #[inline(always)]
    pub(crate) fn settle_delivered<O: Outlet>(
        &mut self,
        wire: &Wire<'_>,
        read: &Packet,
        delivery: &Delivery,
        intake: &mut Intake,
        output: &mut O,
    ) -> Result<(), SimulationFault>
        requires { read.now ≡ packet_in wire.now.link wire.now.check intake.old.record_read }
        ensures count { length self.new.waiting ≡ length self.old.waiting }
        ensures intake { StandsStill intake.old intake.new }
        ensures settled { let events = events_of read.now delivery.now in
            (all : List Record) (k : Cluster) (past : List LogEntry) → CanSettle all k past events self.old.waiting →
            ArrivesFirst all intake.old.record_read events →
            let sends = sent (traffic wire.now all) events in
            OnOk result (Mirrors all k (onto past events) self.new.waiting × Wrote (O.tape output.old) (O.tape output.new) sends) }
        ensures named { IfErr result IsOfRun }
        ensures cut { let events = events_of read.now delivery.now in
            (all : List Record) (k : Cluster) (past : List LogEntry) → CanSettle all k past events self.old.waiting →
            ArrivesFirst all intake.old.record_read events →
            IfErr result (λ fault. WroteUntil fault (O.tape output.old) (O.tape output.new) (sent (traffic wire.now all) events)) }
    {
        if !delivery.arrived {
            return Ok(());
        }
        match &delivery.passed {
            Passed::Through {
                worker,
                outcome,
                ..
            } if self.waiting.passes(read, delivery.node, *worker, outcome) => {
                let frame = intake.frame();
                send_taken(&mut self.room, output, wire, outcome, frame, read)
            }
            _ => self.settle_told(wire, read, delivery, intake, output),
        }
    }
}
