//! What a node sent in a life is sent. Where it is much, several threads wrap its datagrams.
ghost use Rattle.std.specs.Prelude.{◌≡◌, ◌≤◌, List, length, map, take, All, IfOk, IfErr, OnOk};
ghost use Rattle.std.specs.Fork.{IsChunk};
ghost use Rattle.pcap_file.specs.Device.{Tape};
ghost use Rattle.simulation.specs.Sent.{Sending, records_text, Wrote, WroteUntil};
ghost use Rattle.simulation.specs.Simulated.{IsOfRun};
ghost use Rattle.thread_records.specs.Lean.{send_of};
ghost use Rattle.run_records.specs.Sends.{sent_of};
ghost use Rattle.run_records.specs.Traffic.{traffic_by, sent_by_numbers, IsWrapped};

use crate::sender::Sender;
use cluster_node::{Outcome, Packet};
use pcap_file::{Sink, ToWrite, put_all};
use simulation::SimulationFault;
use std::alloc::Global;
use std::thread;
use std::thread::Threads;
use thread_records::LeanRecord;

// How many datagrams of a life are sent at once at most, so that few texts are kept.
const SENT_AT_ONCE: usize = 32_768;

// How many datagrams a thread wraps. Where there are no more, none is started.
const WRAPPED_AT_ONCE: usize = 4_096;

// How many bytes of datagrams a thread wraps at most. What it leaves is wrapped as it is written.
const WRAPPED_BYTES: usize = 8_388_608;

/// Where datagrams are wrapped: threads for many, and a room for one, which is used again.
#[derive(Drop)]
pub(crate) struct Wrapping<'a, R> {
    rt: &'a R,
    alloc: Global,
    room: Vec<u8>,
}

/// How packets are sent, and the record of a node that sends them.
#[derive(Clone, Copy)]
pub(crate) struct NodeSender<'a> {
    pub(crate) sender: Sender<'a>,
    pub(crate) node: &'a LeanRecord,
}

// What some events sent that follow one another in a list of numbers: from which place on, of how many, and its records' text.
#[derive(Drop)]
struct Wrapped {
    start: usize,
    count: usize,
    text: Vec<u8>,
}

impl<'a, R> Wrapping<'a, R> {
    /// Nothing is wrapped yet.
    pub(crate) fn new(rt: &'a R, alloc: Global) -> Wrapping<'a, R> {
        Wrapping {
            rt,
            alloc,
            room: Vec::new(alloc),
        }
    }
}

// Writes the text of records as one piece.
fn put_text<O: Sink>(output: &mut O, text: &[u8]) -> Result<(), SimulationFault>
    ensures ok { (rs : List Sending) → text.now ≡ records_text rs → OnOk result (Wrote (O.tape output.old) (O.tape output.new) rs) }
    ensures named { IfErr result IsOfRun }
    ensures cut { (rs : List Sending) → text.now ≡ records_text rs → IfErr result (λ fault. WroteUntil fault (O.tape output.old) (O.tape output.new) rs) }
{
    // No text is as long: memory hasn't the room.
    if text.len() > isize::MAX as usize {
        return Err(SimulationFault::Memory);
    }
    match put_all(output, text) {
        Ok(()) => Ok(()),
        Err(_) => Err(SimulationFault::Write),
    }
}

impl NodeSender<'_> {
    // How many bytes the datagram has that an outcome sends. Nothing rests on it.
    fn bytes_of(&self, outcome: &Outcome) -> usize {
        let Outcome::Forward { packet, .. } = outcome else {
            return 0;
        };
        match self.sender.packets.get(*packet as usize) {
            Some(Packet::Good { len, .. }) => *len as usize,
            _ => 0,
        }
    }

    // The text of what the first of these events sent, until it is long, and how many they are.
    fn wrapped_first(
        &self,
        alloc: Global,
        numbers: &[u32],
    ) -> Result<(usize, Vec<u8>), SimulationFault>
        ensures count { IfOk result (λ w. w.0 ≤ length numbers.now) }
        ensures text { IfOk result (λ w. w.1.items ≡ records_text (sent_by_numbers self.now (take w.0 numbers.now))) }
    {
        let mut room = Vec::new(alloc);
        let mut texts = ToWrite::new(Vec::new(alloc));
        let mut bytes: usize = 0;
        for at in 0..numbers.len() {
            let outcome = self.node.send_of(numbers[at]);
            bytes = bytes.saturating_add(self.bytes_of(&outcome));
            if bytes > WRAPPED_BYTES {
                return Ok((at, texts.into_inner()));
            }
            self.sender.send_outcome(&mut room, &mut texts, &outcome)?;
        }
        Ok((numbers.len(), texts.into_inner()))
    }

    // Wraps some of these numbers: those from a place on. Where memory is refused none is wrapped.
    fn wrapped(&self, alloc: Global, numbers: &[u32], start: usize, some: &[u32]) -> Wrapped
        requires { IsChunk numbers.now WRAPPED_AT_ONCE start some.now }
        ensures { IsWrapped self.now numbers.now result }
    {
        let _ = numbers;
        match self.wrapped_first(alloc, some) {
            Ok((count, text)) => Wrapped { start, count, text },
            Err(_) => Wrapped {
                start,
                count: 0,
                text: Vec::new(alloc),
            },
        }
    }

    // Sends what the events of some numbers sent, one after another.
    fn send_numbers<O: Sink>(
        &self,
        room: &mut Vec<u8>,
        output: &mut O,
        numbers: &[u32],
    ) -> Result<(), SimulationFault>
        ensures ok { OnOk result (Wrote (O.tape output.old) (O.tape output.new) (sent_by_numbers self.now numbers.now)) }
        ensures named { IfErr result IsOfRun }
        ensures cut { IfErr result (λ fault. WroteUntil fault (O.tape output.old) (O.tape output.new) (sent_by_numbers self.now numbers.now)) }
    {
        for number in numbers {
            self.sender
                .send_outcome(room, output, &self.node.send_of(*number))?;
        }
        Ok(())
    }

    // Goes on behind a place, and writes what was wrapped. The answer is the place behind that.
    fn put_part<O: Sink>(
        &self,
        room: &mut Vec<u8>,
        output: &mut O,
        numbers: &[u32],
        from: usize,
        part: &Wrapped,
    ) -> Result<usize, SimulationFault>
        requires wrapped { IsWrapped self.now numbers.now part.now }
        requires within { from ≤ length numbers.now }
        ensures within { IfOk result (λ to. to ≤ length numbers.now) }
        ensures ok { (begun : Tape) → Wrote begun (O.tape output.old) (sent_by_numbers self.now (take from numbers.now)) →
            IfOk result (λ to. Wrote begun (O.tape output.new) (sent_by_numbers self.now (take to numbers.now))) }
        ensures named { IfErr result IsOfRun }
        ensures cut { (begun : Tape) → Wrote begun (O.tape output.old) (sent_by_numbers self.now (take from numbers.now)) →
            IfErr result (λ fault. WroteUntil fault begun (O.tape output.new) (sent_by_numbers self.now numbers.now)) }
    {
        if part.start < from {
            return Ok(from);
        }
        self.send_numbers(room, output, &numbers[from..part.start])?;
        put_text(output, part.text.as_slice())?;
        Ok(part.start + part.count)
    }

    // Sends what the events of some numbers sent, of which these parts were wrapped. A part's text is given back once it is written.
    fn put_parts<O: Sink>(
        &self,
        room: &mut Vec<u8>,
        output: &mut O,
        numbers: &[u32],
        parts: Vec<Wrapped>,
    ) -> Result<(), SimulationFault>
        requires { All (λ w. IsWrapped self.now numbers.now w) parts.items }
        ensures ok { OnOk result (Wrote (O.tape output.old) (O.tape output.new) (sent_by_numbers self.now numbers.now)) }
        ensures named { IfErr result IsOfRun }
        ensures cut { IfErr result (λ fault. WroteUntil fault (O.tape output.old) (O.tape output.new) (sent_by_numbers self.now numbers.now)) }
    {
        let mut from = 0;
        for part in parts {
            from = self.put_part(room, output, numbers, from, &part)?;
        }
        self.send_numbers(room, output, &numbers[from..])?;
        Ok(())
    }

    // Sends what the events of some numbers sent. Where they are many, threads wrap it.
    fn send_part<O: Sink, R: Threads + Sync>(
        &self,
        wrapping: &mut Wrapping<'_, R>,
        output: &mut O,
        numbers: &[u32],
    ) -> Result<(), SimulationFault>
        ensures ok { OnOk result (Wrote (O.tape output.old) (O.tape output.new) (sent_by_numbers self.now numbers.now)) }
        ensures named { IfErr result IsOfRun }
        ensures cut { IfErr result (λ fault. WroteUntil fault (O.tape output.old) (O.tape output.new) (sent_by_numbers self.now numbers.now)) }
    {
        let alloc = wrapping.alloc;
        if numbers.len() <= WRAPPED_AT_ONCE {
            return self.send_numbers(&mut wrapping.room, output, numbers);
        }
        let parts = thread::map_chunks(
            wrapping.rt,
            alloc,
            numbers,
            WRAPPED_AT_ONCE,
            &|start: usize, some: &[u32]| -> Wrapped
                requires { IsChunk numbers.now WRAPPED_AT_ONCE start some.now }
                ensures { IsWrapped self.entry.now numbers.entry.now result }
            { self.wrapped(alloc, numbers, start, some) },
        );
        match parts {
            Err(_) => self.send_numbers(&mut wrapping.room, output, numbers),
            Ok(parts) => self.put_parts(&mut wrapping.room, output, numbers, parts),
        }
    }

    /// Sends what the node sent in one life, by the numbers of its events.
    pub(crate) fn send_life<O: Sink, R: Threads + Sync>(
        &self,
        wrapping: &mut Wrapping<'_, R>,
        output: &mut O,
        life: &[u32],
    ) -> Result<(), SimulationFault>
        ensures ok { OnOk result (Wrote (O.tape output.old) (O.tape output.new) (sent_of (traffic_by self.now.sender)
            (map (λ n. send_of self.now.node.now.outcomes.items n) life.now))) }
        ensures named { IfErr result IsOfRun }
        ensures cut { IfErr result (λ fault. WroteUntil fault (O.tape output.old) (O.tape output.new)
            (sent_of (traffic_by self.now.sender) (map (λ n. send_of self.now.node.now.outcomes.items n) life.now))) }
    {
        let mut from = 0;
        while from < life.len() {
            let to = from + SENT_AT_ONCE.min(life.len() - from);
            self.send_part(wrapping, output, &life[from..to])?;
            from = to;
        }
        Ok(())
    }
}
