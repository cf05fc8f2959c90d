//! A capture is read to its end, and its first records are kept.
ghost use Rattle.std.specs.Prelude.{◌≡◌, ◌≤◌, ◌<◌, ◌+◌, ℕ, true, List, IfOk, IfErr, OnOk, length, slice_index_or};
ghost use Rattle.std.specs.Fn.{FnReturnsAt};
ghost use Rattle.pcap_file.specs.Device.{Unfailed};
ghost use Rattle.pcap_file.specs.Format.{Record, max_records};
ghost use Rattle.pcap_file.specs.Text.{IsTold, AllRefused};
ghost use Rattle.cluster_core.specs.Cluster.{WereRead};
ghost use Rattle.cluster_node.specs.declared.packets.Packet.{Packet};
ghost use Rattle.simulation.specs.Sent.{packets_of};
ghost use Rattle.run_records.specs.Firsts.{IsBounded, IsSplit};
ghost use Rattle.run_records.specs.Inputs.{IsReadWhole, ReadingFails};

use crate::firsts::FirstRecords;
use crate::records::Records;
use cluster_node::{Cause, Packet};
use pcap_file::{Ending, Frame, Head, InputEnd, PcapFault, Source, read_record_into, read_start};
use simulation::{SimulationFault, Wire};
use std::alloc::{AllocError, Global};
use std::thread::Threads;
use std::{fmt, thread};

/// A capture's header, its first records, how many others it has, and whether it ends inside a further one.
#[derive(Drop)]
pub struct Captured {
    /// Its header.
    pub head: Head,
    /// Its first records, as many as were to be kept.
    pub records: Records,
    /// How many come behind them.
    pub others: usize,
    /// Whether it ends inside a further one.
    pub ending: InputEnd,
}

impl fmt::Debug for Captured {
    fn fmt<W: fmt::Write>(&self, f: &mut fmt::Formatter<W>) -> fmt::Result {
        f.debug_struct("Captured")
            .field("records", &self.records)
            .field("others", &self.others)
            .finish_non_exhaustive()
    }
}

// Reads the records after a header to the input's end. One frame takes them all, one after another.
fn read_records<I: Source, F: Fn(&Records) -> bool>(
    alloc: Global,
    input: &mut I,
    head: Head,
    limit: usize,
    enough: &F,
) -> Result<(FirstRecords, InputEnd), PcapFault>
    requires enough { F.IsAlwaysCallable enough.now }
    ensures bounded { IfOk result (λ all. IsBounded (λ rs. FnReturnsAt F.Fn enough.entry.now rs true) limit all.0) }
    ensures few { IfOk result (λ all. length all.0.all ≤ max_records) }
    ensures told { IfOk result (λ all. IsTold head (I.tape input.old).bytes all.0.all all.1) }
    ensures unfailed { OnOk result (Unfailed (I.tape input.old) (I.tape input.new)) }
    ensures refused { IfErr result (AllRefused head (I.tape input.old) (I.tape input.new)) }
{
    let mut records = FirstRecords::new(alloc, limit);
    let mut next = Frame::empty(alloc);
    let mut given = 0;
    loop {
        match read_record_into(input, head, given, &mut next) {
            Ok(()) => {
                let Ok(()) = records.push(&next) else {
                    return Err(PcapFault::Memory);
                };
                records.ask(enough);
                given += 1;
            }
            Err(Ending::End) => return Ok((records, InputEnd::End)),
            Err(Ending::Cut) => return Ok((records, InputEnd::Cut)),
            Err(Ending::Failed(fault)) => return Err(fault),
        }
    }
}

/// Reads a capture to its end. At most so many records are kept, and of the others their count. From time to time it is asked of
/// those that are kept whether they are enough. Where they are, no more are kept.
pub fn read_whole<I: Source, F: Fn(&Records) -> bool>(
    alloc: Global,
    input: &mut I,
    limit: usize,
    enough: &F,
) -> Result<Captured, SimulationFault>
    requires enough { F.IsAlwaysCallable enough.now }
    ensures whole { IfOk result (λ c. (all : List Record) × IsReadWhole (I.tape input.old) (I.tape input.new) c.head all c.ending
        × (length all ≤ max_records) × IsSplit (λ rs. FnReturnsAt F.Fn enough.entry.now rs true) limit all c.records c.others) }
    ensures most { IfOk result (λ c. length c.records ≤ limit) }
    ensures fails { IfErr result (λ fault. ReadingFails fault (I.tape input.old) (I.tape input.new)) }
{
    let head = match read_start(input) {
        Ok(head) => head,
        Err(fault) => return Err(SimulationFault::Capture(fault)),
    };
    match read_records(alloc, input, head, limit, enough) {
        Ok((all, ending)) => {
            let (records, others) = all.split();
            Ok(Captured {
                head,
                records,
                others,
                ending,
            })
        }
        Err(fault) => Err(SimulationFault::Capture(fault)),
    }
}

// A thread reads so many records at least, but for the last one, which reads what is left.
const READ_AT_ONCE: usize = 16_384;

// So many threads read at most.
const READING_THREADS: usize = 8;

// The packets of the records from a place on, in place of what is there.
fn read_into(wire: &Wire<'_>, records: &Records, from: usize, packets: &mut [Packet])
    requires { from + length packets.old ≤ length records.now }
    ensures many { length packets.new ≡ length packets.old }
    ensures each { (k : ℕ) (p : Packet) → k < length packets.old →
        slice_index_or packets.new k p ≡ slice_index_or (packets_of wire.now.link wire.now.check records.now) (from + k) p }
{
    let _all = records.len();
    for at in 0..packets.len() {
        packets[at] = wire.packet(records.at(from + at));
    }
}

// The packets of all records, in place of what is there. Where there are many, they are read on several threads.
fn read_all<R: Threads + Sync>(rt: &R, wire: &Wire<'_>, records: &Records, packets: &mut [Packet])
    requires { length packets.old ≡ length records.now }
    ensures { packets.new ≡ packets_of wire.now.link wire.now.check records.now }
{
    let size = packets.len().div_ceil(READING_THREADS).max(READ_AT_ONCE);
    thread::for_each_chunk_mut(
        rt,
        packets,
        size,
        &|from: usize, some: &mut [Packet]|
            requires { from + length some.now ≤ length records.now }
            ensures { let all = packets_of wire.entry.now.link wire.entry.now.check records.entry.now in (k : ℕ) (p : Packet) →
                k < length some.entry.now → slice_index_or some.exit.now k p ≡ slice_index_or all (from + k) p }
        { read_into(wire, records, from, some) },
    );
}

/// The packets that records are.
pub fn packets_of<R: Threads + Sync>(
    rt: &R,
    alloc: Global,
    wire: &Wire<'_>,
    records: &Records,
) -> Result<Vec<Packet>, AllocError>
    ensures packets { IfOk result (λ v. v.items ≡ packets_of wire.now.link wire.now.check records.now) }
    ensures read { IfOk result (λ v. WereRead v.items) }
    ensures count { IfOk result (λ v. length v.items ≡ length records.now) }
{
    let unread = Packet::Bad(Cause::NotIpv4);
    let mut packets = vec![in alloc; unread; records.len()]?;
    read_all(rt, wire, records, packets.as_mut_slice());
    Ok(packets)
}
