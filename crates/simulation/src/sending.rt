//! What the cluster sends is wrapped and written.
ghost use Rattle.std.specs.Prelude.{◌≡◌, ◌≤◌, ◌∷◌, option_map, OnOk, IfErr, IfSome, length, [], Some, None, slice_get};
ghost use Rattle.ip_headers.specs.Ipv4.{frame_answer};
ghost use Rattle.simulation.specs.Sent.{packet_in, cut_to, datagram_in, Sending, wrapped_at, wrapped_as, sent_at, record_text, Wrote, WroteUntil};
ghost use Rattle.simulation.specs.Simulated.{IsOfRun};
ghost use Rattle.simulation.specs.Wires.{lent_record, traffic};

use crate::fault::SimulationFault;
use crate::lent::LentRecord;
use cluster_core::read_packet;
use cluster_node::Packet;
use gre_tunnel::wrap_onto;
use ip_headers::{Link, read_frame};
use pcap_file::{Sink, push_record_head, put_all};
use pool_versions::Backend;
use std::alloc::AllocError;

/// The nodes' addresses, and how frames are read.
#[derive(Clone, Copy, Debug)]
pub struct Wire<'a> {
    pub nodes: &'a [u32],
    pub link: Link,
    pub check: bool,
}

impl<'a> Wire<'a> {
    /// A record as a packet, with the record's time.
    #[inline(always)]
    pub fn packet(&self, lent: LentRecord<'_>) -> Packet
        ensures { result ≡ packet_in self.now.link self.now.check (lent_record lent.entry) }
    {
        read_packet(self.link, lent.bytes, lent.time(), self.check)
    }

    #[inline(always)]
    fn address(&self, node: u16) -> Option<u32>
        ensures { result ≡ slice_get self.now.nodes.now node }
    {
        self.nodes.get(node as usize).copied()
    }

    /// What a node sends to a backend of a record, which was read as this packet. The datagram is wrapped in the room, which
    /// is used again.
    #[tactic(auto, unfolding(crate::specs::Sent::datagram_in))]
    #[inline(always)]
    pub fn send_record<O: Sink>(
        &self,
        room: &mut Vec<u8>,
        output: &mut O,
        node: u16,
        backend: &Backend,
        lent: LentRecord<'_>,
        read: &Packet,
    ) -> Result<(), SimulationFault>
        requires { read.now ≡ packet_in self.now.link self.now.check (lent_record lent) }
        ensures ok { let sends = sent_at (traffic self.now []) node backend.entry.now (Some (lent_record lent.entry)) in
            OnOk result (Wrote (O.tape output.old) (O.tape output.new) sends) }
        ensures named { IfErr result IsOfRun }
        ensures cut { let sends = sent_at (traffic self.now []) node backend.entry.now (Some (lent_record lent.entry)) in
            IfErr result (λ fault. WroteUntil fault (O.tape output.old) (O.tape output.new) sends) }
    {
        let inner = datagram(self.link, read, lent.bytes);
        put_wrapped(room, output, self.address(node), backend.addr, lent, inner)
    }
}

// The datagram of a packet in the bytes of its frame.
#[inline(always)]
fn datagram<'a>(link: Link, packet: &Packet, bytes: &'a [u8]) -> Option<&'a [u8]>
    ensures { option_map (λ d. d.now) result ≡ cut_to packet.now (frame_answer link bytes.now) }
{
    let Ok(bytes) = read_frame(link, bytes) else {
        return None;
    };
    match *packet {
        Packet::Good { len, .. } => Some(&bytes[..(len as usize).min(bytes.len())]),
        Packet::Bad(_) => None,
    }
}

// A record whose bytes are a datagram in a tunnel, and which bears the time of another: the text of it, in the room.
#[inline(always)]
fn make_record(
    room: &mut Vec<u8>,
    lent: LentRecord<'_>,
    inner: &[u8],
    node: u32,
    backend: u32,
) -> Result<(), AllocError>
    requires { length inner.now ≤ 65511 }
    ensures text { OnOk result (room.new.items ≡ record_text (wrapped_at (lent_record lent.entry) node backend inner.now)) }
    ensures short { OnOk result (length room.new.items ≤ 65551) }
{
    room.clear();
    push_record_head(room, lent.secs, lent.micros, inner.len() as u32 + 24)?;
    match wrap_onto(inner, node, backend, room) {
        Ok(()) => Ok(()),
        Err(_) => Err(AllocError),
    }
}

// Writes the text of a record as one piece.
#[inline(always)]
fn put_record<O: Sink>(output: &mut O, text: &[u8]) -> Result<(), SimulationFault>
    requires { length text.now ≤ 65551 }
    ensures ok { (r : Sending) → text.now ≡ record_text r → OnOk result (Wrote (O.tape output.old) (O.tape output.new) (r ∷ [])) }
    ensures named { IfErr result IsOfRun }
    ensures cut { (r : Sending) → text.now ≡ record_text r → IfErr result (λ fault. WroteUntil fault (O.tape output.old) (O.tape output.new) (r ∷ [])) }
{
    match put_all(output, text) {
        Ok(()) => Ok(()),
        Err(_) => Err(SimulationFault::Write),
    }
}

// A datagram is wrapped from a node's address to a backend's, and written with its record's time.
#[inline(always)]
fn put_wrapped<O: Sink>(
    room: &mut Vec<u8>,
    output: &mut O,
    node: Option<u32>,
    backend: u32,
    lent: LentRecord<'_>,
    inner: Option<&[u8]>,
) -> Result<(), SimulationFault>
    requires { IfSome inner (λ d. length d.now ≤ 65511) }
    ensures ok { let sends = wrapped_as (lent_record lent.entry) node backend (option_map (λ d. d.now) inner.entry) in
        OnOk result (Wrote (O.tape output.old) (O.tape output.new) sends) }
    ensures named { IfErr result IsOfRun }
    ensures cut { let sends = wrapped_as (lent_record lent.entry) node backend (option_map (λ d. d.now) inner.entry) in
        IfErr result (λ fault. WroteUntil fault (O.tape output.old) (O.tape output.new) sends) }
{
    let Some(node) = node else {
        return Ok(());
    };
    let Some(inner) = inner else {
        return Ok(());
    };
    make_record(room, lent, inner, node, backend)?;
    put_record(output, room.as_slice())
}
