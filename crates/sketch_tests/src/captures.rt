// Captures that are made up: datagrams to destinations, one a record.
use ip_headers::header_sum;
use pcap_file::{ToWrite, push_record_head, write_head};
use pool_versions::ServiceKey;
use std::alloc::Global;
use std::process::Abort;

// The front of a header up to its checksum: a total length, and a protocol behind the TTL 64.
fn push_front(rt: &impl Abort, bytes: &mut Vec<u8>, total: u8, proto: u8) {
    let front = [0x45, 0, 0, total, 0, 0, 0, 0, 64, proto];
    bytes.extend_from_slice(&front).expect(rt, "memory");
}

fn push(rt: &impl Abort, bytes: &mut Vec<u8>, more: &[u8]) {
    bytes.extend_from_slice(more).expect(rt, "memory");
}

/// Where packets come from that come from no service.
const CLIENT: (u32, u16) = (0x0a00_0001, 1000);

// An IPv4 header, with its checksum.
fn push_header(
    rt: &impl Abort,
    alloc: Global,
    bytes: &mut Vec<u8>,
    total: u8,
    from: u32,
    to: ServiceKey,
) {
    let mut plain = Vec::new(alloc);
    push_front(rt, &mut plain, total, to.proto);
    push(rt, &mut plain, &[0, 0]);
    push(rt, &mut plain, &from.to_be_bytes());
    push(rt, &mut plain, &to.vip.to_be_bytes());
    push_front(rt, bytes, total, to.proto);
    push(rt, bytes, &header_sum(plain.as_slice()).to_be_bytes());
    push(rt, bytes, &from.to_be_bytes());
    push(rt, bytes, &to.vip.to_be_bytes());
}

// A datagram of TCP without data, or of UDP, from an address and a port.
fn datagram(rt: &impl Abort, alloc: Global, from: (u32, u16), to: ServiceKey) -> Vec<u8> {
    let mut bytes = Vec::new(alloc);
    let total = if to.proto == 6 { 40 } else { 28 };
    push_header(rt, alloc, &mut bytes, total, from.0, to);
    push(rt, &mut bytes, &from.1.to_be_bytes());
    push(rt, &mut bytes, &to.port.to_be_bytes());
    if to.proto == 6 {
        push(
            rt,
            &mut bytes,
            &[0, 0, 0, 1, 0, 0, 0, 0, 0x50, 2, 0x20, 0, 0, 0, 0, 0],
        );
    } else {
        push(rt, &mut bytes, &[0, 8, 0, 0]);
    }
    bytes
}

/// The head of a capture with no records, of raw IP.
pub(crate) fn head(rt: &impl Abort, alloc: Global) -> Vec<u8> {
    let mut sink = ToWrite::new(Vec::new(alloc));
    write_head(&mut sink).expect(rt, "memory");
    sink.into_inner()
}

/// One record more, of these bytes.
pub(crate) fn push_record(rt: &impl Abort, capture: &mut Vec<u8>, bytes: &[u8]) {
    let len = u32::try_from(bytes.len()).expect(rt, "a short record");
    push_record_head(capture, 1, 0, len).expect(rt, "memory");
    push(rt, capture, bytes);
}

/// One record more, of a datagram to a destination.
pub(crate) fn push_packet(rt: &impl Abort, alloc: Global, capture: &mut Vec<u8>, to: ServiceKey) {
    let bytes = datagram(rt, alloc, CLIENT, to);
    push_record(rt, capture, bytes.as_slice());
}

/// Two records more, there and back: of a datagram from an address and a port to a destination, and of one to these from there.
pub(crate) fn push_both(
    rt: &impl Abort,
    alloc: Global,
    capture: &mut Vec<u8>,
    client: (u32, u16),
    to: ServiceKey,
) {
    let there = datagram(rt, alloc, client, to);
    push_record(rt, capture, there.as_slice());
    let back = ServiceKey {
        vip: client.0,
        proto: to.proto,
        port: client.1,
    };
    let bytes = datagram(rt, alloc, (to.vip, to.port), back);
    push_record(rt, capture, bytes.as_slice());
}
