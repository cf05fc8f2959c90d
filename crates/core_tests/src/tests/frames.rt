//! Reading frames, and what a setup refuses.
use crate::checks::holds;
use backend_names::TableSize;
use cluster_core::{Cause, Packet, Setup, SetupFault, read_packet};
use five_tuple::Flow;
use hash_laws::SumHash;
use ip_headers::Link;
use selection::RoundRobin;
use std::process::Abort;

static DATAGRAM: [u8; 40] = [
    0x45, 0, 0, 40, 0, 1, 0, 0, 0x40, 6, 0xae, 0xcd, 10, 0, 0, 1, 192, 0, 2, 1, 3, 0xe8, 0, 80, 0,
    0, 0, 1, 0, 0, 0, 0, 0x50, 2, 0x20, 0, 0, 0, 0, 0,
];

fn reads(rt: &impl Abort, frame: &[u8], wanted: &Packet) {
    assert!(rt; read_packet(Link::RawIp, frame, 7, true) == *wanted);
}

// A datagram whole and without its last byte.
#[test]
fn frames_are_read(rt: HostRuntime) {
    let flow = Flow {
        src: 0x0a000001,
        dst: 0xc0000201,
        sport: 1000,
        dport: 80,
        proto: 6,
    };
    let whole = Packet::Good {
        flow,
        len: 40,
        at: 7,
    };
    reads(&rt, &DATAGRAM, &whole);
    reads(&rt, &DATAGRAM[..39], &Packet::Bad(Cause::Truncated));
}

// Numbers of nodes, workers and entries, and what a setup has against them.
static REFUSED: [(usize, u16, u32, SetupFault); 4] = [
    (0, 1, 1, SetupFault::BadNodes),
    (65, 0, 0, SetupFault::BadNodes),
    (64, 17, 0, SetupFault::BadWorkers),
    (64, 16, 1000001, SetupFault::BadCapacity),
];

#[test]
fn setups_are_refused(rt: HostRuntime) {
    let size = TableSize::new(7).expect(&rt, "a size");
    for (nodes, workers, capacity, want) in REFUSED.iter() {
        let nodes = vec![in rt.alloc(); 0u32; *nodes].expect(&rt, "memory");
        let made = Setup::new(SumHash, RoundRobin, size, nodes, *workers, *capacity, None);
        holds(&rt, made.err() == Some(*want), "a fault");
    }
}
