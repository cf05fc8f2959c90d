//! Flows and their bytes.
use crate::checks::{holds, same_bytes, same_number};
use crate::datagrams::{Changes, TCP, UDP, changed};
use five_tuple::{Flow, flow_of};
use ip_headers::{IpFault, read_ipv4};
use std::process::Abort;

fn answer(bytes: &[u8]) -> Result<Flow, IpFault> {
    flow_of(&read_ipv4(bytes, false)?)
}

fn sum(flow: &Flow) -> u64 {
    let mut sum = 0u64;
    for byte in &flow.bytes() {
        sum = sum.wrapping_add(u64::from(*byte));
    }
    sum
}

const Y: Flow = Flow {
    src: 0x0a00_0001,
    dst: 0xc000_0201,
    sport: 1000,
    dport: 80,
    proto: 6,
};

fn same_answer(rt: &impl Abort, found: Result<Flow, IpFault>, wanted: Result<Flow, IpFault>) {
    assert_eq!(rt; found, wanted);
}

// A flow with this sum of its bytes; whether it stands behind `Y` in their order.
fn is_summed(rt: &impl Abort, found: Result<Flow, IpFault>, total: u64, is_behind: bool) {
    match found {
        Ok(flow) => {
            same_number(rt, sum(&flow), total, "sum", 0);
            holds(rt, (flow > Y) == is_behind, "order", 0);
        },
        Err(_) => holds(rt, false, "it is refused", 0),
    }
}

static Y_BYTES: [u8; 13] = [10, 0, 0, 1, 0xc0, 0, 2, 1, 3, 0xe8, 0, 0x50, 6];

#[test]
fn flows_and_their_bytes(rt: HostRuntime) {
    same_answer(&rt, answer(&TCP), Ok(Y));
    same_bytes(&rt, &Y.bytes(), &Y_BYTES, "bytes");
    is_summed(&rt, answer(&TCP), 527, false);
    let z = changed(&TCP, &[(21, 0xe9)]);
    is_summed(&rt, answer(&z), 528, true);
    let x = changed(&TCP, &[(21, 0xee)]);
    is_summed(&rt, answer(&x), 533, true);
    is_summed(&rt, answer(&UDP), 511, false);
    holds(
        &rt,
        matches!(&answer(&UDP), Ok(flow) if flow.proto == 17),
        "udp",
        0,
    );
}

static REFUSED: [(usize, Changes, IpFault); 3] = [
    (28, &[(25, 7)], IpFault::BadTransport),
    (28, &[(25, 7), (9, 1)], IpFault::NotTcpUdp),
    (27, &[], IpFault::Truncated),
];

#[test]
fn refusals(rt: HostRuntime) {
    for (kept, changes, fault) in REFUSED.iter() {
        let room = changed(&UDP, changes);
        let found = answer(room.get(..*kept).unwrap_or(&[]));
        same_answer(&rt, found, Err(*fault));
    }
}
