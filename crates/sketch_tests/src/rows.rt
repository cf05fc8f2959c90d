// Captures and their sketches, as text.
use crate::captures::{head, push_packet, push_record};
use crate::checks::{same_bytes, same_outcome};
use command_faults::CliFault;
use connection_table::TableKey;
use pcap_file::{FromRead, PcapFault, ToWrite};
use pool_versions::ServiceKey;
use scenario_sketch::sketch;
use std::alloc::Global;
use std::process::Abort;

const WEB: ServiceKey = ServiceKey {
    vip: 0xc000_0201,
    proto: 6,
    port: 80,
};

const NAMES: ServiceKey = ServiceKey {
    vip: 0xc000_0201,
    proto: 17,
    port: 53,
};

const MAIL: ServiceKey = ServiceKey {
    vip: 0xc000_0202,
    proto: 6,
    port: 25,
};

fn push_packets(rt: &impl Abort, alloc: Global, capture: &mut Vec<u8>, to: ServiceKey, times: u32) {
    for _ in 0..times {
        push_packet(rt, alloc, capture, to);
    }
}

/// A capture's sketch is this text.
fn sketches(rt: &impl Abort, alloc: Global, capture: &[u8], text: &str, at: usize) {
    let mut out = ToWrite::new(Vec::new(alloc));
    let mut input = FromRead::new(capture);
    let done = sketch(alloc, TableKey::fixed(), &mut input, &mut out);
    same_outcome(rt, done, Ok(()), at);
    same_bytes(rt, out.into_inner().as_slice(), text.as_bytes(), at);
}

static NONE: &str =
    "# Destinations: 0. Of more than 5 packets: 0. Without the other direction of these: 0. The first 256 of them are services, the most frequent first.
format = 1
size = 65537
hash = \"fnv\"
scheme = \"maglev\"
spread = \"hash\"
workers = 1
capacity = 100000
nodes = [\"10.9.0.1\"]
steps = [\"install 0 1\", \"take 0\"]

[[versions]]
number = 1
services = []
";

static THREE: &str =
    "# Destinations: 3. Of more than 5 packets: 2. Without the other direction of these: 2. The first 256 of them are services, the most frequent first.
format = 1
size = 65537
hash = \"fnv\"
scheme = \"maglev\"
spread = \"hash\"
workers = 1
capacity = 100000
nodes = [\"10.9.0.1\"]
steps = [\"install 0 1\", \"take 19\"]

[[versions]]
number = 1

# 7 packets
[[versions.services]]
vip = \"192.0.2.1\"
proto = \"udp\"
port = 53
members = []
# members = [\"web-1@10.8.0.1\", \"web-2@10.8.0.2\"]

# 6 packets
[[versions.services]]
vip = \"192.0.2.1\"
proto = \"tcp\"
port = 80
members = []
# members = [\"web-1@10.8.0.1\", \"web-2@10.8.0.2\"]
";

// No records; a destination of five packets, one of six, one of seven and a record that is none; and one that is cut off.
#[test]
fn fixed_captures(rt: HostRuntime) {
    let alloc = rt.alloc();
    let mut capture = head(&rt, alloc);
    sketches(&rt, alloc, capture.as_slice(), NONE, 0);
    push_packets(&rt, alloc, &mut capture, MAIL, 5);
    push_packets(&rt, alloc, &mut capture, WEB, 6);
    push_packets(&rt, alloc, &mut capture, NAMES, 7);
    push_record(&rt, &mut capture, &[0x60, 0, 0]);
    sketches(&rt, alloc, capture.as_slice(), THREE, 1);
    capture.push(1).expect(&rt, "memory");
    sketches(&rt, alloc, capture.as_slice(), THREE, 2);
}

fn refused(rt: &impl Abort, alloc: Global, capture: &[u8], fault: PcapFault, at: usize) {
    let mut out = ToWrite::new(Vec::new(alloc));
    let mut input = FromRead::new(capture);
    let done = sketch(alloc, TableKey::fixed(), &mut input, &mut out);
    same_outcome(rt, done, Err(CliFault::Capture(fault)), at);
    same_bytes(rt, out.into_inner().as_slice(), &[], at);
}

// The file header's places that are wrong, and what comes of each.
static WRONG: [(usize, u8, PcapFault); 3] = [
    (0, 0, PcapFault::BadMagic),
    (4, 3, PcapFault::BadVersion),
    (20, 2, PcapFault::BadLink),
];

// Whatever is wrong, nothing is written.
#[test]
fn captures_that_are_none(rt: HostRuntime) {
    let alloc = rt.alloc();
    for (at, byte, fault) in WRONG.iter() {
        let mut capture = head(&rt, alloc);
        if let Some(place) = capture.get_mut(*at) {
            *place = *byte;
        }
        refused(&rt, alloc, capture.as_slice(), *fault, *at);
    }
    refused(&rt, alloc, &[0xd4, 0xc3], PcapFault::ShortHeader, 24);
    let mut capture = head(&rt, alloc);
    let long = [0, 0, 0, 0, 0, 0, 0, 0, 1, 0, 4, 0, 0, 0, 0, 0];
    capture.extend_from_slice(&long).expect(&rt, "memory");
    refused(&rt, alloc, capture.as_slice(), PcapFault::TooLong, 25);
}
