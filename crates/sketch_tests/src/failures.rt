// Devices that fail at each of their calls in turn.
use crate::captures::{head, push_packet};
use crate::checks::{holds, same_bytes, same_outcome};
use crate::devices::{sink, source};
use command_faults::CliFault;
use connection_table::TableKey;
use pcap_file::{FromRead, PcapFault, ToWrite};
use pool_versions::ServiceKey;
use scenario_sketch::sketch;
use std::alloc::Global;
use std::process::Abort;

const WEB: ServiceKey = ServiceKey {
    vip: 0xc000_0201,
    proto: 6,
    port: 80,
};

// Six datagrams of 40 bytes: the header takes 2 calls, a record 4, and the end one.
fn six(rt: &impl Abort, alloc: Global) -> Vec<u8> {
    let mut capture = head(rt, alloc);
    for _ in 0..6 {
        push_packet(rt, alloc, &mut capture, WEB);
    }
    capture
}

// The text of a sketch.
fn sketched(rt: &impl Abort, alloc: Global, capture: &[u8]) -> Vec<u8> {
    let mut out = ToWrite::new(Vec::new(alloc));
    let mut input = FromRead::new(capture);
    let done = sketch(alloc, TableKey::fixed(), &mut input, &mut out);
    same_outcome(rt, done, Ok(()), 0);
    out.into_inner()
}

#[test]
fn a_failing_input(rt: HostRuntime) {
    let alloc = rt.alloc();
    let capture = six(&rt, alloc);
    for call in 0..27 {
        let mut input = source(capture.as_slice(), call);
        let mut out = ToWrite::new(Vec::new(alloc));
        let done = sketch(alloc, TableKey::fixed(), &mut input, &mut out);
        same_outcome(
            &rt,
            done,
            Err(CliFault::Capture(PcapFault::Read)),
            call as usize,
        );
        same_bytes(&rt, out.into_inner().as_slice(), &[], call as usize);
    }
    let mut input = source(capture.as_slice(), 27);
    let mut out = ToWrite::new(Vec::new(alloc));
    let done = sketch(alloc, TableKey::fixed(), &mut input, &mut out);
    same_outcome(&rt, done, Ok(()), 27);
}

// What was written before the call that failed is a prefix of the text.
#[test]
fn a_failing_output(rt: HostRuntime) {
    let alloc = rt.alloc();
    let capture = six(&rt, alloc);
    let text = sketched(&rt, alloc, capture.as_slice());
    for call in 0..10u64 {
        let mut input = FromRead::new(capture.as_slice());
        let mut out = sink(alloc, call);
        let done = sketch(alloc, TableKey::fixed(), &mut input, &mut out);
        same_outcome(&rt, done, Err(CliFault::Write), call as usize);
        holds(
            &rt,
            text.starts_with(out.bytes.as_slice()),
            "a prefix",
            call as usize,
        );
    }
}
