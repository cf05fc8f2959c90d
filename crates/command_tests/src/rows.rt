// Whole runs of `simulate`, `explain` and `run` over one capture and its cuts, with every byte that they write.
use crate::checks::{same_bytes, same_outcome};
use crate::devices::{FailingSink, sink, source};
use maglev_cli::{CliFault, Wanted, explain_run, run, simulate};
use pcap_file::PcapFault;
use std::alloc::{AllocError, Global};
use std::process::Abort;
use std::sync::Wait;
use std::thread::Threads;

// The header of a capture in big-endian and nanoseconds, of raw datagrams.
static HEAD: [u8; 24] = [
    0xa1, 0xb2, 0x3c, 0x4d, 0, 2, 0, 4, 0, 0, 0, 0, 0, 0, 0, 0, 0, 0, 0xff, 0xff, 0, 0, 0, 0x65,
];

// The header of a record of 40 bytes.
static RECORD: [u8; 16] = [
    0, 0, 0, 1, 0x3b, 0x9a, 0xc9, 0xff, 0, 0, 0, 0x28, 0, 0, 0, 0x28,
];

// A datagram of 40 bytes from 10.0.0.1 port 1000 to 192.0.2.1 port 80. Its byte 21 is the last one of the source port.
static DATAGRAM: [u8; 40] = [
    0x45, 0, 0, 0x28, 0, 1, 0, 0, 0x40, 6, 0xae, 0xcd, 0x0a, 0, 0, 1, 0xc0, 0, 2, 1, 3, 0xe8, 0,
    0x50, 0, 0, 0, 1, 0, 0, 0, 0, 0x50, 2, 0x20, 0, 0, 0, 0, 0,
];

// The header of what is sent, in little-endian and microseconds.
static SENT_HEAD: [u8; 24] = [
    0xd4, 0xc3, 0xb2, 0xa1, 2, 0, 4, 0, 0, 0, 0, 0, 0, 0, 0, 0, 0xff, 0xff, 0, 0, 0x65, 0, 0, 0,
];

// The header of a record that is sent, of 64 bytes, at the same time.
static SENT_RECORD: [u8; 16] = [
    1, 0, 0, 0, 0x3f, 0x42, 0x0f, 0, 0x40, 0, 0, 0, 0x40, 0, 0, 0,
];

// The outer header and the GRE header from the first node to A.
static TO_A: [u8; 24] = [
    0x45, 0, 0, 0x40, 0, 0, 0x40, 0, 0x40, 0x2f, 0x26, 0x7d, 0x0a, 9, 0, 1, 0x0a, 8, 0, 1, 0, 0, 8,
    0,
];

// Those from the second node to B.
static TO_B: [u8; 24] = [
    0x45, 0, 0, 0x40, 0, 0, 0x40, 0, 0x40, 0x2f, 0x26, 0x7b, 0x0a, 9, 0, 2, 0x0a, 8, 0, 2, 0, 0, 8,
    0,
];

const NEVER: u64 = u64::MAX;

// A scenario's format and steps, and the members of its second version.
type Text = (&'static str, &'static str, &'static str);

const BEFORE_STEPS: &str = "
size = 7
hash = 'sum'
spread = 'turn'
capacity = 2
nodes = ['10.9.0.1', '10.9.0.2']
scheme = 'maglev'
workers = 1
steps = [";

const BEFORE_MEMBERS: &str = "]
[[versions]]
number = 1
services = [{ vip = '192.0.2.1', proto = 'tcp', port = 80, members = ['A@10.8.0.1', 'B@10.8.0.2', 'C@10.8.0.3'] }]
[[versions]]
number = 2
services = [{ vip = '192.0.2.1', proto = 'tcp', port = 80, members = [";

fn scenario_of(alloc: Global, text: Text) -> Result<String, AllocError> {
    let (format, steps, members) = text;
    let mut whole = String::new(alloc);
    for part in [
        format,
        BEFORE_STEPS,
        steps,
        BEFORE_MEMBERS,
        members,
        "] }]\n",
    ] {
        whole.push_str(part)?;
    }
    Ok(whole)
}

fn joined(alloc: Global, parts: &[&[u8]]) -> Result<Vec<u8>, AllocError> {
    let mut whole = Vec::new(alloc);
    for part in parts {
        whole.extend_from_slice(part)?;
    }
    Ok(whole)
}

// The datagram from port 1006.
fn other_datagram() -> [u8; 40] {
    let mut bytes = DATAGRAM;
    bytes[21] = 0xee;
    bytes
}

/// A command's outcome, and what it wrote.
#[derive(Drop)]
struct Printed {
    outcome: Result<(), CliFault>,
    output: Vec<u8>,
    report: Vec<u8>,
}

fn done(outcome: Result<(), CliFault>, output: FailingSink, report: FailingSink) -> Printed {
    let FailingSink { bytes, .. } = output;
    let output = bytes;
    let FailingSink { bytes, .. } = report;
    Printed {
        outcome,
        output,
        report: bytes,
    }
}

fn simulated(alloc: Global, text: &str, capture: &[u8], list: bool) -> Printed {
    let mut input = source(capture, NEVER);
    let (mut output, mut report) = (sink(alloc, NEVER), sink(alloc, NEVER));
    let text = text.as_bytes();
    let wanted = Wanted {
        list,
        ..Wanted::REPORT
    };
    let outcome = simulate(alloc, text, &mut input, &mut output, &mut report, wanted);
    done(outcome, output, report)
}

fn ran<T: Threads + Wait + Sync>(rt: &T, alloc: Global, text: &str, capture: &[u8]) -> Printed {
    let mut input = source(capture, NEVER);
    let (mut output, mut report) = (sink(alloc, NEVER), sink(alloc, NEVER));
    let text = text.as_bytes();
    let outcome = run(rt, alloc, text, &mut input, &mut output, &mut report, false);
    done(outcome, output, report)
}

// What is written and reported, and then this line.
fn is_done(rt: &impl Abort, found: &Printed, wanted: (&[u8], &[&str]), at: usize) {
    same_outcome(rt, found.outcome, Ok(()), at);
    same_bytes(rt, found.output.as_slice(), wanted.0, at);
    is_reported(rt, found.report.as_slice(), wanted.1, at);
}

// The report is these parts, one after another.
fn is_reported(rt: &impl Abort, report: &[u8], parts: &[&str], at: usize) {
    let mut left = report;
    for part in parts {
        let (front, rest) = left.split_at(part.len().min(left.len()));
        same_bytes(rt, front, part.as_bytes(), at);
        left = rest;
    }
    same_bytes(rt, left, b"", at);
}

const AUDITED: &str = "audit agrees\n";

const ONE: &str =
    "packets 1\nlost 0\nunrouted 0\nskipped 0\nleft 0\ncut no\nreceived 1\nforwarded 1\nwaiting 0\nrefused 0\n";

const NONE: &str =
    "packets 0\nlost 0\nunrouted 0\nskipped 0\nleft 0\ncut no\nreceived 0\nforwarded 0\nwaiting 0\nrefused 0\n";

const CUT: &str =
    "packets 0\nlost 0\nunrouted 0\nskipped 0\nleft 0\ncut yes\nreceived 0\nforwarded 0\nwaiting 0\nrefused 0\n";

const TAKE_ONE: Text = (
    "format = 1",
    "'install 0 1', 'take 1'",
    "'A@10.8.0.1', 'B@10.8.0.2/down', 'C@10.8.0.3'",
);

// What is sent of a capture of one record that is cut after so many bytes, and the report, if the header is whole.
fn of_cut(sent: &[u8], length: usize) -> Option<(&[u8], &'static str)> {
    match length {
        0..24 => None,
        24 => Some((&SENT_HEAD, NONE)),
        25..80 => Some((&SENT_HEAD, CUT)),
        _ => Some((sent, ONE)),
    }
}

fn is_of_cut(rt: &impl Abort, found: &Printed, sent: &[u8], last: &str, length: usize) {
    match of_cut(sent, length) {
        Some((output, report)) => {
            same_outcome(rt, found.outcome, Ok(()), length);
            same_bytes(rt, found.output.as_slice(), output, length);
            let (front, rest) = found
                .report
                .as_slice()
                .split_at(report.len().min(found.report.len()));
            same_bytes(rt, front, report.as_bytes(), length);
            same_bytes(rt, rest, last.as_bytes(), length);
        }
        None => {
            let fault = CliFault::Capture(PcapFault::ShortHeader);
            same_outcome(rt, found.outcome, Err(fault), length);
            same_bytes(rt, found.output.as_slice(), b"", length);
            same_bytes(rt, found.report.as_slice(), b"", length);
        }
    }
}

// A capture of one record, cut after each of its bytes.
#[test]
fn a_capture_cut_anywhere(rt: HostRuntime) {
    let alloc: Global = rt.alloc();
    let text = scenario_of(alloc, TAKE_ONE).expect(&rt, "memory");
    let capture = joined(alloc, &[&HEAD, &RECORD, &DATAGRAM]).expect(&rt, "memory");
    let parts: [&[u8]; 4] = [&SENT_HEAD, &SENT_RECORD, &TO_A, &DATAGRAM];
    let sent = joined(alloc, &parts).expect(&rt, "memory");
    for length in 0..capture.len().wrapping_add(1) {
        let cut = capture.as_slice().get(..length).unwrap_or(&[]);
        let found = simulated(alloc, text.as_str(), cut, false);
        is_of_cut(&rt, &found, sent.as_slice(), "", length);
        let found = ran(&rt, alloc, text.as_str(), cut);
        is_of_cut(&rt, &found, sent.as_slice(), AUDITED, length);
    }
}

const WEIGHTED: Text = (
    "format = 2",
    "'install 0 1', 'install 1 2', 'take 2'",
    "'A@10.8.0.1*3', 'B@10.8.0.2', 'C@10.8.0.3'",
);

const EVENTS: &str = "0 install 0 1: installed
1 install 1 2: installed
2 arrive 0 0: placed 0
3 serve 0 0 1: forward A@10.8.0.1 from 1
4 arrive 1 1: placed 0
5 serve 1 0 2: forward B@10.8.0.2 from 2
";

const TWO: &str =
    "packets 2\nlost 0\nunrouted 0\nskipped 0\nleft 0\ncut no\nreceived 2\nforwarded 2\nwaiting 0\nrefused 0\n";

const SPLIT: &str = "split slot 5 version 1 A@10.8.0.1 version 2 B@10.8.0.2\n";

fn explains(rt: &impl Abort, alloc: Global, text: &str, capture: &[u8]) {
    let mut input = source(capture, NEVER);
    let mut report = sink(alloc, NEVER);
    let outcome = explain_run(alloc, text.as_bytes(), &mut input, 3, 5, &mut report);
    same_outcome(rt, outcome, Ok(()), 0);
    same_bytes(rt, report.bytes.as_slice(), SPLIT.as_bytes(), 0);
}

// Three times the weight for one server sends a flow elsewhere, though all servers are up under both versions.
#[test]
fn a_flow_split_by_weights(rt: HostRuntime) {
    let alloc: Global = rt.alloc();
    let text = scenario_of(alloc, WEIGHTED).expect(&rt, "memory");
    let datagram = other_datagram();
    let parts: [&[u8]; 5] = [&HEAD, &RECORD, &datagram, &RECORD, &datagram];
    let capture = joined(alloc, &parts).expect(&rt, "memory");
    let parts: [&[u8]; 7] = [
        &SENT_HEAD,
        &SENT_RECORD,
        &TO_A,
        &datagram,
        &SENT_RECORD,
        &TO_B,
        &datagram,
    ];
    let sent = joined(alloc, &parts).expect(&rt, "memory");
    let found = simulated(alloc, text.as_str(), capture.as_slice(), true);
    is_done(&rt, &found, (sent.as_slice(), &[EVENTS, TWO]), 0);
    let found = ran(&rt, alloc, text.as_str(), capture.as_slice());
    is_done(&rt, &found, (sent.as_slice(), &[TWO, AUDITED]), 1);
    explains(&rt, alloc, text.as_str(), capture.as_slice());
}
