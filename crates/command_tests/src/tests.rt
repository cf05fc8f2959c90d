// The commands `table`, `pick` and `compare`, and how a fault is told.
use crate::checks::{holds, same_bytes, same_outcome};
use crate::devices::{sink, source};
use maglev_cli::{CliFault, compare, finish, pick, table};
use pcap_file::{FromRead, PcapFault, ToWrite};
use pool_versions::PoolFault;
use std::alloc::Global;
use std::process::Abort;

fn kept(alloc: Global) -> ToWrite<Vec<u8>> {
    ToWrite::new(Vec::new(alloc))
}

// All is well, and this is written.
fn writes(rt: &impl Abort, done: Result<(), CliFault>, out: ToWrite<Vec<u8>>, text: &str) {
    same_outcome(rt, done, Ok(()), 0);
    same_bytes(rt, out.into_inner().as_slice(), text.as_bytes(), 0);
}

const ABC: &str =
    "size 7 backends 3\n0 B\n1 A\n2 B\n3 C\n4 C\n5 A\n6 A\ncount A 3\ncount B 2\ncount C 2\n";

const LARGEST: &[u8] = b"size 65537 backends 3\n";

const NEARLY_EQUAL: &[u8] = b"\ncount A 21846\ncount B 21846\ncount C 21845\n";

// A table of the most slots: it has that head, a line for each slot, and these counts.
fn is_largest(rt: &impl Abort, table: &[u8]) {
    same_bytes(rt, table.get(..LARGEST.len()).unwrap_or(&[]), LARGEST, 0);
    let counts = table.len().saturating_sub(NEARLY_EQUAL.len());
    same_bytes(rt, table.get(counts..).unwrap_or(&[]), NEARLY_EQUAL, 1);
    let lines = table.iter().filter(|byte| **byte == b'\n').count();
    holds(rt, lines == 65_541, "lines", lines);
}

// A table, the largest one, and an output that fails.
#[test]
fn tables(rt: HostRuntime) {
    let mut out = kept(rt.alloc());
    let names = ["A", "B", "C"];
    let done = table(rt.alloc(), 7, "sum", &names, &mut out);
    writes(&rt, done, out, ABC);
    let mut out = kept(rt.alloc());
    let done = table(rt.alloc(), 65537, "fnv", &names, &mut out);
    same_outcome(&rt, done, Ok(()), 0);
    is_largest(&rt, out.into_inner().as_slice());
    let mut failing = sink(rt.alloc(), 0);
    let done = table(rt.alloc(), 7, "sum", &names, &mut failing);
    same_outcome(&rt, done, Err(CliFault::Write), 1);
}

// A command's outcome, the status that it ends with, and the line on it.
static OUTCOMES: [(Result<(), CliFault>, u8, &str); 6] = [
    (Ok(()), 0, ""),
    (Err(CliFault::TooMany), 1, "fault: TooMany\n"),
    (Err(CliFault::Memory), 1, "fault: Memory\n"),
    (
        Err(CliFault::Pool(PoolFault::NumberTaken)),
        1,
        "fault: NumberTaken\n",
    ),
    (
        Err(CliFault::Capture(PcapFault::BadMagic)),
        1,
        "fault: BadMagic\n",
    ),
    (Err(CliFault::BadStep(99_999)), 1, "fault: BadStep 99999\n"),
];

fn same_status(rt: &impl Abort, found: u8, wanted: u8) {
    assert_eq!(rt; found, wanted);
}

#[test]
fn faults_are_shown(rt: HostRuntime) {
    for (outcome, status, line) in OUTCOMES.iter() {
        let mut err = kept(rt.alloc());
        same_status(&rt, finish(outcome, &mut err), *status);
        same_bytes(&rt, err.into_inner().as_slice(), line.as_bytes(), 0);
    }
    let mut failing = sink(rt.alloc(), 0);
    same_status(&rt, finish(&Err(CliFault::BadSize), &mut failing), 1);
}

const THREE: &str = "A@10.8.0.1 B@10.8.0.2 C@10.8.0.3";

const TWO: &str = "A@10.8.0.1 B@10.8.0.2/down C@10.8.0.3";

const MOVED: &str =
    "size 7 old 3 new 2 differ 3\n0 B@10.8.0.2 A@10.8.0.1\n2 B@10.8.0.2 A@10.8.0.1\n5 A@10.8.0.1 C@10.8.0.3\n";

const ALL_MOVED: &str = "size 7 old 1 new 1 differ 7
0 A@10.8.0.1 A@10.8.0.9
1 A@10.8.0.1 A@10.8.0.9
2 A@10.8.0.1 A@10.8.0.9
3 A@10.8.0.1 A@10.8.0.9
4 A@10.8.0.1 A@10.8.0.9
5 A@10.8.0.1 A@10.8.0.9
6 A@10.8.0.1 A@10.8.0.9
";

// Two lists of members, and how they compare. A name at another address is another server.
static COMPARED: [(&str, &str, &str); 2] = [
    (THREE, TWO, MOVED),
    ("A@10.8.0.1", "A@10.8.0.9", ALL_MOVED),
];

// Comparisons, a hash that isn't listed, and an output that fails.
#[test]
fn comparisons(rt: HostRuntime) {
    for (old, new, text) in COMPARED.iter() {
        let mut out = kept(rt.alloc());
        let done = compare(rt.alloc(), 7, "sum", old, new, &mut out);
        writes(&rt, done, out, text);
    }
    let mut failing = sink(rt.alloc(), 0);
    let done = compare(rt.alloc(), 7, "md5", "", TWO, &mut failing);
    same_outcome(&rt, done, Err(CliFault::BadHash), 1);
    let done = compare(rt.alloc(), 7, "sum", TWO, TWO, &mut failing);
    same_outcome(&rt, done, Err(CliFault::Write), 2);
}

static TCP: &str =
    "45000028000100004006aecd0a000001c000020103e8005000000001000000005002200000000000";

// The server of a datagram, and an output that fails.
#[test]
fn picks(rt: HostRuntime) {
    let mut out = kept(rt.alloc());
    let mut input = FromRead::new(TCP.as_bytes());
    let names = ["C", "A", "B"];
    let done = pick(rt.alloc(), 7, "sum", true, &names, &mut input, &mut out);
    let found = "tcp 10.0.0.1:1000>192.0.2.1:80 slot 6 backend A\n";
    writes(&rt, done, out, found);
    let mut input = FromRead::new(TCP.as_bytes());
    let mut failing = sink(rt.alloc(), 0);
    let done = pick(rt.alloc(), 7, "sum", true, &names, &mut input, &mut failing);
    same_outcome(&rt, done, Err(CliFault::Write), 1);
}

// An input that fails, once the names are read.
#[test]
fn a_failing_input_of_pick(rt: HostRuntime) {
    let mut out = kept(rt.alloc());
    let mut failing = source(&[], 0);
    let twice = ["A", "A"];
    let done = pick(rt.alloc(), 7, "sum", true, &twice, &mut failing, &mut out);
    same_outcome(&rt, done, Err(CliFault::DoubleName), 0);
    let done = pick(rt.alloc(), 7, "sum", true, &["A"], &mut failing, &mut out);
    same_outcome(&rt, done, Err(CliFault::Read), 1);
}
