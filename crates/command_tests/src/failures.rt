// Devices that fail at each of their calls in turn, under `simulate` and under `run`.
use crate::checks::{holds, same_bytes, same_outcome};
use crate::devices::{FailingSink, sink, source};
use maglev_cli::{CliFault, Wanted, run, simulate};
use pcap_file::PcapFault;
use std::alloc::Global;
use std::process::Abort;
use std::sync::Wait;
use std::thread::Threads;

// Two nodes whose newest versions differ, and a packet at each.
static SCENARIO: &str = "format = 1
size = 7
hash = 'sum'
spread = 'turn'
capacity = 2
nodes = ['10.9.0.1', '10.9.0.2']
scheme = 'maglev'
workers = 1
steps = ['install 0 1', 'install 1 2', 'take 2']
[[versions]]
number = 1
services = [{ vip = '192.0.2.1', proto = 'tcp', port = 80, members = ['A@10.8.0.1', 'B@10.8.0.2', 'C@10.8.0.3'] }]
[[versions]]
number = 2
services = [{ vip = '192.0.2.1', proto = 'tcp', port = 80, members = ['A@10.8.0.1', 'B@10.8.0.2/down', 'C@10.8.0.3'] }]
";

// A capture in big-endian and nanoseconds: two datagrams of 40 bytes, from the ports 1006 and 1000.
static CAPTURE: [u8; 136] = [
    0xa1, 0xb2, 0x3c, 0x4d, 0, 2, 0, 4, 0, 0, 0, 0, 0, 0, 0, 0, 0, 0, 0xff, 0xff, 0, 0, 0, 0x65, 0,
    0, 0, 1, 0x3b, 0x9a, 0xc9, 0xff, 0, 0, 0, 0x28, 0, 0, 0, 0x28, 0x45, 0, 0, 0x28, 0, 1, 0, 0,
    0x40, 6, 0xae, 0xcd, 10, 0, 0, 1, 0xc0, 0, 2, 1, 3, 0xee, 0, 0x50, 0, 0, 0, 1, 0, 0, 0, 0,
    0x50, 2, 0x20, 0, 0, 0, 0, 0, 0, 0, 0, 1, 0x3b, 0x9a, 0xc9, 0xff, 0, 0, 0, 0x28, 0, 0, 0, 0x28,
    0x45, 0, 0, 0x28, 0, 1, 0, 0, 0x40, 6, 0xae, 0xcd, 10, 0, 0, 1, 0xc0, 0, 2, 1, 3, 0xe8, 0,
    0x50, 0, 0, 0, 1, 0, 0, 0, 0, 0x50, 2, 0x20, 0, 0, 0, 0, 0,
];

static SIMULATED: &str = "packets 2
lost 0
unrouted 0
skipped 0
left 0
cut no
received 2
forwarded 2
waiting 0
refused 0
";

static RAN: &str = "packets 2
lost 0
unrouted 0
skipped 0
left 0
cut no
received 2
forwarded 2
waiting 0
refused 0
audit agrees
";

const REPORT: Wanted = Wanted::REPORT;

#[derive(Clone, Copy)]
enum Command {
    Simulate,
    Run,
}

#[derive(Clone, Copy)]
enum Device {
    Input,
    Output,
    Report,
}

// What the output is left with by a failure: it isn't called, it is cut between records, it is cut, or it is whole.
#[derive(Clone, Copy)]
enum Sent {
    Nothing,
    Records,
    Part,
    All,
}

// A command, the device that fails at one of so many calls, the fault, what is sent, and whether the report may be called.
struct Row {
    command: Command,
    device: Device,
    calls: usize,
    fault: CliFault,
    sent: Sent,
    reports: bool,
}

const READ: CliFault = CliFault::Capture(PcapFault::Read);

static ROWS: [Row; 6] = [
    Row {
        command: Command::Simulate,
        device: Device::Input,
        calls: 11,
        fault: READ,
        sent: Sent::Records,
        reports: false,
    },
    Row {
        command: Command::Simulate,
        device: Device::Output,
        calls: 12,
        fault: CliFault::Write,
        sent: Sent::Part,
        reports: true,
    },
    Row {
        command: Command::Simulate,
        device: Device::Report,
        calls: 6,
        fault: CliFault::Write,
        sent: Sent::All,
        reports: true,
    },
    Row {
        command: Command::Run,
        device: Device::Input,
        calls: 11,
        fault: READ,
        sent: Sent::Nothing,
        reports: false,
    },
    Row {
        command: Command::Run,
        device: Device::Output,
        calls: 12,
        fault: CliFault::Write,
        sent: Sent::Part,
        reports: false,
    },
    Row {
        command: Command::Run,
        device: Device::Report,
        calls: 7,
        fault: CliFault::Write,
        sent: Sent::All,
        reports: true,
    },
];

// The calls at which the input, the output and the report fail.
type Fails = (u64, u64, u64);

const NEVER: u64 = u64::MAX;

fn fails_at(device: Device, call: u64) -> Fails {
    match device {
        Device::Input => (call, NEVER, NEVER),
        Device::Output => (NEVER, call, NEVER),
        Device::Report => (NEVER, NEVER, call),
    }
}

// A command's outcome, and its output's and its report's devices.
#[derive(Drop)]
struct Left {
    done: Result<(), CliFault>,
    output: FailingSink,
    report: FailingSink,
}

fn simulated(alloc: Global, fails: Fails) -> Left {
    let mut input = source(&CAPTURE, fails.0);
    let mut output = sink(alloc, fails.1);
    let mut report = sink(alloc, fails.2);
    let text = SCENARIO.as_bytes();
    let done = simulate(alloc, text, &mut input, &mut output, &mut report, REPORT);
    Left {
        done,
        output,
        report,
    }
}

fn ran<T: Threads + Wait + Sync>(rt: &T, alloc: Global, fails: Fails) -> Left {
    let mut input = source(&CAPTURE, fails.0);
    let mut output = sink(alloc, fails.1);
    let mut report = sink(alloc, fails.2);
    let text = SCENARIO.as_bytes();
    let done = run(rt, alloc, text, &mut input, &mut output, &mut report, false);
    Left {
        done,
        output,
        report,
    }
}

fn left_by<T: Threads + Wait + Sync>(
    rt: &T,
    alloc: Global,
    command: Command,
    fails: Fails,
) -> Left {
    match command {
        Command::Simulate => simulated(alloc, fails),
        Command::Run => ran(rt, alloc, fails),
    }
}

fn report_of(command: Command) -> &'static str {
    match command {
        Command::Simulate => SIMULATED,
        Command::Run => RAN,
    }
}

// All is well: two records of 80 bytes are sent after the header, and all is reported.
fn is_whole(rt: &impl Abort, left: &Left, command: Command, at: usize) {
    same_outcome(rt, left.done, Ok(()), at);
    holds(rt, left.output.bytes.len() == 184, "output", at);
    let report = report_of(command).as_bytes();
    same_bytes(rt, left.report.bytes.as_slice(), report, at);
}

// A length at which an output is cut between records.
fn is_between(length: usize) -> bool {
    length == 0 || length == 24 || length == 104 || length == 184
}

fn has_sent(output: &FailingSink, sent: Sent) -> bool {
    let length = output.bytes.len();
    match sent {
        Sent::Nothing => output.counts.calls == 0,
        Sent::Records => is_between(length),
        Sent::Part => length < 184,
        Sent::All => length == 184,
    }
}

// A fault, and what is written is a prefix of the whole.
fn is_left(rt: &impl Abort, row: &Row, left: &Left, whole: &Left, at: usize) {
    same_outcome(rt, left.done, Err(row.fault), at);
    let output = left.output.bytes.as_slice();
    holds(rt, whole.output.bytes.starts_with(output), "output", at);
    let report = left.report.bytes.as_slice();
    holds(rt, whole.report.bytes.starts_with(report), "report", at);
    holds(rt, has_sent(&left.output, row.sent), "sent", at);
    let is_quiet = left.report.counts.calls == 0;
    holds(rt, row.reports || is_quiet, "calls of the report", at);
}

fn fails<T: Threads + Wait + Sync + Abort>(rt: &T, alloc: Global, row: &Row) {
    let whole = left_by(rt, alloc, row.command, (NEVER, NEVER, NEVER));
    is_whole(rt, &whole, row.command, row.calls);
    for call in 0..row.calls {
        let fails = fails_at(row.device, call as u64);
        let left = left_by(rt, alloc, row.command, fails);
        is_left(rt, row, &left, &whole, call);
    }
    let fails = fails_at(row.device, row.calls as u64);
    let left = left_by(rt, alloc, row.command, fails);
    is_whole(rt, &left, row.command, row.calls);
    let output = left.output.bytes.as_slice();
    same_bytes(rt, output, whole.output.bytes.as_slice(), row.calls);
}

#[test]
fn failing_devices(rt: HostRuntime) {
    for row in ROWS.iter() {
        fails(&rt, rt.alloc(), row);
    }
}
