// Texts that are no scenario, or none that a command knows: no device is called.
use crate::checks::{holds, same_outcome};
use crate::devices::{FailingSink, FailingSource, sink, source};
use maglev_cli::{CliFault, Wanted, explain_run, run, simulate};
use pool_versions::PoolFault;
use std::alloc::{AllocError, Global};
use std::process::Abort;
use std::sync::Wait;
use std::thread::Threads;

const REPORT: Wanted = Wanted::REPORT;

const BEFORE_STEPS: &str = "format = 1
size = 7
hash = 'sum'
spread = 'turn'
capacity = 2
nodes = ['10.9.0.1', '10.9.0.2']
scheme = 'maglev'
workers = 1
steps = [";

const BEFORE_MEMBERS: &str = "]
[[versions]]
number = 1
services = [{ vip = '192.0.2.1', proto = 'tcp', port = 80, members = ['A@10.8.0.1', 'B@10.8.0.2', 'C@10.8.0.3'] }]
[[versions]]
number = 2
services = [{ vip = '192.0.2.1', proto = 'tcp', port = 80, members = [";

const BEHIND: &str = "] }]
";

// A scenario with these steps, and these members in its second version.
fn scenario_of(alloc: Global, steps: &str, members: &str) -> Result<String, AllocError> {
    let mut text = String::new(alloc);
    for part in [BEFORE_STEPS, steps, BEFORE_MEMBERS, members, BEHIND] {
        text.push_str(part)?;
    }
    Ok(text)
}

// No device was called.
fn is_quiet(
    rt: &impl Abort,
    input: &FailingSource<'_>,
    output: &FailingSink,
    report: &FailingSink,
    at: usize,
) {
    holds(rt, input.counts.calls == 0, "input", at);
    holds(rt, output.counts.calls == 0, "output", at);
    holds(rt, report.counts.calls == 0, "report", at);
}

fn is_refused(rt: &impl Abort, alloc: Global, text: &[u8], fault: CliFault, at: usize) {
    let mut input = source(&[], 0);
    let mut output = sink(alloc, 0);
    let mut report = sink(alloc, 0);
    let done = simulate(alloc, text, &mut input, &mut output, &mut report, REPORT);
    same_outcome(rt, done, Err(fault), at);
    let done = explain_run(alloc, text, &mut input, 0, 0, &mut report);
    same_outcome(rt, done, Err(fault), at);
    is_quiet(rt, &input, &output, &report, at);
}

fn is_unknown<T: Threads + Wait + Sync + Abort>(rt: &T, alloc: Global, text: &[u8], step: u32) {
    let mut input = source(&[], 0);
    let mut output = sink(alloc, 0);
    let mut report = sink(alloc, 0);
    let done = run(rt, alloc, text, &mut input, &mut output, &mut report, true);
    let at = step as usize;
    same_outcome(rt, done, Err(CliFault::BadStep(step)), at);
    is_quiet(rt, &input, &output, &report, at);
}

static NO_TEXTS: [(&[u8], CliFault); 5] = [
    (b"format = ", CliFault::BadToml),
    (b"format = 4", CliFault::BadFormat),
    (b"format = 1", CliFault::BadKey),
    (b"format = 2", CliFault::BadKey),
    (b"format = 3", CliFault::BadKey),
];

#[test]
fn refused_texts(rt: HostRuntime) {
    let long = vec![in rt.alloc(); b'#'; 1_048_577].expect(&rt, "memory");
    let long = long.as_slice();
    is_refused(&rt, rt.alloc(), long, CliFault::TooLong, 0);
    let less = long.get(1..).unwrap_or(&[]);
    is_refused(&rt, rt.alloc(), less, CliFault::BadFormat, 1);
    for (at, (text, fault)) in NO_TEXTS.iter().enumerate() {
        is_refused(&rt, rt.alloc(), text, *fault, at);
    }
}

const TAKE: &str = "'install 0 1', 'take 1'";

const B_DOWN: &str = "'A@10.8.0.1', 'B@10.8.0.2/down', 'C@10.8.0.3'";

// Steps, members of the second version, and the fault of `simulate` and `explain`.
static NO_SCENARIOS: [(&str, &str, CliFault); 6] = [
    (TAKE, "'A@10.8.0.1', 'A@10.8.0.256'", CliFault::BadMember),
    (
        TAKE,
        "'A@10.8.0.1', 'A@10.8.0.2'",
        CliFault::Pool(PoolFault::DoubleName),
    ),
    (
        "'install 0 1', 'take 1', 'tale 1'",
        B_DOWN,
        CliFault::BadStep(2),
    ),
    // The first step that the command can't play is named.
    (
        "'install 0 1', 'restart 0', 'stop 0'",
        B_DOWN,
        CliFault::BadStep(2),
    ),
    ("'take 1', 'stop 1', 'stop 0'", B_DOWN, CliFault::BadStep(1)),
    ("'stop 0', 'stop 1', 'tale 1'", B_DOWN, CliFault::BadStep(0)),
];

#[test]
fn refused_scenarios(rt: HostRuntime) {
    for (at, (steps, members, fault)) in NO_SCENARIOS.iter().enumerate() {
        let text = scenario_of(rt.alloc(), steps, members).expect(&rt, "memory");
        is_refused(&rt, rt.alloc(), text.as_bytes(), *fault, at);
    }
}

// Steps that no cluster on threads knows, and the place of the first.
static UNKNOWN: [(&str, u32); 4] = [
    ("'install 0 1', 'hold 0'", 1),
    ("'drain 1', 'full 0'", 0),
    ("'take 1', 'lose 1', 'full 0 0'", 2),
    // It is named also before a step that isn't one.
    ("'hold 0', 'hold 2'", 0),
];

#[test]
fn unknown_steps(rt: HostRuntime) {
    for (steps, step) in UNKNOWN.iter() {
        let text = scenario_of(rt.alloc(), steps, B_DOWN).expect(&rt, "memory");
        is_unknown(&rt, rt.alloc(), text.as_bytes(), *step);
    }
}
