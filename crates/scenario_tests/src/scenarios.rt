//! Scenarios that are read, and each fault of one.

use five_tuple::Flow;
use hash_laws::AnyHash;
use pool_versions::{Catalogue, PoolFault};
use scenario::ScenarioFault::{BadFormat, BadKey, BadMember, BadStep, BadToml, Pool, TooLong};
use scenario::{
    Played, Scenario, ScenarioFault, ScenarioStep, SchemeKind, SpreadKind, TimedStep, read,
    read_for_threads,
};
use std::alloc::Global;
use std::process::Abort;

static HEAD: &str = "format = 1
size = 7
hash = \"sum\"
scheme = \"maglev\"
spread = \"turn\"
workers = 1
capacity = 2
nodes = [\"10.9.0.1\", \"10.9.0.2\"]
";

static POOLS: &str = "
[[versions]]
number = 1
[[versions.services]]
vip = \"192.0.2.1\"
proto = \"tcp\"
port = 80
members = [\"A@10.8.0.1\", \"B@10.8.0.2\", \"C@10.8.0.3\"]

[[versions]]
number = 2
[[versions.services]]
vip = \"192.0.2.1\"
proto = \"tcp\"
port = 80
members = [\"A@10.8.0.1\", \"B@10.8.0.2/down\", \"C@10.8.0.3\"]
";

fn holds(rt: &impl Abort, fact: bool, what: &str) {
    assert!(rt; fact, "{what}");
}

fn same_number(rt: &impl Abort, found: u64, wanted: u64, what: &str) {
    assert_eq!(rt; found, wanted, "{what}");
}

fn text(rt: &impl Abort, alloc: Global, steps: &str) -> String {
    let mut text = String::from_str(alloc, HEAD).expect(rt, "memory");
    text.push_str(steps).expect(rt, "memory");
    text.push_str(POOLS).expect(rt, "memory");
    text
}

// A text, and what stands in its first place.
type Change = (&'static str, &'static str);

const NOTHING: Change = ("", "");

fn changed(rt: &impl Abort, alloc: Global, text: &str, change: (&str, &str)) -> String {
    text.replacen(alloc, change.0, change.1, 1)
        .expect(rt, "memory")
}

// Reads the scenario with these steps and two changes.
fn read_changed(
    rt: &impl Abort,
    alloc: Global,
    steps: &str,
    first: (&str, &str),
    second: (&str, &str),
) -> Result<Scenario, ScenarioFault> {
    let whole = text(rt, alloc, steps);
    let once = changed(rt, alloc, whole.as_str(), first);
    let twice = changed(rt, alloc, once.as_str(), second);
    read(alloc, Played::InTurn, twice.as_bytes())
}

const NO_STEPS: &str = "steps = []\n";

const THREE_STEPS: &str = "steps = [\"install 0 1\", \"take 2\", \"hold 1\"]\n";

fn fault(
    rt: &impl Abort,
    alloc: Global,
    first: (&str, &str),
    second: (&str, &str),
) -> Option<ScenarioFault> {
    read_changed(rt, alloc, THREE_STEPS, first, second).err()
}

fn same_fault(
    rt: &impl Abort,
    found: Option<ScenarioFault>,
    wanted: Option<ScenarioFault>,
    at: usize,
) {
    assert_eq!(rt; found, wanted, "row {at}");
}

// Lines in place of the format, and the idle limit that they mean.
type Limit = (&'static str, Result<Option<u64>, ScenarioFault>);

static LIMITS: [Limit; 12] = [
    ("format = 1", Ok(None)),
    ("format = 2", Ok(None)),
    ("format = 1\nidle = 5", Err(BadKey)),
    ("format = 2\nidle = 0", Ok(Some(0))),
    ("format = 2\nidle = 5_000_000", Ok(Some(5_000_000))),
    (
        "format = 2\nidle = 4294967295000000",
        Ok(Some(4_294_967_295_000_000)),
    ),
    ("format = 2\nidle = 4294967295000001", Err(BadKey)),
    ("format = 2\nidle = -1", Err(BadKey)),
    ("format = 2\nidle = 5.0", Err(BadKey)),
    ("format = 2\nidle = true", Err(BadKey)),
    ("format = 3", Ok(None)),
    ("format = 3\nidle = 5", Ok(Some(5))),
];

fn idle_with(rt: &impl Abort, alloc: Global, lines: &str) -> Result<Option<u64>, ScenarioFault> {
    let first = ("format = 1", lines);
    match read_changed(rt, alloc, NO_STEPS, first, NOTHING) {
        Ok(scenario) => Ok(scenario.idle),
        Err(fault) => Err(fault),
    }
}

#[test]
fn idle_limits(rt: HostRuntime) {
    for (lines, limit) in LIMITS.iter() {
        assert_eq!(rt; idle_with(&rt, rt.alloc(), lines), *limit);
    }
}

// The weights of the first version's members.
fn weights_in(rt: &impl Abort, catalogue: &Catalogue) -> [u8; 3] {
    let version = catalogue.get(1).expect(rt, "a version");
    let service = version.services.get(0).expect(rt, "a service");
    let mut weights = [0u8; 3];
    for (at, member) in service.members.iter().enumerate() {
        if at < 3 {
            weights[at] = member.weight.turns();
        }
    }
    weights
}

fn weights_with(
    rt: &impl Abort,
    alloc: Global,
    format: &str,
    member: &str,
) -> Result<[u8; 3], ScenarioFault> {
    let (first, second) = (("format = 1", format), ("A@10.8.0.1", member));
    match read_changed(rt, alloc, NO_STEPS, first, second) {
        Ok(scenario) => Ok(weights_in(rt, &scenario.catalogue)),
        Err(fault) => Err(fault),
    }
}

// The format, the first version's first member, and the weights of its members.
static WEIGHTS: [(&str, &str, Result<[u8; 3], ScenarioFault>); 9] = [
    ("format = 1", "A@10.8.0.1", Ok([1, 1, 1])),
    ("format = 2", "A@10.8.0.1", Ok([1, 1, 1])),
    ("format = 2", "A@10.8.0.1*16", Ok([16, 1, 1])),
    ("format = 2", "A@10.8.0.1*2/down", Ok([2, 1, 1])),
    ("format = 1", "A@10.8.0.1*2", Err(BadMember)),
    ("format = 2", "A@10.8.0.1*17", Err(BadMember)),
    ("format = 2", "A@10.8.0.1/down*2", Err(BadMember)),
    ("format = 3", "A@10.8.0.1*3", Ok([3, 1, 1])),
    ("format = 3", "A@10.8.0.1*4/drain", Ok([4, 1, 1])),
];

#[test]
fn weights_of_members(rt: HostRuntime) {
    for (format, member, weights) in WEIGHTS.iter() {
        assert_eq!(rt; weights_with(&rt, rt.alloc(), format, member), *weights);
    }
}

// Whether the first version's first member is up, and whether it drains.
fn state_in(rt: &impl Abort, catalogue: &Catalogue) -> (bool, bool) {
    let version = catalogue.get(1).expect(rt, "a version");
    let service = version.services.get(0).expect(rt, "a service");
    let member = service.members.get(0).expect(rt, "a member");
    (member.up, member.draining)
}

fn state_with(
    rt: &impl Abort,
    alloc: Global,
    format: &str,
    member: &str,
) -> Result<(bool, bool), ScenarioFault> {
    let (first, second) = (("format = 1", format), ("A@10.8.0.1", member));
    match read_changed(rt, alloc, NO_STEPS, first, second) {
        Ok(scenario) => Ok(state_in(rt, &scenario.catalogue)),
        Err(fault) => Err(fault),
    }
}

// The format, the first version's first member, whether it is up, and whether it drains.
static STATES: [(&str, &str, Result<(bool, bool), ScenarioFault>); 12] = [
    ("format = 1", "A@10.8.0.1/down", Ok((false, false))),
    ("format = 1", "A@10.8.0.1/drain", Err(BadMember)),
    ("format = 2", "A@10.8.0.1/drain", Err(BadMember)),
    ("format = 2", "A@10.8.0.1*2/drain", Err(BadMember)),
    ("format = 3", "A@10.8.0.1", Ok((true, false))),
    ("format = 3", "A@10.8.0.1*2/down", Ok((false, false))),
    ("format = 3", "A@10.8.0.1/drain", Ok((false, true))),
    ("format = 3", "A@10.8.0.1*2/drain", Ok((false, true))),
    ("format = 3", "A@10.8.0.1/drain*2", Err(BadMember)),
    ("format = 3", "A@10.8.0.1/down/drain", Err(BadMember)),
    ("format = 3", "A@10.8.0.1/drained", Err(BadMember)),
    ("format = 3", "A@10.8.0.1/", Err(BadMember)),
];

#[test]
fn states_of_members(rt: HostRuntime) {
    for (format, member, state) in STATES.iter() {
        assert_eq!(rt; state_with(&rt, rt.alloc(), format, member), *state);
    }
}

fn number_of(nodes: &[u16]) -> u32 {
    let mut number = 0u32;
    for node in nodes {
        number = number
            .wrapping_mul(100)
            .wrapping_add(u32::from(*node).wrapping_add(1));
    }
    number
}

fn number_of_marks(marks: &[bool; 16]) -> u32 {
    let (mut number, mut bit) = (0u32, 1u32);
    for mark in marks.iter() {
        if *mark {
            number = number.wrapping_add(bit);
        }
        bit = bit.wrapping_mul(2);
    }
    number
}

type StepRow = (&'static str, u32, u32);

// A step's word, and two numbers. A step by time isn't told here.
fn told(step: &TimedStep) -> StepRow {
    match step {
        TimedStep::Counted(step) => told_counted(step),
        TimedStep::Until(_) => ("until", 0, 0),
    }
}

// A step's word, and two numbers: a node and a version, a node and its marks as bits, or the places of nodes, from 1.
fn told_counted(step: &ScenarioStep) -> StepRow {
    match step {
        ScenarioStep::Install { node, version } => ("install", u32::from(*node), *version),
        ScenarioStep::Live(nodes) => ("live", number_of(nodes.as_slice()), 0),
        ScenarioStep::Take(records) => ("take", *records, 0),
        ScenarioStep::Lose(records) => ("lose", *records, 0),
        ScenarioStep::Again(record) => ("again", *record, 0),
        ScenarioStep::Full { node, marks } => ("full", u32::from(*node), number_of_marks(marks)),
        ScenarioStep::Hold(node) => ("hold", u32::from(*node), 0),
        ScenarioStep::Drain(node) => ("drain", u32::from(*node), 0),
        ScenarioStep::Restart(node) => ("restart", u32::from(*node), 0),
        ScenarioStep::Stop(node) => ("stop", u32::from(*node), 0),
    }
}

const ALL_STEPS: &str =
    "steps = [\"install 1 4294967295\", \"live\", \"live 1 0\", \"take 2\", \"lose 0\", \"again 7\", \"full 0\", \"full 1 0\", \"hold 0\", \"drain 0\", \"restart 1\"]\n";

static STEPS: [StepRow; 11] = [
    ("install", 1, 4_294_967_295),
    ("live", 0, 0),
    ("live", 201, 0),
    ("take", 2, 0),
    ("lose", 0, 0),
    ("again", 7, 0),
    ("full", 0, 0),
    ("full", 1, 1),
    ("hold", 0, 0),
    ("drain", 0, 0),
    ("restart", 1, 0),
];

fn has_steps(rt: &impl Abort, steps: &[TimedStep]) {
    same_number(rt, steps.len() as u64, 11, "steps");
    for (step, wanted) in steps.iter().zip(STEPS.iter()) {
        assert_eq!(rt; told(step), *wanted);
    }
}

// Version 2 has two members that are up, and there is a version 1 and no version 3.
fn has_pools(rt: &impl Abort, alloc: Global, catalogue: &Catalogue) {
    same_number(rt, u64::from(catalogue.size().slots()), 7, "slots");
    let flow = Flow {
        src: 0x0a00_0001,
        dst: 0xc000_0201,
        sport: 1000,
        dport: 80,
        proto: 6,
    };
    let ups = catalogue.up_of(alloc, 2, &flow).expect(rt, "memory");
    let ups = ups.expect(rt, "a service");
    same_number(rt, ups.len() as u64, 2, "up members");
    holds(rt, catalogue.get(1).is_some(), "version 1");
    holds(rt, catalogue.get(3).is_none(), "no version 3");
}

static NODES: [u32; 2] = [0x0a09_0001, 0x0a09_0002];

fn has_numbers(rt: &impl Abort, scenario: &Scenario) {
    same_number(rt, u64::from(scenario.size.slots()), 7, "slots");
    same_number(rt, u64::from(scenario.workers), 1, "workers");
    same_number(rt, u64::from(scenario.capacity), 2, "capacity");
    same_number(rt, u64::from(scenario.ring), 1024, "ring");
    holds(rt, scenario.check, "checked");
    holds(rt, scenario.nodes.as_slice() == NODES.as_slice(), "nodes");
}

fn has_words(rt: &impl Abort, scenario: &Scenario, scheme: SchemeKind, spread: SpreadKind) {
    holds(rt, scenario.hash == AnyHash::Sum, "hash");
    holds(rt, scenario.scheme == scheme, "scheme");
    holds(rt, scenario.spread == spread, "spread");
}

#[test]
fn a_whole_scenario(rt: HostRuntime) {
    let scenario = read_changed(&rt, rt.alloc(), ALL_STEPS, NOTHING, NOTHING).expect(
        &rt,
        "a scenario",
    );
    has_numbers(&rt, &scenario);
    has_words(&rt, &scenario, SchemeKind::Maglev, SpreadKind::Turn);
    has_pools(&rt, rt.alloc(), &scenario.catalogue);
    has_steps(&rt, scenario.steps.as_slice());
}

const UNCHECKED: &str = "steps = []\ncheck = false\nring = 65536\n";

fn protocol_in(rt: &impl Abort, catalogue: &Catalogue) -> u8 {
    let version = catalogue.get(1).expect(rt, "a version");
    version.services.first().expect(rt, "a service").proto
}

#[test]
fn other_words_and_keys(rt: HostRuntime) {
    let (round, hash) = (("\"maglev\"", "\"round\""), ("\"turn\"", "\"hash\""));
    let other = read_changed(&rt, rt.alloc(), UNCHECKED, round, hash).expect(&rt, "a scenario");
    holds(&rt, !other.check, "not checked");
    same_number(&rt, u64::from(other.ring), 65536, "ring");
    has_words(&rt, &other, SchemeKind::Round, SpreadKind::Hash);
}

#[test]
fn other_schemes_and_protocols(rt: HostRuntime) {
    let (plain, udp) = (("\"maglev\"", "\"plain\""), ("\"tcp\"", "\"udp\""));
    let other = read_changed(&rt, rt.alloc(), UNCHECKED, plain, udp).expect(&rt, "a scenario");
    has_words(&rt, &other, SchemeKind::Plain, SpreadKind::Turn);
    let protocol = protocol_in(&rt, &other.catalogue);
    same_number(&rt, u64::from(protocol), 17, "protocol");
}

static FAULTS: [(&str, &str, ScenarioFault); 56] = [
    ("format = 1", "format = ", BadToml),
    ("size = 7", "size = 7\nsize = 7", BadToml),
    ("size = 7", "size = 9223372036854775808", BadToml),
    ("format = 1", "", BadFormat),
    ("format = 1", "format = 4", BadFormat),
    ("format = 1", "format = \"1\"", BadFormat),
    ("size = 7", "size = 8", BadKey),
    ("size = 7", "", BadKey),
    ("size = 7", "size = 7.0", BadKey),
    ("size = 7", "size = 7\nsizes = 7", BadKey),
    ("\"sum\"", "\"SUM\"", BadKey),
    ("\"maglev\"", "\"other\"", BadKey),
    ("\"turn\"", "\"turns\"", BadKey),
    ("workers = 1", "workers = 0", BadKey),
    ("workers = 1", "workers = 17", BadKey),
    ("capacity = 2", "capacity = 0", BadKey),
    ("capacity = 2", "capacity = 1000001", BadKey),
    ("capacity = 2", "capacity = 2\nring = 0", BadKey),
    ("capacity = 2", "capacity = 2\nring = 65537", BadKey),
    ("capacity = 2", "capacity = 2\ncheck = 1", BadKey),
    ("\"10.9.0.1\", \"10.9.0.2\"", "", BadKey),
    ("\"10.9.0.1\"", "\"10.9.0.01\"", BadKey),
    ("\"10.9.0.1\"", "\"10.9.0.256\"", BadKey),
    ("\"10.9.0.1\"", "\"10.9.0\"", BadKey),
    ("\"10.9.0.1\"", "7", BadKey),
    ("\"take 2\"", "2", BadKey),
    ("number = 1", "number = 4294967296", BadKey),
    ("number = 1", "number = -1", BadKey),
    ("number = 1", "number = 1\nname = 1", BadKey),
    ("\"192.0.2.1\"", "\"192.0.2.1/32\"", BadKey),
    ("\"tcp\"", "\"icmp\"", BadKey),
    ("port = 80", "port = 65536", BadKey),
    ("port = 80", "port = 80\nports = 80", BadKey),
    ("\"C@10.8.0.3\"", "3", BadKey),
    ("\"C@10.8.0.3\"", "\"10.8.0.3\"", BadMember),
    ("\"C@10.8.0.3\"", "\"C@10.8.0.3/up\"", BadMember),
    ("\"C@10.8.0.3\"", "\"-@10.8.0.3\"", BadMember),
    ("number = 1", "number = 0", Pool(PoolFault::BadNumber)),
    ("number = 1", "number = 2", Pool(PoolFault::NumberTaken)),
    (
        "\"C@10.8.0.3\"",
        "\"A@10.8.0.3\"",
        Pool(PoolFault::DoubleName),
    ),
    ("\"take 2\"", "\"take  2\"", BadStep(1)),
    ("\"take 2\"", "\"take\"", BadStep(1)),
    ("\"take 2\"", "\"take 02\"", BadStep(1)),
    ("\"take 2\"", "\"take +2\"", BadStep(1)),
    ("\"take 2\"", "\"take 4294967296\"", BadStep(1)),
    ("\"take 2\"", "\"take 2 \"", BadStep(1)),
    ("\"take 2\"", "\"took 2\"", BadStep(1)),
    ("\"take 2\"", "\"\"", BadStep(1)),
    ("\"take 2\"", "\"live 2\"", BadStep(1)),
    ("\"take 2\"", "\"live 0 0\"", BadStep(1)),
    ("\"take 2\"", "\"full 0 1\"", BadStep(1)),
    ("\"take 2\"", "\"full 0 0 0\"", BadStep(1)),
    ("\"take 2\"", "\"full\"", BadStep(1)),
    ("\"take 2\"", "\"hold 2\"", BadStep(1)),
    ("\"take 2\"", "\"install 0\"", BadStep(1)),
    ("\"hold 1\"", "\"hold 2\"", BadStep(2)),
];

static GREATEST: [Change; 3] = [
    ("\"hold 1\"", "\"take 4294967295\""),
    ("workers = 1", "workers = 16"),
    ("capacity = 2", "capacity = 1000000"),
];

#[test]
fn each_fault_alone(rt: HostRuntime) {
    for (at, (from, to, wanted)) in FAULTS.iter().enumerate() {
        let found = fault(&rt, rt.alloc(), (*from, *to), NOTHING);
        same_fault(&rt, found, Some(*wanted), at);
    }
    for (at, greatest) in GREATEST.iter().enumerate() {
        let found = fault(&rt, rt.alloc(), *greatest, NOTHING);
        same_fault(&rt, found, None, at);
    }
}

static TWO_FAULTS: [(Change, Change, ScenarioFault); 8] = [
    (
        ("size = 7", "size = "),
        ("format = 1", "format = 4"),
        BadToml,
    ),
    (("\"hold 1\"", "7"), ("format = 1", "format = 4"), BadFormat),
    (("\"C@10.8.0.3\"", "\"C\""), ("\"hold 1\"", "7"), BadKey),
    (
        ("number = 1", "number = 0"),
        ("\"C@10.8.0.3\"", "\"C\""),
        BadMember,
    ),
    (
        ("number = 1", "number = 0"),
        ("port = 80", "port = 65536"),
        BadKey,
    ),
    (
        ("\"take 2\"", "\"take\""),
        ("number = 1", "number = 0"),
        Pool(PoolFault::BadNumber),
    ),
    (
        ("\"hold 1\"", "\"hold\""),
        ("\"take 2\"", "\"take\""),
        BadStep(1),
    ),
    (
        ("number = 1", "number = 2"),
        ("\"B@10.8.0.2/down\"", "\"A@10.8.0.2\""),
        Pool(PoolFault::NumberTaken),
    ),
];

#[test]
fn the_first_of_two_faults(rt: HostRuntime) {
    for (at, (first, second, wanted)) in TWO_FAULTS.iter().enumerate() {
        let found = fault(&rt, rt.alloc(), *first, *second);
        same_fault(&rt, found, Some(*wanted), at);
    }
}

// So many copies of a text, joined by commas, between two others.
fn repeated(
    rt: &impl Abort,
    alloc: Global,
    before: &str,
    piece: &str,
    count: u32,
    behind: &str,
) -> String {
    let mut text = String::from_str(alloc, before).expect(rt, "memory");
    for number in 0..count {
        if number > 0 {
            text.push_str(",").expect(rt, "memory");
        }
        text.push_str(piece).expect(rt, "memory");
    }
    text.push_str(behind).expect(rt, "memory");
    text
}

fn fault_of_nodes(rt: &impl Abort, alloc: Global, count: u32) -> Option<ScenarioFault> {
    let nodes = repeated(rt, alloc, "", "\"10.9.0.1\"", count, "");
    let first = ("\"10.9.0.1\", \"10.9.0.2\"", nodes.as_str());
    fault(rt, alloc, first, NOTHING)
}

fn fault_of_steps(rt: &impl Abort, alloc: Global, count: u32) -> Option<ScenarioFault> {
    let steps = repeated(rt, alloc, "steps = [", "\"live\"", count, "]\n");
    read_changed(rt, alloc, steps.as_str(), NOTHING, NOTHING).err()
}

static COUNTS_OF_NODES: [(u32, Option<ScenarioFault>); 2] = [(64, None), (65, Some(BadKey))];

static COUNTS_OF_STEPS: [(u32, Option<ScenarioFault>); 3] = [
    (100_000, None),
    (100_001, Some(BadKey)),
    (150_000, Some(TooLong)),
];

#[test]
fn counts_at_their_limits(rt: HostRuntime) {
    for (count, wanted) in COUNTS_OF_NODES.iter() {
        let found = fault_of_nodes(&rt, rt.alloc(), *count);
        same_fault(&rt, found, *wanted, 0);
    }
    for (count, wanted) in COUNTS_OF_STEPS.iter() {
        let found = fault_of_steps(&rt, rt.alloc(), *count);
        same_fault(&rt, found, *wanted, 1);
    }
    same_fault(
        &rt,
        read(rt.alloc(), Played::InTurn, b"").err(),
        Some(BadFormat),
        2,
    );
    let text = b"format = 1\n# \xff";
    same_fault(
        &rt,
        read(rt.alloc(), Played::InTurn, text).err(),
        Some(BadToml),
        3,
    );
}

// The scenario with these steps, read as one that is played so.
fn read_as(
    rt: &impl Abort,
    alloc: Global,
    played: Played,
    steps: &str,
) -> Result<Scenario, ScenarioFault> {
    let line = format!(in alloc; "steps = [{steps}]\n").expect(rt, "memory");
    let whole = text(rt, alloc, line.as_str());
    read(alloc, played, whole.as_bytes())
}

// The scenario of a format with these steps, read as one that is played so.
fn read_in(
    rt: &impl Abort,
    alloc: Global,
    format: &str,
    played: Played,
    steps: &str,
) -> Result<Scenario, ScenarioFault> {
    let line = format!(in alloc; "steps = [{steps}]\n").expect(rt, "memory");
    let whole = text(rt, alloc, line.as_str());
    let whole = changed(rt, alloc, whole.as_str(), ("format = 1", format));
    read(alloc, played, whole.as_bytes())
}

// What stars mean in a cluster of two nodes.
static STARRED: [StepRow; 8] = [
    ("install", 0, 7),
    ("install", 1, 7),
    ("take", 4_294_967_295, 0),
    ("restart", 0, 0),
    ("restart", 1, 0),
    ("stop", 0, 0),
    ("stop", 1, 0),
    ("restart", 1, 0),
];

const STARS: &str = "'install * 7', 'take *', 'restart *', 'stop *', 'restart 1'";

fn has_starred_steps(rt: &impl Abort, steps: &[TimedStep]) {
    same_number(rt, steps.len() as u64, 8, "steps");
    for (step, wanted) in steps.iter().zip(STARRED.iter()) {
        assert_eq!(rt; told(step), *wanted);
    }
}

#[test]
fn a_star_names_all_nodes_in_order(rt: HostRuntime) {
    let scenario = read_in(&rt, rt.alloc(), "format = 3", Played::OnThreads, STARS).expect(
        &rt,
        "a scenario",
    );
    has_starred_steps(&rt, scenario.steps.as_slice());
}

// A format, how a scenario is played, its steps, and its fault. A step's number is that of its text.
type StarRow = (&'static str, Played, &'static str, Option<ScenarioFault>);

const STARS_REFUSED: [StarRow; 12] = [
    ("format = 1", Played::InTurn, "'take *'", Some(BadStep(0))),
    (
        "format = 2",
        Played::InTurn,
        "'take 1', 'take *'",
        Some(BadStep(1)),
    ),
    (
        "format = 2",
        Played::InTurn,
        "'install * 1'",
        Some(BadStep(0)),
    ),
    (
        "format = 2",
        Played::OnThreads,
        "'stop *'",
        Some(BadStep(0)),
    ),
    ("format = 3", Played::InTurn, "'take *', 'restart *'", None),
    (
        "format = 3",
        Played::InTurn,
        "'restart *', 'stop *'",
        Some(BadStep(1)),
    ),
    (
        "format = 3",
        Played::OnThreads,
        "'install 0 *'",
        Some(BadStep(0)),
    ),
    (
        "format = 3",
        Played::InTurn,
        "'install *'",
        Some(BadStep(0)),
    ),
    ("format = 3", Played::InTurn, "'take **'", Some(BadStep(0))),
    ("format = 3", Played::InTurn, "'take * 1'", Some(BadStep(0))),
    ("format = 3", Played::InTurn, "'hold *'", Some(BadStep(0))),
    (
        "format = 3",
        Played::InTurn,
        "'install * 1', 'lose *'",
        Some(BadStep(1)),
    ),
];

#[test]
fn stars_that_are_no_steps(rt: HostRuntime) {
    for (at, (format, played, steps, wanted)) in STARS_REFUSED.iter().enumerate() {
        let found = read_in(&rt, rt.alloc(), *format, *played, *steps).err();
        same_fault(&rt, found, *wanted, at);
    }
}

fn fault_of_stars(rt: &impl Abort, alloc: Global, count: u32) -> Option<ScenarioFault> {
    let steps = repeated(rt, alloc, "steps = [", "\"restart *\"", count, "]\n");
    let third = ("format = 1", "format = 3");
    read_changed(rt, alloc, steps.as_str(), third, NOTHING).err()
}

// Texts that each say two steps, and their fault: 100,000 steps have room.
static COUNTS_OF_STARS: [(u32, Option<ScenarioFault>); 2] = [
    (50_000, None),
    (50_001, Some(BadStep(50_000))),
];

#[test]
fn stars_say_at_most_100_000_steps(rt: HostRuntime) {
    for (count, wanted) in COUNTS_OF_STARS.iter() {
        let found = fault_of_stars(&rt, rt.alloc(), *count);
        same_fault(&rt, found, *wanted, 0);
    }
}

// How a scenario is played, its steps, and its fault.
type PlayedRow = (Played, &'static str, Option<ScenarioFault>);

const PLAYED: [PlayedRow; 11] = [
    (Played::InTurn, "'stop 0', 'take'", Some(BadStep(0))),
    (Played::InTurn, "'take', 'stop 0'", Some(BadStep(0))),
    (
        Played::InTurn,
        "'take 1', 'stop 2', 'stop 0'",
        Some(BadStep(1)),
    ),
    (
        Played::InTurn,
        "'take 1', 'restart 0', 'stop 0'",
        Some(BadStep(2)),
    ),
    (
        Played::InTurn,
        "'hold 0', 'full 0 0', 'full 0', 'drain 0'",
        None,
    ),
    (Played::OnThreads, "'full 0 0', 'take'", Some(BadStep(0))),
    (
        Played::OnThreads,
        "'take 1', 'hold 0', 'take'",
        Some(BadStep(1)),
    ),
    (Played::OnThreads, "'take', 'hold 0'", Some(BadStep(0))),
    (
        Played::OnThreads,
        "'stop 0', 'drain 0', 'full 0'",
        Some(BadStep(1)),
    ),
    (Played::OnThreads, "'stop 2'", Some(BadStep(0))),
    (Played::OnThreads, "'take 1', 'restart 0', 'stop 0'", None),
];

#[test]
fn steps_by_how_it_is_played(rt: HostRuntime) {
    for (at, (played, steps, wanted)) in PLAYED.iter().enumerate() {
        let found = read_as(&rt, rt.alloc(), *played, *steps).err();
        same_fault(&rt, found, *wanted, at);
    }
}

// The steps that are read for threads, of a document of format 3.
fn steps_for_threads(rt: &impl Abort, alloc: Global, steps: &str) -> Result<usize, ScenarioFault> {
    let line = format!(in alloc; "steps = [{steps}]\n").expect(rt, "memory");
    let whole = text(rt, alloc, line.as_str());
    let whole = changed(rt, alloc, whole.as_str(), ("format = 1", "format = 3"));
    match read_for_threads(alloc, whole.as_bytes()) {
        Ok(read) => Ok(read.scenario.steps.len()),
        Err(refused) => Err(refused.fault),
    }
}

// Workers that refuse, that are held and that are drained can't be ordered; all else can.
static FOR_THREADS: [(&str, Result<usize, ScenarioFault>); 4] = [
    (
        "'until 5', 'install 0 1', 'live 0', 'take 1', 'lose 1', 'again 0', 'restart 0', 'stop 0'",
        Ok(8),
    ),
    (
        "'until 5', 'install 0 1', 'hold 0', 'drain 0'",
        Err(BadStep(2)),
    ),
    ("'until 5', 'take 1', 'drain 0'", Err(BadStep(2))),
    ("'until 5', 'full 0'", Err(BadStep(1))),
];

#[test]
fn steps_of_a_scenario_for_threads(rt: HostRuntime) {
    for (steps, wanted) in FOR_THREADS.iter() {
        let found = steps_for_threads(&rt, rt.alloc(), *steps);
        assert_eq!(rt; found, *wanted, "{steps}");
    }
}

#[test]
fn a_stop_is_read(rt: HostRuntime) {
    let scenario = read_as(&rt, rt.alloc(), Played::OnThreads, "'stop 1'").expect(
        &rt,
        "a scenario",
    );
    holds(
        &rt,
        matches!(
            scenario.steps.get(0),
            Some(TimedStep::Counted(ScenarioStep::Stop(1)))
        ),
        "stop 1",
    );
}

// The microseconds of the first step, where it is by time.
fn until_with(
    rt: &impl Abort,
    alloc: Global,
    format: &str,
    played: Played,
    step: &str,
) -> Result<Option<u64>, ScenarioFault> {
    let steps = format!(in alloc; "'{step}'").expect(rt, "memory");
    match read_in(rt, alloc, format, played, steps.as_str())?
        .steps
        .get(0)
    {
        Some(TimedStep::Until(micros)) => Ok(Some(*micros)),
        _ => Ok(None),
    }
}

// A step of format 3, and its time in microseconds.
static TIMES: [(&str, u64); 11] = [
    ("until 0", 0),
    ("until 0.0", 0),
    ("until 0.5", 500_000),
    ("until 0.000001", 1),
    ("until 1.25", 1_250_000),
    ("until 9.999999", 9_999_999),
    ("until 10.090000", 10_090_000),
    ("until 120", 120_000_000),
    ("until 120.000001", 120_000_001),
    ("until 4294967295", 4_294_967_295_000_000),
    ("until 4294967295.000000", 4_294_967_295_000_000),
];

#[test]
fn a_time_is_seconds_in_microseconds(rt: HostRuntime) {
    for (step, micros) in TIMES.iter() {
        let in_turn = until_with(&rt, rt.alloc(), "format = 3", Played::InTurn, step);
        let on_threads = until_with(&rt, rt.alloc(), "format = 3", Played::OnThreads, step);
        assert_eq!(rt; in_turn, Ok(Some(*micros)));
        assert_eq!(rt; on_threads, Ok(Some(*micros)));
    }
}

static NO_TIMES: [&str; 24] = [
    "until",
    "until ",
    "until  1",
    "until 1 ",
    "until 1 2",
    "until *",
    "Until 1",
    "until1",
    "until 01",
    "until 00.5",
    "until .5",
    "until 5.",
    "until .",
    "until 1.2.3",
    "until 1.0000000",
    "until 1.5a",
    "until 1. 5",
    "until 1,5",
    "until -1",
    "until +1",
    "until 1e3",
    "until 0x1",
    "until 4294967296",
    "until 4294967295.000001",
];

#[test]
fn words_that_are_no_time(rt: HostRuntime) {
    for step in NO_TIMES.iter() {
        let found = until_with(&rt, rt.alloc(), "format = 3", Played::InTurn, step);
        assert_eq!(rt; found, Err(BadStep(0)));
    }
}

#[test]
fn older_formats_know_no_time(rt: HostRuntime) {
    for format in ["format = 1", "format = 2"].iter() {
        let found = until_with(&rt, rt.alloc(), format, Played::InTurn, "until 1");
        assert_eq!(rt; found, Err(BadStep(0)));
    }
}

// A line in a document of a format, and whether a scenario may have it.
static NEWER_KEYS: [(&str, &str, Option<ScenarioFault>); 5] = [
    (
        "format = 1",
        "format = 2\n[servers]\nA = '10.8.0.1'",
        Some(BadKey),
    ),
    (
        "format = 1",
        "format = 3\nservers = { A = '10.8.0.1' }",
        None,
    ),
    (
        "format = 1",
        "format = 3\nservers = { A = '10.8.0' }",
        Some(BadKey),
    ),
    ("number = 2", "number = 2\nbase = 1", Some(BadKey)),
    ("port = 80", "port = 80\ndown = []", Some(BadKey)),
];

#[test]
fn keys_of_the_newest_format(rt: HostRuntime) {
    for (at, (from, to, wanted)) in NEWER_KEYS.iter().enumerate() {
        let found = fault(&rt, rt.alloc(), (*from, *to), NOTHING);
        same_fault(&rt, found, *wanted, at);
    }
}
