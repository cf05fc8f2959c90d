//! The places at which a scenario is refused, and that reading refuses it there.

use scenario::{Played, Refused, ScenarioFault, read_placed};
use scenario_diagnostics::{Flaw, Key, Place, words_of};
use std::alloc::Global;
use std::process::Abort;

static GOOD: &str = "format = 1
size = 7
hash = 'sum'
scheme = 'maglev'
spread = 'turn'
workers = 1
capacity = 2
nodes = ['10.9.0.1', '10.9.0.2']
steps = ['install 0 1', 'take 1']
[[versions]]
number = 1
services = []
[[versions]]
number = 2
[[versions.services]]
vip = '192.0.2.1'
proto = 'tcp'
port = 80
members = ['A@10.8.0.1', 'B@10.8.0.2/down']
";

// A text, what stands in its first place in the good scenario, and the place that is found then.
type Row = (&'static str, &'static str, Option<Place>);

fn changed(rt: &impl Abort, alloc: Global, row: &Row) -> String {
    GOOD.replacen(alloc, row.0, row.1, 1).expect(rt, "memory")
}

// The place is there where reading answers its fault, and only there.
fn is_at(rt: &impl Abort, found: Option<Place>, row: &Row, refused: bool, at: usize) {
    assert_eq!(rt; found, row.2, "row {at}");
    assert!(rt; found.is_some() == refused, "row {at}");
}

const UNKNOWN: Option<Place> = Some(Place::Root(Flaw::Unknown));

static KEYS: [Row; 21] = [
    ("", "", None),
    ("", "color = 1\n", UNKNOWN),
    (
        "size = 7",
        "size = 8",
        Some(Place::Root(Flaw::Value(Key::Size))),
    ),
    ("'sum'", "'md5'", Some(Place::Root(Flaw::Value(Key::Hash)))),
    ("'maglev'", "1", Some(Place::Root(Flaw::Value(Key::Scheme)))),
    (
        "'turn'",
        "'turns'",
        Some(Place::Root(Flaw::Value(Key::Spread))),
    ),
    (
        "workers = 1",
        "workers = 17",
        Some(Place::Root(Flaw::Value(Key::Workers))),
    ),
    (
        "capacity = 2\n",
        "",
        Some(Place::Root(Flaw::Value(Key::Capacity))),
    ),
    (
        "size = 7",
        "size = 7\nring = 0",
        Some(Place::Root(Flaw::Value(Key::Ring))),
    ),
    (
        "size = 7",
        "size = 7\ncheck = 1",
        Some(Place::Root(Flaw::Value(Key::Check))),
    ),
    (
        "['10.9.0.1', '10.9.0.2']",
        "[]",
        Some(Place::Root(Flaw::Value(Key::Nodes))),
    ),
    (
        "['install 0 1', 'take 1']",
        "1",
        Some(Place::Root(Flaw::Value(Key::Steps))),
    ),
    ("format = 1", "format = 1\nidle = 5", UNKNOWN),
    ("format = 1", "format = 2\nidle = 0", None),
    ("format = 1", "format = 3\nidle = 0", None),
    ("format = 1", "format = 2\nidle = 4294967295000000", None),
    (
        "format = 1",
        "format = 2\nidle = 4294967295000001",
        Some(Place::Root(Flaw::Value(Key::Idle))),
    ),
    (
        "format = 1",
        "format = 2\nidle = -1",
        Some(Place::Root(Flaw::Value(Key::Idle))),
    ),
    (
        "format = 1",
        "format = 2\nidle = '5'",
        Some(Place::Root(Flaw::Value(Key::Idle))),
    ),
    (
        "10.9.0.2",
        "10.9.0.02",
        Some(Place::Root(Flaw::Item(Key::Nodes, 1))),
    ),
    (
        "'take 1'",
        "3",
        Some(Place::Root(Flaw::Item(Key::Steps, 1))),
    ),
];

static KEYS_OF_VERSIONS: [Row; 10] = [
    (
        "number = 2",
        "",
        Some(Place::Version(1, Flaw::Value(Key::Number))),
    ),
    (
        "services = []",
        "",
        Some(Place::Version(0, Flaw::Value(Key::Services))),
    ),
    (
        "number = 2",
        "number = 2\nname = 'b'",
        Some(Place::Version(1, Flaw::Unknown)),
    ),
    (
        "192.0.2.1",
        "192.0.2.256",
        Some(Place::Service(1, 0, Flaw::Value(Key::Vip))),
    ),
    (
        "'tcp'",
        "'sctp'",
        Some(Place::Service(1, 0, Flaw::Value(Key::Proto))),
    ),
    (
        "port = 80",
        "port = 65536",
        Some(Place::Service(1, 0, Flaw::Value(Key::Port))),
    ),
    (
        "port = 80",
        "port = 80\nweight = 1",
        Some(Place::Service(1, 0, Flaw::Unknown)),
    ),
    (
        "'B@10.8.0.2/down'",
        "2",
        Some(Place::Service(1, 0, Flaw::Item(Key::Members, 1))),
    ),
    (
        "services = []",
        "services = [1]",
        Some(Place::Service(0, 0, Flaw::NoTable)),
    ),
    ("B@", "B", None),
];

fn finds_keys(rt: &impl Abort, alloc: Global, row: &Row, at: usize) {
    let text = changed(rt, alloc, row);
    finds_key_in(rt, alloc, text.as_str(), row, at);
}

// Why and where a scenario is refused that is played so.
fn refused(
    rt: &impl Abort,
    alloc: Global,
    played: Played,
    text: &str,
    at: usize,
) -> Option<Refused> {
    let refused = read_placed(alloc, played, text.as_bytes()).err();
    let fault = scenario::read(alloc, played, text.as_bytes()).err();
    assert_eq!(rt; refused.map(|refused| refused.fault), fault, "row {at}");
    refused
}

// The place of a refusal, where it is one of those that are sought.
fn place_if(refused: Option<Refused>, is_sought: bool) -> Option<Place> {
    if is_sought { refused?.place } else { None }
}

// The place is there where the fault is BadKey, however the scenario is played.
fn finds_key_in(rt: &impl Abort, alloc: Global, text: &str, row: &Row, at: usize) {
    for played in [Played::InTurn, Played::OnThreads] {
        let refused = refused(rt, alloc, played, text, at);
        let is_key = refused.is_some_and(|refused| refused.fault == ScenarioFault::BadKey);
        is_at(rt, place_if(refused, is_key), row, is_key, at);
    }
}

#[test]
fn places_of_the_setup(rt: HostRuntime) {
    for (at, row) in KEYS.iter().enumerate() {
        finds_keys(&rt, rt.alloc(), row, at);
    }
}

#[test]
fn places_of_the_versions(rt: HostRuntime) {
    for (at, row) in KEYS_OF_VERSIONS.iter().enumerate() {
        finds_keys(&rt, rt.alloc(), row, at);
    }
}

static MEMBERS: [Row; 5] = [
    ("", "", None),
    (
        "A@10",
        "A@010",
        Some(Place::Service(1, 0, Flaw::Item(Key::Members, 0))),
    ),
    (
        "/down",
        "/up",
        Some(Place::Service(1, 0, Flaw::Item(Key::Members, 1))),
    ),
    (
        "/down",
        "*2",
        Some(Place::Service(1, 0, Flaw::Item(Key::Members, 1))),
    ),
    (
        "/down",
        "/drain",
        Some(Place::Service(1, 0, Flaw::Item(Key::Members, 1))),
    ),
];

fn finds_members(rt: &impl Abort, alloc: Global, row: &Row, at: usize) {
    let text = changed(rt, alloc, row);
    finds_member_in(rt, alloc, text.as_str(), row, at);
}

fn finds_member_in(rt: &impl Abort, alloc: Global, text: &str, row: &Row, at: usize) {
    let refused = refused(rt, alloc, Played::InTurn, text, at);
    let is_member = refused.is_some_and(|refused| refused.fault == ScenarioFault::BadMember);
    is_at(rt, place_if(refused, is_member), row, is_member, at);
}

#[test]
fn places_of_members(rt: HostRuntime) {
    for (at, row) in MEMBERS.iter().enumerate() {
        finds_members(&rt, rt.alloc(), row, at);
    }
}

static DIFFERENCES: &str = "format = 3
size = 7
hash = 'sum'
scheme = 'maglev'
spread = 'turn'
workers = 1
capacity = 2
nodes = ['10.9.0.1']
steps = ['install 0 1', 'until 1']
servers = { C = '10.8.0.3' }
[[versions]]
number = 1
[[versions.services]]
vip = '192.0.2.1'
proto = 'tcp'
port = 80
members = ['A@10.8.0.1', 'B@10.8.0.2']
[[versions]]
number = 2
base = 1
down = ['A']
[[versions.services]]
vip = '192.0.2.1'
proto = 'tcp'
port = 80
remove = ['B']
weights = ['A*2']
add = ['C', 'D@10.8.0.4']
";

static KEYS_OF_DIFFERENCES: [Row; 14] = [
    ("", "", None),
    (
        "'10.8.0.3'",
        "'10.8.0'",
        Some(Place::Root(Flaw::Value(Key::Servers))),
    ),
    (
        "base = 1",
        "base = 2",
        Some(Place::Version(1, Flaw::Value(Key::Base))),
    ),
    (
        "base = 1",
        "base = -1",
        Some(Place::Version(1, Flaw::Value(Key::Base))),
    ),
    (
        "number = 1\n",
        "number = 1\nbase = 2\n",
        Some(Place::Version(0, Flaw::Value(Key::Base))),
    ),
    (
        "base = 1\n",
        "",
        Some(Place::Version(1, Flaw::Misplaced(Key::Down))),
    ),
    (
        "down = ['A']",
        "down = 'A'",
        Some(Place::Version(1, Flaw::Value(Key::Down))),
    ),
    (
        "down = ['A']",
        "down = ['A', 7]",
        Some(Place::Version(1, Flaw::Item(Key::Down, 1))),
    ),
    (
        "add = ['C', 'D@10.8.0.4']",
        "add = ['C', 'D@10.8.0.4']\nmembers = []",
        Some(Place::Service(1, 0, Flaw::Misplaced(Key::Remove))),
    ),
    (
        "members = ['A@10.8.0.1', 'B@10.8.0.2']",
        "members = []\nup = []",
        Some(Place::Service(0, 0, Flaw::Misplaced(Key::Up))),
    ),
    (
        "members = ['A@10.8.0.1', 'B@10.8.0.2']\n",
        "",
        Some(Place::Service(0, 0, Flaw::Value(Key::Members))),
    ),
    (
        "weights = ['A*2']",
        "weights = [2]",
        Some(Place::Service(1, 0, Flaw::Item(Key::Weights, 0))),
    ),
    ("remove = ['B']", "remove = ['E']", None),
    ("format = 3", "format = 2", UNKNOWN),
];

static WORDS_OF_DIFFERENCES: [Row; 11] = [
    ("", "", None),
    (
        "down = ['A']",
        "down = ['A', 'E']",
        Some(Place::Version(1, Flaw::Item(Key::Down, 1))),
    ),
    (
        "down = ['A']",
        "down = ['A']\ndrain = ['-']",
        Some(Place::Version(1, Flaw::Item(Key::Drain, 0))),
    ),
    (
        "down = ['A']",
        "down = ['A']\nremove = ['A']",
        Some(Place::Version(1, Flaw::Item(Key::Down, 0))),
    ),
    (
        "remove = ['B']",
        "remove = ['E']",
        Some(Place::Service(1, 0, Flaw::Item(Key::Remove, 0))),
    ),
    (
        "weights = ['A*2']",
        "weights = ['A*2', 'B*3']",
        Some(Place::Service(1, 0, Flaw::Item(Key::Weights, 1))),
    ),
    (
        "weights = ['A*2']",
        "weights = ['A']",
        Some(Place::Service(1, 0, Flaw::Item(Key::Weights, 0))),
    ),
    (
        "add = ['C',",
        "add = ['E',",
        Some(Place::Service(1, 0, Flaw::Item(Key::Add, 0))),
    ),
    (
        "port = 80\nremove",
        "port = 81\nremove",
        Some(Place::Service(1, 0, Flaw::Value(Key::Members))),
    ),
    (
        "'B@10.8.0.2'",
        "'B@10.8.0.02'",
        Some(Place::Service(0, 0, Flaw::Item(Key::Members, 1))),
    ),
    (
        "'B@10.8.0.2'",
        "'C'",
        Some(Place::Service(1, 0, Flaw::Item(Key::Remove, 0))),
    ),
];

fn different(rt: &impl Abort, alloc: Global, row: &Row) -> String {
    DIFFERENCES
        .replacen(alloc, row.0, row.1, 1)
        .expect(rt, "memory")
}

#[test]
fn places_of_differences(rt: HostRuntime) {
    for (at, row) in KEYS_OF_DIFFERENCES.iter().enumerate() {
        let text = different(&rt, rt.alloc(), row);
        finds_key_in(&rt, rt.alloc(), text.as_str(), row, at);
    }
    for (at, row) in WORDS_OF_DIFFERENCES.iter().enumerate() {
        let text = different(&rt, rt.alloc(), row);
        finds_member_in(&rt, rt.alloc(), text.as_str(), row, at);
    }
}

// A text, what stands in its first place among the differences, and what is said of the fault.
type Said = (&'static str, &'static str, &'static str);

static SAID_OF_DIFFERENCES: [Said; 14] = [
    (
        "'10.8.0.3'",
        "'10.8.0'",
        "servers.C, line 10: found '10.8.0', expected an address, as \"10.8.0.1\"",
    ),
    (
        "{ C =",
        "{ C_ =",
        "servers.C_, line 10: found '10.8.0.3', expected a name of 1 to 32 letters, digits, - and ., the first a letter or digit",
    ),
    (
        "base = 1",
        "base = 2",
        "versions[1].base, line 20: found 2, expected the number of an earlier version",
    ),
    (
        "base = 1\n",
        "",
        "versions[1].down, line 20: found an array, expected no such key without a base or beside members",
    ),
    (
        "down = ['A']",
        "down = ['A', 'E']",
        "versions[1].down[1], line 21: found 'E', expected a server of version 1 that no change has taken out",
    ),
    (
        "remove = ['B']",
        "remove = ['E']",
        "versions[1].services[0].remove[0], line 26: found 'E', expected a server that this service has in version 1 and no change has taken out",
    ),
    (
        "weights = ['A*2']",
        "weights = ['A']",
        "versions[1].services[0].weights[0], line 27: found 'A', expected NAME*W, with W from *1 to *16 and NAME a server that this service has in version 1 and no change has taken out",
    ),
    (
        "port = 80\nremove",
        "port = 81\nremove",
        "versions[1].services[0].members is missing, expected members, or a base with this service",
    ),
    (
        "'D@10.8.0.4'",
        "'A@10.8.0.4'",
        "versions[1].services[0].add[1], line 28: found 'A@10.8.0.4', expected a name that no earlier member of the service has",
    ),
    (
        "down = ['A']",
        "add = ['A@10.8.0.4']",
        "versions[1].add[0], line 21: found 'A@10.8.0.4', expected a name that no earlier member of the service has",
    ),
    (
        "remove = ['B']\nweights = ['A*2']\nadd = ['C', 'D@10.8.0.4']",
        "members = ['A@10.8.0.1', 'B@10.8.0.2', 'A@10.8.0.4']",
        "versions[1].services[0].members[2], line 26: found 'A@10.8.0.4', expected a name that no earlier member of the service has",
    ),
    (
        "'install 0 1'",
        "'install 7 1'",
        "steps[0], line 9: found 'install 7 1', expected install N V, with a balancer N from 0 to 0 and a version's number V; \"7\" is no balancer: there are 0 to 0; * is all of them, and at most 100000 steps in all",
    ),
    (
        "'install 0 1'",
        "'full 0 01'",
        "steps[0], line 9: found 'full 0 01', expected full N [W ..], with a balancer N from 0 to 0 and workers W from 0 to 0, none twice; run doesn't know this step; \"01\" is no number of digits up to 4294967295 without leading zeros",
    ),
    (
        "'until 1'",
        "'until 1.'",
        "steps[1], line 9: found 'until 1.', expected until T, with T in seconds from 0 to 4294967295, and one to six digits behind a point or no point; \"1.\" is no time",
    ),
];

fn says(rt: &impl Abort, alloc: Global, row: &Said) {
    let text = DIFFERENCES
        .replacen(alloc, row.0, row.1, 1)
        .expect(rt, "memory");
    let read = read_placed(alloc, Played::InTurn, text.as_bytes());
    let Refused { fault, place } = read.err().expect(rt, "a fault");
    let words = words_of(alloc, text.as_bytes(), fault, place).expect(rt, "words");
    assert_eq!(rt; words.as_str(), row.2);
}

#[test]
fn words_of_differences(rt: HostRuntime) {
    for row in SAID_OF_DIFFERENCES.iter() {
        says(&rt, rt.alloc(), row);
    }
}

#[test]
fn names_of_keys(rt: HostRuntime) {
    assert!(rt; Key::Vip.name() == "vip");
    assert!(rt; Key::Members.name() == "members");
}

// What a catalogue refuses.
static POOLS: [Row; 6] = [
    ("", "", None),
    (
        "number = 1",
        "number = 0",
        Some(Place::Version(0, Flaw::Value(Key::Number))),
    ),
    (
        "number = 1",
        "number = 2",
        Some(Place::Version(1, Flaw::Value(Key::Number))),
    ),
    (
        "B@10.8.0.2",
        "A@10.8.0.2",
        Some(Place::Service(1, 0, Flaw::Item(Key::Members, 1))),
    ),
    (
        "'A@10.8.0.1'",
        "'A@10.8.0.1', 'C@10.8.0.3', 'D@10.8.0.4', 'E@10.8.0.5', 'F@10.8.0.6', 'G@10.8.0.7', 'H@10.8.0.8'",
        Some(Place::Service(1, 0, Flaw::Item(Key::Members, 7))),
    ),
    (
        "services = []",
        "services = [{ vip = '192.0.2.1', proto = 'udp', port = 53, members = [] }, { vip = '192.0.2.1', proto = 'udp', port = 53, members = [] }]",
        Some(Place::Version(0, Flaw::Item(Key::Services, 1))),
    ),
];

fn finds_in_pools(rt: &impl Abort, alloc: Global, row: &Row, at: usize) {
    let text = changed(rt, alloc, row);
    let refused = refused(rt, alloc, Played::InTurn, text.as_str(), at);
    let is_pool = refused.is_some_and(|refused| matches!(refused.fault, ScenarioFault::Pool(_)));
    is_at(rt, place_if(refused, is_pool), row, is_pool, at);
}

#[test]
fn places_of_the_pools(rt: HostRuntime) {
    for (at, row) in POOLS.iter().enumerate() {
        finds_in_pools(&rt, rt.alloc(), row, at);
    }
}
