//! Versions by difference beside the same ones written out, and each fault of one.

use pool_versions::{Service, Version};
use scenario_keys::Format;
use scenario_pools::PoolsFault::{BadMember, TooMany};
use scenario_pools::{PoolsFault, versions_of};
use std::alloc::Global;
use std::process::Abort;
use version_drafts::drafts_in;

// Three servers are replaced, one after another: each drains, and then another stands in its place under the same name.
static ROLLING: &str = "
[servers]
a = \"10.8.0.1\"
b = \"10.8.0.2\"
c = \"10.8.0.3\"

[[versions]]
number = 1
services = [{ vip = \"192.0.2.1\", proto = \"tcp\", port = 80, members = [\"a\", \"b*2\", \"c\"] }]
[[versions]]
number = 2
base = 1
drain = [\"a\"]
[[versions]]
number = 3
base = 2
remove = [\"a\"]
add = [\"a@10.8.1.1\"]
[[versions]]
number = 4
base = 3
drain = [\"b\"]
[[versions]]
number = 5
base = 4
remove = [\"b\"]
add = [\"b@10.8.1.2*2\"]
[[versions]]
number = 6
base = 5
drain = [\"c\"]
[[versions]]
number = 7
base = 6
remove = [\"c\"]
add = [\"c@10.8.1.3\"]
";

static ROLLING_WHOLE: &str = "
[[versions]]
number = 1
services = [{ vip = \"192.0.2.1\", proto = \"tcp\", port = 80, members = [\"a@10.8.0.1\", \"b@10.8.0.2*2\", \"c@10.8.0.3\"] }]
[[versions]]
number = 2
services = [{ vip = \"192.0.2.1\", proto = \"tcp\", port = 80, members = [\"a@10.8.0.1/drain\", \"b@10.8.0.2*2\", \"c@10.8.0.3\"] }]
[[versions]]
number = 3
services = [{ vip = \"192.0.2.1\", proto = \"tcp\", port = 80, members = [\"b@10.8.0.2*2\", \"c@10.8.0.3\", \"a@10.8.1.1\"] }]
[[versions]]
number = 4
services = [{ vip = \"192.0.2.1\", proto = \"tcp\", port = 80, members = [\"b@10.8.0.2*2/drain\", \"c@10.8.0.3\", \"a@10.8.1.1\"] }]
[[versions]]
number = 5
services = [{ vip = \"192.0.2.1\", proto = \"tcp\", port = 80, members = [\"c@10.8.0.3\", \"a@10.8.1.1\", \"b@10.8.1.2*2\"] }]
[[versions]]
number = 6
services = [{ vip = \"192.0.2.1\", proto = \"tcp\", port = 80, members = [\"c@10.8.0.3/drain\", \"a@10.8.1.1\", \"b@10.8.1.2*2\"] }]
[[versions]]
number = 7
services = [{ vip = \"192.0.2.1\", proto = \"tcp\", port = 80, members = [\"a@10.8.1.1\", \"b@10.8.1.2*2\", \"c@10.8.1.3\"] }]
";

// Two services: a version's lists change both, a service's own lists one, a service with members stands in the place of the
// base's or behind all, and a base needn't be the version before.
static BRANCHING: &str = "
[servers]
a = \"10.8.0.1\"
b = \"10.8.0.2\"
c = \"10.8.0.3\"

[[versions]]
number = 10
services = [
  { vip = \"192.0.2.1\", proto = \"tcp\", port = 80, members = [\"a\", \"b/down\"] },
  { vip = \"192.0.2.1\", proto = \"udp\", port = 53, members = [\"b/drain\", \"a*3\"] },
]
[[versions]]
number = 20
base = 10
down = [\"a\"]
weights = [\"b*16\"]
add = [\"c\"]
[[versions]]
number = 30
base = 10
up = [\"b\"]
services = [
  { vip = \"192.0.2.1\", proto = \"udp\", port = 53, remove = [\"b\"], weights = [\"a*1\"] },
  { vip = \"192.0.2.2\", proto = \"tcp\", port = 80, members = [\"c*2\"] },
  { vip = \"192.0.2.1\", proto = \"tcp\", port = 80, members = [\"c\"] },
]
";

static BRANCHING_WHOLE: &str = "
[[versions]]
number = 10
services = [
  { vip = \"192.0.2.1\", proto = \"tcp\", port = 80, members = [\"a@10.8.0.1\", \"b@10.8.0.2/down\"] },
  { vip = \"192.0.2.1\", proto = \"udp\", port = 53, members = [\"b@10.8.0.2/drain\", \"a@10.8.0.1*3\"] },
]
[[versions]]
number = 20
services = [
  { vip = \"192.0.2.1\", proto = \"tcp\", port = 80, members = [\"a@10.8.0.1/down\", \"b@10.8.0.2*16/down\", \"c@10.8.0.3\"] },
  { vip = \"192.0.2.1\", proto = \"udp\", port = 53, members = [\"b@10.8.0.2*16/drain\", \"a@10.8.0.1*3/down\", \"c@10.8.0.3\"] },
]
[[versions]]
number = 30
services = [
  { vip = \"192.0.2.1\", proto = \"tcp\", port = 80, members = [\"c@10.8.0.3\"] },
  { vip = \"192.0.2.1\", proto = \"udp\", port = 53, members = [\"a@10.8.0.1\"] },
  { vip = \"192.0.2.2\", proto = \"tcp\", port = 80, members = [\"c@10.8.0.3*2\"] },
]
";

// What a document of a format says of its versions: none where a key isn't as it should be.
fn read(
    rt: &impl Abort,
    alloc: Global,
    format: Format,
    text: &str,
) -> Option<Result<Vec<Version>, PoolsFault>> {
    let table = toml::table_from_str(alloc, text).expect(rt, "a document");
    let drafts = drafts_in(alloc, format, &table).expect(rt, "memory").ok()?;
    let versions = versions_of(alloc, drafts.as_slice());
    Some(versions.map_err(|unwritten| unwritten.fault))
}

fn versions(rt: &impl Abort, alloc: Global, text: &str) -> Vec<Version> {
    match read(rt, alloc, Format::Three, text) {
        Some(Ok(versions)) => versions,
        Some(Err(_)) => Vec::new(alloc),
        None => Vec::new(alloc),
    }
}

fn same_services(rt: &impl Abort, found: &Service, wanted: &Service) {
    assert_eq!(rt; found.key(), wanted.key());
    assert_eq!(rt; found.members.as_slice(), wanted.members.as_slice());
}

fn same_version(rt: &impl Abort, found: &Version, wanted: &Version) {
    assert_eq!(rt; found.number, wanted.number);
    assert_eq!(rt; found.services.len(), wanted.services.len(), "services");
    for (one, other) in found.services.iter().zip(wanted.services.iter()) {
        same_services(rt, one, other);
    }
}

fn same_versions(rt: &impl Abort, alloc: Global, text: &str, whole: &str, count: usize) {
    let found = versions(rt, alloc, text);
    let wanted = versions(rt, alloc, whole);
    assert_eq!(rt; found.len(), count, "versions");
    assert_eq!(rt; wanted.len(), count, "versions written out");
    for (one, other) in found.iter().zip(wanted.iter()) {
        same_version(rt, one, other);
    }
}

#[test]
fn three_servers_are_replaced(rt: HostRuntime) {
    same_versions(&rt, rt.alloc(), ROLLING, ROLLING_WHOLE, 7);
}

#[test]
fn bases_and_services_of_their_own(rt: HostRuntime) {
    same_versions(&rt, rt.alloc(), BRANCHING, BRANCHING_WHOLE, 3);
}

static HEAD: &str = "
servers = { a = \"10.8.0.1\", b = \"10.8.0.2\" }
[[versions]]
number = 1
services = [{ vip = \"192.0.2.1\", proto = \"tcp\", port = 80, members = [\"a\"] }]
[[versions]]
number = 2
";

// Lines of the second version, and its fault: none at all is that of a key.
type Row = (&'static str, Option<Result<usize, PoolsFault>>);

static ROWS: [Row; 30] = [
    ("base = 1", Some(Ok(2))),
    ("base = 2", None),
    ("base = 3", None),
    ("base = \"1\"", None),
    ("base = -1", None),
    ("services = []", Some(Ok(2))),
    ("services = []\nremove = []", None),
    ("remove = [\"a\"]", None),
    ("base = 1\nremove = [1]", None),
    ("base = 1\nremove = \"a\"", None),
    ("base = 1\nremove = [\"a\"]", Some(Ok(2))),
    ("base = 1\nremove = [\"b\"]", Some(Err(BadMember))),
    ("base = 1\nremove = [\"a\", \"a\"]", Some(Err(BadMember))),
    (
        "base = 1\nremove = [\"a\"]\nup = [\"a\"]",
        Some(Err(BadMember)),
    ),
    ("base = 1\ndown = [\"a_\"]", Some(Err(BadMember))),
    ("base = 1\nweights = [\"a\"]", Some(Err(BadMember))),
    ("base = 1\nweights = [\"a*0\"]", Some(Err(BadMember))),
    ("base = 1\nweights = [\"a*17\"]", Some(Err(BadMember))),
    ("base = 1\nweights = [\"a*16\"]", Some(Ok(2))),
    ("base = 1\nadd = [\"b*2/drain\"]", Some(Ok(2))),
    ("base = 1\nadd = [\"c\"]", Some(Err(BadMember))),
    ("base = 1\nadd = [\"c@10.8.0.3\"]", Some(Ok(2))),
    ("base = 1\nadd = [\"b/up\"]", Some(Err(BadMember))),
    ("base = 1\nmembers = [\"a\"]", None),
    (
        "base = 1\nservices = [{ vip = \"192.0.2.1\", proto = \"tcp\", port = 80 }]",
        Some(Ok(2)),
    ),
    (
        "base = 1\nservices = [{ vip = \"192.0.2.1\", proto = \"tcp\", port = 81 }]",
        Some(Err(BadMember)),
    ),
    (
        "base = 1\nservices = [{ vip = \"192.0.2.1\", proto = \"tcp\", port = 80, members = [], add = [] }]",
        None,
    ),
    (
        "services = [{ vip = \"192.0.2.1\", proto = \"tcp\", port = 80, add = [\"a\"] }]",
        None,
    ),
    (
        "services = [{ vip = \"192.0.2.1\", proto = \"tcp\", port = 80 }]",
        None,
    ),
    (
        "base = 1\nservices = [{ vip = \"192.0.2.1\", proto = \"tcp\", port = 80, base = 1 }]",
        None,
    ),
];

fn counted(found: Option<Result<Vec<Version>, PoolsFault>>) -> Option<Result<usize, PoolsFault>> {
    match found {
        Some(Ok(versions)) => Some(Ok(versions.len())),
        Some(Err(fault)) => Some(Err(fault)),
        None => None,
    }
}

fn with_lines(rt: &impl Abort, alloc: Global, lines: &str) -> String {
    let mut text = String::from_str(alloc, HEAD).expect(rt, "memory");
    text.push_str(lines).expect(rt, "memory");
    text
}

#[test]
fn each_fault_alone(rt: HostRuntime) {
    for (lines, wanted) in ROWS.iter() {
        let text = with_lines(&rt, rt.alloc(), lines);
        let found = read(&rt, rt.alloc(), Format::Three, text.as_str());
        assert_eq!(rt; counted(found), *wanted, "{lines}");
    }
}

#[test]
fn formats_one_and_two_know_no_differences(rt: HostRuntime) {
    let text = with_lines(&rt, rt.alloc(), "base = 1");
    assert_eq!(rt;
        counted(read(&rt, rt.alloc(), Format::Two, text.as_str())),
        None
    );
    assert_eq!(rt;
        counted(read(&rt, rt.alloc(), Format::One, text.as_str())),
        None
    );
}

// Servers of a document, and whether it may have them.
static SERVERS: [(&str, bool); 6] = [
    ("servers = { a = \"10.8.0.1\" }", true),
    ("servers = {}", true),
    ("servers = { a_ = \"10.8.0.1\" }", false),
    ("servers = { a = \"10.8.0\" }", false),
    ("servers = { a = 1 }", false),
    ("servers = [\"a\"]", false),
];

#[test]
fn servers_of_a_document(rt: HostRuntime) {
    for (line, wanted) in SERVERS.iter() {
        let mut text = String::from_str(rt.alloc(), line).expect(&rt, "memory");
        text.push_str("\nversions = []").expect(&rt, "memory");
        let found = read(&rt, rt.alloc(), Format::Three, text.as_str());
        assert_eq!(rt; found.is_some(), *wanted, "{line}");
    }
}

// A version of 2,000 members, and so many more that begin with it.
fn many(rt: &impl Abort, alloc: Global, count: u32) -> String {
    let first = "servers = { a = \"10.8.0.1\" }
[[versions]]
number = 1
services = [{ vip = \"192.0.2.1\", proto = \"tcp\", port = 80, members = [";
    let mut text = String::from_str(alloc, first).expect(rt, "memory");
    for _ in 0..2000 {
        text.push_str("\"a\",").expect(rt, "memory");
    }
    text.push_str("] }]\n").expect(rt, "memory");
    add_versions(rt, &mut text, count);
    text
}

fn add_versions(rt: &impl Abort, text: &mut String, count: u32) {
    for _ in 0..count {
        text.push_str("[[versions]]\nnumber = 2\nbase = 1\n")
            .expect(rt, "memory");
    }
}

// Each version takes 2,001 places: 524 take 1,048,524 of 1,048,576.
#[test]
fn versions_have_at_most_1_048_576_places(rt: HostRuntime) {
    let most = many(&rt, rt.alloc(), 523);
    let found = read(&rt, rt.alloc(), Format::Three, most.as_str());
    assert_eq!(rt; counted(found), Some(Ok(524)));
    let more = many(&rt, rt.alloc(), 524);
    let found = read(&rt, rt.alloc(), Format::Three, more.as_str());
    assert_eq!(rt; counted(found), Some(Err(TooMany)));
}
