//! Numbers, addresses, member words, backends and flows, as they are read and printed.
use crate::checks::{holds, same_text, shows};
use backend_names::Name;
use five_tuple::Flow;
use maglev_texts::{
    AddressText, BackendText, FlowText, address, decimal, member, pieces, weighed_member,
    weighed_name, weight,
};
use pool_versions::{Backend, Member};
use std::process::Abort;

#[test]
fn printed_backends(rt: HostRuntime) {
    let name = Name::new(b"A").expect(&rt, "a name");
    let backend = BackendText(Backend {
        name,
        addr: 0x0a08_0001,
    });
    shows(&rt, format!(in rt.alloc(); "{backend}"), "A@10.8.0.1");
    let broadcast = AddressText(u32::MAX);
    shows(
        &rt,
        format!(in rt.alloc(); "{broadcast}"),
        "255.255.255.255",
    );
}

static FLOWS: [(u8, u16, &str); 3] = [
    (6, 80, "tcp 10.0.0.1:1000>192.0.2.1:80"),
    (17, 53, "udp 10.0.0.1:1000>192.0.2.1:53"),
    (47, 0, "47 10.0.0.1:1000>192.0.2.1:0"),
];

#[test]
fn printed_flows(rt: HostRuntime) {
    for (proto, dport, text) in FLOWS.iter() {
        let flow = FlowText(Flow {
            src: 0x0a00_0001,
            dst: 0xc000_0201,
            sport: 1000,
            dport: *dport,
            proto: *proto,
        });
        shows(&rt, format!(in rt.alloc(); "{flow}"), text);
    }
}

fn same_number(rt: &impl Abort, found: Option<u64>, wanted: Option<u64>, text: &str) {
    assert_eq!(rt; found, wanted, "{text}");
}

static NUMBERS: [(&str, Option<u64>); 11] = [
    ("0", Some(0)),
    ("7", Some(7)),
    ("255", Some(255)),
    ("256", None),
    ("00", None),
    ("07", None),
    ("", None),
    ("-1", None),
    ("+1", None),
    ("1 ", None),
    ("99999999999999999999999999", None),
];

static ADDRESSES: [(&str, Option<u64>); 9] = [
    ("10.8.0.1", Some(0x0a08_0001)),
    ("0.0.0.0", Some(0)),
    ("255.255.255.255", Some(0xffff_ffff)),
    ("10.8.0", None),
    ("10.8.0.1.2", None),
    ("10.8.0.256", None),
    ("10.8.0.01", None),
    ("10.8..1", None),
    ("", None),
];

#[test]
fn numbers(rt: HostRuntime) {
    for (text, number) in NUMBERS.iter() {
        same_number(&rt, decimal(text.as_bytes(), 255), *number, text);
    }
}

#[test]
fn addresses(rt: HostRuntime) {
    for (text, number) in ADDRESSES.iter() {
        let found = address(rt.alloc(), text.as_bytes()).expect(&rt, "memory");
        same_number(&rt, found.map(u64::from), *number, text);
    }
}

// What a word of a member says: its address, whether it is up, and how often it takes a turn.
type MemberRow = (u32, bool, u8);

fn is_member(rt: &impl Abort, found: Option<Member>, wanted: MemberRow, word: &str) {
    let member = found.expect(rt, "a member");
    same_text(rt, member.backend.name.as_str(), "A");
    let found = (member.backend.addr, member.up, member.weight.turns());
    assert_eq!(rt; found, wanted, "{word}");
}

static MEMBERS: [(&str, MemberRow); 2] = [
    ("A@10.8.0.1", (0x0a08_0001, true, 1)),
    ("A@10.8.0.2/down", (0x0a08_0002, false, 1)),
];

static NO_MEMBERS: [&str; 12] = [
    "A",
    "A@",
    "@10.8.0.1",
    "A@10.8.0.1/up",
    "A@10.8.0.1/",
    "A@10.8.0.1/down/down",
    "A@10.8.0.1@",
    "A/down@10.8.0.1",
    "A@10.8.0.1 ",
    " A@10.8.0.1",
    "A@10.8.0.1/Down",
    "A@10.8.0.1*2",
];

#[test]
fn members(rt: HostRuntime) {
    for (word, wanted) in MEMBERS.iter() {
        let found = member(rt.alloc(), word.as_bytes()).expect(&rt, "memory");
        is_member(&rt, found, *wanted, word);
    }
    for word in NO_MEMBERS.iter() {
        let found = member(rt.alloc(), word.as_bytes()).expect(&rt, "memory");
        holds(&rt, found.is_none(), word);
    }
}

static WEIGHED: [(&str, MemberRow); 5] = [
    ("A@10.8.0.1", (0x0a08_0001, true, 1)),
    ("A@10.8.0.2/down", (0x0a08_0002, false, 1)),
    ("A@10.8.0.1*1", (0x0a08_0001, true, 1)),
    ("A@10.8.0.1*16", (0x0a08_0001, true, 16)),
    ("A@10.8.0.2*7/down", (0x0a08_0002, false, 7)),
];

static NOT_WEIGHED: [&str; 11] = [
    "A@10.8.0.1*",
    "A@10.8.0.1*0",
    "A@10.8.0.1*17",
    "A@10.8.0.1*02",
    "A@10.8.0.1*2*2",
    "A@10.8.0.1/down*2",
    "A@10.8.0.1*2/up",
    "A@10.8.0.1*2/down/down",
    "A*2@10.8.0.1",
    "*2",
    "",
];

#[test]
fn weighed_members(rt: HostRuntime) {
    for (word, wanted) in WEIGHED.iter() {
        let found = weighed_member(rt.alloc(), word.as_bytes()).expect(&rt, "memory");
        is_member(&rt, found, *wanted, word);
    }
    for word in NOT_WEIGHED.iter() {
        let found = weighed_member(rt.alloc(), word.as_bytes()).expect(&rt, "memory");
        holds(&rt, found.is_none(), word);
    }
}

static NAMES: [(&str, &str, u8); 3] = [("A", "A", 1), ("A*16", "A", 16), ("b.c-1*2", "b.c-1", 2)];

static NO_NAMES: [&str; 9] = ["", "*", "A*", "A*0", "A*17", "A*01", "A*2*2", "*2", "A *2"];

#[test]
fn weighed_names(rt: HostRuntime) {
    for (word, name, turns) in NAMES.iter() {
        let found = weighed_name(word.as_bytes()).expect(&rt, "a name");
        same_text(&rt, found.name.as_str(), name);
        holds(&rt, found.weight.turns() == *turns, word);
    }
    for word in NO_NAMES.iter() {
        holds(&rt, weighed_name(word.as_bytes()).is_none(), word);
    }
    let ten = weight(b"10").expect(&rt, "a weight");
    holds(&rt, ten.turns() == 10, "10");
}

#[test]
fn cuts(rt: HostRuntime) {
    let parts = pieces(rt.alloc(), b"ab..c", b'.').expect(&rt, "memory");
    holds(&rt, parts.len() == 3, "three");
    for (part, text) in parts.iter().zip(&[b"ab".as_slice(), b"", b"c"]) {
        holds(&rt, *part == *text, "a part");
    }
}
