//! Comparisons in functions of their own, so that each is proved once, and what the tests build: flows, backends, versions.
use backend_names::{Name, TableSize, Weight};
use five_tuple::Flow;
use pool_versions::{Backend, Member, Service, Version};
use std::alloc::Global;
use std::process::Abort;

pub(crate) const VIP: u32 = 0xc000_0201;

pub(crate) fn holds(rt: &impl Abort, fact: bool, what: &str) {
    assert!(rt; fact, "{what}");
}

pub(crate) fn same_count(rt: &impl Abort, found: usize, wanted: usize, what: &str) {
    assert_eq!(rt; found, wanted, "{what}");
}

pub(crate) fn same_pair(rt: &impl Abort, found: (u32, u32), wanted: (u32, u32), step: usize) {
    assert_eq!(rt; found, wanted, "step {step}");
}

// From 10.0.0.1 to a port of 192.0.2.1 by TCP.
pub(crate) fn flow_to(sport: u16, dport: u16) -> Flow {
    Flow {
        src: 0x0a00_0001,
        dst: VIP,
        sport,
        dport,
        proto: 6,
    }
}

// From 10.0.0.1 to the TCP service 192.0.2.1:80. Under the sum hash the flows of ports 1000, 1001 and 1006 have the slots
// 6, 0 and 5 of 7.
pub(crate) fn flow(sport: u16) -> Flow {
    flow_to(sport, 80)
}

pub(crate) fn seven(rt: &impl Abort) -> TableSize {
    TableSize::new(7).expect(rt, "a size")
}

pub(crate) fn backend(rt: &impl Abort, name: &[u8], addr: u32) -> Backend {
    let name = Name::new(name).expect(rt, "a name");
    Backend { name, addr }
}

// A member: its name, its address, whether it is up, and how often it takes a turn.
pub(crate) type Row<'a> = (&'a [u8], u32, bool, u8);

pub(crate) fn members_of(rt: &impl Abort, alloc: Global, rows: &[Row<'_>]) -> Vec<Member> {
    let mut members = Vec::new(alloc);
    for (name, addr, up, turns) in rows {
        let member = Member {
            backend: backend(rt, name, *addr),
            up: *up,
            draining: false,
            weight: Weight::new(*turns).expect(rt, "a weight"),
        };
        members.push(member).expect(rt, "memory");
    }
    members
}

// A version of one service, the TCP service of this address at port 80.
pub(crate) fn version_of(
    rt: &impl Abort,
    alloc: Global,
    number: u32,
    vip: u32,
    rows: &[Row<'_>],
) -> Version {
    let service = Service {
        vip,
        proto: 6,
        port: 80,
        members: members_of(rt, alloc, rows),
    };
    let mut services = Vec::new(alloc);
    services.push(service).expect(rt, "memory");
    Version { number, services }
}
