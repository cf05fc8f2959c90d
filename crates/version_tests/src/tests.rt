use backend_names::{Name, TableSize, Weight};
use five_tuple::Flow;
use pool_versions::{Backend, Catalogue, Member, PoolFault, Service, Version};
use std::alloc::Global;
use std::process::Abort;

const VIP: u32 = 0xc000_0201;

fn size(rt: &impl Abort, slots: u32) -> TableSize {
    TableSize::new(slots).expect(rt, "a size")
}

fn member(rt: &impl Abort, name: &[u8], addr: u32, up: bool) -> Member {
    weighed(rt, name, addr, up, 1)
}

fn weighed(rt: &impl Abort, name: &[u8], addr: u32, up: bool, turns: u8) -> Member {
    let name = Name::new(name).expect(rt, "a name");
    Member {
        backend: Backend { name, addr },
        up,
        draining: false,
        weight: Weight::new(turns).expect(rt, "a weight"),
    }
}

fn service(rt: &impl Abort, alloc: Global, port: u16, members: &[Member]) -> Service {
    Service {
        vip: VIP,
        proto: 6,
        port,
        members: Vec::from_slice(alloc, members).expect(rt, "memory"),
    }
}

fn version(
    rt: &impl Abort,
    alloc: Global,
    number: u32,
    ports: &[u16],
    members: &[Member],
) -> Version {
    let mut services = Vec::new(alloc);
    for port in ports {
        services
            .push(service(rt, alloc, *port, members))
            .expect(rt, "memory");
    }
    Version { number, services }
}

fn flow(port: u16) -> Flow {
    Flow {
        src: 0x0a00_0001,
        dst: VIP,
        sport: 1000,
        dport: port,
        proto: 6,
    }
}

// Names of two letters, all different for numbers below 26 * 26 * 26.
fn numbered(rt: &impl Abort, number: u32) -> Member {
    let letters = [
        b'a' + (number % 26) as u8,
        b'a' + (number / 26 % 26) as u8,
        b'a' + (number / 676 % 26) as u8,
    ];
    member(rt, &letters, number, true)
}

fn many(rt: &impl Abort, alloc: Global, count: u32) -> Vec<Member> {
    let mut members = Vec::new(alloc);
    for number in 0..count {
        members.push(numbered(rt, number)).expect(rt, "memory");
    }
    members
}

#[test]
fn versions_are_found_by_number(rt: HostRuntime) {
    let alloc = rt.alloc();
    let mut catalogue = Catalogue::new(alloc, size(&rt, 7));
    assert_eq!(rt; catalogue.size().slots(), 7);
    let one = [member(&rt, b"A", 1, true)];
    assert_eq!(rt;
        catalogue.add(version(&rt, alloc, 9, &[80, 443], &one)),
        Ok(())
    );
    assert_eq!(rt;
        catalogue.add(version(&rt, alloc, 4_294_967_295, &[], &one)),
        Ok(())
    );
    let found = catalogue.get(9).expect(&rt, "a version");
    assert_eq!(rt; found.services.len(), 2);
    assert_eq!(rt;
        found.service_of(&flow(443)).expect(&rt, "a service").port,
        443
    );
    assert!(rt; found.service_of(&flow(81)).is_none());
    assert!(rt; catalogue.get(4_294_967_295).is_some());
    assert!(rt; catalogue.get(1).is_none());
    assert!(rt; catalogue.get(0).is_none());
    catalogue.keeps_doubles_out();
}

#[test]
fn weights_stand_as_the_backends_do(rt: HostRuntime) {
    let alloc = rt.alloc();
    let mut catalogue = Catalogue::new(alloc, size(&rt, 7));
    let members = [
        weighed(&rt, b"b", 1, true, 16),
        weighed(&rt, b"C", 3, false, 9),
        weighed(&rt, b"B", 4, true, 2),
        weighed(&rt, b"10", 5, true, 1),
    ];
    assert_eq!(rt;
        catalogue.add(version(&rt, alloc, 1, &[80], &members)),
        Ok(())
    );
    let weights = catalogue
        .weights_of(alloc, 1, &flow(80))
        .expect(&rt, "memory")
        .expect(&rt, "a service");
    assert_eq!(rt; weights.len(), 3);
    for (at, turns) in [1u8, 2, 16].iter().enumerate() {
        let weight = weights.get(at).expect(&rt, "a weight");
        assert_eq!(rt; weight.turns(), *turns);
    }
    assert!(rt;
        catalogue
            .weights_of(alloc, 1, &flow(81))
            .expect(&rt, "memory")
            .is_none()
    );
    assert!(rt;
        catalogue
            .weights_of(alloc, 2, &flow(80))
            .expect(&rt, "memory")
            .is_none()
    );
}

#[test]
fn ups_ascend_by_name(rt: HostRuntime) {
    let alloc = rt.alloc();
    let mut catalogue = Catalogue::new(alloc, size(&rt, 7));
    let members = [
        member(&rt, b"b", 1, true),
        member(&rt, b"B2", 2, true),
        member(&rt, b"C", 3, false),
        member(&rt, b"B", 4, true),
        member(&rt, b"10", 5, true),
    ];
    assert_eq!(rt;
        catalogue.add(version(&rt, alloc, 1, &[80], &members)),
        Ok(())
    );
    let ups = catalogue
        .up_of(alloc, 1, &flow(80))
        .expect(&rt, "memory")
        .expect(&rt, "a service");
    assert_eq!(rt; ups.len(), 4);
    for (place, addr) in [(0usize, 5u32), (1, 4), (2, 2), (3, 1)] {
        assert_eq!(rt;
            ups.get(place).expect(&rt, "a backend").addr,
            addr,
            "at {place}"
        );
    }
    assert!(rt;
        catalogue
            .up_of(alloc, 2, &flow(80))
            .expect(&rt, "memory")
            .is_none()
    );
    assert!(rt;
        catalogue
            .up_of(alloc, 1, &flow(81))
            .expect(&rt, "memory")
            .is_none()
    );
    let udp = Flow {
        proto: 17,
        ..flow(80)
    };
    assert!(rt;
        catalogue
            .up_of(alloc, 1, &udp)
            .expect(&rt, "memory")
            .is_none()
    );
}

// The addresses of the up backends of some members, in the order of the answer.
fn addrs_of_ups(rt: &impl Abort, alloc: Global, members: &[Member]) -> Vec<u32> {
    let ups = service(rt, alloc, 80, members)
        .ups(alloc)
        .expect(rt, "memory");
    let mut addrs = Vec::new(alloc);
    for backend in &ups {
        addrs.push(backend.addr).expect(rt, "memory");
    }
    addrs
}

// The names of 676 members end in one letter, and the first letter is the number's last digit in base 26.
#[test]
fn many_ups_ascend_by_name(rt: HostRuntime) {
    let alloc = rt.alloc();
    let members = many(&rt, alloc, 676);
    let addrs = addrs_of_ups(&rt, alloc, members.as_slice());
    assert_eq!(rt; addrs.len(), 676);
    for (place, addr) in addrs.iter().enumerate() {
        assert_eq!(rt; *addr as usize, place / 26 + place % 26 * 26);
    }
}

// A catalogue refuses such a service; a version by itself may have it.
#[test]
fn ups_of_one_name_keep_their_order(rt: HostRuntime) {
    let alloc = rt.alloc();
    let members = [
        member(&rt, b"B", 1, true),
        member(&rt, b"A", 2, true),
        member(&rt, b"B", 3, true),
        member(&rt, b"A", 4, false),
        member(&rt, b"B", 5, true),
    ];
    let addrs = addrs_of_ups(&rt, alloc, &members);
    assert_eq!(rt; addrs.as_slice(), [2, 1, 3, 5].as_slice());
}

#[test]
fn the_first_fault_counts(rt: HostRuntime) {
    let alloc = rt.alloc();
    let mut catalogue = Catalogue::new(alloc, size(&rt, 7));
    let one = [member(&rt, b"A", 1, true)];
    let twice = [member(&rt, b"A", 1, true), member(&rt, b"A", 2, false)];
    let mut eight = many(&rt, alloc, 8);
    assert_eq!(rt; catalogue.add(version(&rt, alloc, 1, &[80], &one)), Ok(()));
    assert_eq!(rt;
        catalogue.add(version(&rt, alloc, 0, &[80, 80], &twice)),
        Err(PoolFault::BadNumber)
    );
    assert_eq!(rt;
        catalogue.add(version(&rt, alloc, 1, &[80, 80], &twice)),
        Err(PoolFault::NumberTaken)
    );
    assert_eq!(rt;
        catalogue.add(version(&rt, alloc, 2, &[80, 81, 80], &twice)),
        Err(PoolFault::DoubleService)
    );
    assert_eq!(rt;
        catalogue.add(version(&rt, alloc, 2, &[80, 81], &twice)),
        Err(PoolFault::DoubleName)
    );
    assert_eq!(rt;
        catalogue.add(version(&rt, alloc, 2, &[80], eight.as_slice())),
        Err(PoolFault::TooMany)
    );
    eight.push(numbered(&rt, 3)).expect(&rt, "memory");
    assert_eq!(rt;
        catalogue.add(version(&rt, alloc, 2, &[80], eight.as_slice())),
        Err(PoolFault::DoubleName)
    );
    assert!(rt; catalogue.get(2).is_none());
    assert_eq!(rt;
        catalogue.add(version(&rt, alloc, 2, &[80], many(&rt, alloc, 7).as_slice())),
        Ok(())
    );
}

#[test]
fn counts_at_their_limits(rt: HostRuntime) {
    let alloc = rt.alloc();
    let mut catalogue = Catalogue::new(alloc, size(&rt, 65537));
    let most = many(&rt, alloc, 4096);
    let more = many(&rt, alloc, 4097);
    assert_eq!(rt;
        catalogue.add(version(&rt, alloc, 1, &[80], most.as_slice())),
        Ok(())
    );
    assert_eq!(rt;
        catalogue.add(version(&rt, alloc, 2, &[80], more.as_slice())),
        Err(PoolFault::TooMany)
    );
    let mut ports = Vec::new(alloc);
    for port in 0..257u16 {
        ports.push(port).expect(&rt, "memory");
    }
    assert_eq!(rt;
        catalogue.add(version(&rt, alloc, 2, ports.as_slice(), &[])),
        Err(PoolFault::TooMany)
    );
    let _ = ports.pop();
    assert_eq!(rt;
        catalogue.add(version(&rt, alloc, 2, ports.as_slice(), &[])),
        Ok(())
    );
    for number in 3..1025u32 {
        assert_eq!(rt;
            catalogue.add(version(&rt, alloc, number, &[], &[])),
            Ok(()),
            "at {number}"
        );
    }
    assert_eq!(rt;
        catalogue.add(version(&rt, alloc, 1025, &[], &[])),
        Err(PoolFault::TooMany)
    );
}

fn keep(rt: &impl Abort, versions: &mut Vec<Version>, version: Version) {
    versions.push(version).expect(rt, "memory");
}

// Versions that differ from the version 3 with the ports 80 and 443 in their number or their services.
fn of_other_services(rt: &impl Abort, alloc: Global, both: &[Member]) -> Vec<Version> {
    let mut others = Vec::new(alloc);
    keep(rt, &mut others, version(rt, alloc, 4, &[80, 443], both));
    keep(rt, &mut others, version(rt, alloc, 3, &[443, 80], both));
    keep(rt, &mut others, version(rt, alloc, 3, &[80, 444], both));
    keep(rt, &mut others, version(rt, alloc, 3, &[80], both));
    keep(
        rt,
        &mut others,
        version(rt, alloc, 3, &[80, 443, 444], both),
    );
    others
}

// A member's name, address, state and weight.
type MemberRow = (u8, u32, bool, u8);

// The version 3 with these ports and two members.
fn of_two(rt: &impl Abort, alloc: Global, first: MemberRow, second: MemberRow) -> Version {
    let mut members = Vec::new(alloc);
    members
        .push(weighed(rt, &[first.0], first.1, first.2, first.3))
        .expect(rt, "memory");
    members
        .push(weighed(rt, &[second.0], second.1, second.2, second.3))
        .expect(rt, "memory");
    version(rt, alloc, 3, &[80, 443], members.as_slice())
}

// Those that differ from it in one thing of a member, or have none.
fn of_other_members(rt: &impl Abort, alloc: Global) -> Vec<Version> {
    let mut others = Vec::new(alloc);
    for (first, second) in [
        ((b'B', 2, false, 1), (b'A', 1, true, 2)),
        ((b'Z', 1, true, 2), (b'B', 2, false, 1)),
        ((b'A', 9, true, 2), (b'B', 2, false, 1)),
        ((b'A', 1, false, 2), (b'B', 2, false, 1)),
        ((b'A', 1, true, 3), (b'B', 2, false, 1)),
        ((b'A', 1, true, 2), (b'B', 2, true, 1)),
    ] {
        keep(rt, &mut others, of_two(rt, alloc, first, second));
    }
    keep(rt, &mut others, version(rt, alloc, 3, &[80, 443], &[]));
    others
}

fn are_others(rt: &impl Abort, one: &Version, others: &[Version]) {
    for (at, other) in others.iter().enumerate() {
        assert!(rt; !one.same(other), "at {at}");
        assert!(rt; !other.same(one), "at {at}");
        assert!(rt; other.same(other), "at {at}");
    }
}

#[test]
fn versions_are_compared_part_by_part(rt: HostRuntime) {
    let alloc = rt.alloc();
    let both = [
        weighed(&rt, b"A", 1, true, 2),
        weighed(&rt, b"B", 2, false, 1),
    ];
    let one = version(&rt, alloc, 3, &[80, 443], &both);
    assert!(rt; one.same(&one));
    assert!(rt; one.same(&version(&rt, alloc, 3, &[80, 443], &both)));
    let others = of_other_services(&rt, alloc, &both);
    are_others(&rt, &one, others.as_slice());
    let others = of_other_members(&rt, alloc);
    are_others(&rt, &one, others.as_slice());
    let mut udp = version(&rt, alloc, 3, &[80, 443], &both);
    for service in &mut udp.services {
        service.proto = 17;
    }
    assert!(rt; !one.same(&udp));
    let mut elsewhere = version(&rt, alloc, 3, &[80, 443], &both);
    for service in &mut elsewhere.services {
        service.vip = VIP + 1;
    }
    assert!(rt; !one.same(&elsewhere));
}

#[test]
fn a_copy_has_every_part(rt: HostRuntime) {
    let alloc = rt.alloc();
    let both = [
        weighed(&rt, b"A", 1, true, 2),
        weighed(&rt, b"B", 2, false, 1),
    ];
    let one = version(&rt, alloc, 3, &[80, 443], &both);
    let copy = one.copy(alloc).expect(&rt, "memory");
    assert_eq!(rt; copy.number, 3);
    assert_eq!(rt; copy.services.len(), 2);
    for (service, port) in copy.services.iter().zip([80u16, 443].iter()) {
        assert!(rt; service.vip == VIP && service.proto == 6 && service.port == *port);
        assert!(rt; service.members.as_slice() == both.as_slice());
    }
    drop(one);
    let nothing = version(&rt, alloc, 1, &[], &both);
    let copy = nothing.copy(alloc).expect(&rt, "memory");
    assert!(rt; copy.number == 1 && copy.services.is_empty());
}
