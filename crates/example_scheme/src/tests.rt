use super::First;
use backend_names::{Name, TableSize, Weight};
use five_tuple::Flow;
use pool_versions::{Backend, Member, Service, Version};
use selection::{PreparedVersion, Scheme};
use std::alloc::Global;
use std::process::Abort;

fn member(rt: &impl Abort, name: &[u8], addr: u32, up: bool) -> Member {
    let name = Name::new(name).expect(rt, "a name");
    Member {
        backend: Backend { name, addr },
        up,
        draining: false,
        weight: Weight::one(),
    }
}

fn version(rt: &impl Abort, alloc: Global, members: &[Member]) -> Version {
    let members = Vec::from_slice(alloc, members).expect(rt, "memory");
    let mut services = Vec::new(alloc);
    services
        .push(Service {
            vip: 1,
            proto: 17,
            port: 53,
            members,
        })
        .expect(rt, "memory");
    Version {
        number: 1,
        services,
    }
}

fn chosen<S: Scheme>(
    rt: &impl Abort,
    alloc: Global,
    scheme: S,
    members: &[Member],
    turn: u64,
) -> Option<u32> {
    let size = TableSize::new(7).expect(rt, "a size");
    let version = version(rt, alloc, members);
    let prepared = PreparedVersion::make(alloc, &scheme, size, &version).expect(
        rt,
        "a prepared version",
    );
    let flow = Flow {
        src: 9,
        dst: 1,
        sport: 9,
        dport: 53,
        proto: 17,
    };
    let ready = prepared.ready(&flow).expect(rt, "a service");
    ready.choose(&flow, turn).map(|backend| backend.addr)
}

#[test]
fn the_first_by_name_is_chosen(rt: HostRuntime) {
    let alloc = rt.alloc();
    let members = [
        member(&rt, b"C", 3, true),
        member(&rt, b"A", 1, false),
        member(&rt, b"B", 2, true),
    ];
    let down = [member(&rt, b"A", 1, false)];
    assert_eq!(rt; chosen(&rt, alloc, First, &members, 0), Some(2));
    assert_eq!(rt; chosen(&rt, alloc, First, &members, 5), Some(2));
    assert_eq!(rt; chosen(&rt, alloc, First, &down, 5), None);
    assert!(rt; First::STEADY);
}
