//! A member that drains, on two nodes and all three tables.
ghost use Rattle.std.specs.Prelude.{◌≡◌};

use super::{Act, EventRow, packet, setup, seven, shows_of, version};
use connection_table::{ConnTable, LruTable, PlaceTable, PlainTable};
use hash_laws::SumHash;
use pool_versions::{Catalogue, Version};
use selection::Maglev;
use std::alloc::Global;
use std::process::Abort;

// A version without B, which drains there.
fn draining(rt: &impl Abort, alloc: Global, number: u32) -> Version {
    let mut version = version(rt, alloc, number, 1, [true, false, true]);
    for service in version.services.iter_mut() {
        for member in service.members.iter_mut() {
            member.draining = true;
        }
    }
    version
}

// The versions 1 all up; 2 where B drains; 3 where B is down.
fn catalogue(rt: &impl Abort, alloc: Global) -> Catalogue
    ensures { result.size ≡ 7 }
{
    let mut all = Catalogue::new(alloc, seven(rt));
    all.add(version(rt, alloc, 1, 1, [true, true, true]))
        .expect(rt, "a version");
    all.add(draining(rt, alloc, 2)).expect(rt, "a version");
    all.add(version(rt, alloc, 3, 1, [true, false, true]))
        .expect(rt, "a version");
    assert!(rt; all.size().slots() == 7);
    all
}

// Two flows of one slot, which is B's under version 1 and A's where B takes no turns. On both nodes the first flow keeps B
// while it drains, and the second, which comes only then, goes to A. Once B is down the first goes to A too.
static STEPS: [EventRow; 18] = [
    (Act::Install(0, 1), ("installed", 0, 0)),
    (Act::Install(1, 1), ("installed", 0, 0)),
    (Act::Arrive(0, 0), ("placed", 0, 1)),
    (Act::Serve(0, 1), ("forward", 2, 1)),
    (Act::Arrive(1, 0), ("placed", 0, 1)),
    (Act::Serve(1, 1), ("forward", 2, 1)),
    (Act::Install(0, 2), ("installed", 0, 0)),
    (Act::Install(1, 2), ("installed", 0, 0)),
    (Act::Arrive(0, 0), ("placed", 0, 2)),
    (Act::Serve(0, 2), ("forward", 2, 1)),
    (Act::Arrive(1, 0), ("placed", 0, 2)),
    (Act::Serve(1, 2), ("forward", 2, 1)),
    (Act::Arrive(1, 1), ("placed", 0, 2)),
    (Act::Serve(1, 2), ("forward", 1, 2)),
    (Act::Install(0, 3), ("installed", 0, 0)),
    (Act::Arrive(0, 0), ("placed", 0, 3)),
    (Act::Serve(0, 3), ("forward", 1, 3)),
    (Act::Serve(0, 3), ("idle", 0, 0)),
];

fn drains<T: ConnTable>(rt: &impl Abort, alloc: Global) {
    let setup = setup(rt, alloc, Maglev { hash: SumHash }, 1);
    let packets = [packet(1001), packet(1008)];
    shows_of::<Maglev<SumHash>, T>(rt, alloc, &setup, &catalogue(rt, alloc), &packets, &STEPS);
}

#[test]
fn a_member_drains_in_a_plain_table(rt: HostRuntime) {
    drains::<PlainTable>(&rt, rt.alloc());
}

#[test]
fn a_member_drains_in_a_table_over_links(rt: HostRuntime) {
    drains::<LruTable>(&rt, rt.alloc());
}

#[test]
fn a_member_drains_in_a_table_over_places(rt: HostRuntime) {
    drains::<PlaceTable>(&rt, rt.alloc());
}
