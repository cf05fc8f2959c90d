//! Entries that no packet touched for too long, on all three tables.
ghost use Rattle.std.specs.Prelude.{◌≡◌, ℕ, Some, slice_get};
ghost use Rattle.cluster_node.specs.declared.packets.Packet.{Packet};
ghost use Rattle.cluster_node.specs.Records.{WasRead};

use super::schemes::{explained_of, same_explained};
use super::{Act, EventRow, acts_of, catalogue_of, limited, packet_at, shows_of};
use cluster_core::{Packet, Setup};
use connection_table::{ConnTable, LruTable, PlaceTable, PlainTable};
use hash_laws::SumHash;
use pool_versions::Catalogue;
use selection::Maglev;
use std::alloc::Global;
use std::process::Abort;

type Sums = Maglev<SumHash>;

const FIVE_SECONDS: Option<u64> = Some(5_000_000);

// The versions 1 all up; 2 without B; 3 nobody; 4 without B.
static VERSIONS: [(u32, u8, [bool; 3]); 4] = [
    (1, 1, [true, true, true]),
    (2, 1, [true, false, true]),
    (3, 1, [false, false, false]),
    (4, 1, [true, false, true]),
];

fn catalogue(rt: &impl Abort, alloc: Global) -> Catalogue
    ensures { result.size ≡ 7 }
{
    catalogue_of(rt, alloc, &VERSIONS)
}

fn setup(rt: &impl Abort, alloc: Global, idle: Option<u64>) -> Setup<Sums, SumHash>
    ensures { result.size ≡ 7 }
{
    limited(rt, alloc, Maglev { hash: SumHash }, 1, idle)
}

// Five packets, each of a source port and a second.
type Packets = [(u16, u32); 5];

fn packets_of(of: &Packets) -> [Packet; 5]
    ensures { (k : ℕ) (p : Packet) → slice_get result k ≡ Some p → WasRead (Some p) }
{
    [
        packet_at(of[0].0, of[0].1),
        packet_at(of[1].0, of[1].1),
        packet_at(of[2].0, of[2].1),
        packet_at(of[3].0, of[3].1),
        packet_at(of[4].0, of[4].1),
    ]
}

// Five seconds are within the limit, six aren't, and a clock that steps back is no time.
const PAST: Packets = [(1006, 10), (1006, 15), (1006, 21), (1006, 3), (1006, 3)];

const PAST_STEPS: [EventRow; 10] = [
    (Act::Install(0, 1), ("installed", 0, 0)),
    (Act::Arrive(0, 0), ("placed", 0, 1)),
    (Act::Serve(0, 1), ("forward", 1, 1)),
    (Act::Install(0, 2), ("installed", 0, 0)),
    (Act::Arrive(0, 1), ("placed", 0, 2)),
    (Act::Serve(0, 2), ("forward", 1, 1)),
    (Act::Arrive(0, 2), ("placed", 0, 2)),
    (Act::Serve(0, 2), ("forward", 3, 2)),
    (Act::Arrive(0, 3), ("placed", 0, 2)),
    (Act::Serve(0, 2), ("forward", 3, 2)),
];

// The clock is the worker's, which another flow moves.
const MOVED: Packets = [(1006, 10), (1000, 30), (1006, 12), (1006, 12), (1006, 12)];

const MOVED_STEPS: [EventRow; 8] = [
    (Act::Install(0, 1), ("installed", 0, 0)),
    (Act::Arrive(0, 0), ("placed", 0, 1)),
    (Act::Serve(0, 1), ("forward", 1, 1)),
    (Act::Install(0, 2), ("installed", 0, 0)),
    (Act::Arrive(0, 1), ("placed", 0, 2)),
    (Act::Serve(0, 2), ("forward", 1, 2)),
    (Act::Arrive(0, 2), ("placed", 0, 2)),
    (Act::Serve(0, 2), ("forward", 3, 2)),
];

// Under version 3 the first flow's packet touches its entry where that still stands, so that the third flow pushes out the
// second; past the limit it doesn't, and the third flow pushes out the first.
const PLACES: Packets = [(1006, 0), (1000, 5), (1006, 6), (1001, 6), (1000, 6)];

const PLACES_STEPS: [EventRow; 12] = [
    (Act::Install(0, 1), ("installed", 0, 0)),
    (Act::Arrive(0, 0), ("placed", 0, 1)),
    (Act::Serve(0, 1), ("forward", 1, 1)),
    (Act::Arrive(0, 1), ("placed", 0, 1)),
    (Act::Serve(0, 1), ("forward", 1, 1)),
    (Act::Install(0, 3), ("installed", 0, 0)),
    (Act::Arrive(0, 2), ("placed", 0, 3)),
    (Act::Serve(0, 3), ("no backend", 2, 0)),
    (Act::Install(0, 4), ("installed", 0, 0)),
    (Act::Arrive(0, 3), ("placed", 0, 4)),
    (Act::Serve(0, 4), ("forward", 1, 4)),
    (Act::Arrive(0, 4), ("placed", 0, 4)),
];

// The limit, the packets, the steps, and the last step: the origin of the last packet tells which was pushed out.
type Example = (Option<u64>, Packets, &'static [EventRow], EventRow);

static EXAMPLES: [Example; 4] = [
    (
        FIVE_SECONDS,
        PAST,
        &PAST_STEPS,
        (Act::Serve(0, 2), ("idle", 0, 0)),
    ),
    (
        FIVE_SECONDS,
        MOVED,
        &MOVED_STEPS,
        (Act::Serve(0, 2), ("idle", 0, 0)),
    ),
    (
        FIVE_SECONDS,
        PLACES,
        &PLACES_STEPS,
        (Act::Serve(0, 4), ("forward", 1, 1)),
    ),
    (
        None,
        PLACES,
        &PLACES_STEPS,
        (Act::Serve(0, 4), ("forward", 1, 4)),
    ),
];

fn all_steps(rt: &impl Abort, alloc: Global, steps: &[EventRow], last: EventRow) -> Vec<EventRow> {
    let mut all = Vec::new(alloc);
    all.extend_from_slice(steps).expect(rt, "memory");
    all.push(last).expect(rt, "memory");
    all
}

fn ages<T: ConnTable>(rt: &impl Abort, alloc: Global) {
    let catalogue = catalogue(rt, alloc);
    for (idle, packets, steps, last) in EXAMPLES.iter() {
        let setup = setup(rt, alloc, *idle);
        let steps = all_steps(rt, alloc, steps, *last);
        shows_of::<Sums, T>(
            rt,
            alloc,
            &setup,
            &catalogue,
            &packets_of(packets),
            steps.as_slice(),
        );
    }
}

// The flow whose entry was too old is split.
fn splits<T: ConnTable>(rt: &impl Abort, alloc: Global) {
    let setup = setup(rt, alloc, FIVE_SECONDS);
    let catalogue = catalogue(rt, alloc);
    let acts = acts_of(rt, alloc, &PAST_STEPS);
    let packets = packets_of(&PAST);
    let acts = acts.as_slice();
    let found = explained_of::<Sums, T>(rt, alloc, &setup, &catalogue, &packets, acts, (5, 7));
    same_explained(rt, found, ("split", [5, 1, 2, 1, 3]));
}

#[test]
fn entries_age_in_a_plain_table(rt: HostRuntime) {
    ages::<PlainTable>(&rt, rt.alloc());
    splits::<PlainTable>(&rt, rt.alloc());
}

#[test]
fn entries_age_in_a_table_over_links(rt: HostRuntime) {
    ages::<LruTable>(&rt, rt.alloc());
    splits::<LruTable>(&rt, rt.alloc());
}

#[test]
fn entries_age_in_a_table_over_places(rt: HostRuntime) {
    ages::<PlaceTable>(&rt, rt.alloc());
    splits::<PlaceTable>(&rt, rt.alloc());
}
