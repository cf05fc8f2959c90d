//! What a log shows: names as text, faults as sentences, counts by their names, and never a key.
use backend_names::Name;
use cluster_core::SetupFault;
use cluster_node::Cause;
use connection_table::{Entry, TableKey};
use pool_versions::{Backend, PoolFault};
use selection::PrepareFault;
use stats_book::Stats;
use std::alloc::Global;
use std::process::Abort;

fn is(rt: &impl Abort, shown: &str, wanted: &str) {
    assert_eq!(rt; shown, wanted);
}

fn entry(rt: &impl Abort) -> Entry {
    let backend = Backend {
        name: Name::new(b"b-1.x").expect(rt, "a name"),
        addr: 167772161,
    };
    Entry {
        backend,
        version: 3,
        last: 40,
    }
}

fn shows_an_entry(rt: &impl Abort, alloc: Global) {
    let held = entry(rt);
    let shown = format!(in alloc; "{held:?}").expect(rt, "memory");
    is(
        rt,
        shown.as_str(),
        "Entry { backend: Backend { name: \"b-1.x\", addr: 167772161 }, version: 3, last: 40 }",
    );
}

fn hides_a_key(rt: &impl Abort, alloc: Global) {
    let key = TableKey::fixed();
    let shown = format!(in alloc; "{key:?}").expect(rt, "memory");
    is(rt, shown.as_str(), "TableKey(..)");
}

fn tells_faults(rt: &impl Abort, alloc: Global) {
    let pool = PoolFault::DoubleName;
    let setup = SetupFault::BadWorkers;
    let prepare = PrepareFault::TooMany;
    let shown = format!(in alloc; "{pool}; {setup}; {prepare}").expect(rt, "memory");
    is(
        rt,
        shown.as_str(),
        "two members of a service have one name; a node has 1 to 16 workers; more backends than the table has slots",
    );
}

// Seven packets came. Four were sent, one was dropped, and two wait.
fn seven() -> Stats {
    let mut stats = Stats::new();
    for nth in 0..7 {
        let _ = stats.receive();
        if nth < 4 {
            let _ = stats.forwarded_one();
        }
    }
    let _ = stats.dropped_one(Cause::NoService);
    stats
}

fn shows_counts(rt: &impl Abort, alloc: Global) {
    let shown = format!(in alloc; "{:?}", seven()).expect(rt, "memory");
    is(
        rt,
        shown.as_str(),
        "Stats { received: 7, forwarded: 4, dropped: [0, 0, 0, 0, 0, 0, 0, 0, 1, 0, 0, 0, 0], waiting: 2 }",
    );
}

#[test]
fn a_log_shows_names_and_faults_but_no_key(rt: HostRuntime) {
    shows_an_entry(&rt, rt.alloc());
    hides_a_key(&rt, rt.alloc());
    tells_faults(&rt, rt.alloc());
    shows_counts(&rt, rt.alloc());
}
