//! The version that is shown, and the number that a worker reads on the board.
use super::{Sums, holds, setup, version};
use hash_laws::SumHash;
use shared_versions::prepare_after;
use thread_roles::Current;

// Where version 2 is shown already, a worker that read 1 finds nothing to serve under, and neither does one that read 3.
#[test]
fn a_version_of_another_number_is_not_found(rt: HostRuntime) {
    let alloc = rt.alloc();
    let setup = setup(&rt, alloc, SumHash, 1);
    let second = version(&rt, alloc, &(2, 1, [true; 3], 1));
    let shown = prepare_after(alloc, &setup, &second, &None).expect(&rt, "memory");
    let current: Current<Sums> = Current {
        version: Some(shown),
    };
    holds(&rt, current.of_number(2).is_some(), "its own number");
    holds(&rt, current.of_number(1).is_none(), "the number before");
    holds(&rt, current.of_number(3).is_none(), "the number after");
}
