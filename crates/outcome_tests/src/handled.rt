//! A list of what was handled gives what was put there.
use crate::places::backend;
use cluster_node::Item;
use five_tuple::Flow;
use forwarder::Choice;
use handled_list::{Handled, HandledList};
use std::alloc::AllocError;
use std::process::Abort;
use std::test::Fail;

// Packets that were handled in all ways, in turn.
fn handled(rt: &impl Abort, number: u32) -> Handled {
    Handled {
        item: Item {
            packet: number,
            flow: Flow {
                src: 0xc000_0200 ^ number,
                dst: 0x0a0a_0a0a,
                sport: (number % 60_000) as u16,
                dport: 443,
                proto: 6,
            },
            floor: number / 3,
            at: u64::MAX - u64::from(number),
        },
        version: number / 2,
        choice: match number % 5 {
            3 => Choice::NoService,
            4 => Choice::NoBackend,
            _ => Choice::Forward {
                backend: backend(rt, number % 2 == 0, 0x0a00_0001 + number % 7 * 64),
                origin: number / 9,
            },
        },
        unstored: number % 3 == 0,
    }
}

// The list has the first of these and no other.
fn has_all(rt: &impl Abort, list: &HandledList, count: u32) {
    assert_eq!(rt; list.len(), count as usize);
    assert_eq!(rt; list.is_empty(), count == 0);
    for number in 0..count {
        assert_eq!(rt; list.get(number as usize), Some(handled(rt, number)));
    }
    assert_eq!(rt; list.get(count as usize), None);
    assert_eq!(rt; list.get(usize::MAX), None);
}

// Puts one there. Where room is refused the list is as it was, and room is asked for once more.
fn put(rt: &impl Abort, list: &mut HandledList, number: u32) -> Result<(), AllocError> {
    if list.reserve().is_err() {
        has_all(rt, list, number);
        list.reserve()?;
    }
    list.push_reserved(handled(rt, number));
    Ok(())
}

// The list has all that was put there, also turned round. With one allocation refused, as by `rt try --test --fail-alloc 3`, a
// backend gets no place, and the list has all of it too. In the gate tests/refused_growths.py refuses those of a run.
#[test]
fn a_list_gives_what_was_handled(rt: HostRuntime) -> Result<(), Fail> {
    let mut list = HandledList::new(rt.alloc());
    has_all(&rt, &list, 0);
    for number in 0..100 {
        put(&rt, &mut list, number)?;
    }
    has_all(&rt, &list, 100);
    list.reverse();
    assert_eq!(rt; list.get(0), Some(handled(&rt, 99)));
    for number in 0..60 {
        assert_eq!(rt; list.pop(), Some(handled(&rt, number)));
        list.shrink();
    }
    list.reverse();
    assert_eq!(rt; list.len(), 40);
    for number in 60..100 {
        assert_eq!(rt; list.get(number - 60), Some(handled(&rt, number as u32)));
    }
    Ok(())
}
