//! A list of outcomes gives back what was pushed, in order.
use crate::places::backend;
use cluster_node::{Cause, Outcome, Reason};
use five_tuple::Flow;
use outcome_list::OutcomeList;
use std::process::Abort;
use std::test::Fail;

// A packet that was sent.
fn sent(rt: &impl Abort, number: u32) -> Outcome {
    Outcome::Forward {
        node: (number % 5) as u16,
        worker: (number % 3) as u16,
        packet: number,
        flow: Flow {
            src: 0xc000_0200 ^ number,
            dst: 0x0a0a_0a0a,
            sport: (number % 60_000) as u16,
            dport: 443,
            proto: 6,
        },
        backend: backend(rt, number % 2 == 0, 0x0a00_0001 + number % 7 * 64),
        origin: number / 9,
    }
}

// Outcomes of all kinds, in turn.
fn outcome(rt: &impl Abort, number: u32) -> Outcome {
    match number % 8 {
        0 => Outcome::Installed,
        1 => Outcome::Placed {
            worker: 15,
            floor: u32::MAX - number,
        },
        2 | 3 => sent(rt, number),
        4 => Outcome::Dropped {
            packet: number,
            cause: Cause::LostAtRestart,
        },
        5 => Outcome::Restarted {
            lost: u64::MAX - u64::from(number),
        },
        6 => Outcome::Refused(Reason::VersionRange),
        _ => Outcome::Dropped {
            packet: u32::MAX,
            cause: Cause::NotIpv4,
        },
    }
}

// The list has the first of these outcomes and no other.
fn has_all(rt: &impl Abort, list: &OutcomeList, count: u32) {
    assert_eq!(rt; list.len(), count as usize);
    for number in 0..count {
        assert_eq!(rt; list.get(number as usize), Some(outcome(rt, number)));
    }
    assert_eq!(rt; list.get(count as usize), None);
    assert_eq!(rt; list.get(usize::MAX), None);
}

#[test]
fn a_list_gives_what_was_pushed(rt: HostRuntime) -> Result<(), Fail> {
    let mut list = OutcomeList::new(rt.alloc());
    has_all(&rt, &list, 0);
    for number in 0..300 {
        list.push(&outcome(&rt, number))?;
        if matches!(number, 0 | 7 | 8 | 100) {
            has_all(&rt, &list, number + 1);
        }
    }
    has_all(&rt, &list, 300);
    let open = list.open(rt.alloc())?;
    assert_eq!(rt; open.len(), 300);
    for number in 0..300u32 {
        assert_eq!(rt; open[number as usize], outcome(&rt, number));
    }
    Ok(())
}
