//! Comparisons in functions of their own, so that each is proved once.
use std::process::Abort;

pub(crate) fn holds(rt: &impl Abort, fact: bool, what: &str) {
    assert!(rt; fact, "{what}");
}

pub(crate) fn same_count(rt: &impl Abort, found: usize, wanted: usize, what: &str) {
    assert_eq!(rt; found, wanted, "{what}");
}

/// A word and two numbers.
pub(crate) type OutcomeRow = (&'static str, u64, u32);

pub(crate) fn same_told(rt: &impl Abort, found: OutcomeRow, wanted: OutcomeRow, event: usize) {
    assert_eq!(rt; found, wanted, "event {event}");
}
