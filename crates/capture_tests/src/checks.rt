//! Comparisons in functions of their own, so that each is proved once.
use std::process::Abort;

pub(crate) fn holds(rt: &impl Abort, fact: bool, what: &str, at: usize) {
    assert!(rt; fact, "{what} {at}");
}

pub(crate) fn same_number(rt: &impl Abort, found: u64, wanted: u64, what: &str, at: usize) {
    assert_eq!(rt; found, wanted, "{what} {at}");
}

pub(crate) fn same_bytes(rt: &impl Abort, found: &[u8], wanted: &[u8], what: &str) {
    assert_eq!(rt; found, wanted, "{what}");
}
