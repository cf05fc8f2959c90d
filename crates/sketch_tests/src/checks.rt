// Comparisons in functions of their own, so that each is proved once. Each has a number: that of a row, or of a device's call.
use command_faults::CliFault;
use std::process::Abort;

pub(crate) fn holds(rt: &impl Abort, fact: bool, what: &str, at: usize) {
    assert!(rt; fact, "{what} {at}");
}

pub(crate) fn same_bytes(rt: &impl Abort, found: &[u8], wanted: &[u8], at: usize) {
    assert_eq!(rt; found, wanted, "at {at}");
}

pub(crate) fn same_number(rt: &impl Abort, found: u64, wanted: u64, what: &str, at: usize) {
    assert_eq!(rt; found, wanted, "{what} {at}");
}

pub(crate) fn same_outcome(
    rt: &impl Abort,
    found: Result<(), CliFault>,
    wanted: Result<(), CliFault>,
    at: usize,
) {
    assert_eq!(rt; found, wanted, "at {at}");
}
