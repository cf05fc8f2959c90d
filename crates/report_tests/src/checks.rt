//! Comparisons in functions of their own, so that each is proved once.
use std::alloc::AllocError;
use std::process::Abort;

pub(crate) fn holds(rt: &impl Abort, fact: bool, what: &str) {
    assert!(rt; fact, "{what}");
}

pub(crate) fn same_text(rt: &impl Abort, found: &str, wanted: &str) {
    assert_eq!(rt; found, wanted);
}

pub(crate) fn shows(rt: &impl Abort, made: Result<String, AllocError>, text: &str) {
    let made = made.expect(rt, "memory");
    same_text(rt, made.as_str(), text);
}
