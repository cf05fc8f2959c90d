//! Comparisons in functions of their own, so that each is proved once.
use cluster_node::Outcome;
use std::process::Abort;

pub(crate) fn holds(rt: &impl Abort, fact: bool, what: &str) {
    assert!(rt; fact, "{what}");
}

pub(crate) fn same_outcomes(rt: &impl Abort, found: &[Outcome], wanted: &[Outcome]) {
    assert!(rt; found == wanted);
}
