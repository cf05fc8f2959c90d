//! What is told of connections.
use crate::causes::Change;
use run_report::Split;

/// How many connections there were, and how many of them changed their server. The splits and the changes are in the order of
/// their later sends.
#[derive(Clone, Copy, Debug)]
pub struct Account<'a> {
    pub connections: usize,
    pub changed: usize,
    pub splits: &'a [Split],
    pub changes: &'a [Change],
}
