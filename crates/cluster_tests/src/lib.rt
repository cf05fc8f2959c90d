//! Tests of a cluster on threads: nodes and workers that serve at once, and a node that stops in full traffic; of audits of a
//! history whose outcomes are known; of a book in which two count; and of what the drivers of such a cluster are given.
#![tactic(auto)]

#[cfg(test)]
mod audits;
#[cfg(test)]
mod checks;
#[cfg(test)]
mod commands;
#[cfg(test)]
mod counts;
#[cfg(test)]
mod runs;
