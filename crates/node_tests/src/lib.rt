//! Tests of a node on threads: known schedules, lives, full rings, two workers at once, an entry that is refused, and threads that
//! can't be had.
#![tactic(auto)]

#[cfg(test)]
mod tests;
