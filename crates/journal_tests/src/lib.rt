//! Tests of what a node's driver and workers record: runs on one thread beside their replays, records step by step, and
//! records that don't fit.
#![tactic(auto)]

#[cfg(test)]
mod tests;
