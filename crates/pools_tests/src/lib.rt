//! Tests of versions by difference and of servers.
#![tactic(auto)]

#[cfg(test)]
mod differences;
