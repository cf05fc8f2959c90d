//! Tests of connection tables: the key that is drawn for the hash of a table, a flow's entry that is renewed, and three tables
//! that do the same; and of a map of flows.
#![tactic(auto)]

#[cfg(test)]
mod agreeing;
#[cfg(test)]
mod keys;
#[cfg(test)]
mod mapping;
#[cfg(test)]
mod renewing;
