//! Maps of flows: a value for each, for as many flows as come.
//!
//! A map only grows, and a flow stays at its place. So a place that was found once is written to later without another search.
//! A search reads a group of the bucket and the pair at the place. A hash map of keys of any kind reads one address more.
#![tactic(auto)]

mod map;

pub use map::FlowMap;
