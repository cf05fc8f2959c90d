//! Tests of the cluster's core: lists of events and what each comes to, with all three connection tables and every scheme, how a
//! frame is read, what a setup refuses, and scenarios that `event_trace` plays on its balancers.
#![tactic(auto)]

#[cfg(test)]
mod balancers;
#[cfg(test)]
mod checks;
#[cfg(test)]
mod shown;
#[cfg(test)]
mod tests;
