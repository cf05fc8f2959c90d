//! Tests of reading scenarios, and of the places of their faults.
#![tactic(auto)]

#[cfg(test)]
mod places;
#[cfg(test)]
mod scenarios;
