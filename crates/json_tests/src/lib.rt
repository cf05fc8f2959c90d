//! Tests of the JSON Lines of a run, against texts that were written by hand.
#![tactic(auto)]

#[cfg(test)]
mod lines;
