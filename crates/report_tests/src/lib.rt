//! Tests of the texts that people write and read, of the texts of a run, and of the splits of short histories.
#![tactic(auto)]

#[cfg(test)]
mod checks;
#[cfg(test)]
mod listings;
#[cfg(test)]
mod splits;
#[cfg(test)]
mod texts;
