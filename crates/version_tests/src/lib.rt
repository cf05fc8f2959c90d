//! Tests of the catalogue of versions.
#![tactic(auto)]

#[cfg(test)]
mod tests;
