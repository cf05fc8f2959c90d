//! Tests of hashes, names, sizes, permutations and population, and of what is printed of a table as JSON Lines.
#![tactic(auto)]

#[cfg(test)]
mod hashes;
#[cfg(test)]
mod objects;
#[cfg(test)]
mod tests;
