//! Tests of the command `scenario` over captures in memory: fixed ones, random ones whose sketch is read back, and devices that
//! fail. The random ones are counted in the plainest way, beside the program's own count.
#![tactic(auto)]

#[cfg(test)]
mod captures;
#[cfg(test)]
mod checks;
#[cfg(test)]
mod devices;
#[cfg(test)]
mod failures;
#[cfg(test)]
mod random;
#[cfg(test)]
mod rows;
