//! Tests of the commands over devices in memory, also ones that fail, and of how a fault is told. What a command prints and
//! writes is mostly compared through the built program, by `tests/end_to_end.py`.
#![tactic(auto)]

#[cfg(test)]
mod checks;
#[cfg(test)]
mod devices;
#[cfg(test)]
mod failures;
#[cfg(test)]
mod refusals;
#[cfg(test)]
mod rows;
#[cfg(test)]
mod tests;
