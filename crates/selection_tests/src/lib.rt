//! Tests of the schemes of selection and of prepared versions, of the three connection tables, of a forwarder, of
//! steerers and of spreaders.
#![tactic(auto)]

#[cfg(test)]
mod checks;
#[cfg(test)]
mod forwarders;
#[cfg(test)]
mod schemes;
#[cfg(test)]
mod spreaders;
#[cfg(test)]
mod steerers;
#[cfg(test)]
mod tables;
