//! The command `scenario`: a scenario to start from, sketched from a capture, over any reader and writer.
//!
//! A destination is an IPv4 address, a protocol and a port. Each destination of more than a handful of packets is a service of
//! the sketch, the most frequent first, but for those that are the other direction of another one. Its members are left to fill in.
#![tactic(auto)]

mod counted;
mod hop;
mod laws;
mod listing;
mod origins;
mod ranking;
mod reading;
mod sketch_command;
mod sketch_text;
mod tally;

pub use laws::ranked_are_fair;
pub use sketch_command::sketch;
