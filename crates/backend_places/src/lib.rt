//! Backends, each at a place: what is kept for every packet names its backend by a word of 32 bits.
//!
//! A list of backends only grows, and a backend stays at its place. What asks for the place of a packet's backend mostly asks
//! for one that it asked for shortly before, so a hint answers first.
#![tactic(auto)]

mod places;

pub use places::Backends;
