//! Places with hashes, found by their hash.
//!
//! A table that keeps its entries at numbered places has a [`Buckets`] beside them. It finds a place by its hash without a walk
//! over all of them. A place's hash can change.
#![tactic(auto)]

mod groups;
mod lanes;
mod places;

pub use places::Buckets;
