//! Lists that never move their items as they grow.
//!
//! A vector that grows copies all its items, and the one that waits for it pays for that. [`Blocks`] keeps its items in
//! blocks of memory of one size, and takes one more where they are full.
#![tactic(auto)]

mod blocks;
mod growth;

pub use blocks::Blocks;
