//! Where the versions of a scenario aren't as they should be, though all its keys are: the word or the table at which reading
//! refuses.
//!
//! [`catalogue_of`] makes the catalogue of versions, or tells what it refuses and where. [`word_place`] tells where in the
//! document a word stands for which drafts of versions are refused.
#![tactic(auto)]

mod building;
mod doubles;
mod member_words;
mod pools;

pub use building::{RefusedPools, catalogue_of};
pub use member_words::word_place;
pub use pools::one_place_or_a_catalogue;
