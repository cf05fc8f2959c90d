//! The versions of the pools that a scenario's drafts mean: written out, or by difference from one before.
#![tactic(auto)]

mod bad_words;
mod basing;
mod brought;
mod changing;
mod fault;
mod laws;
mod writing;

pub use bad_words::{BadWord, bad_words_are_bad_members};
pub use brought::word_of_member;
pub use fault::{PoolsFault, Unwritten};
pub use laws::{differences_are_written_out, older_formats_state_versions};
pub use writing::{MOST_PLACES, versions_of};
