//! What is said of a scenario. Of one that isn't as it should be: the place at which reading it refuses, what was found there and
//! what was expected. Of one that is: what may not be as it was meant.
//!
//! The place is the one that reading told, and no scenario is read here again. The words of [`words_of`] are for people, and no
//! contract fixes them: these functions are proved safe, and tests of the program compare what they say. Warnings are fixed, and
//! their words.
#![tactic(auto)]

mod spots;
mod step_facts;
mod steps;
mod warned;
mod warning_words;
mod words;

pub use scenario::{Flaw, Place};
pub use scenario_keys::Key;
pub use warned::{Warning, warnings};
pub use warning_words::warning_text;
pub use words::words_of;
