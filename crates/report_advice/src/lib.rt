//! What may be amiss in a run, by the report that was printed of it: records that no step reads, events that were refused, rings
//! that were full, packets that were nearly all dropped. Why frames aren't read is told by the first one.
//!
//! The words are for people, and no contract fixes them: these functions are proved safe, and tests of the program compare what
//! they say.
#![tactic(auto)]

mod counts;
mod ends;
mod first_frame;
mod words;

pub use ends::up_to_report;
pub use words::{Asked, advice_of};
