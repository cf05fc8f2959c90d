//! Tables of a scenario's services: what `table`, `pick` and `compare` print of a size, a hash and names, of those that a
//! scenario has.
//!
//! A table is that of the scenario's scheme. A scheme without tables stands for its picks, as in a plan: slot I names whom it
//! picks for the hash, or the turn, I. So [`pick_in`] wants the scheme `maglev`.
#![tactic(auto)]

mod asking;
mod comparing;
mod listing;
mod picking;

pub use comparing::{Change, compare_in};
pub use listing::table_in;
pub use picking::{PickOptions, pick_in};
