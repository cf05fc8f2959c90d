//! Versions of the pools as a scenario's document holds them: each written out, or by changes of one before. What the drafts
//! mean is another crate's.
#![tactic(auto)]

mod change;
mod changes;
mod draft;
mod place;
mod reading;
mod services;
mod words;

pub use change::Change;
pub use changes::CHANGE_KEYS;
pub use draft::{ServiceDraft, VersionDraft};
pub use place::{Flaw, Place};
pub use reading::drafts_in;
pub use words::{change_in, member_in, served_member};
