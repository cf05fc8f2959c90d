//! A list of what a worker handled that takes little memory: 48 bytes for each packet.
//!
//! A packet that was handled takes 96 bytes, because a choice holds its backend. Here a choice names the backend's place. What
//! is put where there is room is never refused: a backend that gets no place stands in a list of its own. Contracts see the
//! list that is meant.
#![tactic(auto)]

mod handled;
mod kept;
mod list;

pub use handled::Handled;
pub use list::HandledList;
