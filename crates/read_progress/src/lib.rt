//! How far a long reading of a capture is, shown on standard error while it goes on: packets, the share of the file, the rate
//! and the time that is left. Of a long writing it is the packets and the rate. At the end nothing is left on a terminal. The words for
//! how far a playing is stand here too.
//!
//! The words are for people, and no contract fixes them: these functions are proved safe, and tests compare what they show.
#![tactic(auto)]

mod counting;
mod showing;
mod status;
mod watched;

pub use counting::RecordCount;
pub use showing::{AtEnd, Place, ReadMark, Showing};
pub use status::{Reading, played_text, status_text};
pub use watched::{Watched, WatchedWriter};
