//! Plays a scenario over a capture, and answers what is asked of the run: its report, or why two packets went where they
//! went.
#![tactic(auto)]

mod answering;
mod asking;
mod ended;
mod notes;
mod paging;
mod playing;
mod summing;
mod turned;

pub use answering::is_cut;
pub use asking::{Answer, Query, TwoEvents, Wanted};
pub use paging::Listing;
pub use playing::{ListingGivenUp, play_listed, play_part, play_scenario, play_turned};
pub use turned::TurnedListing;
