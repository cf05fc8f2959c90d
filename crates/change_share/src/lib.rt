//! Which part of a cluster's connections changed their server, and whether that is more than a share.
#![tactic(auto)]

mod counts;
mod share;

pub use counts::ChangeCounts;
pub use share::Share;
